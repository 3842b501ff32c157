//! Why a call was not made.
ghost use Rattle.std.specs.Prelude.{◌≡◌};
ghost use Rattle.sd_device_c.specs.Faults.{code_of};

/// The answer of a call that was made.
pub(crate) const DONE: u32 = 0;

/// Why a call was not made: what it owes that does not hold.
#[derive(Clone, Copy, Debug, PartialEq, Eq)]
pub(crate) enum Fault {
    /// The struct holds no device: the byte of a role or of the mode is none, a number of its duties
    /// or rates is past its limit, or it has a mode without a duty.
    NoDevice,
    /// The duty has a byte that is no role, or a number past its limit.
    NoDuty,
    /// The rates are past their limits.
    RatesTooGreat,
    /// The counter lies below one that the device keeps.
    CounterFell,
    /// The clock or the uncertainty of a start, a join or a fix is 2^100 ps or more.
    ClockTooGreat,
    /// The device's own clock or uncertainty is 2^100 ps or more.
    EstimateTooGreat,
    /// The term that the device keeps is 2^31 or more, or its round 2^62 or more.
    StampTooGreat,
    /// The message's clock or uncertainty is 2^100 ps or more, its term 2^31 or more, or its round
    /// 2^62 or more.
    MessageTooGreat,
    /// No duty of a root was given to the device.
    NotRoot,
    /// What is kept of this many ports takes another number of bytes.
    WrongSize,
    /// The bytes are not what is kept of a device with this many ports.
    NotKept,
    /// More than a tick may have passed since the latest tick.
    TooLate,
}

impl Fault {
    /// The answer that names it.
    pub(crate) fn code(self) -> u32
        ensures { result ≡ code_of self }
    {
        match self {
            Fault::NoDevice => 1,
            Fault::NoDuty => 2,
            Fault::RatesTooGreat => 3,
            Fault::CounterFell => 4,
            Fault::ClockTooGreat => 6,
            Fault::EstimateTooGreat => 7,
            Fault::StampTooGreat => 8,
            Fault::MessageTooGreat => 9,
            Fault::NotRoot => 10,
            Fault::WrongSize => 11,
            Fault::NotKept => 12,
            Fault::TooLate => 13,
        }
    }
}

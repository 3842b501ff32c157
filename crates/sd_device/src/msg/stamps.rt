//! The order of stamps.
ghost use Rattle.std.specs.Prelude.{◌≡◌};
ghost use Rattle.sd_device.specs.msg.Stamps.{is_newer as is_newer_stamp};

use crate::msg::Stamp;

impl Stamp {
    /// Whether it is newer than the other: by term, then by round.
    pub fn is_newer(self, other: Stamp) -> bool
        ensures { result ≡ is_newer_stamp self other }
    {
        self.term > other.term || (self.term == other.term && self.round > other.round)
    }
}

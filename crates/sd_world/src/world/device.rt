//! What is kept of one device.
ghost use Rattle.std.specs.Prelude.{◌≡◌, true, false};

use sd_sched::Event;

/// What the events so far made of a device.
#[derive(Clone, Copy)]
pub struct DeviceState {
    /// Whether it was made, and has not failed since.
    pub up: bool,
    /// Whether it failed, and was not mended since.
    pub failed: bool,
    /// Whether it failed before, mended or not.
    pub ever_failed: bool,
    /// Whether it was started or joined before.
    pub made: bool,
    /// The counter that it read last, in ps, and 0 before it read one.
    pub reading: u64,
    /// The number of the window in which it joined last, and 0 before it joined in one.
    pub joined: u64,
}

impl DeviceState {
    ghost use Rattle.sd_world.specs.world.Registers.{untouched, device_after};

    /// A device of which nothing was seen.
    pub fn untouched() -> DeviceState
        ensures { result ≡ untouched }
    {
        DeviceState {
            up: false,
            failed: false,
            ever_failed: false,
            made: false,
            reading: 0,
            joined: 0,
        }
    }

    /// An event that names the device, while this many windows were opened.
    pub fn observe(&mut self, event: &Event, windows: u64)
        ensures { self.new ≡ device_after event.now windows self.old }
    {
        match *event {
            Event::Start { counter, .. } => self.make(counter),
            Event::Join { counter, .. } => {
                self.make(counter);
                self.joined = windows;
            }
            Event::Tick { counter, .. }
            | Event::Recv { counter, .. }
            | Event::Fix { counter, .. }
            | Event::Ask { counter, .. }
            | Event::Commit { counter, .. } => self.reading = counter,
            Event::FailDevice { .. } => self.fail(),
            Event::MendDevice { .. } => self.failed = false,
            _ => {}
        }
    }

    /// It starts or joins, at this counter.
    fn make(&mut self, counter: u64)
        ensures { self.new ≡ record self.old { up = true; made = true; reading = counter } }
    {
        self.up = true;
        self.made = true;
        self.reading = counter;
    }

    /// It fails.
    fn fail(&mut self)
        ensures { self.new ≡ record self.old { up = false; failed = true; ever_failed = true } }
    {
        self.up = false;
        self.failed = true;
        self.ever_failed = true;
    }
}

//! Events by hand, one after the other, with what the world answers after each.
ghost use Rattle.std.specs.Prelude.{◌≡◌, ◌<◌, length, IsTrue, IfSome};
ghost use Rattle.sd_sched.specs.Events as of_events;
ghost use Rattle.sd_sched.specs.Events.{device_of};

use sd_num::NoMemory;
use sd_plan::topo::Thing;
use sd_sched::Event;
use sd_world::world::{Window, World, link_of};
use std::alloc::Global;
use std::test::Fail;

/// A world of three devices and two links.
#[derive(Drop)]
struct Small {
    world: World,
    ghost devices: { length world.devices ≡ 3 },
    ghost links: { length world.failed_links ≡ 2 },
}

/// What it answers of one device.
#[derive(Clone, Copy, Debug, PartialEq, Eq)]
struct Answers {
    up: bool,
    failed: bool,
    ever_failed: bool,
    made: bool,
    reading: u64,
    joins: bool,
}

const NOTHING: Answers = Answers {
    up: false,
    failed: false,
    ever_failed: false,
    made: false,
    reading: 0,
    joins: false,
};

const FAILED: Answers = Answers {
    failed: true,
    ever_failed: true,
    ..NOTHING
};

/// Up, with this reading.
const fn up(reading: u64) -> Answers {
    Answers {
        up: true,
        made: true,
        reading,
        ..NOTHING
    }
}

fn start(device: u32, counter: u64) -> Event {
    Event::Start {
        reference: 100,
        device,
        counter,
        clock: 0,
        eps: 0,
    }
}

fn join(device: u32, counter: u64) -> Event {
    Event::Join {
        reference: 200,
        device,
        counter,
        clock: 0,
        eps: 0,
    }
}

fn tick(device: u32, counter: u64) -> Event {
    Event::Tick {
        reference: 300,
        device,
        counter,
    }
}

fn fail(device: u32) -> Event {
    Event::FailDevice {
        reference: 400,
        device,
    }
}

fn mend(device: u32) -> Event {
    Event::MendDevice {
        reference: 500,
        device,
    }
}

fn commit(device: u32, counter: u64) -> Event {
    Event::Commit {
        reference: 600,
        device,
        counter,
    }
}

const STAGE: Event = Event::Stage { reference: 700 };

/// Whether the event names no device and no link, or one that it has.
fn is_known(event: &Event) -> bool
    ensures { IsTrue result → IfSome (device_of event.now) (λ d. d < 3)
        × IfSome (of_events.link_of event.now) (λ l. l < 2) }
{
    event.device().unwrap_or(0) < 3 && link_of(event).unwrap_or(0) < 2
}

impl Small {
    fn new(alloc: Global) -> Result<Small, NoMemory> {
        match World::new(alloc, 3, 2) {
            Ok(world) => return Ok(Small { world }),
            Err(NoMemory) => return Err(NoMemory),
        }
    }

    /// What it answers of a device, and nothing beyond the last one.
    fn answers(&self, d: u32) -> Answers {
        let world = &self.world;
        if d >= 3 {
            return NOTHING;
        }
        Answers {
            up: world.is_up(d),
            failed: world.has_failed(Thing::Device(d)),
            ever_failed: world.has_ever_failed(d),
            made: world.was_made(d),
            reading: world.reading(d),
            joins: world.joined_in_window(d),
        }
    }
}

impl Small {
    /// The event, where it has its device and its link.
    fn observe(&mut self, event: &Event) {
        if is_known(event) && self.world.events() < 1000 {
            self.world.observe(event);
        }
    }

    /// The window closes.
    fn close(&mut self) {
        if self.world.epoch() < 1000 {
            self.world.close();
        }
    }
}

#[test]
fn each_event_changes_the_device_that_it_names(rt: HostRuntime) -> Result<(), Fail> {
    let mut small = Small::new(rt.alloc())?;
    for (event, device, wanted) in [
        (start(0, 7), 0, up(7)),
        (tick(0, 9), 0, up(9)),
        (tick(0, 8), 0, up(8)),
        (fail(1), 1, FAILED),
        (fail(1), 0, up(8)),
        (
            mend(1),
            1,
            Answers {
                failed: false,
                ..FAILED
            },
        ),
        (join(2, 50), 2, up(50)),
        (STAGE, 2, up(50)),
        (
            join(1, 60),
            1,
            Answers {
                ever_failed: true,
                joins: true,
                ..up(60)
            },
        ),
        (join(1, 61), 2, up(50)),
        (commit(0, 70), 0, up(70)),
        (
            fail(0),
            0,
            Answers {
                up: false,
                failed: true,
                ever_failed: true,
                ..up(70)
            },
        ),
        (
            STAGE,
            1,
            Answers {
                ever_failed: true,
                ..up(61)
            },
        ),
    ] {
        small.observe(&event);
        assert_eq!(rt; small.answers(device), wanted, "{event:?}");
        assert_eq!(rt; small.world.reference(), event.reference(), "{event:?}");
    }
    Ok(())
}

#[test]
fn a_window_opens_is_committed_and_closes(rt: HostRuntime) -> Result<(), Fail> {
    let mut small = Small::new(rt.alloc())?;
    assert_eq!(rt; small.world.window(), Window::Closed);
    small.observe(&commit(0, 5));
    assert_eq!(rt; small.world.window(), Window::Closed);
    small.observe(&STAGE);
    small.observe(&join(0, 6));
    assert_eq!(rt; small.world.window(), Window::Preparing);
    small.observe(&commit(0, 7));
    assert_eq!(rt; small.world.window(), Window::Committed);
    assert!(rt; small.answers(0).joins);
    assert_eq!(rt; small.world.epoch(), 1);
    small.close();
    assert_eq!(rt; small.world.window(), Window::Closed);
    assert_eq!(rt; small.world.epoch(), 2);
    assert!(rt; !small.answers(0).joins);
    small.observe(&STAGE);
    assert!(rt; small.world.window().is_open() && !small.answers(0).joins);
    assert!(rt; !small.world.has_ended());
    assert_eq!(rt; small.world.events(), 5);
    small.observe(&Event::End { reference: 800 });
    assert!(rt; small.world.has_ended());
    Ok(())
}

#[test]
fn a_link_fails_and_is_mended(rt: HostRuntime) -> Result<(), Fail> {
    let mut small = Small::new(rt.alloc())?;
    let reference = 1;
    for (event, failed) in [
        (Event::FailLink { reference, link: 1 }, true),
        (Event::MendLink { reference, link: 0 }, true),
        (Event::MendLink { reference, link: 1 }, false),
        (
            Event::FailDevice {
                reference,
                device: 1,
            },
            false,
        ),
    ] {
        small.observe(&event);
        assert_eq!(rt; small.world.has_failed(Thing::Link(1)), failed, "{event:?}");
    }
    Ok(())
}

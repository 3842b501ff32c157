//! The window between two plans, and how an event changes it.
ghost use Rattle.std.specs.Prelude.{◌≡◌};

use sd_sched::Event;

/// How far the change to the next plan has come.
#[derive(Clone, Copy, Debug, PartialEq, Eq)]
pub enum Window {
    /// No plan is staged.
    Closed,
    /// A plan is staged, and its root did not commit it.
    Preparing,
    /// A plan is staged and committed.
    Committed,
}

impl Window {
    ghost use Rattle.sd_world.specs.world.Registers.{is_open as is_open_window, is_committed as is_committed_window, window_after};

    /// Whether a plan is staged.
    pub fn is_open(self) -> bool
        ensures { result ≡ is_open_window self }
    {
        self != Window::Closed
    }

    /// Whether a plan is staged and committed.
    pub fn is_committed(self) -> bool
        ensures { result ≡ is_committed_window self }
    {
        self == Window::Committed
    }

    /// What it is after an event with which it does not close.
    pub(crate) fn after(self, event: &Event) -> Window
        ensures { result ≡ window_after event.now self }
    {
        match event {
            Event::Stage { .. } => Window::Preparing,
            Event::Commit { .. } if self.is_open() => Window::Committed,
            _ => self,
        }
    }
}

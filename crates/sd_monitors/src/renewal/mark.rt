//! Marks of what came about in the open window.
ghost use Rattle.std.specs.Prelude.{◌≡◌, ◌&&◌, Some, None};
ghost use Rattle.sd_num.specs.Lists.{same_number};

/// Whether something came about in the open window, by the number of the window in which it did
/// last. So nothing has to be written where a window closes or opens.
#[derive(Clone, Copy, Debug, PartialEq, Eq)]
pub struct Mark {
    window: Option<u64>,
}

impl Mark {
    ghost use Rattle.sd_monitors.specs.renewal.Marks.{no_mark, marked, is_marked};

    /// Nothing came about.
    pub fn none() -> Mark
        ensures { result ≡ no_mark }
    {
        Mark { window: None }
    }

    /// It came about in the window with this number.
    pub fn of_window(number: u64) -> Mark
        ensures { result ≡ marked number }
    {
        Mark {
            window: Some(number),
        }
    }

    /// Whether it came about in the open window, where one is open and this many were opened.
    pub fn holds(self, is_open: bool, windows: u64) -> bool
        ensures { result ≡ is_marked is_open windows self }
    {
        is_open && self.window == Some(windows)
    }
}

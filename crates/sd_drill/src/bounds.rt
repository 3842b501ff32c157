//! One bound a device.
ghost use Rattle.std.specs.Prelude.{◌≡◌};

use std::marker::Model;

/// One entry for each device of a topology: its bound in ps, if it has one.
#[derive(Drop)]
pub struct WorstList {
    bounds: Vec<Option<u128>>,
}

impl Model for WorstList {
    ghost use Rattle.std.specs.Prelude.{ℕ, List, Option};

    ghost Value = { List (Option ℕ) };

    ghost view = { λ l. l.bounds.items };
}

impl WorstList {
    /// The list of some bounds.
    pub(crate) fn from_vec(bounds: Vec<Option<u128>>) -> WorstList
        ensures { result ≡ bounds.items }
    {
        WorstList { bounds }
    }

    /// The bounds in the order of the devices.
    pub fn as_slice(&self) -> &[Option<u128>]
        ensures { result.now ≡ self.now }
    {
        self.bounds.as_slice()
    }
}

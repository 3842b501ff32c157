//! The one device that is asked at the end of every tenth round.
ghost use Rattle.std.specs.Prelude.{◌≡◌, ◌≤◌, ◌^◌, OnOk};
ghost use Rattle.sd_gen.specs.Drafts.{ask_of_word, with_ask};

use crate::ROUNDS;
use crate::driven::Driven;
use crate::driver::Driver;
use crate::turns::Turn;
use rand_core::utils::NextWord;
use sd_num::NoMemory;
use std::alloc::Global;

impl<D: Driven> Driver<D> {
    ghost use Rattle.sd_gen.specs.Standing.{Becomes};

    /// In every tenth round but the last a device is asked.
    pub fn ask(&mut self, alloc: Global, round: u64, reference: u64) -> Result<(), NoMemory>
        requires { reference ≤ 2 ^ 40 }
        ensures { OnOk result
            (Becomes D.Driven self.old self.new (λ setting. with_ask setting round reference)) }
    {
        if round % 10 == 0 && round < ROUNDS {
            return self.ask_one(alloc, reference);
        }
        Ok(())
    }

    /// Asks the device that a word names, if it is up.
    fn ask_one(&mut self, alloc: Global, reference: u64) -> Result<(), NoMemory>
        requires { reference ≤ 2 ^ 40 }
        ensures { OnOk result
            (Becomes D.Driven self.old self.new (λ setting. ask_of_word setting reference)) }
    {
        let word = self.random.next_word();
        match word.checked_rem(self.devices()) {
            Some(device) => self.try_if_up(alloc, Turn::Ask, reference, device),
            // every network has a device
            None => Ok(()),
        }
    }
}

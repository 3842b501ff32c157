//! Searches among numbers that ascend.
ghost use Rattle.std.specs.Prelude.{◌≡◌, IsTrue};
ghost use Rattle.sd_num.specs.Lists.{ascends, has};

/// Whether numbers, which ascend, have one among them. It is found by halving.
pub fn contains(numbers: &[u32], number: u32) -> bool
    requires { IsTrue (ascends numbers.now) }
    ensures { result ≡ has numbers.now number }
{
    numbers.binary_search(&number).is_ok()
}

//! What a shelf is: where texts come from.
ghost use Rattle.std.specs.Prelude.{◌≡◌, ℕ, List, Option, Bool, false, IsTrue, OnOk, OnErr};
ghost use Rattle.std.specs.Io.{ReadsAtMost};
ghost use Rattle.std.specs.Io.KnownBytes.{ReadConsumes, IsAtEnd};
ghost use Rattle.sd_io.specs.outside.Causes.{HasCause};
ghost use Rattle.sd_io.specs.outside.Rests.{RestIs};

/// The outside has failed. It says no more, since nothing depends on why.
#[derive(Clone, Copy, Debug, PartialEq, Eq)]
pub struct Failed;

/// Named texts, each read from its start in pieces.
///
/// A caller that is generic over the shelf knows neither which names are served
/// nor, where the texts are not told, what is read.
pub trait Shelf {
    /// Which names may be begun. It never changes.
    ghost serves: { Self → List ℕ → Bool };

    /// Whether a text is begun; false for a new shelf.
    ghost begun: { Self → Bool };

    /// The texts, where they are told. They never change.
    ghost held: { Self → Option (List ℕ → Option (List ℕ)) };

    /// What is left of the begun text, where it is told. A shelf that tells `held` tells it too.
    ghost rest: { Self → Option (List ℕ) };

    /// How often the outside has failed, counted up to the end of a `u64`.
    ghost faults: { Self → ℕ };

    /// Begins the text of a name, which is empty where the name is not held.
    fn begin(&mut self, name: &str) -> Result<(), Failed>
        requires { IsTrue (serves self.old name.now) }
        ensures text { OnOk result (RestIs (held self.old) name.now (rest self.new)) }
        ensures begun { OnOk result (IsTrue (begun self.new)) }
        ensures failed { OnErr result ((begun self.new ≡ false) × IsAtEnd (rest self.new)) }
        ensures cause { HasCause (faults self.old) (faults self.new) result }
        ensures same_held { held self.new ≡ held self.old }
        ensures same_names { serves self.new ≡ serves self.old };

    /// Reads on in the begun text, into the front of `buf`. No bytes at a `buf` that is not empty
    /// mean the end of the text.
    fn read(&mut self, buf: &mut [u8]) -> Result<usize, Failed>
        requires { IsTrue (begun self.old) }
        ensures bound { ReadsAtMost result buf.new }
        ensures bytes { ReadConsumes (rest self.old) (rest self.new) result buf.new }
        ensures begun { IsTrue (begun self.new) }
        ensures cause { HasCause (faults self.old) (faults self.new) result }
        ensures same_held { held self.new ≡ held self.old }
        ensures same_names { serves self.new ≡ serves self.old };
}

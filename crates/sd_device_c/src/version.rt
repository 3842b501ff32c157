//! Which header fits.
ghost use Rattle.std.specs.Prelude.{◌≡◌};

/// The version of the structs and calls. It is in the name too: a program that is compiled with the header of another
/// version does not link.
#[unsafe(no_mangle)]
pub extern "C" fn sundial_version_1() -> u32
    ensures { result ≡ 1 }
{
    1
}

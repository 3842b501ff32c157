//! The checksum of what is kept.
ghost use Rattle.std.specs.Prelude.{◌≡◌};
ghost use Rattle.sd_device_c.specs.Crc.{turned, fed, crc_of};

const DIVISOR: u32 = 0xEDB8_8320;

/// The CRC of 32 bits that zlib, gzip and Ethernet have.
#[tactic(auto, unfolding(crate::specs::Crc::crc_of))]
pub(crate) fn crc(bytes: &[u8]) -> u32
    ensures { result ≡ crc_of bytes.now }
{
    let mut register = u32::MAX;
    for byte in bytes {
        register = feed(register, *byte);
    }
    !register
}

/// The register after one more byte.
#[inline(always)]
#[tactic(auto, unfolding(crate::specs::Crc::fed))]
fn feed(register: u32, byte: u8) -> u32
    ensures { result ≡ fed register byte }
{
    let mut after = register ^ u32::from(byte);
    for _ in 0..8_u8 {
        after = turn(after);
    }
    after
}

/// The register, moved on by one bit.
#[inline(always)]
#[tactic(auto, unfolding(crate::specs::Crc::turned))]
fn turn(register: u32) -> u32
    ensures { result ≡ turned register }
{
    if register % 2 == 1 {
        register / 2 ^ DIVISOR
    } else {
        register / 2
    }
}

//! Parts of octets, and the numbers that they write (RFC 9113, 4.1). Definitions: `h2_spec/specs/Octets.antt`.

ghost use Rattle.std.specs.Prelude.{◌≡◌, ◌+◌, ◌≤◌, length, take, drop};
ghost use Rattle.h2_spec.specs.Octets.{two_octets, four_octets, low_31_bits};

/// The number that two octets from a place on write.
pub(crate) fn u16_at(octets: &[u8], place: usize) -> u16
    requires { place + 2 ≤ length octets.now }
    ensures { result ≡ two_octets octets.now place }
{
    u16::from(octets[place]) * 256 + u16::from(octets[place + 1])
}

/// The number that four octets from a place on write.
pub(crate) fn u32_at(octets: &[u8], place: usize) -> u32
    requires { place + 4 ≤ length octets.now }
    ensures { result ≡ four_octets octets.now place }
{
    u32::from(octets[place]) * 16_777_216
        + u32::from(octets[place + 1]) * 65536
        + u32::from(octets[place + 2]) * 256
        + u32::from(octets[place + 3])
}

/// The low 31 bits of the number that four octets from a place on write.
pub(crate) fn u31_at(octets: &[u8], place: usize) -> u32
    requires { place + 4 ≤ length octets.now }
    ensures { result ≡ low_31_bits octets.now place }
{
    u32::from(octets[place] % 128) * 16_777_216
        + u32::from(octets[place + 1]) * 65536
        + u32::from(octets[place + 2]) * 256
        + u32::from(octets[place + 3])
}

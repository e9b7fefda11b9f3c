//! Octets that are given a part at a time.

ghost use Rattle.std.specs.Prelude.{◌≤◌, length};

/// Copies the octets from this place on into a buffer, as many as it has space for, and says how many.
pub(crate) fn copy_from(octets: &[u8], place: usize, buffer: &mut [u8]) -> usize
    ensures { result ≤ length buffer.new }
{
    if octets.len() <= place {
        return 0;
    }
    let rest = &octets[place..];
    let count = rest.len().min(buffer.len());
    buffer[..count].copy_from_slice(&rest[..count]);
    count
}

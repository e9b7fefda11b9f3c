//! Frames (RFC 9113, 4.1 and 6.7).

ghost use Rattle.std.specs.Prelude.{◌≡◌, false};

use crate::same::same;
use h2_frame::{Head, read_head, write_frame};

const PING: &[u8] = b"\x00\x00\x08\x06\x00\x00\x00\x00\x00\x01\x02\x03\x04\x05\x06\x07\x08";

/// The head of a PING.
fn head() -> Head
    ensures { result ≡ record { length = 8; kind = 6; flags = 0; reserved = false; stream = 0 } }
{
    Head {
        length: 8,
        kind: 6,
        flags: 0,
        reserved: false,
        stream: 0,
    }
}

/// The head at the front of octets: its length, type, flags, reserved bit and stream.
fn head_at(octets: &[u8]) -> Option<(u32, u8, u8, bool, u32)> {
    let head = read_head(octets)?;
    Some((
        head.length,
        head.kind,
        head.flags,
        head.reserved,
        head.stream,
    ))
}

#[test]
fn a_frame_is_written_and_its_head_is_read(rt: HostRuntime) {
    let mut out = Vec::new(rt.alloc());
    let written = write_frame(&head(), b"\x01\x02\x03\x04\x05\x06\x07\x08", &mut out);
    same(&rt, &(written, out.as_slice()), &(Ok(()), PING), &"written");
    let read = head_at(out.as_slice());
    same(&rt, &read, &Some((8, 6, 0, false, 0)), &"read");
}

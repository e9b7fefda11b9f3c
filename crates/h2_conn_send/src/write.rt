//! The frames that are sent, as octets after `out` (RFC 9113, 4.1 and 6). Definitions: h2_spec's `specs/Change.antt`
//! for what is sent, `specs/Frames/Frame.antt` for its octets.

ghost use Rattle.std.specs.Prelude.{◌≡◌, ◌≤◌, ◌++◌, ◌∷◌, [], length, take};
ghost use Rattle.h2_spec.specs.Change as changes;
ghost use Rattle.h2_spec.specs.Frames.Frame.{frame, frame_octets, frames_octets};
ghost use Rattle.h2_spec.specs.Octets.{big_endian};
ghost use Rattle.h2_spec.specs.Short.{AreShort};
ghost use Rattle.h2_conn_send.specs.Prepared.{on_stream};
ghost use Rattle.h2_conn_send.specs.Writes.{Writes};

use h2_frame::{Outgoing, append_frame};
use h2_spec::errors::ErrorCode;
use h2_spec::frames::{ACK, GOAWAY, PING, RST_STREAM, SETTINGS, WINDOW_UPDATE};
use h2_spec::octets::octets_from;
use h2_spec::reactions::{ConnectionFrame, StreamFrame};
use std::alloc::{AllocError, Allocator};

/// Writes a frame whose payload is a number of four octets, or nothing.
fn write_number<'b, A: Allocator, O: Outgoing<'b, A>>(
    kind: u8,
    stream: u32,
    number: u32,
    out: &mut O,
) -> Result<(), AllocError>
    ensures { Writes (frame_octets (frame kind 0 stream (big_endian 4 number))) (O.octets out.old) result (O.octets out.new) }
{
    append_frame(kind, 0, stream, &[], &number.to_be_bytes(), out)
}

/// Writes what is sent on the connection, or nothing.
#[inline(always)]
pub fn write_connection_frame<'b, A: Allocator, O: Outgoing<'b, A>>(
    connection_frame: ConnectionFrame,
    out: &mut O,
) -> Result<(), AllocError>
    ensures written { Writes (frames_octets (changes.connection_frames connection_frame)) (O.octets out.old) result (O.octets out.new) }
    ensures short { AreShort (changes.connection_frames connection_frame) }
{
    match connection_frame {
        ConnectionFrame::NoConnectionFrame => Ok(()),
        ConnectionFrame::SettingsAck => append_frame(SETTINGS, ACK, 0, &[], &[], out),
        ConnectionFrame::PingAck(octets) => append_frame(PING, ACK, 0, &[], &octets, out),
        ConnectionFrame::Credit(count) => write_number(WINDOW_UPDATE, 0, count, out),
    }
}

/// Writes what is sent on a stream, or nothing.
#[inline(always)]
pub fn write_stream_frame<'b, A: Allocator, O: Outgoing<'b, A>>(
    stream_frame: StreamFrame,
    out: &mut O,
) -> Result<(), AllocError>
    ensures { Writes (frames_octets (changes.stream_frames stream_frame)) (O.octets out.old) result (O.octets out.new) }
{
    match stream_frame {
        StreamFrame::NoStreamFrame => Ok(()),
        StreamFrame::Reset(id, cause) => {
            write_number(RST_STREAM, id, cause.code().number(), out)
        }
        StreamFrame::StreamCredit(id, count) => write_number(WINDOW_UPDATE, id, count, out),
    }
}

/// Writes the GOAWAY of a connection error, or nothing (RFC 9113, 6.8).
pub fn write_goaway<'b, A: Allocator, O: Outgoing<'b, A>>(
    last: u32,
    code: ErrorCode,
    out: &mut O,
) -> Result<(), AllocError>
    ensures { Writes (frames_octets (changes.goaway last code ∷ [])) (O.octets out.old) result (O.octets out.new) }
{
    let number = code.number();
    append_frame(
        GOAWAY,
        0,
        0,
        &last.to_be_bytes(),
        &number.to_be_bytes(),
        out,
    )
}

/// Writes a frame that was made for stream 0, on this stream, or nothing: its head with the identifier, and its payload
/// as it lies, by reference where `out` keeps it so.
pub fn write_prepared<'b, A: Allocator, O: Outgoing<'b, A>>(
    prepared: &'b [u8],
    id: u32,
    out: &mut O,
) -> Result<(), AllocError>
    requires { 9 ≤ length prepared.now }
    ensures { Writes (on_stream id prepared.now) (O.octets out.old) result (O.octets out.new) }
{
    let head = head_on_stream(prepared, id);
    out.append_lent(&head, octets_from(prepared, 9))
}

/// The head of a frame that was made for stream 0, on this stream: its last four octets are the identifier (RFC 9113,
/// 4.1).
#[inline(always)]
fn head_on_stream(prepared: &[u8], id: u32) -> [u8; 9]
    requires { 9 ≤ length prepared.now }
    ensures { result ≡ take 5 prepared.now ++ big_endian 4 id }
{
    let stream = id.to_be_bytes();
    [
        prepared[0],
        prepared[1],
        prepared[2],
        prepared[3],
        prepared[4],
        stream[0],
        stream[1],
        stream[2],
        stream[3],
    ]
}

//! Field blocks as rules of values: what HEADERS begins on a stream, how long a block may be, and why one fails (RFC
//! 9113, 4.3, 5.1 and 6.2). Definitions: h2_spec's `specs/Requests/Headers.antt` and `specs/ReactionTable.antt`, and
//! `specs/Block.antt` here.

ghost use Rattle.std.specs.Prelude.{◌≡◌, List, IfOk, nat_lt};
ghost use Rattle.h2_spec.specs.Requests.Answer.{Entry};
ghost use Rattle.h2_spec.specs.Requests.Headers as rule;
ghost use Rattle.h2_spec.specs.ReactionTable.{headers_cell};
ghost use Rattle.h2_spec.specs.Stream.{Records, kind_of};
ghost use Rattle.h2_conn_rules.specs.Block.{cause_by, cell_of, refused_end};
ghost use Rattle.h2_conn_rules.specs.Open.{IsOpenAt};
ghost use Rattle.h2_conn_rules.specs.Sound.{AreSound, InForce};

use crate::change::only_counts;
use h2_hpack_instruction::fault::BlockFault;
use h2_spec::causes::Cause;
use h2_spec::connection::{ConnectionState, Purpose};
use h2_spec::ignored::Ignored;
use h2_spec::reactions::Change;
use h2_spec::streams::StreamState;

/// The most octets of a block's fragments.
const MAX_BLOCK: usize = 65_536;

/// What HEADERS begins on a stream, by the stream's state: a block for this purpose, or a connection error (RFC 9113,
/// 5.1 and 6.2).
/// An idle stream that a client may open is above the last one that was opened.
pub fn headers_purpose(id: u32, kind: StreamState) -> Result<Purpose, Cause>
    ensures rule { cell_of result ≡ headers_cell id kind }
    ensures known { (book : List Entry) (f : InForce) (r : Records) → AreSound book f r.streams → kind ≡ kind_of r.last r.streams id
        → IfOk result (λ purpose. IsOpenAt r id purpose) }
{
    match kind {
        StreamState::Idle if id % 2 == 1 => Ok(Purpose::Request),
        StreamState::Idle => Err(Cause::HeadersOnEven),
        StreamState::Skipped => Err(Cause::HeadersOnSkipped),
        StreamState::BothOpen | StreamState::HalfLocal => Ok(Purpose::Trailers),
        StreamState::HalfRemote => Ok(Purpose::Closed),
        StreamState::Ended | StreamState::PeerReset => Err(Cause::HeadersOnClosed),
        StreamState::WeReset => Ok(Purpose::TableOnly),
    }
}

/// Why a fragment of a block with this purpose is ignored, if it is: only the header table follows it (RFC 9113, 4.3).
fn fragment_ignored(purpose: Purpose) -> Option<Ignored>
    ensures { result ≡ rule.fragment_ignored purpose }
{
    match purpose {
        Purpose::TableOnly => Some(Ignored::TableOnlyBlock),
        Purpose::Request | Purpose::Trailers | Purpose::Closed => None,
    }
}

/// What changes for a fragment after which its block goes on: nothing but the block and the header table.
pub fn goes_on(core: ConnectionState, purpose: Purpose) -> Change
    ensures { result ≡ rule.goes_on core purpose }
{
    Change {
        ignored: fragment_ignored(purpose),
        ..only_counts(core)
    }
}

/// Whether a block with fragments of this many octets is too large: a connection error, ENHANCE_YOUR_CALM.
pub fn is_block_too_large(octets: usize) -> bool
    ensures { result ≡ nat_lt rule.max_block octets }
{
    MAX_BLOCK < octets
}

/// Why a block with this fault is a connection error, COMPRESSION_ERROR (RFC 9113, 4.3); none where it is out of
/// memory.
pub fn fault_cause(fault: BlockFault) -> Option<Cause>
    ensures { result ≡ cause_by fault }
{
    match fault {
        BlockFault::NoMemory => None,
        BlockFault::ZeroIndex => Some(Cause::IndexZero),
        BlockFault::Index => Some(Cause::IndexOutOfTables),
        BlockFault::Integer => Some(Cause::IntegerTooLong),
        BlockFault::Huffman => Some(Cause::HuffmanString),
        BlockFault::LateUpdate => Some(Cause::SizeUpdateLate),
        BlockFault::LargeUpdate => Some(Cause::SizeUpdateTooLarge),
        BlockFault::MissingUpdate => Some(Cause::SizeUpdateMissing),
        BlockFault::Truncated => Some(Cause::BlockTruncated),
    }
}

/// Why a block can't end, if it can't, a connection error COMPRESSION_ERROR (RFC 9113, 4.3 and 4.3.1): it is not
/// whole, since an instruction is begun and not ended, or a size update is due.
pub fn refused_end(is_whole: bool, is_due: bool) -> Option<Cause>
    ensures { result ≡ refused_end is_whole is_due }
{
    if !is_whole {
        return Some(Cause::BlockTruncated);
    }
    if is_due {
        return Some(Cause::SizeUpdateMissing);
    }
    None
}

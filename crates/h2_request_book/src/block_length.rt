//! Whether the field block of a response is within its limit, found without writing it. The block is `response_block`
//! of `h2_spec`, specs/Requests/Answer.antt, and the lengths of its parts are in specs/BlockLength.antt.

ghost use Rattle.std.specs.Prelude.{◌≡◌, ◌+◌, ◌<◌, ◌≤◌, ◌==◌, length, false, is_some, nat_lt, position, MatchOption};
ghost use Rattle.h2_spec.specs.Requests.Answer.{indexed_statuses, response_block};
ghost use Rattle.h2_spec.specs.Requests.Book.{max_response_block};
ghost use Rattle.h2_request_book.specs.BlockLength.{string_len, status_len, field_len};

use h2_hpack_instruction::field::Field;
use std::alloc::Allocator;

/// The most octets of a response's field block without a table size update: with one, a frame holds it.
pub const MAX_RESPONSE_BLOCK: usize = 16_383;

/// Whether the field block of this status, 200 to 599, and these fields is above its limit.
pub fn is_block_too_long<A: Allocator>(status: u16, fields: &[Field<A>]) -> bool
    ensures { result ≡ nat_lt max_response_block (length (response_block false status fields.now)) }
{
    let mut left = MAX_RESPONSE_BLOCK - len_of_status(status);
    for field in fields {
        match after_field(left, field) {
            Some(rest) => left = rest,
            None => return true,
        }
    }
    false
}

/// The octets of a status in a field block: an index, or a literal of three digits.
fn len_of_status(status: u16) -> usize
    ensures exact { result ≡ status_len status }
    ensures most { result ≤ 5 }
{
    if is_indexed(status) { 1 } else { 5 }
}

/// Whether the static table has the status (RFC 7541, Appendix A).
fn is_indexed(status: u16) -> bool
    ensures { result ≡ is_some (position (λ s. s == status) indexed_statuses) }
{
    status == 200
        || status == 204
        || status == 206
        || status == 304
        || status == 400
        || status == 404
        || status == 500
}

/// The rest of these octets after a field; none where it does not fit.
fn after_field<A: Allocator>(left: usize, field: &Field<A>) -> Option<usize>
    requires { left ≤ 16383 }
    ensures { MatchOption result (left < field_len field.now) (λ rest. rest + field_len field.now ≡ left) }
{
    let behind_mark = left.checked_sub(1)?;
    let behind_name = after_string(behind_mark, field.name.as_slice())?;
    after_string(behind_name, field.value.as_slice())
}

/// The rest of these octets after a string without a Huffman code; none where it does not fit.
fn after_string(left: usize, octets: &[u8]) -> Option<usize>
    requires { left ≤ 16383 }
    ensures { MatchOption result (left < string_len (length octets.now)) (λ rest. rest + string_len (length octets.now) ≡ left) }
{
    let rest = left.checked_sub(octets.len())?;
    rest.checked_sub(len_of_length(octets.len()))
}

/// The octets of a string's length, of a string of at most 16,383 octets (RFC 7541, 5.1 and 5.2).
fn len_of_length(len: usize) -> usize
    requires { len ≤ 16383 }
    ensures { result + len ≡ string_len len }
{
    if len < 127 {
        1
    } else if len < 255 {
        2
    } else {
        3
    }
}

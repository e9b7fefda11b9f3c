//! Digits decoded by the crate `hex`, a block at a time, into memory of a fixed size. Definition: `body_of` of
//! h2_spec's specs/Requests/AnswerWords.antt.

ghost use Rattle.std.specs.Prelude.{◌≡◌, ◌*◌, ◌≤◌, Some, None, length, take, IfNone, IfSome};
ghost use Rattle.h2_spec.specs.Requests.AnswerWords.{body_of};
ghost use Rattle.h2_io.specs.HexText.{most_digits, most_octets};

/// How many digits are decoded at a time.
pub(crate) const DIGITS: usize = 512;

/// How many octets those are.
pub(crate) const OCTETS: usize = 256;

/// Decodes digits to the front of a block, and says how many octets they are; `None` where they are no pairs of hex
/// digits.
pub(crate) fn decode_block(digits: &[u8], block: &mut [u8]) -> Option<usize>
    requires few { length digits.now ≤ most_digits }
    requires block { length block.old ≡ most_octets }
    ensures some { IfSome result (λ count. body_of digits.now ≡ Some (take count block.new)) }
    ensures count { IfSome result (λ count. length digits.now ≡ 2 * count) }
    ensures none { IfNone result (body_of digits.now ≡ None) }
    ensures same { length block.new ≡ length block.old }
{
    let count = digits.len() / 2;
    match hex::decode_to_slice(digits, &mut block[..count]) {
        Ok(()) => Some(count),
        Err(_) => None,
    }
}

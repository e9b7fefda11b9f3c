//! The words of a script as text: octets in hex, numbers, strings, types, streams. The definitions are in `h2_spec`,
//! specs/Texts/Written.antt, as `.._text`.

ghost use Rattle.std.specs.Prelude.{◌≡◌, ◌++◌, ◌∷◌, ◌<◌, [], OnOk, flat_map};
ghost use Rattle.std.specs.Fmt.{decimal};
ghost use Rattle.std.specs.String.{string_bytes};
ghost use Rattle.hex.specs.Hex.{encode_lower};
ghost use Rattle.h2_spec.specs.Texts.Script.{quote_of};
ghost use Rattle.h2_spec.specs.Texts.Written.{character_text, stream_text, type_text};

use crate::words::is_plain;
use h2_spec::frames::type_name;
use std::alloc::{AllocError, Allocator};
use std::fmt::Write;

/// Appends octets in hex, two lower-case digits each.
pub(crate) fn push_octets<A: Allocator + Copy>(
    alloc: A,
    octets: &[u8],
    out: &mut String<A>,
) -> Result<(), AllocError>
    ensures { OnOk result (string_bytes out.new ≡ string_bytes out.old ++ encode_lower octets.now) }
{
    let digits = hex::encode(alloc, octets)?;
    out.push_str(digits.as_str())
}

/// Appends an octet in hex.
pub(crate) fn push_octet<A: Allocator>(octet: u8, out: &mut String<A>) -> Result<(), AllocError>
    ensures { OnOk result (string_bytes out.new ≡ string_bytes out.old ++ encode_lower (octet ∷ [])) }
{
    let mut digits = [0; 2];
    let Ok(()) = hex::encode_to_slice([octet], &mut digits) else {
        unreachable!();
    };
    out.push(char::from(digits[0]))?;
    out.push(char::from(digits[1]))?;
    Ok(())
}

/// Appends a number in decimal.
pub(crate) fn push_number<A: Allocator>(number: u64, out: &mut String<A>) -> Result<(), AllocError>
    ensures { OnOk result (string_bytes out.new ≡ string_bytes out.old ++ decimal number) }
{
    write!(out, "{number}")
}

/// Appends a letter and a number.
pub(crate) fn push_numbered<A: Allocator>(
    letter: &str,
    number: u64,
    out: &mut String<A>,
) -> Result<(), AllocError>
    ensures { OnOk result (string_bytes out.new ≡ string_bytes out.old ++ (letter.now ++ decimal number)) }
{
    write!(out, "{letter}{number}")
}

/// Appends an octet of a string: itself, or a backslash and two hex digits.
fn push_character<A: Allocator>(octet: u8, out: &mut String<A>) -> Result<(), AllocError>
    ensures { OnOk result (string_bytes out.new ≡ string_bytes out.old ++ character_text octet) }
{
    if is_plain(octet) {
        return out.push(char::from(octet));
    }
    out.push('\\')?;
    push_octet(octet, out)
}

/// Appends the octets of a string.
pub(crate) fn push_characters<A: Allocator>(
    text: &[u8],
    out: &mut String<A>,
) -> Result<(), AllocError>
    ensures { OnOk result (string_bytes out.new ≡ string_bytes out.old ++ flat_map character_text text.now) }
{
    for octet in text {
        push_character(*octet, out)?;
    }
    Ok(())
}

/// The quote of a string.
fn quote(huffman: bool) -> char
    ensures quote { result ≡ quote_of huffman }
    ensures ascii { result < 128 }
{
    if huffman { '\'' } else { '"' }
}

/// Appends a string between its quotes.
pub(crate) fn push_string<A: Allocator>(
    huffman: bool,
    text: &[u8],
    out: &mut String<A>,
) -> Result<(), AllocError>
    ensures { OnOk result (string_bytes out.new ≡ string_bytes out.old ++ (quote_of huffman ∷ (flat_map character_text text.now ++ quote_of huffman ∷ []))) }
{
    out.push(quote(huffman))?;
    push_characters(text, out)?;
    out.push(quote(huffman))
}

/// Appends the name of a frame type, or `T` and two hex digits.
pub(crate) fn push_type<A: Allocator>(kind: u8, out: &mut String<A>) -> Result<(), AllocError>
    ensures { OnOk result (string_bytes out.new ≡ string_bytes out.old ++ type_text kind) }
{
    match type_name(kind) {
        Some(name) => out.push_str(name),
        None => {
            out.push_str("T")?;
            push_octet(kind, out)
        }
    }
}

/// Appends a stream's identifier, and an `R` after it where the reserved bit is set.
pub(crate) fn push_stream<A: Allocator>(
    stream: u32,
    reserved: bool,
    out: &mut String<A>,
) -> Result<(), AllocError>
    ensures { OnOk result (string_bytes out.new ≡ string_bytes out.old ++ stream_text stream reserved) }
{
    push_number(u64::from(stream), out)?;
    if reserved {
        out.push_str("R")?;
    }
    Ok(())
}

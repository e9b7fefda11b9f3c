//! Texts cut at an octet.

ghost use Rattle.std.specs.Prelude.{◌≡◌, ◌==◌, ◌<◌, ◌≤◌, length, take, drop, position, IfSome};

/// The place of an octet in a text.
pub fn place_of(text: &[u8], octet: u8) -> Option<usize>
    ensures place { result ≡ position (λ o. o == octet) text.now }
    ensures within { IfSome result (λ at. at < length text.now) }
{
    text.iter().position(|o| *o == octet)
}

/// The octets before a place.
pub fn text_before(text: &[u8], at: usize) -> &[u8]
    requires { at ≤ length text.now }
    ensures { result.now ≡ take at text.now }
{
    &text[..at]
}

/// The octets from a place on.
pub fn text_from(text: &[u8], at: usize) -> &[u8]
    requires { at ≤ length text.now }
    ensures { result.now ≡ drop at text.now }
{
    &text[at..]
}

//! A text, put where the page reads it.

ghost use Rattle.std.specs.Prelude.{◌≡◌, ◌≤◌, length, take};
ghost use Rattle.h2_page.specs.Web.{Puts};

use crate::fault::{CallEnd, WebFault, end_of};

/// Puts octets at the front of others.
fn put(out: &mut [u8], octets: &[u8])
    requires { length octets.now ≤ length out.old }
    ensures put { take (length octets.now) out.new ≡ octets.now }
    ensures len { length out.new ≡ length out.old }
{
    let (front, _) = out.split_at_mut(octets.len());
    front.copy_from_slice(octets);
}

/// Puts a text where the page reads it, and how the call ended; nothing where it has no space. Returns how many octets
/// were put.
pub(crate) fn put_text(
    text: &[u8],
    ended: Result<(), WebFault>,
    out: &mut [u8],
    end: &mut CallEnd,
) -> usize
    ensures within { result ≤ length out.new }
    ensures put { Puts text.now ended (take result out.new) end.new }
{
    let count = text.len();
    if count > out.len() {
        *end = end_of(Err(WebFault::NoRoom));
        return 0;
    }
    put(out, text);
    *end = end_of(ended);
    count
}

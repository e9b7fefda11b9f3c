//! What a command printed, put where the caller reads it. Definitions: `specs/Embed.antt`.

ghost use Rattle.std.specs.Prelude.{◌≡◌, ◌≤◌, ◌+◌, ◌++◌, length, take, drop};
ghost use Rattle.h2_cmd_run.specs.Memory.{printed_in};
ghost use Rattle.h2_embed.specs.Embed.{Puts, PutsText};

use crate::fault::{RunEnd, RunFault, given};
use h2_cmd_run::Ran;

/// Puts octets at the front of others, which stay as they are after that.
pub(crate) fn put(out: &mut [u8], octets: &[u8])
    requires { length octets.now ≤ length out.old }
    ensures { out.new ≡ octets.now ++ drop (length octets.now) out.old }
{
    let (front, _) = out.split_at_mut(octets.len());
    front.copy_from_slice(octets);
}

/// Puts a text at the front of octets, and another one after it.
fn put_both(out: &mut [u8], text: &[u8], more: &[u8])
    requires { length text.now + length more.now ≤ length out.old }
    ensures { out.new ≡ text.now ++ more.now ++ drop (length text.now + length more.now) out.old }
{
    let (front, back) = out.split_at_mut(text.len());
    front.copy_from_slice(text);
    put(back, more);
}

/// Puts what a command printed where the caller reads it, the sentence after it, and says how the call ended; nothing where
/// they have no space. Returns how many octets were put.
pub(crate) fn put_printed(ran: &Ran, sentence: &[u8], out: &mut [u8], end: &mut RunEnd) -> usize
    ensures within { result ≤ length out.new }
    ensures put { Puts (printed_in ran.now) sentence.now (length out.old) (take result out.new) end.new }
    ensures rest { drop result out.new ≡ drop result out.old }
{
    let text = ran.output.as_slice();
    *end = RunEnd {
        fault: 0,
        status: ran.status,
        printed: text.len(),
        sentence: sentence.len(),
    };
    let count = text.len() + sentence.len();
    if count > out.len() {
        end.fault = RunFault::NoRoom.number();
        return 0;
    }
    put_both(out, text, sentence);
    count
}

/// Puts a text where the caller reads it, and says how the call ended; nothing where it has no space. Returns how many
/// octets were put.
pub(crate) fn put_text(text: &[u8], out: &mut [u8], end: &mut RunEnd) -> usize
    ensures within { result ≤ length out.new }
    ensures put { PutsText text.now (length out.old) (take result out.new) end.new }
    ensures rest { drop result out.new ≡ drop result out.old }
{
    let count = text.len();
    if out.len() < count {
        *end = given(RunFault::NoRoom.number(), count);
        return 0;
    }
    put(out, text);
    *end = given(0, count);
    count
}

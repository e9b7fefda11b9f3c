//! Scripts and their octets. Definitions: `specs/Web.antt`.

ghost use Rattle.std.specs.Prelude.{◌≡◌, ◌≤◌, length, take};
ghost use Rattle.h2_page.specs.Web.{AssemblesTo, Gives, SaysScript};

use crate::arena::Arena;
use crate::fault::{CallEnd, WebFault};
use crate::memory::Free;
use crate::put::put_text;
use h2_script::{ScriptFault, assemble, disassemble};
use std::alloc::Allocator;
use std::str;

/// The octets of a script, or none and why.
fn assembled<A: Allocator + Copy>(alloc: A, text: &[u8]) -> (Vec<u8, A>, Result<(), WebFault>)
    ensures { AssemblesTo text.now result.0.items result.1 }
{
    let Ok(script) = str::from_utf8(text) else {
        return (Vec::new(alloc), Err(WebFault::NoText));
    };
    match assemble(alloc, script) {
        Ok(octets) => (octets, Ok(())),
        Err(ScriptFault::Syntax(line, kind)) => (
            Vec::new(alloc),
            Err(WebFault::Syntax(line, kind)),
        ),
        Err(ScriptFault::NoMemory) => (Vec::new(alloc), Err(WebFault::NoMemory)),
    }
}

/// Puts the octets of a script where the page reads them, or says why there are none.
fn put_octets<A: Allocator + Copy>(
    alloc: A,
    text: &[u8],
    out: &mut [u8],
    end: &mut CallEnd,
) -> usize
    ensures within { result ≤ length out.new }
    ensures given { Gives (AssemblesTo text.now) (take result out.new) end.new }
{
    let (octets, ended) = assembled(alloc, text);
    put_text(octets.as_slice(), ended, out, end)
}

/// The octets of a script, as `asm` gives them in hex. The front of `out` gains them, and their number is returned.
/// `end` says how it ended: with 18 a line is bad, the first such line and the least kind of fault in it; with 22 the
/// text is not UTF-8; with 1 the memory did not suffice; with 2 `out` has no space. `out` gains nothing then.
///
/// All that it needs is taken from `memory`, which is not given back.
#[unsafe(no_mangle)]
pub extern "C" fn octets_of(memory: Free, text: &[u8], out: &mut [u8], end: &mut CallEnd) -> usize
    ensures within { result ≤ length out.new }
    ensures given { Gives (AssemblesTo text.now) (take result out.new) end.new }
{
    let arena = Arena::new(memory);
    put_octets(&arena, text, out, end)
}

/// The script of octets, put where the page reads it.
fn put_script<A: Allocator + Copy>(
    alloc: A,
    octets: &[u8],
    out: &mut [u8],
    end: &mut CallEnd,
) -> usize
    ensures within { result ≤ length out.new }
    ensures given { Gives (SaysScript octets.now) (take result out.new) end.new }
{
    match disassemble(alloc, octets) {
        Ok(text) => put_text(text.as_bytes(), Ok(()), out, end),
        Err(_) => put_text(&[], Err(WebFault::NoMemory), out, end),
    }
}

/// The script of octets, as `dis` prints it. The front of `out` gains it, and the number of its octets is returned.
/// `end` says how it ended: with 1 the memory did not suffice; with 2 `out` has no space. `out` gains nothing then.
///
/// All that it needs is taken from `memory`, which is not given back.
#[unsafe(no_mangle)]
pub extern "C" fn script_of(memory: Free, octets: &[u8], out: &mut [u8], end: &mut CallEnd) -> usize
    ensures within { result ≤ length out.new }
    ensures given { Gives (SaysScript octets.now) (take result out.new) end.new }
{
    let arena = Arena::new(memory);
    put_script(&arena, octets, out, end)
}

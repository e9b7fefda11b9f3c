//! The calls of a connection that stays between them. Definitions: `specs/Kept.antt`.

ghost use Rattle.std.specs.Prelude.{◌≡◌, ◌≤◌, None, length, take, drop};
ghost use Rattle.h2_embed.specs.Kept.{Feeds, IsEnd, IsState, Opens, Says};

use crate::fault::{RunEnd, RunFault, given, refused};
use crate::open::open_lines;
use crate::put::put_text;
use crate::slot::{Slot, close, put, take};
use std::alloc::Global;

/// Opens a connection of a new server in a slot; one that was there is closed. `words` and the file are those of a command
/// `explain`, as `h2_bench_run` takes them. No octets came yet; nothing is read.
///
/// `end` has fault 0; or there is none: 1 the memory did not suffice, 3 the words are no command `explain`, a limit or a
/// setting is outside its range, or the book is refused (`h2_bench_run` says why), 22 a word or the name is not UTF-8.
#[unsafe(no_mangle)]
pub extern "C" fn h2_bench_kept_open(
    alloc: Global,
    words: &[u8],
    name: &[u8],
    file: &[u8],
    slot: &mut Slot,
    end: &mut RunEnd,
)
    ensures { Opens words.now name.now file.now slot.new.hold.kept end.new }
{
    close(alloc, slot);
    match open_lines(alloc, words, name, file) {
        Ok(kept) => {
            put(slot, kept);
            *end = given(0, 0);
        }
        Err(fault) => *end = refused(fault),
    }
}

/// Takes octets of the client, in any cut. The front of `out` gains what `explain` prints of the items that are whole now,
/// and the number of these octets is returned: what all calls give, one after another, and then `h2_bench_kept_end`, is what
/// `explain` prints for all octets.
///
/// With fault 2 `out` has no space for that, and nothing is given: it is given by the next call, which may have no octets.
/// With 1 the memory did not suffice, and the connection is closed. With 3 the slot has none.
#[unsafe(no_mangle)]
pub extern "C" fn h2_bench_kept_feed(
    alloc: Global,
    slot: &mut Slot,
    octets: &[u8],
    out: &mut [u8],
    end: &mut RunEnd,
) -> usize
    ensures within { result ≤ length out.new }
    ensures fed { Feeds slot.old.hold.kept octets.now (length out.old) (take result out.new) slot.new.hold.kept end.new }
    ensures rest { drop result out.new ≡ drop result out.old }
{
    let Some(mut kept) = take(alloc, slot) else {
        *end = refused(RunFault::NoConnection);
        return 0;
    };
    match kept.feed(alloc, octets) {
        Ok(()) => {
            let count = kept.give(out, end);
            put(slot, kept);
            count
        }
        Err(_) => {
            *end = refused(RunFault::NoMemory);
            0
        }
    }
}

/// Puts what `explain` prints after the last item of the octets that came, with the verdict if it was asked for. The
/// connection is as it was, and can take more octets. The faults are those of `h2_bench_kept_feed`, but with 1 the
/// connection stays.
#[unsafe(no_mangle)]
pub extern "C" fn h2_bench_kept_end(
    alloc: Global,
    slot: &mut Slot,
    out: &mut [u8],
    end: &mut RunEnd,
) -> usize
    ensures within { result ≤ length out.new }
    ensures said { Says IsEnd slot.old.hold.kept (length out.old) (take result out.new) slot.new.hold.kept end.new }
    ensures rest { drop result out.new ≡ drop result out.old }
{
    let Some(mut kept) = take(alloc, slot) else {
        *end = refused(RunFault::NoConnection);
        return 0;
    };
    let text = kept.end_text(alloc);
    put(slot, kept);
    match text {
        Ok(text) => put_text(text.as_slice(), out, end),
        Err(_) => {
            *end = refused(RunFault::NoMemory);
            0
        }
    }
}

/// Puts what `play` shows of the state after the octets that came, as `h2_bench_kept_end` does.
#[unsafe(no_mangle)]
pub extern "C" fn h2_bench_kept_state(
    alloc: Global,
    slot: &mut Slot,
    out: &mut [u8],
    end: &mut RunEnd,
) -> usize
    ensures within { result ≤ length out.new }
    ensures said { Says IsState slot.old.hold.kept (length out.old) (take result out.new) slot.new.hold.kept end.new }
    ensures rest { drop result out.new ≡ drop result out.old }
{
    let Some(mut kept) = take(alloc, slot) else {
        *end = refused(RunFault::NoConnection);
        return 0;
    };
    let text = kept.state_text(alloc);
    put(slot, kept);
    match text {
        Ok(text) => put_text(text.as_bytes(), out, end),
        Err(_) => {
            *end = refused(RunFault::NoMemory);
            0
        }
    }
}

/// Closes the connection of a slot, if it has one, and gives all of its memory back.
#[unsafe(no_mangle)]
pub extern "C" fn h2_bench_kept_close(alloc: Global, slot: &mut Slot)
    ensures { slot.new.hold.kept ≡ None }
{
    close(alloc, slot);
}

//! An input that is taken octet by octet, or line by line. It is read only where no octet is held, as many octets as come,
//! so that a line is handled as soon as its line feed is there. Definition: `specs/Reading.antt`.

ghost use Rattle.std.specs.Prelude.{◌≡◌, ◌+◌, ◌-◌, ◌<◌, ◌≤◌, ◌∷◌, ◌++◌, true, false, [], take, drop, length, nat_lt, IfOk, OnOk, OnErr, None};
ghost use Rattle.std.specs.Bool.{OnFalse, OnTrue};
ghost use Rattle.std.specs.Option.{option_to_list};
ghost use Rattle.std.specs.Io.KnownBytes.{Consumes, IsAtEnd, Keeps};
ghost use Rattle.h2_debug.specs.Reading.{IsPlain, IsUnread, TakesPart, ahead, most};

use h2_io::{DeviceFault, Input, MAX_INPUT};
use h2_spec::octets::octets_up_to;
use memchr::memchr;
use std::alloc::AllocError;
use std::marker::Model;

/// How many octets are read at a time.
const BUFFER_OCTETS: usize = 4096;

/// Nothing more can be taken from the input: a read failed, or it has more octets than the limit.
#[derive(Clone, Copy)]
pub struct Unread;

/// What is held of an input, and how many octets of it were taken.
#[derive(Drop)]
pub struct Reader {
    buffer: [u8; BUFFER_OCTETS],
    start: usize,
    end: usize,
    passed: usize,
}

impl Model for Reader {
    ghost use Rattle.std.specs.Prelude.{◌+◌, ◌-◌, ◌≤◌, slice_range};
    ghost use Rattle.h2_debug.specs.Reading.{Reading, most};

    ghost Value = { Reading };

    ghost view = { λ r. record { held = slice_range r.buffer r.start r.end; passed = r.passed } };

    ghost invariant = { λ r. (r.start ≤ r.end) × (r.end ≤ 4096) × (r.passed + (r.end - r.start) ≤ most) };
}

/// How much is read at a time where this many octets were taken: no more than one octet above the limit.
fn count_for(passed: usize) -> usize
    requires { passed ≤ most }
    ensures some { 0 < result }
    ensures within_buffer { result ≤ BUFFER_OCTETS }
    ensures within { passed < most → passed + result ≤ most }
{
    if passed == MAX_INPUT {
        return 1;
    }
    BUFFER_OCTETS.min(MAX_INPUT - passed)
}

/// Reads up to this many octets to the front of the buffer, and says how many; 0 are the end of the input.
fn read_some<I: Input>(input: &mut I, buffer: &mut [u8], count: usize) -> Result<usize, DeviceFault>
    requires some { 0 < count }
    requires within { count ≤ length buffer.old }
    ensures bound { IfOk result (λ n. n ≤ count) }
    ensures octets { IfOk result (λ n. Consumes (I.remaining input.old) (I.remaining input.new) (take n buffer.new)) }
    ensures end { IfOk result (λ n. n ≡ 0 → IsAtEnd (I.remaining input.new)) }
    ensures kept { OnErr result (Keeps (I.remaining input.old) (I.remaining input.new)) }
    ensures ok { OnOk result (I.has_failed input.new ≡ false) }
    ensures err { OnErr result (I.has_failed input.new ≡ true) }
    ensures name { I.name input.new ≡ I.name input.old }
{
    input.read(&mut buffer[..count])
}

/// The octets before the first line feed; all where there is none.
fn before_line_feed(octets: &[u8]) -> &[u8]
    ensures plain { IsPlain result.now }
    ensures parts { octets.now ≡ result.now ++ drop (length result.now) octets.now }
    ensures within { length result.now ≤ length octets.now }
    ensures feed { length result.now < length octets.now → drop (length result.now) octets.now ≡ 10 ∷ drop (length result.now + 1) octets.now }
{
    match memchr(b'\n', octets) {
        Some(count) => octets_up_to(octets, count),
        None => octets,
    }
}

impl Reader {
    /// Nothing was read yet.
    pub fn new() -> Reader
        ensures { (result.held ≡ []) × (result.passed ≡ 0) }
    {
        Reader {
            buffer: [0; BUFFER_OCTETS],
            start: 0,
            end: 0,
            passed: 0,
        }
    }

    /// Reads once, and says whether there are octets now.
    fn refill<I: Input>(&mut self, input: &mut I) -> Result<bool, Unread>
        requires { self.old.held ≡ [] }
        ensures octets { OnOk result (Consumes (I.remaining input.old) (I.remaining input.new) self.new.held) }
        ensures some { IfOk result (λ some. some ≡ nat_lt 0 (length self.new.held)) }
        ensures end { IfOk result (λ some. some ≡ false → IsAtEnd (I.remaining input.new)) }
        ensures passed { self.new.passed ≡ self.old.passed }
        ensures within { self.new.passed ≤ most }
        ensures well { OnOk result (I.has_failed input.new ≡ false) }
        ensures unread { OnErr result (IsUnread (I.remaining input.old) (I.remaining input.new) self.old.passed (I.has_failed input.new)) }
        ensures name { I.name input.new ≡ I.name input.old }
    {
        let wanted = count_for(self.passed);
        let Ok(count) = read_some(input, &mut self.buffer, wanted) else {
            return Err(Unread);
        };
        if count > 0 && self.passed == MAX_INPUT {
            return Err(Unread);
        }
        self.start = 0;
        self.end = count;
        Ok(count > 0)
    }

    /// Takes the first octet that is held.
    fn take_held(&mut self) -> u8
        requires { 0 < length self.old.held }
        ensures octet { self.old.held ≡ result ∷ self.new.held }
        ensures passed { self.new.passed ≡ self.old.passed + 1 }
        ensures within { self.new.passed ≤ most }
    {
        let octet = self.buffer[self.start];
        self.start += 1;
        self.passed += 1;
        octet
    }

    fn holds_none(&self) -> bool
        ensures none { OnTrue result (self.now.held ≡ []) }
        ensures some { OnFalse result (0 < length self.now.held) }
        ensures within { self.now.passed ≤ most }
    {
        self.start == self.end
    }

    /// Reads once where no octet is held, and says whether there are octets now; none are the end of the input.
    ///
    /// `Unread` where a read failed, or where as many octets were taken as may be and there is another one.
    pub fn fill<I: Input>(&mut self, input: &mut I) -> Result<bool, Unread>
        requires { I.has_failed input.old ≡ false }
        ensures kept { OnOk result (Consumes (ahead self.old (I.remaining input.old)) (ahead self.new (I.remaining input.new)) []) }
        ensures some { IfOk result (λ some. some ≡ nat_lt 0 (length self.new.held)) }
        ensures end { IfOk result (λ some. some ≡ false → IsAtEnd (ahead self.new (I.remaining input.new))) }
        ensures passed { self.new.passed ≡ self.old.passed }
        ensures within { OnOk result (self.new.passed ≤ most) }
        ensures well { OnOk result (I.has_failed input.new ≡ false) }
        ensures unread { OnErr result (IsUnread (ahead self.old (I.remaining input.old)) (I.remaining input.new) self.old.passed (I.has_failed input.new)) }
        ensures name { I.name input.new ≡ I.name input.old }
    {
        if self.holds_none() {
            self.refill(input)
        } else {
            Ok(true)
        }
    }

    /// Takes this many of the octets that are held.
    fn pass(&mut self, count: usize)
        requires { count ≤ length self.old.held }
        ensures held { self.new.held ≡ drop count self.old.held }
        ensures passed { self.new.passed ≡ self.old.passed + count }
        ensures within { self.new.passed ≤ most }
    {
        self.start += count;
        self.passed += count;
    }

    /// The octets that are held.
    fn held(&self) -> &[u8]
        ensures { result.now ≡ self.now.held }
    {
        &self.buffer[self.start..self.end]
    }

    /// Takes what is held of a line, with its line feed, and puts it after what is in `line`, without that; says whether
    /// the line has ended.
    ///
    /// `AllocError` where memory is refused: nothing is taken.
    pub fn take_part(&mut self, line: &mut Vec<u8>) -> Result<bool, AllocError>
        requires { 0 < length self.old.held }
        ensures ok { IfOk result (λ ended. TakesPart self.old self.new line.old.items line.new.items ended) }
        ensures within { OnOk result (self.new.passed ≤ most) }
        ensures unchanged { OnErr result (self.new ≡ self.old) }
    {
        let held = self.held();
        let part = before_line_feed(held);
        let count = part.len();
        let ended = count < held.len();
        line.extend_from_slice(part)?;
        self.pass(if ended { count + 1 } else { count });
        Ok(ended)
    }

    /// Takes the next octet; `None` at the end of the input.
    ///
    /// `Unread` where a read failed, or where as many octets were taken as may be and there is another one.
    pub fn next<I: Input>(&mut self, input: &mut I) -> Result<Option<u8>, Unread>
        requires { I.has_failed input.old ≡ false }
        ensures taken { IfOk result (λ octet. Consumes (ahead self.old (I.remaining input.old)) (ahead self.new (I.remaining input.new)) (option_to_list octet)) }
        ensures end { IfOk result (λ octet. octet ≡ None → IsAtEnd (ahead self.new (I.remaining input.new))) }
        ensures passed { IfOk result (λ octet. self.new.passed ≡ self.old.passed + length (option_to_list octet)) }
        ensures within { OnOk result (self.new.passed ≤ most) }
        ensures well { OnOk result (I.has_failed input.new ≡ false) }
        ensures unread { OnErr result (IsUnread (ahead self.old (I.remaining input.old)) (I.remaining input.new) self.old.passed (I.has_failed input.new)) }
        ensures name { I.name input.new ≡ I.name input.old }
    {
        if self.fill(input)? {
            Ok(Some(self.take_held()))
        } else {
            Ok(None)
        }
    }
}

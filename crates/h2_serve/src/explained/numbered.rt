//! The texts of a connection that is served, each line after the connection's number.
//! Definitions: `specs/Numbered.antt`.

ghost use Rattle.std.specs.Prelude.{◌≡◌, ◌⊎◌, ◌<◌, ◌≤◌, ◌++◌, drop, length, true, None, Some, OnOk, IfOk};
ghost use Rattle.std.specs.Io.KnownBytes.{Appends};
ghost use Rattle.h2_serve.specs.Faults.{failed_by};
ghost use Rattle.h2_serve.specs.Numbered.{Grows, IsLine, PrintsPrefixed, fresh_after, gathered_text, prefix_of, prefixed};

use crate::fault::TextFault;
use h2_io::{Gathered, Number, Output, Text, texts};
use h2_spec::octets::{octets_from, octets_up_to};
use memchr::memchr;
use std::alloc::{AllocError, Global};

/// The octets of a text.
fn octets_of<T: Text>(alloc: Global, text: &T) -> Result<Vec<u8>, AllocError>
    ensures { IfOk result (λ octets. octets.items ≡ T.text text.now) }
{
    let mut gathered = Gathered::new(alloc);
    match text.write_to(&mut gathered) {
        Ok(()) => Ok(gathered.octets),
        Err(_) => Err(AllocError),
    }
}

/// What each line of a connection begins with.
#[tactic(auto, unfolding(crate::specs::Numbered::prefix_of))]
pub(crate) fn prefix_of(alloc: Global, json: bool, number: u32) -> Result<Vec<u8>, AllocError>
    ensures { IfOk result (λ octets. octets.items ≡ prefix_of json number) }
{
    let number = Number(u64::from(number));
    if json {
        octets_of(alloc, &texts!("{\"connection\":", number, ","))
    } else {
        octets_of(alloc, &texts!(number, ": "))
    }
}

/// The octets of a text up to its first line feed, and that; all where it has none.
fn first_line(text: &[u8]) -> &[u8]
    ensures line { IsLine result.now }
    ensures parts { text.now ≡ result.now ++ drop (length result.now) text.now }
    ensures within { length result.now ≤ length text.now }
    ensures some { 0 < length text.now → 0 < length result.now }
{
    match memchr(b'\n', text) {
        Some(end) => octets_up_to(text, end + 1),
        None => text,
    }
}

/// Appends octets of a line, after the prefix where it begins with them; in JSON the prefix takes the place of the first.
fn put_line(
    prefix: &[u8],
    json: bool,
    fresh: bool,
    line: &[u8],
    out: &mut Vec<u8>,
) -> Result<(), AllocError>
    requires line { IsLine line.now }
    requires some { 0 < length line.now }
    ensures { OnOk result (out.new.items ≡ out.old.items ++ prefixed prefix.now json fresh line.now) }
{
    if !fresh {
        return out.extend_from_slice(line);
    }
    out.extend_from_slice(prefix)?;
    if json {
        out.extend_from_slice(octets_from(line, 1))
    } else {
        out.extend_from_slice(line)
    }
}

/// Appends a text with the prefix before each of its lines; `fresh` is whether a line begins with it, and then whether
/// one begins after it.
fn put_text(
    prefix: &[u8],
    json: bool,
    fresh: &mut bool,
    text: &[u8],
    out: &mut Vec<u8>,
) -> Result<(), AllocError>
    ensures text { OnOk result (out.new.items ≡ out.old.items ++ prefixed prefix.now json fresh.old text.now) }
    ensures fresh { OnOk result (fresh.new ≡ fresh_after fresh.old text.now) }
{
    let mut rest = text;
    while !rest.is_empty() {
        let line = first_line(rest);
        put_line(prefix, json, *fresh, line, out)?;
        *fresh = line[line.len() - 1] == b'\n';
        rest = octets_from(rest, line.len());
    }
    Ok(())
}

/// A text of the connection with this number, with the number before each of its lines; in JSON it is the first member.
///
/// `AllocError` where memory is refused.
pub fn numbered(alloc: Global, json: bool, number: u32, text: &[u8]) -> Result<Vec<u8>, AllocError>
    ensures { IfOk result (λ out. out.items ≡ prefixed (prefix_of json number) json true text.now) }
{
    let prefix = prefix_of(alloc, json, number)?;
    let mut fresh = true;
    let mut out = Vec::new(alloc);
    put_text(prefix.as_slice(), json, &mut fresh, text, &mut out)?;
    Ok(out)
}

/// Writes octets so that the reader of the output sees them at once; says why not, where that failed.
fn write_now<O: Output>(output: &mut O, octets: &[u8]) -> Option<TextFault>
    ensures octets { result ≡ None → Appends (O.written output.old) (O.written output.new) octets.now }
    ensures fault { (result ≡ None) ⊎ (result ≡ Some TextFault.Write) }
    ensures flag { O.has_failed output.new ≡ failed_by result }
{
    match output.write(octets) {
        Ok(()) => {}
        Err(_) => return Some(TextFault::Write),
    }
    match output.flush() {
        Ok(()) => None,
        Err(_) => Some(TextFault::Write),
    }
}

/// What prints the texts of a connection. After a fault it prints nothing.
#[derive(Drop)]
pub(crate) struct Printer<'o, O> {
    output: &'o mut O,
    /// What each line begins with.
    prefix: Vec<u8>,
    json: bool,
    /// The lines of the last text, whose memory the next one takes.
    lines: Vec<u8>,
    /// Whether a line begins.
    fresh: bool,
    fault: Option<TextFault>,
}

impl<'o, O: Output> Printer<'o, O> {
    /// A printer to this output that has printed nothing.
    pub(crate) fn new(
        alloc: Global,
        output: &'o mut O,
        prefix: Vec<u8>,
        json: bool,
    ) -> Printer<'o, O>
        ensures lines { (result.prefix ≡ prefix) × (result.json ≡ json) × (result.fresh ≡ true) × (result.fault ≡ None) }
        ensures output { result.output.now ≡ output.entry.now }
        ensures same_reference { result.output.ghost_name ≡ output.entry.ghost_name }
    {
        Printer {
            output,
            prefix,
            json,
            lines: Vec::new(alloc),
            fresh: true,
            fault: None,
        }
    }

    /// The output, and why something was not printed, if it was not.
    pub(crate) fn into_parts(self) -> (&'o mut O, Option<TextFault>)
        ensures fault { result.1 ≡ self.entry.fault }
        ensures output { result.0.now ≡ self.entry.output.now }
        ensures same_reference { result.0.ghost_name ≡ self.entry.output.ghost_name }
    {
        (self.output, self.fault)
    }

    /// Prints a text, each line after the prefix.
    pub(crate) fn print(&mut self, text: &[u8])
        requires flag { O.has_failed self.old.output.now ≡ failed_by self.old.fault }
        ensures flag { O.has_failed self.new.output.now ≡ failed_by self.new.fault }
        ensures grows { Grows self.old.fault self.new.fault (O.written self.old.output.now) (O.written self.new.output.now) }
        ensures text { PrintsPrefixed self.old.prefix.items self.old.json self.old.fresh self.old.fault (O.written self.old.output.now)
            text.now self.new.fresh self.new.fault (O.written self.new.output.now) }
        ensures kept { (self.new.prefix ≡ self.old.prefix) × (self.new.json ≡ self.old.json) }
        ensures same_reference { self.new.output.ghost_name ≡ self.old.output.ghost_name }
    {
        if self.fault.is_some() {
            return;
        }
        self.lines.clear();
        match put_text(
            self.prefix.as_slice(),
            self.json,
            &mut self.fresh,
            text,
            &mut self.lines,
        ) {
            Ok(()) => self.fault = write_now(self.output, self.lines.as_slice()),
            Err(_) => self.fault = Some(TextFault::NoMemory),
        }
    }

    /// Prints what was gathered, each line after the prefix; nothing where memory for some of it was refused.
    pub(crate) fn print_gathered(&mut self, text: &Gathered)
        requires flag { O.has_failed self.old.output.now ≡ failed_by self.old.fault }
        ensures flag { O.has_failed self.new.output.now ≡ failed_by self.new.fault }
        ensures grows { Grows self.old.fault self.new.fault (O.written self.old.output.now) (O.written self.new.output.now) }
        ensures text { PrintsPrefixed self.old.prefix.items self.old.json self.old.fresh self.old.fault (O.written self.old.output.now)
            (gathered_text text.now.failed text.now.octets.items) self.new.fresh self.new.fault (O.written self.new.output.now) }
        ensures kept { (self.new.prefix ≡ self.old.prefix) × (self.new.json ≡ self.old.json) }
        ensures same_reference { self.new.output.ghost_name ≡ self.old.output.ghost_name }
    {
        if text.failed {
            return;
        }
        self.print(text.octets.as_slice());
    }
}

//! The lines of a case, one after another: those of the script are played, and the others are compared with what is
//! seen of the run so far, or of the position of a debugger. Definitions: `specs/Cases.antt`, `specs/Walks.antt`.

ghost use Rattle.std.specs.Prelude.{◌≡◌, ◌≤◌, ◌<◌, ◌^◌, ◌++◌, ◌&&◌, Bool, true, false, None, List, [], ℕ, length, drop, map, string_bytes, if◌then◌else◌, OnOk, IfOk};
ghost use Rattle.h2_conn.specs.Connection.{going};
ghost use Rattle.h2_spec.specs.Texts.Assemble.{statement_at};
ghost use Rattle.h2_spec.specs.Texts.Show.{show};
ghost use Rattle.h2_spec.specs.Texts.View.{view};
ghost use Rattle.h2_cmd_check.specs.Cases.{Start, all_hold, cause_text, closes, errs, ignores, outcome, passed, plays, played, reason_text, sight_above};
ghost use Rattle.h2_cmd_check.specs.Commands.{text_by};
ghost use Rattle.h2_cmd_cases.specs.Files.{expect_something};
ghost use Rattle.h2_cmd_check.specs.Frames.{is_none, next_of, next_whole, sends, spoken_by};
ghost use Rattle.h2_cmd_cases.specs.Frames.{summed};
ghost use Rattle.h2_cmd_check.specs.ItemTexts.{octets_at, text_before};
ghost use Rattle.h2_cmd_cases.specs.Lines as said;
ghost use Rattle.h2_cmd_cases.specs.Lines.{line_said, said_by, CaseLine};
ghost use Rattle.h2_cmd_check.specs.ItemsTaken.{no_item, seen_by};
ghost use Rattle.h2_cmd_check.specs.Texts.{explains, shows};
ghost use Rattle.h2_cmd_check.specs.declared.case_debugger.CaseDebugger.TheVariants.{Absent};
ghost use Rattle.h2_cmd_check.specs.Walks.{Begins, Closes, Commands, Compares, Finds, Goes, IsWithin, Leaves, Loads, Passes, Speaks, Walks, left_by, outcome_by, place_of, sent_here, sight_here};

use crate::case_debugger::CaseDebugger;
use crate::command::{Given, fault_line, is_obeyed};
use crate::pattern::{closest, explains, shows};
use crate::run::{ItemsTaken, take_items};
use crate::texts::text_before;
use crate::verdict::{CaseVerdict, Wrong};
use h2_cmd_cases::{Line, expect_something, line_of, push_short_line, summed};
use h2_conn::{Conn, Scratch};
use h2_debug::{Reply, ReplyText};
use h2_explain_words::sent::next_frame;
use h2_io::string_of;
use h2_script::{LineFault, SyntaxKind, add_line, disassemble};
use h2_spec::causes::Cause;
use h2_spec::ignored::Ignored;
use std::alloc::{AllocError, Global};
use std::{mem, str};

/// How far the lines of a case have got.
pub(crate) struct Walk<'t, 'b> {
    /// The octets of the lines of the script.
    pub octets: Vec<u8>,
    /// How many of them were taken as items.
    pub at: usize,
    pub seen: ItemsTaken,
    pub debugger: CaseDebugger<'b>,
    /// How many of the octets sent lines have spoken about; with a debugger, of those for the item of its position.
    pub spoken: usize,
    /// Whether a line has spoken about them since the last octets or the last command, and the number of that line.
    pub speaks: bool,
    speaker: usize,
    /// Whether one of them said that any frames may be sent.
    any: bool,
    /// Which error ended the connection, if one did.
    end: Option<Cause>,
    /// Whether the first line that does not hold after its end was said.
    tells_end: bool,
    /// How many lines that don't hold were only counted, and the number of the first of them.
    more: u64,
    first_more: usize,
    /// Whether all lines hold.
    holds: bool,
    /// Those that don't.
    wrongs: Vec<Wrong<'t>>,
}

/// By hand, so that a function that drops a walk makes one call.
impl<'t, 'b> Drop for Walk<'t, 'b> {
    fn drop(self) {
        let Self {
            octets: _,
            at: _,
            seen: _,
            debugger: _,
            spoken: _,
            speaks: _,
            speaker: _,
            any: _,
            end: _,
            tells_end: _,
            more: _,
            first_more: _,
            holds: _,
            wrongs: _,
        } = self;
    }
}

/// What is seen at the place of a walk.
#[derive(Clone, Copy)]
pub(crate) struct Sight<'s> {
    /// How many items there are up to the place.
    pub items: usize,
    /// The octets that were sent, of which lines speak: those for all items, or for the item of a debugger's position.
    pub sent: &'s [u8],
    /// Why the first error is one; with a debugger why the item of its position is one.
    pub first: Option<Cause>,
    /// Why the item before is an error.
    pub cause: Option<Cause>,
    /// Why the item before is ignored.
    pub ignored: Option<Ignored>,
}

/// How many lines that don't hold are said; those after them are counted.
const MOST_WRONGS: usize = 100;

/// What a line is that has no space after its mark.
const UNSPACED: &str = "a mark with no space after it: `; ` begins a comment";

/// What a line `;<` is that comes after one that takes all frames.
const BEHIND_ANY: &str = "a line `;< ...` above takes all frames that are left";

/// What a line is whose last octet is a carriage return.
const IN_CR: &str = "the line ends in CR; lines of a case end in LF alone";

/// What is found where a line expects an error of a cause that there is not.
const NO_CAUSE: &str = "there is no cause of this name (docs/TABLE.md has all)";

/// The same of a reason.
const NO_REASON: &str = "there is no reason of this name (docs/RULES.md has all)";

/// Whether the last octet of a line is a carriage return.
fn ends_in_cr(line: &[u8]) -> bool {
    line.ends_with(b"\r".as_slice())
}

/// What a line that is none of a script is, in words.
fn kind_words(kind: SyntaxKind) -> &'static str {
    match kind {
        SyntaxKind::Parts => "not a line of a script: it has too few parts",
        SyntaxKind::Name => "not a line of a script: there is no such frame type",
        SyntaxKind::Flags => "not a line of a script: the flags are not two hex digits",
        SyntaxKind::Stream => {
            "not a line of a script: the stream is not a number up to 2147483647"
        }
        SyntaxKind::Payload => "not a line of a script: the payload has no known form",
        SyntaxKind::Size => "not a line of a script: the payload has more than 16777215 octets",
    }
}

/// The name of a cause, a dash for none.
pub(crate) fn cause_name(cause: Option<Cause>) -> &'static str
    ensures { result.now ≡ cause_text cause }
{
    match cause {
        Some(cause) => cause.name(),
        None => "-",
    }
}

/// The name of a reason, a dash for none.
fn reason_name(reason: Option<Ignored>) -> &'static str
    ensures { result.now ≡ reason_text reason }
{
    match reason {
        Some(reason) => reason.name(),
        None => "-",
    }
}

/// The octets from a place on; none where there are fewer.
fn left_from(octets: &[u8], start: usize) -> &[u8]
    ensures { result.now ≡ drop start octets.now }
{
    if start < octets.len() {
        &octets[start..]
    } else {
        &[]
    }
}

/// How many octets the frame has that octets begin with; all of them where there is no whole one.
fn first_length(octets: &[u8]) -> usize
    ensures { result ≤ length octets.now }
{
    match next_frame(octets) {
        None => octets.len(),
        Some((_, rest)) => octets.len().saturating_sub(rest.len()),
    }
}

/// The line of the frame that octets begin with; a dash where there is none.
fn first_line(alloc: Global, octets: &[u8]) -> Result<String, AllocError> {
    if octets.is_empty() {
        return String::from_str(alloc, "-");
    }
    let text = disassemble(alloc, &octets[..first_length(octets)])?;
    match text.as_str().split_once('\n') {
        Some((line, _)) => String::from_str(alloc, line),
        None => Ok(text),
    }
}

/// The same, or the summary of that frame where it is long.
fn first_summary(alloc: Global, octets: &[u8]) -> Result<String, AllocError> {
    let line = first_line(alloc, octets)?;
    let mut short = Vec::new(alloc);
    push_short_line(alloc, line.as_str().as_bytes(), &mut short)?;
    match str::from_utf8(short.as_slice()) {
        Ok(text) => String::from_str(alloc, text),
        Err(_) => Ok(line),
    }
}

/// Whether a line looks like DATA by its length and its sum.
fn is_like_summary(line: &[u8]) -> bool {
    match str::from_utf8(line) {
        Ok(text) => text.starts_with("DATA ") && text.contains(" sha256 "),
        Err(_) => false,
    }
}

impl<'t, 'b> Walk<'t, 'b> {
    /// No line yet, of a connection for which these octets were sent.
    pub(crate) fn new(alloc: Global, sent: Vec<u8>) -> Walk<'t, 'b>
        ensures octets { (result.octets.items ≡ []) × (result.at ≡ 0) }
        ensures seen { seen_by result.seen ≡ no_item sent.items }
        ensures place { (result.spoken ≡ 0) × (result.speaks ≡ false) }
        ensures debugger { result.debugger ≡ Absent }
        ensures holds { result.holds ≡ true }
    {
        Walk {
            octets: Vec::new(alloc),
            at: 0,
            seen: ItemsTaken {
                items: 0,
                sent,
                first: None,
                cause: None,
                ignored: None,
                memory: Scratch::new(alloc),
            },
            debugger: CaseDebugger::Absent,
            spoken: 0,
            speaks: false,
            speaker: 0,
            any: false,
            end: None,
            tells_end: false,
            more: 0,
            first_more: 0,
            holds: true,
            wrongs: Vec::new(alloc),
        }
    }

    /// The verdict on a case of these lines, all of which were gone over.
    pub(crate) fn into_verdict(self, lines: &[&[u8]]) -> CaseVerdict<'t>
        ensures { outcome_by result ≡ outcome self.entry.holds (expect_something (map (λ l. l.now) lines.now)) }
    {
        let Self {
            octets: _,
            at: _,
            seen: _,
            debugger: _,
            spoken: _,
            speaks: _,
            speaker: _,
            any: _,
            end: _,
            tells_end: _,
            more: _,
            first_more: _,
            holds,
            wrongs,
        } = self;
        if !holds {
            CaseVerdict::Fails(wrongs)
        } else if expect_something(lines) {
            CaseVerdict::Holds
        } else {
            CaseVerdict::Skipped
        }
    }

    /// Counts a line that does not hold.
    fn count(&mut self, line: usize)
        ensures { Finds false self.old self.new }
    {
        self.holds = false;
        if self.more == 0 {
            self.first_more = line;
        }
        self.more = self.more.saturating_add(1);
    }

    /// Adds a line to those that don't hold; it is only counted where there are a hundred.
    fn add_wrong(
        &mut self,
        line: usize,
        wanted: &'t [u8],
        found: Result<String, AllocError>,
        ended: Option<Cause>,
    ) -> Result<(), AllocError>
        ensures { OnOk result (Finds false self.old self.new) }
    {
        if self.wrongs.len() >= MOST_WRONGS {
            self.count(line);
            return Ok(());
        }
        let Ok(found) = found else {
            return Err(AllocError);
        };
        self.holds = false;
        match self.wrongs.push(Wrong {
            line,
            wanted,
            found,
            ended,
        }) {
            Ok(()) => Ok(()),
            Err(_) => Err(AllocError),
        }
    }

    /// Says that a line is no line of a case, and why.
    fn fault(
        &mut self,
        alloc: Global,
        line: usize,
        wanted: &'t [u8],
        why: &str,
    ) -> Result<(), AllocError>
        ensures { OnOk result (Finds false self.old self.new) }
    {
        let why = if ends_in_cr(wanted) { IN_CR } else { why };
        self.add_wrong(line, wanted, String::from_str(alloc, why), None)
    }

    /// Says that a line does not hold, and what was found. After the end of the connection the first one is said, with the
    /// error that ended it, and the others are counted.
    fn refuse(
        &mut self,
        line: usize,
        wanted: &'t [u8],
        found: Result<String, AllocError>,
    ) -> Result<(), AllocError>
        ensures { OnOk result (Finds false self.old self.new) }
    {
        if self.end.is_none() || self.debugger.is_present() {
            return self.add_wrong(line, wanted, found, None);
        }
        if !self.tells_end {
            self.tells_end = self.wrongs.len() < MOST_WRONGS;
            return self.add_wrong(line, wanted, found, self.end);
        }
        self.count(line);
        Ok(())
    }

    /// Says how many lines were counted: after the end of the connection, or beyond the first hundred.
    fn tell_rest(&mut self, alloc: Global) -> Result<(), AllocError>
        ensures { OnOk result (self.new.holds ≡ self.old.holds) }
    {
        let more = self.more;
        if more == 0 {
            return Ok(());
        }
        let (here, what) = if self.tells_end {
            ("the connection ended here; ", "expectation")
        } else {
            ("", "line")
        };
        let end = if more == 1 { "" } else { "s" };
        let found = match format!(in alloc; "{here}{more} more {what}{end}") {
            Ok(found) => found,
            Err(_) => return Err(AllocError),
        };
        match self.wrongs.push(Wrong {
            line: self.first_more,
            wanted: b"what is expected from here on",
            found,
            ended: None,
        }) {
            Ok(()) => Ok(()),
            Err(_) => Err(AllocError),
        }
    }

    /// Says whether a line holds, and if not, that this text was found; a dash where it is empty.
    fn find(
        &mut self,
        alloc: Global,
        holds: bool,
        line: usize,
        wanted: &'t [u8],
        found: &[u8],
    ) -> Result<(), AllocError>
        ensures { OnOk result (Finds holds self.old self.new) }
    {
        if holds {
            return Ok(());
        }
        if ends_in_cr(wanted) {
            return self.fault(alloc, line, wanted, IN_CR);
        }
        let words = match str::from_utf8(found) {
            Ok("") => "-",
            Ok(words) => words,
            Err(_) => "?",
        };
        self.refuse(line, wanted, String::from_str(alloc, words))
    }

    /// What is seen of all items; with a debugger, of the item of its position. In one function, since a proof about what a
    /// debugger has takes long.
    pub(crate) fn sight(&self) -> Sight<'_>
        ensures items { result.items ≡ (sight_here self.now).items }
        ensures sent { result.sent.now ≡ sent_here self.now }
        ensures few { length (sent_here self.now) < 2 ^ 64 }
        ensures causes { (result.first ≡ (sight_here self.now).first) × (result.cause ≡ (sight_here self.now).cause) }
        ensures ignored { result.ignored ≡ (sight_here self.now).ignored }
    {
        match &self.debugger {
            CaseDebugger::Present(boxed) => {
                let debugger = boxed.as_ref();
                Sight {
                    items: debugger.pos(),
                    sent: debugger.sent(),
                    first: debugger.cause(),
                    cause: debugger.cause(),
                    ignored: debugger.ignored(),
                }
            }
            CaseDebugger::Absent | CaseDebugger::Left(_) => Sight {
                items: self.seen.items,
                sent: self.seen.sent.as_slice(),
                first: self.seen.first,
                cause: self.seen.cause,
                ignored: self.seen.ignored,
            },
        }
    }

    /// The octets that were sent so far; with a debugger, for the item of its position. Lines `;<` say what is in them.
    pub(crate) fn sent(&self) -> &[u8]
        ensures octets { result.now ≡ sent_here self.now }
        ensures few { length (sent_here self.now) < 2 ^ 64 }
    {
        self.sight().sent
    }

    /// Those octets that no line `;<` has named yet.
    pub(crate) fn unspoken(&self) -> &[u8]
        ensures octets { result.now ≡ left_by self.now }
        ensures few { length (sent_here self.now) < 2 ^ 64 }
    {
        left_from(self.sent(), self.spoken)
    }

    /// Refuses the first frame that is left, where one is: no other may be sent.
    fn expect_none(
        &mut self,
        alloc: Global,
        number: usize,
        wanted: &'t [u8],
    ) -> Result<(), AllocError>
        ensures { OnOk result (Finds (is_none (left_by self.old)) self.old self.new) }
    {
        if self.unspoken().is_empty() {
            return Ok(());
        }
        let found = first_line(alloc, self.unspoken());
        self.spoken = self.sent().len();
        self.refuse(number, wanted, found)
    }
}

impl<'t, 'b> Walk<'t, 'b> {
    /// More octets come, or the case ends. Where a line has spoken about what was sent since the last octets, nothing
    /// else may have been sent; what was sent before the first octets counts only where a line has spoken about it.
    fn close(&mut self, alloc: Global) -> Result<(), AllocError>
        ensures { OnOk result (Closes self.old self.new) }
    {
        self.any = false;
        if self.speaks {
            self.speaks = false;
            return self.expect_none(alloc, self.speaker, b"-");
        }
        if self.octets.is_empty() {
            self.spoken = self.sent().len();
        }
        Ok(())
    }

    /// A debugger, where there is one, is fed more octets. Where here was its position, what was sent before is not looked
    /// at any more.
    pub(crate) fn leave(&mut self, more: &[u8]) -> Result<(), AllocError>
        ensures { OnOk result (Leaves more.now self.old self.new) }
    {
        if self.debugger.is_absent() {
            return Ok(());
        }
        self.leave_debugger(more)
    }

    /// As `leave`, where there is a debugger.
    fn leave_debugger(&mut self, more: &[u8]) -> Result<(), AllocError>
        ensures { OnOk result (Leaves more.now self.old self.new) }
    {
        if self.debugger.is_present() {
            self.spoken = self.seen.sent.len();
        }
        let debugger = mem::replace(&mut self.debugger, CaseDebugger::Absent);
        self.debugger = debugger.leave(more)?;
        Ok(())
    }

    /// More octets of the client: the items that they complete are taken.
    pub(crate) fn feed(
        &mut self,
        conn: &mut Conn<'_, Global>,
        more: &[u8],
    ) -> Result<(), AllocError>
        requires ready { conn.old ≡ going conn.old.state [] }
        requires within { IsWithin self.old }
        ensures ready { conn.new ≡ going conn.new.state [] }
        ensures within { OnOk result (IsWithin self.new) }
        ensures walks { OnOk result ((start : Start) → Walks start self.old conn.old → Walks start self.new conn.new) }
        ensures octets { OnOk result (self.new.octets.items ≡ self.old.octets.items ++ more.now) }
        ensures place { (self.new.spoken ≡ self.old.spoken) × (self.new.speaks ≡ self.old.speaks) }
        ensures debugger { self.new.debugger ≡ self.old.debugger }
        ensures holds { self.new.holds ≡ self.old.holds }
    {
        let Ok(()) = self.octets.extend_from_slice(more) else {
            return Err(AllocError);
        };
        match take_items(conn, self.octets.as_slice(), self.at, &mut self.seen) {
            Ok(at) => {
                self.at = at;
                self.end = self.ending(conn);
                Ok(())
            }
            Err(error) => Err(error),
        }
    }

    /// Which error ended the connection, if one did: the last item is it.
    fn ending(&self, conn: &Conn<'_, Global>) -> Option<Cause> {
        match conn.ended() {
            Some(_) => self.seen.cause,
            None => None,
        }
    }

    /// The octets of a line of the script.
    fn play_octets(
        &mut self,
        alloc: Global,
        conn: &mut Conn<'_, Global>,
        more: &[u8],
    ) -> Result<(), AllocError>
        requires ready { conn.old ≡ going conn.old.state [] }
        requires within { IsWithin self.old }
        ensures ready { conn.new ≡ going conn.new.state [] }
        ensures within { OnOk result (IsWithin self.new) }
        ensures walks { OnOk result ((start : Start) → Walks start self.old conn.old → Walks start self.new conn.new) }
        ensures goes { OnOk result ((start : Start) → Walks start self.old conn.old
            → Goes (plays start (place_of self.old) (Some more.now)) (played start (place_of self.old) (Some more.now)) self.old self.new) }
    {
        if more.is_empty() {
            return Ok(());
        }
        self.close(alloc)?;
        self.leave(more)?;
        self.feed(conn, more)
    }

    /// A line of the script. `space` is for its octets.
    fn play(
        &mut self,
        alloc: Global,
        conn: &mut Conn<'_, Global>,
        number: usize,
        text: &'t [u8],
        space: &mut Vec<u8>,
    ) -> Result<(), AllocError>
        requires ready { conn.old ≡ going conn.old.state [] }
        requires within { IsWithin self.old }
        ensures ready { conn.new ≡ going conn.new.state [] }
        ensures within { OnOk result (IsWithin self.new) }
        ensures walks { OnOk result ((start : Start) → Walks start self.old conn.old → Walks start self.new conn.new) }
        ensures goes { OnOk result ((start : Start) → Walks start self.old conn.old
            → Goes (plays start (place_of self.old) (octets_at text.now)) (played start (place_of self.old) (octets_at text.now)) self.old self.new) }
    {
        space.clear();
        match add_line(alloc, text, space) {
            Ok(()) => self.play_octets(alloc, conn, space.as_slice()),
            Err(LineFault::Bad(kind)) => {
                let why = kind_words(kind);
                self.fault(alloc, number, text, why)
            }
            Err(LineFault::NoMemory) => Err(AllocError),
        }
    }

    /// Compares a frame with the next one that was sent.
    fn compare_frame(
        &mut self,
        alloc: Global,
        number: usize,
        text: &'t [u8],
        wanted: &[u8],
    ) -> Result<(), AllocError>
        ensures { OnOk result (Compares (next_whole wanted.now (left_by self.old)) self.old self.new) }
    {
        if wanted.is_empty() {
            return self.fault(alloc, number, text, "no frame");
        }
        if self.unspoken().starts_with(wanted) {
            self.spoken += wanted.len();
            return Ok(());
        }
        let found = first_line(alloc, self.unspoken());
        self.refuse_frame(alloc, number, text, found)
    }

    /// Passes over the next frame, whichever that is.
    fn pass_frame(&mut self)
        ensures holds { self.new.holds ≡ self.old.holds }
        ensures octets { (self.new.octets ≡ self.old.octets) × (self.new.at ≡ self.old.at) }
        ensures seen { (self.new.seen ≡ self.old.seen) × (self.new.debugger ≡ self.old.debugger) }
        ensures speaks { self.new.speaks ≡ self.old.speaks }
    {
        let passed = first_length(self.unspoken());
        self.spoken = self.spoken.saturating_add(passed);
    }

    /// Says that a frame is not the next one, but another, which is passed over.
    fn refuse_frame(
        &mut self,
        alloc: Global,
        number: usize,
        text: &'t [u8],
        found: Result<String, AllocError>,
    ) -> Result<(), AllocError>
        ensures { OnOk result (Compares None self.old self.new) }
    {
        if self.any {
            return self.fault(alloc, number, text, BEHIND_ANY);
        }
        self.pass_frame();
        self.refuse(number, text, found)
    }

    /// Says that a line is not the summary of the next frame, which is passed over; or that it is none, and no line of a
    /// script, of this kind.
    fn refuse_summary(
        &mut self,
        alloc: Global,
        number: usize,
        text: &'t [u8],
        kind: SyntaxKind,
    ) -> Result<(), AllocError>
        ensures { OnOk result (Compares None self.old self.new) }
    {
        if is_like_summary(text) {
            let found = first_summary(alloc, self.unspoken());
            return self.refuse_frame(alloc, number, text, found);
        }
        self.pass_frame();
        self.fault(alloc, number, text, kind_words(kind))
    }

    /// Compares DATA with the next frame that was sent, by its length and its sum. Any other line is no line of a script, of
    /// this kind; it counts as that frame.
    fn compare_summary(
        &mut self,
        alloc: Global,
        number: usize,
        text: &'t [u8],
        kind: SyntaxKind,
    ) -> Result<(), AllocError>
        ensures { OnOk result (Compares (summed text.now (left_by self.old)) self.old self.new) }
    {
        match summed(alloc, text, self.unspoken())? {
            Some(count) => {
                // A frame has nine octets or more; this is for the prover, which then sees that the sum fits.
                if count > 0 {
                    self.spoken += count;
                }
                Ok(())
            }
            None => self.refuse_summary(alloc, number, text, kind),
        }
    }

    /// A frame that the server sends. `space` is for its octets.
    fn expect_frame(
        &mut self,
        alloc: Global,
        number: usize,
        text: &'t [u8],
        space: &mut Vec<u8>,
    ) -> Result<(), AllocError>
        ensures { OnOk result (Compares (next_of text.now (left_by self.old)) self.old self.new) }
    {
        space.clear();
        match add_line(alloc, text, space) {
            Ok(()) => self.compare_frame(alloc, number, text, space.as_slice()),
            Err(LineFault::Bad(kind)) => self.compare_summary(alloc, number, text, kind),
            Err(LineFault::NoMemory) => Err(AllocError),
        }
    }

    /// A frame that the server sends, or `-` for none, or `...` for any. `space` is for its octets.
    fn expect_sent(
        &mut self,
        alloc: Global,
        number: usize,
        text: &'t [u8],
        space: &mut Vec<u8>,
    ) -> Result<(), AllocError>
        ensures { OnOk result (Speaks text.now self.old self.new) }
    {
        self.speaks = true;
        self.speaker = number;
        if text == b"...".as_slice() {
            self.spoken = self.sent().len();
            self.any = true;
            return Ok(());
        }
        if text == b"-".as_slice() {
            return self.expect_none(alloc, number, text);
        }
        self.expect_frame(alloc, number, text, space)
    }

    /// The text of the state; with a debugger what `show` prints at its position.
    fn shown(&self, alloc: Global, conn: &Conn<'_, Global>) -> Result<String, AllocError>
        ensures { IfOk result (λ text. string_bytes text ≡ text_by self.now.debugger (show (view conn.now.state))) }
    {
        match &self.debugger {
            CaseDebugger::Present(boxed) => {
                let reply = Reply::Shown;
                let debugger = boxed.as_ref();
                string_of(alloc, &ReplyText { reply, debugger })
            }
            CaseDebugger::Absent | CaseDebugger::Left(_) => conn.show(alloc),
        }
    }

    /// A line of the state, or `! ` and one that it has not.
    fn expect_shown(
        &mut self,
        alloc: Global,
        conn: &Conn<'_, Global>,
        number: usize,
        text: &'t [u8],
    ) -> Result<(), AllocError>
        ensures { OnOk result (Finds (shows (text_by self.old.debugger (show (view conn.now.state))) text.now) self.old self.new) }
    {
        let state = self.shown(alloc, conn)?;
        let shown = state.as_str().as_bytes();
        let found = found_line(shown, text);
        self.find(alloc, shows(shown, text), number, text, found)
    }

    /// Why the item before is an error; for a dash why any item is one.
    fn cause_for(&self, is_dash: bool) -> Option<Cause>
        ensures { result ≡ (if is_dash then (sight_here self.now).first else (sight_here self.now).cause) }
    {
        let sight = self.sight();
        if is_dash {
            return sight.first;
        }
        sight.cause
    }
}

impl<'t, 'b> Walk<'t, 'b> {
    /// Here is the position of the debugger. Where there is none, the octets of the lines above are loaded into one.
    fn load(&mut self, alloc: Global, given: &Given<'_, 'b>) -> Result<(), AllocError>
        ensures { OnOk result (Loads given.now self.old self.new) }
    {
        let debugger = mem::replace(&mut self.debugger, CaseDebugger::Absent);
        self.debugger = debugger.enter(alloc, given, &self.octets)?;
        Ok(())
    }

    /// Gives the debugger a line, and says with which fault it is refused, if it is. Nothing is spoken about then.
    fn give(
        &mut self,
        alloc: Global,
        given: &Given<'_, 'b>,
        line: &[u8],
    ) -> Result<Option<u8>, AllocError>
        ensures { IfOk result (λ fault. Commands given.now line.now fault self.old self.new) }
    {
        self.load(alloc, given)?;
        self.spoken = 0;
        match &mut self.debugger {
            CaseDebugger::Present(debugger) => debugger.give(line),
            CaseDebugger::Absent | CaseDebugger::Left(_) => Err(AllocError),
        }
    }

    /// A command of the debugger, which has to be one and not to be refused.
    fn command(
        &mut self,
        alloc: Global,
        given: &Given<'_, 'b>,
        number: usize,
        text: &'t [u8],
    ) -> Result<(), AllocError>
        ensures same { OnOk result ((self.new.octets ≡ self.old.octets) × ((self.new.at ≡ self.old.at) × (self.new.seen ≡ self.old.seen))) }
        ensures goes { OnOk result ((start : Start) → Begins start given.now → seen_by self.old.seen ≡ sight_above start (place_of self.old)
            → Passes start (said.Command text.now) self.old self.new) }
    {
        self.close(alloc)?;
        let fault = self.give(alloc, given, text)?;
        let found = fault_line(fault).as_bytes();
        self.find(alloc, is_obeyed(fault), number, text, found)
    }
}

impl<'t, 'b> Walk<'t, 'b> {
    /// Why the item before is an error; a dash: no item so far is one.
    fn expect_cause(
        &mut self,
        alloc: Global,
        number: usize,
        text: &'t [u8],
    ) -> Result<(), AllocError>
        ensures { OnOk result (Finds (errs (sight_here self.old) text.now) self.old self.new) }
    {
        let is_dash = text == b"-".as_slice();
        let found = cause_name(self.cause_for(is_dash)).as_bytes();
        let holds = text == found;
        if !holds && !is_dash && !Cause::is_name(text) {
            return self.fault(alloc, number, text, NO_CAUSE);
        }
        self.find(alloc, holds, number, text, found)
    }

    /// Why the item before is ignored; a dash: it is not.
    fn expect_reason(
        &mut self,
        alloc: Global,
        number: usize,
        text: &'t [u8],
    ) -> Result<(), AllocError>
        ensures { OnOk result (Finds (ignores (sight_here self.old) text.now) self.old self.new) }
    {
        let found = reason_name(self.sight().ignored).as_bytes();
        let holds = text == found;
        if !holds && text != b"-".as_slice() && !Ignored::is_name(text) {
            return self.fault(alloc, number, text, NO_REASON);
        }
        self.find(alloc, holds, number, text, found)
    }

    /// A line of `explain` for the item before, or `! ` and one that is not there.
    fn expect_explained(
        &mut self,
        alloc: Global,
        texts: &[String],
        number: usize,
        text: &'t [u8],
    ) -> Result<(), AllocError>
        ensures { OnOk result (Finds (explains (text_before (map string_bytes texts.now) (sight_here self.old).items) text.now) self.old self.new) }
    {
        let said = text_before(texts, self.sight().items).as_bytes();
        let found = found_line(said, text);
        self.find(alloc, explains(said, text), number, text, found)
    }

    /// A line of the case, with its number in the file. `space` is for its octets.
    fn take_line(
        &mut self,
        alloc: Global,
        conn: &mut Conn<'_, Global>,
        given: &Given<'_, 'b>,
        number: usize,
        line: &'t [u8],
        space: &mut Vec<u8>,
    ) -> Result<(), AllocError>
        requires ready { conn.old ≡ going conn.old.state [] }
        requires within { IsWithin self.old }
        ensures ready { conn.new ≡ going conn.new.state [] }
        ensures within { OnOk result (IsWithin self.new) }
        ensures walks { OnOk result ((start : Start) → Walks start self.old conn.old → Walks start self.new conn.new) }
        ensures goes { OnOk result ((start : Start) → Begins start given.now → Walks start self.old conn.old
            → Passes start (line_said line.now) self.old self.new) }
    {
        match line_of(line) {
            Line::Script(text) => self.play(alloc, conn, number, text, space),
            Line::Title(_) | Line::Words(_) => Ok(()),
            Line::Sent(text) => self.expect_sent(alloc, number, text, space),
            Line::Shown(text) => self.expect_shown(alloc, conn, number, text),
            Line::Cause(text) => self.expect_cause(alloc, number, text),
            Line::Reason(text) => self.expect_reason(alloc, number, text),
            Line::Explained(text) => self.expect_explained(alloc, given.texts, number, text),
            Line::Command(text) => self.command(alloc, given, number, text),
            Line::Unspaced(text) => self.fault(alloc, number, text, UNSPACED),
        }
    }
}

/// The line of the state, or of `explain`, that a line speaks of.
fn line_in(text: &[u8]) -> &[u8] {
    match text.strip_prefix(b"! ".as_slice()) {
        Some(line) => line,
        None => text,
    }
}

/// The line of a text that agrees with an expected one for longest; says where none is expected.
fn found_line<'t>(text: &'t [u8], expected: &[u8]) -> &'t [u8] {
    let line = line_in(expected);
    if line.is_empty() {
        b"no line is expected"
    } else {
        closest(text, line)
    }
}

/// Goes over the lines of a case, the first of which has this number in the file.
fn go_over<'t, 'b>(
    alloc: Global,
    conn: &mut Conn<'_, Global>,
    given: &Given<'_, 'b>,
    lines: &[&'t [u8]],
    number: usize,
    walk: &mut Walk<'t, 'b>,
) -> Result<(), AllocError>
    requires ready { conn.old ≡ going conn.old.state [] }
    requires within { IsWithin walk.old }
    ensures { OnOk result ((start : Start) → Begins start given.now → Walks start walk.old conn.old
        → walk.new.holds ≡ (walk.old.holds && all_hold start (place_of walk.old) (map (λ l. line_said l.now) lines.now))) }
{
    let mut space = Vec::new(alloc);
    for (place, line) in lines.iter().enumerate() {
        let number = number.saturating_add(place);
        walk.take_line(alloc, conn, given, number, line, &mut space)?;
    }
    walk.close(alloc)
}

/// Goes over the lines of a case, the first of which has this number in the file, and says how many of them were only
/// counted.
///
/// `AllocError` where memory is refused.
pub(crate) fn check_lines<'t, 'b>(
    alloc: Global,
    conn: &mut Conn<'_, Global>,
    given: &Given<'_, 'b>,
    lines: &[&'t [u8]],
    number: usize,
    walk: &mut Walk<'t, 'b>,
) -> Result<(), AllocError>
    requires ready { conn.old ≡ going conn.old.state [] }
    requires within { IsWithin walk.old }
    ensures { OnOk result ((start : Start) → Begins start given.now → Walks start walk.old conn.old
        → walk.new.holds ≡ (walk.old.holds && all_hold start (place_of walk.old) (map (λ l. line_said l.now) lines.now))) }
{
    go_over(alloc, conn, given, lines, number, walk)?;
    walk.tell_rest(alloc)
}

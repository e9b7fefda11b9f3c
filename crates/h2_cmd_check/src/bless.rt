//! A case written anew: what its lines say of frames that are sent, and of errors, is replaced by what the run of its
//! octets has. All other lines stay, as do those after a command of a debugger, up to the next octets. Definition: `specs/Blessed.antt`.

ghost use Rattle.std.specs.Prelude.{◌≡◌, ◌≤◌, ◌+◌, ◌⊎◌, ◌&&◌, List, [], ◌++◌, true, false, None, Some, codes, drop, flat_map, if◌then◌else◌, length, map, nat_lt, IfOk, IfErr, OnOk};
ghost use Rattle.h2_conn.specs.Connection.{going};
ghost use Rattle.h2_spec.specs.State.{is_allowed};
ghost use Rattle.h2_cmd_check.specs.Blessed.{blessed, blessed_at, cause_line, error_text, filled, filled_line, filled_place, filled_place_script, filled_script, have_renewed, is_renewed, kept_line, kept_place, left_text, may_move, more_say, renewed, renewed_cause, renewed_line, renewed_place, renewed_sent, renewed_sent_place, says_sent, sent_line, sent_lines, stays_after, told_place, written_line, written_place};
ghost use Rattle.h2_spec.specs.Requests.Answer.{Entry};
ghost use Rattle.h2_spec.specs.declared.connection.Config.{Config};
ghost use Rattle.h2_cmd_check.specs.Cases.{Start, cause_text, first_place, played, sight_above};
ghost use Rattle.h2_cmd_check.specs.Frames.{is_none, next_of, next_whole};
ghost use Rattle.h2_cmd_cases.specs.Frames.{summed, told_lines};
ghost use Rattle.h2_cmd_check.specs.ItemTexts.{octets_at, octets_or_none};
ghost use Rattle.h2_cmd_cases.specs.Lines.{line_said};
ghost use Rattle.h2_cmd_check.specs.ItemsTaken.{seen_by};
ghost use Rattle.h2_cmd_check.specs.Tap.{Gains};
ghost use Rattle.h2_cmd_check.specs.Walks.{IsWithin, Keeps, KeepsFrame, KeepsNone, Lets, Leaves, Tells, Walks, Writes, left_by, place_of, sight_here};
ghost use Rattle.h2_cmd_check.specs.declared.fault.CaseFault.TheVariants.{BadConfig, NoMemory};

use crate::fault::CaseFault;
use crate::growing::Growing;
use crate::walk::{Walk, cause_name};
use h2_cmd_cases::{Line, line_of, lines_in, push_told, summed};
use h2_conn::{Conn, ConnFault};
use h2_request_book::book::Book;
use h2_script::{LineFault, add_line, disassemble};
use h2_spec::causes::Cause;
use h2_spec::connection::Config;
use std::alloc::{AllocError, Global};

/// Whether a line says what is sent.
fn says_sent(line: &[u8]) -> bool
    ensures { result ≡ says_sent (line_said line.now) }
{
    match line_of(line) {
        Line::Sent(_) => true,
        Line::Script(_)
        | Line::Title(_)
        | Line::Words(_)
        | Line::Shown(_)
        | Line::Cause(_)
        | Line::Reason(_)
        | Line::Explained(_)
        | Line::Command(_)
        | Line::Unspaced(_) => false,
    }
}

/// Whether a line says what is sent, or why an item is an error.
fn is_renewed(line: &[u8]) -> bool
    ensures { result ≡ is_renewed (line_said line.now) }
{
    match line_of(line) {
        Line::Sent(_) | Line::Cause(_) => true,
        Line::Script(_)
        | Line::Title(_)
        | Line::Words(_)
        | Line::Shown(_)
        | Line::Reason(_)
        | Line::Explained(_)
        | Line::Command(_)
        | Line::Unspaced(_) => false,
    }
}

/// Whether the place may be another after a line: it is one of the script, neither empty nor a comment, or a command.
fn may_move(line: &[u8]) -> bool
    ensures { result ≡ may_move (line_said line.now) }
{
    match line_of(line) {
        Line::Script(text) => !(text.is_empty() || text[0] == b';'),
        Line::Command(_) => true,
        Line::Title(_)
        | Line::Words(_)
        | Line::Sent(_)
        | Line::Shown(_)
        | Line::Cause(_)
        | Line::Reason(_)
        | Line::Explained(_)
        | Line::Unspaced(_) => false,
    }
}

/// Whether some of these lines say what is sent, or why an item is an error.
fn have_renewed(lines: &[&[u8]]) -> bool
    ensures { result ≡ have_renewed (map (λ l. l.now) lines.now) }
{
    for line in lines {
        if is_renewed(line) {
            return true;
        }
    }
    false
}

/// Whether one of these lines says what is sent, before the next that may have octets or is a command.
fn more_say(lines: &[&[u8]]) -> bool
    ensures { result ≡ more_say (map (λ l. l.now) lines.now) }
{
    for line in lines {
        if says_sent(line) {
            return true;
        }
        if may_move(line) {
            return false;
        }
    }
    false
}

/// As `more_say`, of the lines after the one at a place.
fn more_say_after(lines: &[&[u8]], place: usize) -> bool
    ensures { result ≡ more_say (map (λ l. l.now) (drop (place + 1) lines.now)) }
{
    if place < lines.len() {
        more_say(&lines[place + 1..])
    } else {
        false
    }
}

/// Writes a line as it is.
fn put_line(line: &[u8], out: &mut Growing)
    ensures { Gains (kept_line line.now) out.old out.new }
{
    out.put(line);
    out.text("\n");
}

/// Writes a line that says that a frame is sent; none for the end of a text.
fn put_sent_line(line: &[u8], out: &mut Growing)
    ensures { Gains (sent_line line.now) out.old out.new }
{
    if line.is_empty() {
        return;
    }
    out.text(";< ");
    put_line(line, out);
}

/// Writes such lines for the lines of a text.
fn put_sent_lines(lines: &[&[u8]], out: &mut Growing)
    ensures { Gains (flat_map sent_line (map (λ l. l.now) lines.now)) out.old out.new }
{
    for line in lines {
        put_sent_line(line, out);
    }
}

/// Writes a line for each frame of octets that were sent.
fn put_sent(alloc: Global, octets: &[u8], out: &mut Growing) -> Result<(), AllocError>
    ensures { OnOk result (Gains (sent_lines octets.now) out.old out.new) }
{
    let script = disassemble(alloc, octets)?;
    let lines = lines_in(alloc, script.as_str().as_bytes())?;
    put_sent_lines(lines.as_slice(), out);
    Ok(())
}

/// Writes a line for each frame of octets that were sent, where long DATA is its summary.
fn put_told(alloc: Global, octets: &[u8], out: &mut Growing) -> Result<(), AllocError>
    ensures { OnOk result (Gains (told_lines octets.now) out.old out.new) }
{
    let mut lines = Vec::new(alloc);
    push_told(alloc, octets, &mut lines)?;
    out.put(lines.as_slice());
    Ok(())
}

/// Writes a line that says why an item is an error, or that none is.
fn put_cause(cause: Option<Cause>, out: &mut Growing)
    ensures { Gains (cause_line (cause_text cause)) out.old out.new }
{
    out.text(";! ");
    put_line(cause_name(cause).as_bytes(), out);
}

/// Writes a line anew that says why the item before is an error, or that none is; it stays where that one is none, and an
/// earlier one is.
fn renew_cause(line: &[u8], first: Option<Cause>, cause: Option<Cause>, out: &mut Growing)
    ensures { Gains (renewed_cause line.now first cause) out.old out.new }
{
    match cause {
        Some(_) => put_cause(cause, out),
        None => match first {
            Some(_) => put_line(line, out),
            None => put_cause(cause, out),
        },
    }
}

/// Writes why an item is an error, where it came.
fn put_error(came: bool, cause: Option<Cause>, out: &mut Growing)
    ensures { Gains (error_text came cause) out.old out.new }
{
    if !came {
        return;
    }
    match cause {
        Some(_) => put_cause(cause, out),
        None => {}
    }
}

impl<'t, 'b> Walk<'t, 'b> {
    /// More octets come: nothing is compared.
    fn pass(&mut self)
        ensures { Lets self.old self.new }
    {
        if !self.speaks && self.octets.is_empty() {
            self.spoken = self.sent().len();
        }
        self.speaks = false;
    }

    /// The octets of a line of the script, in a case that is written anew.
    fn pass_octets(&mut self, conn: &mut Conn<'_, Global>, more: &[u8]) -> Result<(), AllocError>
        requires ready { conn.old ≡ going conn.old.state [] }
        requires within { IsWithin self.old }
        ensures ready { conn.new ≡ going conn.new.state [] }
        ensures within { OnOk result (IsWithin self.new) }
        ensures walks { OnOk result ((start : Start) → Walks start self.old conn.old → Walks start self.new conn.new) }
        ensures place { OnOk result ((start : Start) → Walks start self.old conn.old
            → place_of self.new ≡ played start (place_of self.old) (Some more.now)) }
    {
        if more.is_empty() {
            return Ok(());
        }
        self.pass();
        self.leave(more)?;
        self.feed(conn, more)
    }

    /// A line of the script, in a case that is written anew.
    fn pass_line(
        &mut self,
        alloc: Global,
        conn: &mut Conn<'_, Global>,
        text: &[u8],
    ) -> Result<(), AllocError>
        requires ready { conn.old ≡ going conn.old.state [] }
        requires within { IsWithin self.old }
        ensures ready { conn.new ≡ going conn.new.state [] }
        ensures within { OnOk result (IsWithin self.new) }
        ensures walks { OnOk result ((start : Start) → Walks start self.old conn.old → Walks start self.new conn.new) }
        ensures place { OnOk result ((start : Start) → Walks start self.old conn.old
            → place_of self.new ≡ played start (place_of self.old) (octets_at text.now)) }
    {
        let mut more = Vec::new(alloc);
        match add_line(alloc, text, &mut more) {
            Ok(()) => self.pass_octets(conn, more.as_slice()),
            Err(LineFault::Bad(_)) => Ok(()),
            Err(LineFault::NoMemory) => Err(AllocError),
        }
    }
}

impl<'t, 'b> Walk<'t, 'b> {
    /// A frame that is said to be sent stays, where it is the next one.
    fn keep_frame(
        &mut self,
        alloc: Global,
        wanted: &[u8],
        out: &mut Growing,
    ) -> Result<(), AllocError>
        ensures { OnOk result (KeepsFrame [] (Some wanted.now) (next_whole wanted.now (left_by self.old)) self.old self.new out.old out.new) }
    {
        if wanted.is_empty() {
            return Ok(());
        }
        if self.unspoken().starts_with(wanted) {
            self.spoken += wanted.len();
            self.speaks = true;
            return put_sent(alloc, wanted, out);
        }
        Ok(())
    }

    /// A line that is the summary of a frame stays, where that is the next one.
    fn keep_summary(
        &mut self,
        alloc: Global,
        text: &[u8],
        out: &mut Growing,
    ) -> Result<(), AllocError>
        ensures { OnOk result (KeepsFrame text.now None (summed text.now (left_by self.old)) self.old self.new out.old out.new) }
    {
        match summed(alloc, text, self.unspoken())? {
            Some(count) => {
                // A frame has nine octets or more; this is for the prover, which then sees that the sum fits.
                if count > 0 {
                    self.spoken += count;
                }
                self.speaks = true;
                out.text(";< ");
                put_line(text, out);
                Ok(())
            }
            None => Ok(()),
        }
    }

    /// A line that says that a frame is sent stays, where it is the next one.
    fn keep_frame_line(
        &mut self,
        alloc: Global,
        text: &[u8],
        out: &mut Growing,
    ) -> Result<(), AllocError>
        ensures { OnOk result (KeepsFrame text.now (octets_at text.now) (next_of text.now (left_by self.old)) self.old self.new out.old out.new) }
    {
        let mut wanted = Vec::new(alloc);
        match add_line(alloc, text, &mut wanted) {
            Ok(()) => self.keep_frame(alloc, wanted.as_slice(), out),
            Err(LineFault::Bad(_)) => self.keep_summary(alloc, text, out),
            Err(LineFault::NoMemory) => Err(AllocError),
        }
    }

    /// A line that says that any frames are sent stays.
    fn keep_any(&mut self, text: &[u8], out: &mut Growing)
        ensures { Tells true (codes ";< " ++ kept_line text.now) self.old self.new out.old out.new }
    {
        self.spoken = self.sent().len();
        self.speaks = true;
        out.text(";< ");
        put_line(text, out);
    }

    /// A line that says that no frame is left stays, where none is.
    fn keep_none(&mut self, text: &[u8], out: &mut Growing)
        ensures { KeepsNone text.now self.old self.new out.old out.new }
    {
        if self.unspoken().is_empty() {
            self.speaks = true;
            out.text(";< ");
            put_line(text, out);
        }
    }

    /// A line that says what is sent stays, where it holds.
    fn keep_sent(&mut self, alloc: Global, text: &[u8], out: &mut Growing) -> Result<(), AllocError>
        ensures { OnOk result (Keeps text.now self.old self.new out.old out.new) }
    {
        if text == b"...".as_slice() {
            self.keep_any(text, out);
            return Ok(());
        }
        if text == b"-".as_slice() {
            self.keep_none(text, out);
            return Ok(());
        }
        self.keep_frame_line(alloc, text, out)
    }

    /// Writes that nothing is sent, unless a line has said what is.
    fn end_none(&mut self, out: &mut Growing)
        ensures { Tells true (if self.old.speaks then [] else codes ";< -\n") self.old self.new out.old out.new }
    {
        self.spoken = self.sent().len();
        if self.speaks {
            return;
        }
        self.speaks = true;
        out.text(";< -\n");
    }

    /// Writes all that is left of what was sent.
    fn end_some(&mut self, alloc: Global, out: &mut Growing) -> Result<(), AllocError>
        ensures { OnOk result (Tells true (told_lines (left_by self.old)) self.old self.new out.old out.new) }
    {
        put_told(alloc, self.unspoken(), out)?;
        self.spoken = self.sent().len();
        self.speaks = true;
        Ok(())
    }

    /// Writes all that is left of what was sent, or that nothing is sent, unless a line has said what is.
    fn end_sent(&mut self, alloc: Global, out: &mut Growing) -> Result<(), AllocError>
        ensures { OnOk result (Tells true (left_text self.old.speaks (left_by self.old)) self.old self.new out.old out.new) }
    {
        if self.unspoken().is_empty() {
            self.end_none(out);
            return Ok(());
        }
        self.end_some(alloc, out)
    }
}

impl<'t, 'b> Walk<'t, 'b> {
    /// A line that says what is sent: it stays where it holds; where no other such line follows before the next octets, all
    /// that is left is written.
    fn renew_sent(
        &mut self,
        alloc: Global,
        text: &[u8],
        more: bool,
        out: &mut Growing,
    ) -> Result<(), AllocError>
        ensures same { OnOk result ((self.new.octets ≡ self.old.octets) × ((self.new.at ≡ self.old.at) × (self.new.seen ≡ self.old.seen))) }
        ensures text { OnOk result ((start : Start) → seen_by self.old.seen ≡ sight_above start (place_of self.old)
            → Writes (renewed_sent start (place_of self.old) more text.now) (renewed_sent_place start (place_of self.old) more text.now) self.new out.old out.new) }
    {
        self.keep_sent(alloc, text, out)?;
        if more {
            return Ok(());
        }
        self.end_sent(alloc, out)
    }

    /// Writes a line of the script, and plays it.
    fn renew_script(
        &mut self,
        alloc: Global,
        conn: &mut Conn<'_, Global>,
        text: &[u8],
        out: &mut Growing,
    ) -> Result<(), AllocError>
        requires ready { conn.old ≡ going conn.old.state [] }
        requires within { IsWithin self.old }
        ensures ready { conn.new ≡ going conn.new.state [] }
        ensures within { OnOk result (IsWithin self.new) }
        ensures walks { OnOk result ((start : Start) → Walks start self.old conn.old → Walks start self.new conn.new) }
        ensures text { OnOk result ((start : Start) → Walks start self.old conn.old
            → Writes (kept_line text.now) (played start (place_of self.old) (octets_at text.now)) self.new out.old out.new) }
    {
        put_line(text, out);
        self.pass_line(alloc, conn, text)
    }

    /// Writes a command, before which what was sent is not looked at any more.
    fn tell_command(&mut self, line: &[u8], out: &mut Growing)
        ensures { Tells self.old.speaks (kept_line line.now) self.old self.new out.old out.new }
    {
        self.spoken = self.sent().len();
        put_line(line, out);
    }

    /// Writes a line of a case anew; `more` says whether another line says what is sent before the next octets.
    fn renew_line(
        &mut self,
        alloc: Global,
        conn: &mut Conn<'_, Global>,
        line: &[u8],
        more: bool,
        out: &mut Growing,
    ) -> Result<(), AllocError>
        requires ready { conn.old ≡ going conn.old.state [] }
        requires within { IsWithin self.old }
        ensures ready { conn.new ≡ going conn.new.state [] }
        ensures within { OnOk result (IsWithin self.new) }
        ensures walks { OnOk result ((start : Start) → Walks start self.old conn.old → Walks start self.new conn.new) }
        ensures text { OnOk result ((start : Start) → Walks start self.old conn.old
            → Writes (renewed_line start (place_of self.old) more line.now (line_said line.now)) (renewed_place start (place_of self.old) more (line_said line.now)) self.new out.old out.new) }
    {
        match line_of(line) {
            Line::Script(text) => self.renew_script(alloc, conn, text, out),
            Line::Sent(text) => self.renew_sent(alloc, text, more, out),
            Line::Cause(_) => {
                let sight = self.sight();
                renew_cause(line, sight.first, sight.cause, out);
                Ok(())
            }
            Line::Command(_) => {
                self.tell_command(line, out);
                Ok(())
            }
            Line::Title(_)
            | Line::Words(_)
            | Line::Shown(_)
            | Line::Reason(_)
            | Line::Explained(_)
            | Line::Unspaced(_) => {
                put_line(line, out);
                Ok(())
            }
        }
    }

    /// Writes a line of a case as it is.
    fn keep_line(
        &mut self,
        alloc: Global,
        conn: &mut Conn<'_, Global>,
        line: &[u8],
        out: &mut Growing,
    ) -> Result<(), AllocError>
        requires ready { conn.old ≡ going conn.old.state [] }
        requires within { IsWithin self.old }
        ensures ready { conn.new ≡ going conn.new.state [] }
        ensures within { OnOk result (IsWithin self.new) }
        ensures walks { OnOk result ((start : Start) → Walks start self.old conn.old → Walks start self.new conn.new) }
        ensures text { OnOk result ((start : Start) → Walks start self.old conn.old
            → Writes (kept_line line.now) (kept_place start (place_of self.old) (line_said line.now)) self.new out.old out.new) }
    {
        put_line(line, out);
        match line_of(line) {
            Line::Script(text) => self.pass_line(alloc, conn, text),
            Line::Title(_)
            | Line::Words(_)
            | Line::Sent(_)
            | Line::Shown(_)
            | Line::Cause(_)
            | Line::Reason(_)
            | Line::Explained(_)
            | Line::Command(_)
            | Line::Unspaced(_) => Ok(()),
        }
    }

    /// Writes a line of a case as it is where it stays so, else anew.
    fn write_line(
        &mut self,
        alloc: Global,
        conn: &mut Conn<'_, Global>,
        line: &[u8],
        stays: bool,
        more: bool,
        out: &mut Growing,
    ) -> Result<(), AllocError>
        requires ready { conn.old ≡ going conn.old.state [] }
        requires within { IsWithin self.old }
        ensures ready { conn.new ≡ going conn.new.state [] }
        ensures within { OnOk result (IsWithin self.new) }
        ensures walks { OnOk result ((start : Start) → Walks start self.old conn.old → Walks start self.new conn.new) }
        ensures text { OnOk result ((start : Start) → Walks start self.old conn.old
            → Writes (written_line start (place_of self.old) stays more line.now (line_said line.now)) (written_place start (place_of self.old) stays more (line_said line.now)) self.new out.old out.new) }
    {
        if stays {
            return self.keep_line(alloc, conn, line, out);
        }
        self.renew_line(alloc, conn, line, more, out)
    }
}

/// Whether lines stay as they are after a line of the script.
fn stays_after_script(alloc: Global, stays: bool, text: &[u8]) -> Result<bool, AllocError>
    ensures { IfOk result (λ after. after ≡ (stays && is_none (octets_or_none (octets_at text.now)))) }
{
    if !stays {
        return Ok(false);
    }
    let mut more = Vec::new(alloc);
    match add_line(alloc, text, &mut more) {
        Ok(()) => Ok(more.is_empty()),
        Err(LineFault::Bad(_)) => Ok(true),
        Err(LineFault::NoMemory) => Err(AllocError),
    }
}

/// Whether lines stay as they are after a line.
fn stays_after(alloc: Global, stays: bool, line: &[u8]) -> Result<bool, AllocError>
    ensures { IfOk result (λ after. after ≡ stays_after stays (line_said line.now)) }
{
    match line_of(line) {
        Line::Script(text) => stays_after_script(alloc, stays, text),
        Line::Command(_) => Ok(true),
        Line::Title(_)
        | Line::Words(_)
        | Line::Sent(_)
        | Line::Shown(_)
        | Line::Cause(_)
        | Line::Reason(_)
        | Line::Explained(_)
        | Line::Unspaced(_) => Ok(stays),
    }
}

/// Writes the lines of a case anew that say what is sent or why an item is an error; all others as they are, and those
/// after a command up to the next octets.
fn renew(
    alloc: Global,
    conn: &mut Conn<'_, Global>,
    lines: &[&[u8]],
    walk: &mut Walk<'_, '_>,
    out: &mut Growing,
) -> Result<(), AllocError>
    requires ready { conn.old ≡ going conn.old.state [] }
    requires within { IsWithin walk.old }
    ensures { OnOk result ((start : Start) → Walks start walk.old conn.old
        → Gains (renewed start (place_of walk.old) false (map (λ l. l.now) lines.now)) out.old out.new) }
{
    let mut stays = false;
    for (place, line) in lines.iter().enumerate() {
        let more = more_say_after(lines, place);
        walk.write_line(alloc, conn, line, stays, more, out)?;
        stays = stays_after(alloc, stays, line)?;
    }
    Ok(())
}

impl<'t, 'b> Walk<'t, 'b> {
    /// Writes what is sent, and why the last item is an error, where one was taken after this many octets.
    fn tell(&mut self, alloc: Global, before: usize, out: &mut Growing) -> Result<(), AllocError>
        ensures { OnOk result (Tells self.old.speaks (told_lines (left_by self.old) ++ error_text (nat_lt before self.old.at) (sight_here self.old).cause)
            self.old self.new out.old out.new) }
    {
        put_told(alloc, self.unspoken(), out)?;
        self.spoken = self.sent().len();
        put_error(before < self.at, self.sight().cause, out);
        Ok(())
    }

    /// Plays the octets of a line of the script, and writes what they lead to.
    fn fill_octets(
        &mut self,
        alloc: Global,
        conn: &mut Conn<'_, Global>,
        more: &[u8],
        out: &mut Growing,
    ) -> Result<(), AllocError>
        requires ready { conn.old ≡ going conn.old.state [] }
        requires within { IsWithin self.old }
        ensures ready { conn.new ≡ going conn.new.state [] }
        ensures within { OnOk result (IsWithin self.new) }
        ensures walks { OnOk result ((start : Start) → Walks start self.old conn.old → Walks start self.new conn.new) }
        ensures text { OnOk result ((start : Start) → Walks start self.old conn.old
            → Writes (filled_script start (place_of self.old) (Some more.now)) (filled_place_script start (place_of self.old) (Some more.now)) self.new out.old out.new) }
    {
        if more.is_empty() {
            return Ok(());
        }
        let before = self.at;
        self.pass_octets(conn, more)?;
        self.tell(alloc, before, out)
    }

    /// Plays a line of the script, and writes what it leads to.
    fn fill_script(
        &mut self,
        alloc: Global,
        conn: &mut Conn<'_, Global>,
        text: &[u8],
        out: &mut Growing,
    ) -> Result<(), AllocError>
        requires ready { conn.old ≡ going conn.old.state [] }
        requires within { IsWithin self.old }
        ensures ready { conn.new ≡ going conn.new.state [] }
        ensures within { OnOk result (IsWithin self.new) }
        ensures walks { OnOk result ((start : Start) → Walks start self.old conn.old → Walks start self.new conn.new) }
        ensures text { OnOk result ((start : Start) → Walks start self.old conn.old
            → Writes (filled_script start (place_of self.old) (octets_at text.now)) (filled_place_script start (place_of self.old) (octets_at text.now)) self.new out.old out.new) }
    {
        let mut more = Vec::new(alloc);
        match add_line(alloc, text, &mut more) {
            Ok(()) => self.fill_octets(alloc, conn, more.as_slice(), out),
            Err(LineFault::Bad(_)) => Ok(()),
            Err(LineFault::NoMemory) => Err(AllocError),
        }
    }

    /// Writes what a line of a case leads to.
    fn fill_line(
        &mut self,
        alloc: Global,
        conn: &mut Conn<'_, Global>,
        line: &[u8],
        out: &mut Growing,
    ) -> Result<(), AllocError>
        requires ready { conn.old ≡ going conn.old.state [] }
        requires within { IsWithin self.old }
        ensures ready { conn.new ≡ going conn.new.state [] }
        ensures within { OnOk result (IsWithin self.new) }
        ensures walks { OnOk result ((start : Start) → Walks start self.old conn.old → Walks start self.new conn.new) }
        ensures text { OnOk result ((start : Start) → Walks start self.old conn.old
            → Writes (filled_line start (place_of self.old) (line_said line.now)) (filled_place start (place_of self.old) (line_said line.now)) self.new out.old out.new) }
    {
        match line_of(line) {
            Line::Script(text) => self.fill_script(alloc, conn, text, out),
            Line::Title(_)
            | Line::Words(_)
            | Line::Sent(_)
            | Line::Shown(_)
            | Line::Cause(_)
            | Line::Reason(_)
            | Line::Explained(_)
            | Line::Command(_)
            | Line::Unspaced(_) => Ok(()),
        }
    }
}

/// Writes the lines of a case as they are, and after each of the script what it leads to.
fn fill(
    alloc: Global,
    conn: &mut Conn<'_, Global>,
    lines: &[&[u8]],
    walk: &mut Walk<'_, '_>,
    out: &mut Growing,
) -> Result<(), AllocError>
    requires ready { conn.old ≡ going conn.old.state [] }
    requires within { IsWithin walk.old }
    ensures { OnOk result ((start : Start) → Walks start walk.old conn.old
        → Gains (filled start (place_of walk.old) (map (λ l. l.now) lines.now)) out.old out.new) }
{
    for line in lines {
        put_line(line, out);
        walk.fill_line(alloc, conn, line, out)?;
    }
    Ok(())
}

/// Writes a case anew.
fn write_anew(
    alloc: Global,
    conn: &mut Conn<'_, Global>,
    lines: &[&[u8]],
    walk: &mut Walk<'_, '_>,
    out: &mut Growing,
) -> Result<(), AllocError>
    requires ready { conn.old ≡ going conn.old.state [] }
    requires within { IsWithin walk.old }
    ensures { OnOk result ((start : Start) → Walks start walk.old conn.old
        → Gains (blessed_at start (place_of walk.old) (map (λ l. l.now) lines.now)) out.old out.new) }
{
    if have_renewed(lines) {
        return renew(alloc, conn, lines, walk, out);
    }
    fill(alloc, conn, lines, walk, out)
}

/// A case written anew, whose connection is new.
fn bless_on(
    alloc: Global,
    conn: &mut Conn<'_, Global>,
    sent: Vec<u8>,
    lines: &[&[u8]],
) -> Result<Vec<u8>, AllocError>
    requires ready { conn.old ≡ going conn.old.state [] }
    ensures text { (book : List Entry) (config : Config) → let start : Start = record { state = conn.old.state; sent = sent.items; texts = []; book = book; config = config } in
        IfOk result (λ text. text.items ≡ blessed_at start first_place (map (λ l. l.now) lines.now)) }
{
    let mut walk = Walk::new(alloc, sent);
    let mut out = Growing::new(alloc);
    write_anew(alloc, conn, lines, &mut walk, &mut out)?;
    out.finish()
}

/// The lines of a case written anew, each with a line feed: with this book, these limits and these settings, lines `;<`
/// and `;!` say what is sent and what is an error; all others stay, and after a command all do up to the next octets. A case that has some keeps their places, and one that
/// has none gets them after each line of the script that leads to such.
///
/// # Errors
///
/// `BadConfig` where a limit or a setting is out of range; `NoMemory` where memory is refused.
pub fn bless_case(
    alloc: Global,
    book: &Book<Global>,
    config: Config,
    lines: &[&[u8]],
) -> Result<Vec<u8>, CaseFault>
    ensures text { IfOk result (λ text. text.items ≡ blessed book.now config (map (λ l. l.now) lines.now)) }
    ensures allowed { OnOk result (is_allowed config ≡ true) }
    ensures fault { IfErr result (λ fault. (fault ≡ NoMemory) ⊎ ((fault ≡ BadConfig) × (is_allowed config ≡ false))) }
{
    let mut sent = Vec::new(alloc);
    match Conn::new(book, config, &mut sent) {
        Ok(mut conn) => match bless_on(alloc, &mut conn, sent, lines) {
            Ok(text) => Ok(text),
            Err(_) => Err(CaseFault::NoMemory),
        },
        Err(ConnFault::BadConfig) => Err(CaseFault::BadConfig),
        Err(_) => Err(CaseFault::NoMemory),
    }
}

/// Lines as they are, each with a line feed, after a text.
///
/// `AllocError` where memory is refused; some may have been added.
pub fn add_lines(lines: &[&[u8]], text: &mut Vec<u8>) -> Result<(), AllocError>
    ensures { OnOk result (text.new.items ≡ text.old.items ++ flat_map kept_line (map (λ l. l.now) lines.now)) }
{
    for line in lines {
        let Ok(()) = text.extend_from_slice(line) else {
            return Err(AllocError);
        };
        let Ok(()) = text.push(b'\n') else {
            return Err(AllocError);
        };
    }
    Ok(())
}

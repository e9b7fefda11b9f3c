//! A connection that is explained while its octets come: each item is explained as soon as its last octet is there, and
//! the octets of an item that is not whole are held (RFC 9113, 3.4). Definitions: `specs/Explaining.antt`.

ghost use Rattle.std.specs.Prelude.{◌≡◌, ◌<◌, ◌≤◌, ◌+◌, ◌^◌, ◌++◌, ℕ, List, [], true, false, drop, length, IfErr, IfOk, OnErr, OnOk, is_err};
ghost use Rattle.std.specs.String.{string_bytes};
ghost use Rattle.std.specs.Io.KnownBytes.{Appends};
ghost use Rattle.h2_explain_text.specs.Lines.{EndsLine};
ghost use Rattle.h2_conn.specs.Connection.{going, halted};
ghost use Rattle.h2_conn.specs.First.{TakesIfAny};
ghost use Rattle.h2_conn.specs.Runs.{Fed, Halted, Halts, Ran};
ghost use Rattle.h2_explain.specs.Explaining.{BeginsRead, EndsAs, ExplainsAll, GoesOn, Handles, HasGained, HasRoom, IsCutShort, IsEndText, IsNew, IsPieceCutShort, IsSummed, PassesBy, SaysOf, SaysSome, StopsAt, TakesIfThere};
ghost use Rattle.h2_explain.specs.Explains.{Gains, IsItemText, IsWritten, not_written};
ghost use Rattle.h2_explain_step.specs.Explained.{IsTextWith};
ghost use Rattle.h2_explain.specs.Verdicts.{TalliesItem};
ghost use Rattle.h2_explain.specs.declared.run.ExplainFault.TheVariants as faults;

use crate::end::{End, rest_of};
use crate::item_outbox::ItemOutbox;
use crate::portion::portion_of;
use crate::recorder::Recorder;
use crate::run::{ExplainFault, Form, Summary};
use crate::shown::{shows_item, shows_opening};
use crate::verdict::{Tally, summary_since};
use h2_conn::{Conn, is_ended};
use h2_explain_item::item::Explained;
use h2_explain_item::shown_block::ShownBlock;
use h2_explain_json::json::{Aside, json_of};
use h2_explain_step::explainer::ItemExplainer;
use h2_explain_step::taking::take_item;
use h2_explain_text::account::Account;
use h2_explain_text::lines::ItemLines;
use h2_explain_text::paint::Paint;
use h2_frame::Outgoing;
use h2_io::Output;
use h2_spec::octets::octets_from;
use std::alloc::{AllocError, Allocator, Global};
use std::mem;

/// Writes octets, or says that they were not written.
fn write<O: Output>(output: &mut O, octets: &[u8]) -> Result<(), ExplainFault>
    requires writer { O.has_failed output.old ≡ false }
    ensures octets { O.has_failed output.new ≡ false → Appends (O.written output.old) (O.written output.new) octets.now }
    ensures fault { IfErr result (λ fault. fault ≡ faults.NotWritten) }
    ensures flag { O.has_failed output.new ≡ not_written result }
    ensures name { O.name output.new ≡ O.name output.old }
{
    match output.write(octets) {
        Ok(()) => Ok(()),
        Err(_) => Err(ExplainFault::NotWritten),
    }
}

/// What was made of the last item, whose memory is used again.
struct ItemText<A: Allocator> {
    /// What there is to say of it.
    account: Account<A>,
    /// Its text.
    lines: ItemLines<A>,
}

/// By hand, so that a function that drops one makes one call.
impl<A: Allocator> Drop for ItemText<A> {
    fn drop(self) {
        let Self {
            account: _,
            lines: _,
        } = self;
    }
}

/// Puts an item as a line of JSON in the place of the text before; `block` has the fields of its block.
#[inline(never)]
fn put_json<A: Allocator + Copy>(
    alloc: A,
    item: &Explained<'_>,
    account: &Account<A>,
    block: ShownBlock<'_, A>,
    aside: Aside<'_>,
    lines: &mut ItemLines<A>,
) -> Result<(), AllocError>
    ensures { OnOk result (EndsLine false lines.new) }
{
    let memory = lines.take(alloc);
    lines.set(json_of(memory, item, account, block, aside)?);
    Ok(())
}

/// Fits an account to a form: whether it is brief, and without the opening where that is not shown.
fn fit<A: Allocator>(form: Form, account: &mut Account<A>)
    ensures brief { account.new.is_brief ≡ form.brief }
    ensures changes { account.new.changes ≡ account.old.changes }
{
    if !shows_opening(form) {
        account.opening.clear();
    }
    account.is_brief = form.brief;
}

/// Puts the text of an item that is shown in the place of that before; `block` has the fields of its block. What a script makes
/// of it is part of its line of JSON, and of no text.
///
/// `AllocError` where memory is refused.
#[inline(always)]
pub fn put_text<A: Allocator + Copy>(
    alloc: A,
    form: Form,
    item: &Explained<'_>,
    account: &mut Account<A>,
    block: ShownBlock<'_, A>,
    aside: Aside<'_>,
    lines: &mut ItemLines<A>,
) -> Result<(), AllocError>
    ensures { OnOk result (IsTextWith form.json form.color form.brief item.now account.old.changes.items lines.new) }
{
    fit(form, account);
    if form.json {
        put_json(alloc, item, account, block, aside, lines)
    } else {
        lines.put(item, account, block, Paint(form.color))
    }
}

/// Makes the text of an item, none where it is not shown.
#[inline(always)]
fn make_text<A: Allocator + Copy>(
    alloc: A,
    form: Form,
    explainer: &mut ItemExplainer<A>,
    tally: &mut Tally<A>,
    conn: &Conn<'_, A>,
    item: &Explained<'_>,
    text: &mut ItemText<A>,
) -> Result<(), AllocError>
    ensures text { OnOk result (IsItemText form conn.now.state item.now text.new.lines) }
    ensures tally { OnOk result (TalliesItem tally.old item.now tally.new) }
{
    let ItemText { account, lines } = text;
    explainer.account(alloc, conn, item, account)?;
    tally.note(item, account.facts, account.warnings)?;
    if shows_item(form, item, account.warnings) {
        let block = explainer.block(conn);
        put_text(alloc, form, item, account, block, Aside::none(), lines)
    } else {
        lines.clear();
        Ok(())
    }
}

/// Writes the text of an item.
fn write_item<A: Allocator + Copy, O: Output>(
    alloc: A,
    form: Form,
    explainer: &mut ItemExplainer<A>,
    tally: &mut Tally<A>,
    conn: &Conn<'_, A>,
    item: &Explained<'_>,
    text: &mut ItemText<A>,
    output: &mut O,
) -> Result<(), ExplainFault>
    requires writer { O.has_failed output.old ≡ false }
    ensures gains { O.has_failed output.new ≡ false → Gains (IsWritten (λ text. IsItemText form conn.now.state item.now text) result) (O.written output.old) (O.written output.new) }
    ensures tally { OnOk result (TalliesItem tally.old item.now tally.new) }
    ensures flag { O.has_failed output.new ≡ not_written result }
    ensures name { O.name output.new ≡ O.name output.old }
{
    match make_text(alloc, form, explainer, tally, conn, item, text) {
        Ok(()) => write(output, text.lines.octets()),
        Err(_) => Err(ExplainFault::NoMemory),
    }
}

/// Where what is sent next begins in `out`: at its end where it is kept, else at its front.
fn start_of<A: Allocator>(out: &mut ItemOutbox<'_, A>, keeps: bool) -> usize
    ensures end { result ≡ length out.new }
    ensures kept { keeps ≡ true → out.new ≡ out.old }
{
    if !keeps {
        out.keep_first(0);
    }
    out.begin()
}

/// The octets without this many at their front.
fn without_front<A: Allocator>(octets: Vec<u8, A>, count: usize) -> Vec<u8, A>
    requires { count ≤ length octets.items }
    ensures { result.items ≡ drop count octets.items }
{
    let mut octets = octets;
    let len = octets.len();
    octets.rotate_left(count);
    octets.truncate(len - count);
    octets
}

/// An explanation of a connection whose octets come piece by piece.
pub struct RunExplainer<A: Allocator = Global> {
    form: Form,
    explainer: ItemExplainer<A>,
    tally: Tally<A>,
    text: ItemText<A>,
    /// How many items there were.
    items: u64,
    /// How many octets they have.
    offset: usize,
    /// The octets of the item that is not whole.
    held: Vec<u8, A>,
    /// How many octets came after the end of the connection.
    late: usize,
}

/// By hand, so that a function that drops an explanation makes one call.
impl<A: Allocator> Drop for RunExplainer<A> {
    fn drop(self) {
        let Self {
            form: _,
            explainer: _,
            tally: _,
            text: _,
            items: _,
            offset: _,
            held: _,
            late: _,
        } = self;
    }
}

impl<A: Allocator + Copy> RunExplainer<A> {
    /// The explanation of a connection before any octets.
    pub fn new(alloc: A, form: Form) -> Result<RunExplainer<A>, AllocError>
        ensures { IfOk result (λ new. IsNew form new) }
    {
        let text = ItemText {
            account: Account::new(alloc),
            lines: ItemLines::new(alloc)?,
        };
        let mut explainer = ItemExplainer::new(alloc)?;
        explainer.is_full = form.full;
        Ok(RunExplainer {
            form,
            explainer,
            tally: Tally::new(alloc),
            text,
            items: 0,
            offset: 0,
            held: Vec::new(alloc),
            late: 0,
        })
    }

    /// Takes the item that octets begin with, if there is one, and explains it; says how many of the octets it has. What
    /// is sent for it is appended to `out`; where that is not kept, `out` is emptied before.
    fn take_item<'b, O: Output, R: Recorder>(
        &mut self,
        alloc: A,
        conn: &mut Conn<'b, A>,
        octets: &[u8],
        keeps: bool,
        out: &mut ItemOutbox<'b, A>,
        output: &mut O,
        recorder: &mut R,
    ) -> Result<Option<usize>, ExplainFault>
        requires ready { conn.old ≡ going conn.old.state [] }
        requires few { (self.old.items ≤ self.old.offset) × (self.old.offset + length octets.now < 2 ^ 63) }
        requires writer { O.has_failed output.old ≡ false }
        ensures ok { IfOk result (λ used. TakesIfThere self.old conn.old.state octets.now (O.written output.old) self.new conn.new (O.written output.new) used) }
        ensures sent { keeps ≡ true → IfOk result (λ used. TakesIfAny conn.old.state octets.now out.old conn.new.state out.new used) }
        ensures stopped { keeps ≡ true → OnErr result (StopsAt conn.old.state octets.now out.old conn.new.state out.new) }
        ensures cut { O.has_failed output.new ≡ false → OnErr result (Gains (λ text. text ≡ []) (O.written output.old) (O.written output.new)) }
        ensures ready { conn.new ≡ going conn.new.state [] }
        ensures flag { O.has_failed output.new ≡ not_written result }
        ensures name { O.name output.new ≡ O.name output.old }
    {
        let start = start_of(out, keeps);
        let memory = &mut self.explainer.memory;
        let observed = match take_item(conn, octets, memory, out) {
            Ok(Some(observed)) => observed,
            Ok(None) => return Ok(None),
            Err(_) => return Err(ExplainFault::NoMemory),
        };
        let Some(sent) = out.since(start) else {
            return Err(ExplainFault::NoMemory);
        };
        let item = observed.item(self.items + 1, self.offset, octets, sent);
        recorder.record(&item);
        match write_item(
            alloc,
            self.form,
            &mut self.explainer,
            &mut self.tally,
            conn,
            &item,
            &mut self.text,
            output,
        ) {
            Ok(()) => {}
            Err(fault) => return Err(fault),
        }
        self.items += 1;
        self.offset += observed.taken.used;
        Ok(Some(observed.taken.used))
    }

    /// Takes and explains each item that octets begin with; says how many of the octets they have. What is sent for them
    /// is appended to `out`; where that is not kept, `out` has what was sent for the last.
    fn take_items<'b, O: Output, R: Recorder>(
        &mut self,
        alloc: A,
        conn: &mut Conn<'b, A>,
        octets: &[u8],
        keeps: bool,
        out: &mut ItemOutbox<'b, A>,
        output: &mut O,
        recorder: &mut R,
    ) -> Result<usize, ExplainFault>
        requires ready { conn.old ≡ going conn.old.state [] }
        requires few { (self.old.items ≤ self.old.offset) × (self.old.offset + length octets.now < 2 ^ 63) }
        requires writer { O.has_failed output.old ≡ false }
        ensures ok { IfOk result (λ used. ExplainsAll self.old conn.old.state octets.now (O.written output.old) self.new conn.new.state (drop used octets.now) (O.written output.new)) }
        ensures within { IfOk result (λ used. used ≤ length octets.now) }
        ensures held { OnOk result ((self.new.held ≡ self.old.held) × (self.new.late ≡ self.old.late)) }
        ensures sent { keeps ≡ true → IfOk result (λ used. (n : ℕ) × Ran conn.old.state octets.now out.old conn.new.state (drop used octets.now) out.new n) }
        ensures stopped { keeps ≡ true → OnErr result (Halted conn.old.state octets.now out.old conn.new.state out.new) }
        ensures cut { O.has_failed output.new ≡ false → OnErr result (Gains (IsCutShort self.old conn.old.state octets.now) (O.written output.old) (O.written output.new)) }
        ensures ready { conn.new ≡ going conn.new.state [] }
        ensures flag { O.has_failed output.new ≡ not_written result }
        ensures name { O.name output.new ≡ O.name output.old }
    {
        let mut at = 0usize;
        loop {
            let rest = octets_from(octets, at);
            match self.take_item(alloc, conn, rest, keeps, out, output, recorder) {
                Ok(Some(used)) => at += used,
                Ok(None) => return Ok(at),
                Err(fault) => return Err(fault),
            }
        }
    }

    /// Counts octets that came after the end of the connection.
    fn pass_by(&mut self, count: usize)
        requires room { HasRoom self.old count }
        ensures { PassesBy self.old count self.new }
    {
        self.late += self.held.len() + count;
        self.held.clear();
    }

    /// Takes and explains each item of a piece, where no octets are held.
    fn take_in_hand<'b, O: Output, R: Recorder>(
        &mut self,
        alloc: A,
        conn: &mut Conn<'b, A>,
        piece: &[u8],
        keeps: bool,
        out: &mut ItemOutbox<'b, A>,
        output: &mut O,
        recorder: &mut R,
    ) -> Result<(), ExplainFault>
        requires ready { conn.old ≡ going conn.old.state [] }
        requires empty { self.old.held.items ≡ [] }
        requires room { HasRoom self.old (length piece.now) }
        requires writer { O.has_failed output.old ≡ false }
        ensures ok { OnOk result (Handles self.old conn.old.state (self.old.held.items ++ piece.now) (O.written output.old) self.new conn.new.state (O.written output.new)) }
        ensures fed { keeps ≡ true → OnOk result (Fed (going conn.old.state self.old.held.items) piece.now out.old (going conn.new.state self.new.held.items) out.new) }
        ensures halted { keeps ≡ true → OnErr result (Halts (going conn.old.state self.old.held.items) piece.now out.old (halted conn.new.state) out.new) }
        ensures cut { O.has_failed output.new ≡ false → OnErr result (Gains (IsPieceCutShort self.old conn.old.state piece.now) (O.written output.old) (O.written output.new)) }
        ensures ready { conn.new ≡ going conn.new.state [] }
        ensures flag { O.has_failed output.new ≡ not_written result }
        ensures name { O.name output.new ≡ O.name output.old }
    {
        let used = match self.take_items(alloc, conn, piece, keeps, out, output, recorder) {
            Ok(used) => used,
            Err(fault) => return Err(fault),
        };
        let rest = octets_from(piece, used);
        if is_ended(conn.counts().phase) {
            self.late += rest.len();
            return Ok(());
        }
        match self.held.extend_from_slice(rest) {
            Ok(()) => Ok(()),
            Err(_) => Err(ExplainFault::NoMemory),
        }
    }

    /// Takes and explains each item of the octets that are held and a piece after them.
    fn complete<'b, O: Output, R: Recorder>(
        &mut self,
        alloc: A,
        conn: &mut Conn<'b, A>,
        piece: &[u8],
        keeps: bool,
        out: &mut ItemOutbox<'b, A>,
        output: &mut O,
        recorder: &mut R,
    ) -> Result<(), ExplainFault>
        requires ready { conn.old ≡ going conn.old.state [] }
        requires room { HasRoom self.old (length piece.now) }
        requires writer { O.has_failed output.old ≡ false }
        ensures ok { OnOk result (Handles self.old conn.old.state (self.old.held.items ++ piece.now) (O.written output.old) self.new conn.new.state (O.written output.new)) }
        ensures fed { keeps ≡ true → OnOk result (Fed (going conn.old.state self.old.held.items) piece.now out.old (going conn.new.state self.new.held.items) out.new) }
        ensures halted { keeps ≡ true → OnErr result (Halts (going conn.old.state self.old.held.items) piece.now out.old (halted conn.new.state) out.new) }
        ensures cut { O.has_failed output.new ≡ false → OnErr result (Gains (IsPieceCutShort self.old conn.old.state piece.now) (O.written output.old) (O.written output.new)) }
        ensures ready { conn.new ≡ going conn.new.state [] }
        ensures flag { O.has_failed output.new ≡ not_written result }
        ensures name { O.name output.new ≡ O.name output.old }
    {
        let mut octets = mem::replace(&mut self.held, Vec::new(alloc));
        match octets.extend_from_slice(piece) {
            Ok(()) => {}
            Err(_) => return Err(ExplainFault::NoMemory),
        }
        let used = match self.take_items(
            alloc,
            conn,
            octets.as_slice(),
            keeps,
            out,
            output,
            recorder,
        ) {
            Ok(used) => used,
            Err(fault) => return Err(fault),
        };
        let rest = without_front(octets, used);
        if is_ended(conn.counts().phase) {
            self.late += rest.len();
        } else {
            self.held = rest;
        }
        Ok(())
    }

    /// Takes and explains all items that there are with a piece after the octets that are held. Where what is sent is not
    /// kept, `out` has what was sent for the last item.
    pub(crate) fn take_piece<'b, O: Output, R: Recorder>(
        &mut self,
        alloc: A,
        conn: &mut Conn<'b, A>,
        piece: &[u8],
        keeps: bool,
        out: &mut ItemOutbox<'b, A>,
        output: &mut O,
        recorder: &mut R,
    ) -> Result<(), ExplainFault>
        requires ready { conn.old ≡ going conn.old.state [] }
        requires room { HasRoom self.old (length piece.now) }
        requires writer { O.has_failed output.old ≡ false }
        ensures goes { OnOk result (GoesOn conn.old self.old piece.now conn.new self.new) }
        ensures gains { OnOk result (SaysOf conn.old self.old piece.now self.new (O.written output.old) (O.written output.new)) }
        ensures cut { O.has_failed output.new ≡ false → OnErr result (SaysSome conn.old self.old piece.now (O.written output.old) (O.written output.new)) }
        ensures fed { keeps ≡ true → OnOk result (Fed (going conn.old.state self.old.held.items) piece.now out.old (going conn.new.state self.new.held.items) out.new) }
        ensures halted { keeps ≡ true → OnErr result (Halts (going conn.old.state self.old.held.items) piece.now out.old (halted conn.new.state) out.new) }
        ensures room { OnOk result (HasGained self.old (length piece.now) self.new) }
        ensures form { OnOk result (self.new.form ≡ self.old.form) }
        ensures ready { conn.new ≡ going conn.new.state [] }
        ensures flag { O.has_failed output.new ≡ not_written result }
        ensures name { O.name output.new ≡ O.name output.old }
    {
        if is_ended(conn.counts().phase) {
            self.pass_by(piece.len());
            return Ok(());
        }
        if self.held.is_empty() {
            self.take_in_hand(alloc, conn, piece, keeps, out, output, recorder)
        } else {
            self.complete(alloc, conn, piece, keeps, out, output, recorder)
        }
    }

    /// Begins a read: its octets were sent before the client got what the server sends for them.
    pub fn begin_read(&mut self, conn: &Conn<'_, A>)
        ensures { BeginsRead self.old self.new }
    {
        self.explainer.granted.begin(conn.counts().recv);
    }

    /// How many of these octets to feed at once, so that they complete at most one item: at least one.
    pub fn portion(&self, conn: &Conn<'_, A>, octets: &[u8]) -> usize
        requires { 0 < length octets.now }
        ensures some { 0 < result }
        ensures within { result ≤ length octets.now }
    {
        portion_of(conn.counts().phase, self.held.as_slice(), octets)
    }

    /// Takes and explains all items that there are with these octets after those that are held. What is sent for them is
    /// appended to `out`, each item is handed to `recorder` as soon as it is taken, and its text is written before the next
    /// one is taken. The rest of the octets is held; after the end of the connection all octets are only counted.
    ///
    /// The connection holds no octets itself: it does what one that holds those of the explanation does when it is fed.
    ///
    /// # Errors
    ///
    /// `NoMemory` where memory is refused, `NotWritten` where a write failed: some first items were explained, and the
    /// connection has taken these or one more, each of them whole; `out` has gained what was sent for those that it has
    /// taken. The explanation can't go on then.
    pub fn feed<'b, O: Output, R: Recorder>(
        &mut self,
        alloc: A,
        conn: &mut Conn<'b, A>,
        piece: &[u8],
        out: &mut ItemOutbox<'b, A>,
        output: &mut O,
        recorder: &mut R,
    ) -> Result<(), ExplainFault>
        requires ready { conn.old ≡ going conn.old.state [] }
        requires room { HasRoom self.old (length piece.now) }
        requires writer { O.has_failed output.old ≡ false }
        ensures goes { OnOk result (GoesOn conn.old self.old piece.now conn.new self.new) }
        ensures gains { OnOk result (SaysOf conn.old self.old piece.now self.new (O.written output.old) (O.written output.new)) }
        ensures cut { O.has_failed output.new ≡ false → OnErr result (SaysSome conn.old self.old piece.now (O.written output.old) (O.written output.new)) }
        ensures fed { OnOk result (Fed (going conn.old.state self.old.held.items) piece.now out.old (going conn.new.state self.new.held.items) out.new) }
        ensures halted { OnErr result (Halts (going conn.old.state self.old.held.items) piece.now out.old (halted conn.new.state) out.new) }
        ensures room { OnOk result (HasGained self.old (length piece.now) self.new) }
        ensures form { OnOk result (self.new.form ≡ self.old.form) }
        ensures ready { conn.new ≡ going conn.new.state [] }
        ensures flag { O.has_failed output.new ≡ not_written result }
        ensures name { O.name output.new ≡ O.name output.old }
    {
        self.take_piece(alloc, conn, piece, true, out, output, recorder)
    }

    /// The text of the octets after the last item, and of the end.
    fn end_text(&self, alloc: A, conn: &Conn<'_, A>) -> Result<String<A>, AllocError>
        requires room { HasRoom self.now 0 }
        ensures { IfOk result (λ text. IsEndText self.now conn.now.state (string_bytes text)) }
    {
        let mut rest = rest_of(conn, self.items, self.offset, self.held.as_slice());
        rest.octets += self.late;
        let end = End {
            form: self.form,
            conn,
            explainer: &self.explainer,
            tally: &self.tally,
            rest,
            since: None,
        };
        end.said(alloc)
    }

    /// Writes the text of the octets after the last item, and of the end.
    fn write_end<O: Output>(
        &self,
        alloc: A,
        conn: &Conn<'_, A>,
        output: &mut O,
    ) -> Result<(), ExplainFault>
        requires room { HasRoom self.now 0 }
        requires writer { O.has_failed output.old ≡ false }
        ensures gains { O.has_failed output.new ≡ false → Gains (IsWritten (IsEndText self.now conn.now.state) result) (O.written output.old) (O.written output.new) }
        ensures flag { O.has_failed output.new ≡ not_written result }
        ensures name { O.name output.new ≡ O.name output.old }
    {
        match self.end_text(alloc, conn) {
            Ok(text) => write(output, text.as_bytes()),
            Err(_) => Err(ExplainFault::NoMemory),
        }
    }

    /// Explains the end: the octets that are left, what each live stream waits for, and, with `--strict`, the verdict on
    /// the client.
    ///
    /// # Errors
    ///
    /// `NoMemory` where memory is refused: nothing is written. `NotWritten` where the write failed.
    pub fn end<O: Output>(
        &self,
        alloc: A,
        conn: &Conn<'_, A>,
        output: &mut O,
    ) -> Result<(), ExplainFault>
        requires room { HasRoom self.now 0 }
        requires writer { O.has_failed output.old ≡ false }
        ensures gains { O.has_failed output.new ≡ false → EndsAs (is_err result) conn.now self.now (O.written output.old) (O.written output.new) }
        ensures flag { O.has_failed output.new ≡ not_written result }
        ensures name { O.name output.new ≡ O.name output.old }
    {
        self.write_end(alloc, conn, output)
    }

    /// What sums up the connection, where no octets come any more. Takes no memory.
    pub fn summary(&self, conn: &Conn<'_, A>) -> Summary
        requires room { HasRoom self.now 0 }
        ensures { IsSummed conn.now self.now result }
    {
        let left = self.held.len() + self.late;
        summary_since(conn, &self.tally, self.items, left, None)
    }

    /// Explains the end as `end` does, and sums the connection up.
    pub(crate) fn conclude<O: Output>(
        &self,
        alloc: A,
        conn: &Conn<'_, A>,
        output: &mut O,
    ) -> Result<Summary, ExplainFault>
        requires room { HasRoom self.now 0 }
        requires writer { O.has_failed output.old ≡ false }
        ensures summary { IfOk result (λ summary. IsSummed conn.now self.now summary) }
        ensures gains { O.has_failed output.new ≡ false → EndsAs (is_err result) conn.now self.now (O.written output.old) (O.written output.new) }
        ensures flag { O.has_failed output.new ≡ not_written result }
        ensures name { O.name output.new ≡ O.name output.old }
    {
        match self.end(alloc, conn, output) {
            Ok(()) => Ok(self.summary(conn)),
            Err(fault) => Err(fault),
        }
    }
}

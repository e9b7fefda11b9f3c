//! The bench's own view of a connection with a script: the items of the client are taken once more, and each is shown with what
//! the server sends for it that went out, what of it did not, and what the script sent. From there on nobody is blamed.
//! Definitions: `specs/Views.antt`.

ghost use Rattle.std.specs.Prelude.{◌≡◌, ◌≤◌, ◌==◌, ◌&&◌, not, [], drop, length, if◌then◌else◌, None, IfOk, OnOk};
ghost use Rattle.h2_conn.specs.Connection.{going};
ghost use Rattle.h2_cmd_dialogue.specs.Steps.{incoming_of};
ghost use Rattle.h2_cmd_dialogue.specs.Woven.{after_item};
ghost use Rattle.h2_cmd_inject.specs.Results.{AppendsOne};
ghost use Rattle.h2_cmd_inject.specs.Views.{AreOpeningLines, IsBelow, IsEnd, IsFront, IsItemShown, IsItemView, IsNumberedView, TakesAll, TakesIfThere, TalliesSince, begun, has_spoken, incoming_in, is_opening, item_parts, judged_of, opening_parts, since_with, tally_since, unjudged, viewing_of};
ghost use Rattle.h2_explain.specs.Explains.{shows_item};

use crate::aside::{put_parts, put_unjudged};
use crate::keeper::ScriptKeeper;
use h2_cmd_dialogue::step::{Incoming, Step};
use h2_cmd_dialogue::weave::{Parts, Weaver};
use h2_conn::{Conn, TakenItem, write_opening};
use h2_explain::{
    End, Form, Summary, Tally, put_text, rest_of, shows_item, shows_opening, summary_since,
};
use h2_explain_item::diagnosis::warning::Warnings;
use h2_explain_item::item::Explained;
use h2_explain_json::json::{Aside, Unjudged, put_opening};
use h2_explain_json::json_words::JsonWords;
use h2_explain_step::explainer::ItemExplainer;
use h2_explain_step::taking::{Observed, take_item};
use h2_explain_text::account::Account;
use h2_explain_text::lines::ItemLines;
use h2_explain_text::paint::Paint;
use h2_frame::{FrameRef, Part};
use h2_io::say::TextBuilder;
use h2_serve::numbered;
use h2_spec::frames::ItemHead;
use h2_spec::octets::octets_from;
use std::alloc::{AllocError, Global};

/// Whether the script has sent something, or kept something back.
fn has_spoken(parts: &Parts) -> bool
    ensures { result ≡ has_spoken parts.now }
{
    !parts.script.is_empty() || !parts.withheld.is_empty()
}

/// The number of the item at which the script has spoken first, if it has, with an item more.
fn since_with(since: Option<u64>, number: u64, parts: &Parts) -> Option<u64>
    ensures { result ≡ since_with since number parts.now }
{
    match since {
        Some(since) => Some(since),
        None => {
            if has_spoken(parts) {
                Some(number)
            } else {
                None
            }
        }
    }
}

/// What was observed of an item, without its error and its reason once the script has spoken.
fn judged(since: Option<u64>, item: &Explained<'_>) -> Observed
    ensures { result ≡ judged_of since item.now }
{
    let (cause, ignored) = match since {
        None => (item.cause, item.ignored),
        Some(_) => (None, None),
    };
    Observed {
        taken: TakenItem {
            used: item.used,
            item: item.what,
            cause,
            ignored,
        },
        before: item.before,
        after: item.after,
    }
}

/// What an item is for a script: of a frame that is too long the head alone.
fn incoming<'o>(item: &'o Explained<'_>) -> Incoming<'o>
    ensures { incoming_of result ≡ incoming_in item.now.what item.now.octets.now }
{
    match item.what {
        ItemHead::Preface | ItemHead::BadPreface => Incoming::Preface,
        ItemHead::Oversize(head) => Incoming::Frame(FrameRef { head, payload: &[] }),
        ItemHead::Frame(head) => Incoming::Frame(FrameRef {
            head,
            payload: item.payload(),
        }),
    }
}

/// What is not judged of an item, once the script has spoken.
fn unjudged(since: Option<u64>, item: &Explained<'_>) -> Option<Unjudged>
    ensures { result ≡ unjudged since item.now }
{
    match since {
        None => None,
        Some(since) => Some(Unjudged {
            since,
            cause: item.cause,
            is_connection: item.ends_connection(),
            ignored: item.ignored,
        }),
    }
}

/// What the script made of something, as JSON has it.
fn aside_of(parts: &Parts, unjudged: Option<Unjudged>) -> Aside<'_>
    ensures withheld { result.withheld.now ≡ parts.now.withheld }
    ensures script { result.script.now ≡ parts.now.script }
    ensures unjudged { result.unjudged ≡ unjudged }
{
    Aside {
        withheld: parts.withheld.as_slice(),
        script: parts.script.as_slice(),
        unjudged,
    }
}

/// Hands over what did not go out, and what the script sent.
fn keep<K: ScriptKeeper>(parts: &Parts, keeper: &mut K) {
    keeper.keep_withheld(parts.withheld.as_slice());
    keeper.keep_script(parts.script.as_slice());
}

/// A connection whose items are shown one after another.
#[derive(Drop)]
pub struct View<'b> {
    conn: Conn<'b, Global>,
    weaver: Weaver,
    /// What went out before the first item, and what did not.
    opening: Parts,
    explainer: ItemExplainer,
    /// What is counted of the items that are judged.
    tally: Tally,
    account: Account,
    lines: ItemLines,
    /// The number of the item at which the script has spoken first, if it has.
    since: Option<u64>,
    /// How many items were taken, and how many octets they have.
    items: u64,
    offset: usize,
}

impl<'b> View<'b> {
    /// Nothing was taken of a new connection, the one with this number.
    ///
    /// `AllocError` where memory is refused.
    fn begin<K: ScriptKeeper>(
        alloc: Global,
        form: Form,
        conn: Conn<'b, Global>,
        steps: &[Step],
        number: u32,
        keeper: &mut K,
    ) -> Result<View<'b>, AllocError>
        ensures ready { IfOk result (λ view. view.conn ≡ conn.entry) }
        ensures opening { IfOk result (λ view. view.opening ≡ opening_parts steps.now conn.entry.state) }
        ensures view { IfOk result (λ view. viewing_of view ≡ begun steps.now conn.entry.state) }
    {
        let mut sent = Vec::new(alloc);
        write_opening(conn.config(), &mut sent)?;
        let mut weaver = Weaver::new(alloc);
        let (opening, _is_step) = weaver.weave(alloc, steps, Incoming::Start, sent.as_slice())?;
        keeper.begin(number, sent.as_slice());
        keep(&opening, keeper);
        let since = since_with(None, 0, &opening);
        let mut explainer = ItemExplainer::new(alloc)?;
        explainer.is_full = form.full;
        Ok(View {
            conn,
            weaver,
            opening,
            explainer,
            tally: Tally::new(alloc),
            account: Account::new(alloc),
            lines: ItemLines::new(alloc)?,
            since,
            items: 0,
            offset: 0,
        })
    }

    /// Whether the opening is shown next.
    fn is_opening(&self, form: Form) -> bool
        ensures { result ≡ is_opening form self.now.items }
    {
        self.items == 0 && shows_opening(form)
    }

    /// The frames of the opening that a text shows next.
    fn opening_text(&self, form: Form) -> &[u8]
        ensures { result.now ≡ (if is_opening form self.now.items && not form.json then self.now.opening.sent else []) }
    {
        if self.is_opening(form) && !form.json {
            self.opening.sent.as_slice()
        } else {
            &[]
        }
    }

    /// Appends the line of the opening in JSON.
    fn put_opening(&self, alloc: Global, form: Form, out: &mut Vec<u8>) -> Result<(), AllocError>
        ensures { OnOk result (AppendsOne (IsFront (is_opening form self.now.items && form.json)) out.old.items out.new.items) }
    {
        if !(self.is_opening(form) && form.json) {
            return Ok(());
        }
        let mut words = JsonWords::over(TextBuilder::with(alloc, form.full));
        let aside = aside_of(&self.opening, None);
        put_opening(self.opening.sent.as_slice(), aside, form.brief, &mut words);
        out.extend_from_slice(words.finish()?.as_bytes())
    }

    /// Counts an item, unless the script has spoken: from there on it has no warnings, and nobody is blamed.
    fn judge(&mut self, item: &Explained<'_>) -> Result<(), AllocError>
        ensures tally { OnOk result (self.new.tally ≡ tally_since self.old.since self.old.tally item.now self.old.account.facts self.old.account.warnings) }
        ensures warnings { self.old.since ≡ None → self.new.account ≡ self.old.account }
        ensures rest { self.new ≡ record self.old { tally = self.new.tally; account = record self.old.account { warnings = self.new.account.warnings } } }
    {
        if let Some(_) = self.since {
            self.account.warnings = Warnings::none();
            return Ok(());
        }
        self.tally
            .note(item, self.account.facts, self.account.warnings)
    }

    /// Puts the frames of the opening that a text shows next in the place of those that the server sends.
    fn fit(&mut self, form: Form) -> Result<(), AllocError>
        ensures frames { OnOk result (self.new.account.opening.items ≡ (if (self.old.items == 0) && not form.json then self.old.opening.sent else [])) }
        ensures rest { self.new ≡ record self.old { account = record self.old.account { opening = self.new.account.opening } } }
    {
        self.account.opening.clear();
        if self.items == 0 && !form.json {
            self.account
                .opening
                .extend_from_slice(self.opening.sent.as_slice())?;
        }
        Ok(())
    }

    /// Appends the lines of what the script made of the opening, where that is shown next.
    fn put_opening_parts(
        &self,
        alloc: Global,
        form: Form,
        out: &mut Vec<u8>,
    ) -> Result<(), AllocError>
        ensures { OnOk result (AppendsOne (AreOpeningLines form.color (is_opening form self.now.items) self.now.opening) out.old.items out.new.items) }
    {
        if self.is_opening(form) {
            return put_parts(alloc, &self.opening, Paint(form.color), out);
        }
        Ok(())
    }

    /// Appends the lines below an item of a text: what did not go out, what the script sent, and, once it has spoken, the error that
    /// is not judged.
    fn put_aside(
        &self,
        alloc: Global,
        form: Form,
        item: &Explained<'_>,
        parts: &Parts,
        out: &mut Vec<u8>,
    ) -> Result<(), AllocError>
        ensures { OnOk result (AppendsOne (IsBelow form.json form.color (is_opening form self.now.items) self.now.opening self.now.since parts.now item.now)
            out.old.items out.new.items) }
    {
        if form.json {
            return Ok(());
        }
        let paint = Paint(form.color);
        self.put_opening_parts(alloc, form, out)?;
        put_unjudged(alloc, self.since, item, paint, out)?;
        put_parts(alloc, parts, paint, out)
    }

    /// Appends what is shown of an item, with what went out for it: its lines, or its line of JSON.
    fn put_item(
        &mut self,
        alloc: Global,
        form: Form,
        item: &Explained<'_>,
        parts: &Parts,
        out: &mut Vec<u8>,
    ) -> Result<(), AllocError>
        ensures text { OnOk result (AppendsOne (IsItemShown (shows_item form item.now self.old.account.warnings) form (is_opening form self.old.items)
            self.old.opening self.old.since parts.now item.now self.old.account.changes.items) out.old.items out.new.items) }
        ensures rest { self.new ≡ record self.old { account = self.new.account; lines = self.new.lines } }
    {
        if !shows_item(form, item, self.account.warnings) {
            return Ok(());
        }
        let sent = parts.sent.as_slice();
        let observed = judged(self.since, item);
        let shown = observed.item(item.number, item.offset, item.ahead, sent);
        let _part: Option<Part<'_>> = shown.part; // the borrow checker asks where this type is
        let block = self.explainer.block(&self.conn);
        let aside = aside_of(parts, unjudged(self.since, item));
        let (account, lines) = (&mut self.account, &mut self.lines);
        put_text(alloc, form, &shown, account, block, aside, lines)?;
        out.extend_from_slice(self.lines.octets())?;
        self.put_aside(alloc, form, item, parts, out)
    }

    /// Shows an item that was taken, and hands over what the script made of it.
    fn show<K: ScriptKeeper>(
        &mut self,
        alloc: Global,
        form: Form,
        steps: &[Step],
        item: &Explained<'_>,
        keeper: &mut K,
        out: &mut Vec<u8>,
    ) -> Result<(), AllocError>
        ensures ready { self.new.conn ≡ self.old.conn }
        ensures opening { self.new.opening ≡ self.old.opening }
        ensures weaver { OnOk result (self.new.weaver ≡ after_item steps.now self.old.weaver (incoming_in item.now.what item.now.octets.now)) }
        ensures since { OnOk result (self.new.since ≡ since_with self.old.since item.now.number (item_parts steps.now self.old.weaver item.now)) }
        ensures tally { OnOk result (TalliesSince self.old.since self.old.tally item.now self.new.tally) }
        ensures text { OnOk result (AppendsOne (IsItemView form self.old.conn.state (is_opening form self.old.items) self.old.opening self.old.since
            (item_parts steps.now self.old.weaver item.now) item.now) out.old.items out.new.items) }
        ensures counts { (self.new.items ≡ self.old.items) × (self.new.offset ≡ self.old.offset) }
    {
        self.explainer
            .account(alloc, &self.conn, item, &mut self.account)?;
        self.judge(item)?;
        self.fit(form)?;
        let (parts, _is_step) = self.weaver.weave(alloc, steps, incoming(item), item.sent)?;
        self.put_item(alloc, form, item, &parts, out)?;
        keep(&parts, keeper);
        self.since = since_with(self.since, item.number, &parts);
        Ok(())
    }

    /// Takes the item that octets begin with, if there is a whole one, and shows it. Gives how many octets it has.
    fn take<K: ScriptKeeper>(
        &mut self,
        alloc: Global,
        form: Form,
        steps: &[Step],
        octets: &[u8],
        keeper: &mut K,
        out: &mut Vec<u8>,
    ) -> Result<Option<usize>, AllocError>
        requires ready { self.old.conn ≡ going self.old.conn.state [] }
        ensures ready { OnOk result (self.new.conn ≡ going self.new.conn.state []) }
        ensures opening { self.new.opening ≡ self.old.opening }
        ensures taken { IfOk result (λ used. TakesIfThere form steps.now self.old.opening (viewing_of self.old) octets.now (viewing_of self.new)
            out.old.items out.new.items used) }
    {
        let mut sent = Vec::new(alloc);
        let memory = &mut self.explainer.memory;
        let Some(observed) = take_item(&mut self.conn, octets, memory, &mut sent)? else {
            return Ok(None);
        };
        let number = self.items.saturating_add(1);
        let item = observed.item(number, self.offset, octets, sent.as_slice());
        let _part: Option<Part<'_>> = item.part; // as above
        keeper.record(&item);
        self.show(alloc, form, steps, &item, keeper, out)?;
        self.items = number;
        self.offset = self.offset.saturating_add(observed.taken.used);
        Ok(Some(observed.taken.used))
    }

    /// Takes each item that octets begin with, and shows it. Gives how many octets they have.
    fn take_all<K: ScriptKeeper>(
        &mut self,
        alloc: Global,
        form: Form,
        steps: &[Step],
        octets: &[u8],
        keeper: &mut K,
        out: &mut Vec<u8>,
    ) -> Result<usize, AllocError>
        requires ready { self.old.conn ≡ going self.old.conn.state [] }
        ensures opening { OnOk result (self.new.opening ≡ self.old.opening) }
        ensures within { IfOk result (λ used. used ≤ length octets.now) }
        ensures taken { IfOk result (λ used. AppendsOne (TakesAll form steps.now self.old.opening (viewing_of self.old) octets.now (viewing_of self.new)
            (drop used octets.now)) out.old.items out.new.items) }
    {
        let mut at = 0usize;
        loop {
            match self.take(alloc, form, steps, octets_from(octets, at), keeper, out)? {
                Some(used) => at += used,
                None => return Ok(at),
            }
        }
    }

    /// Appends the end, where these octets are left; before it, where no item came, the opening.
    fn end(
        &self,
        alloc: Global,
        form: Form,
        octets: &[u8],
        out: &mut Vec<u8>,
    ) -> Result<(), AllocError>
        ensures { OnOk result (AppendsOne (IsEnd form self.now.opening (viewing_of self.now) (length octets.now)) out.old.items out.new.items) }
    {
        let end = End {
            form,
            conn: &self.conn,
            explainer: &self.explainer,
            tally: &self.tally,
            rest: rest_of(&self.conn, self.items, self.offset, octets),
            since: self.since,
        };
        let text = end.said_after(alloc, self.opening_text(form))?;
        out.extend_from_slice(text.as_bytes())?;
        if form.json {
            return Ok(());
        }
        self.put_opening_parts(alloc, form, out)
    }
}

/// What is shown of the connection with this number, which is new and takes these octets, with a script of these steps, each line
/// after the number; and what sums it up. Its octets, its items, and what the script made of them are handed to `keeper`.
///
/// `AllocError` where memory is refused.
pub fn view_of<K: ScriptKeeper>(
    alloc: Global,
    form: Form,
    conn: Conn<'_, Global>,
    steps: &[Step],
    number: u32,
    octets: &[u8],
    keeper: &mut K,
) -> Result<(Vec<u8>, Summary), AllocError>
    requires { conn ≡ going conn.state [] }
    ensures { IfOk result (λ shown. IsNumberedView form steps.now number conn.entry.state octets.now shown.0.items shown.1) }
{
    let mut view = View::begin(alloc, form, conn, steps, number, keeper)?;
    keeper.keep_read(octets);
    let mut text = Vec::new(alloc);
    view.put_opening(alloc, form, &mut text)?;
    let used = view.take_all(alloc, form, steps, octets, keeper, &mut text)?;
    let rest = octets_from(octets, used);
    view.end(alloc, form, rest, &mut text)?;
    keeper.end(true);
    let shown = numbered(alloc, form.json, number, text.as_slice())?;
    let left = rest.len();
    let summary = summary_since(&view.conn, &view.tally, view.items, left, view.since);
    Ok((shown, summary))
}

//! The end of an explanation: the octets that are left, the warnings of the end, what each live stream waits for, and
//! what `--strict` says of the client. Definitions: `specs/Explains.antt`, the form: docs/EXPLAIN.md.

ghost use Rattle.std.specs.Prelude.{◌≡◌, false, IfOk};
ghost use Rattle.std.specs.String.{string_bytes};
ghost use Rattle.h2_explain.specs.Explains.{AreEndLines, EndsLineOrNone, IsRestOf, IsRestText};
ghost use Rattle.h2_explain.specs.TallyWords.{EndsWithTally, all_warnings};
ghost use Rattle.h2_explain_text.specs.Lines.{EndsLine};
ghost use Rattle.h2_explain_text.specs.Rest.{rest_of};

use crate::run::Form;
use crate::shown::{shows_opening, shows_stream};
use crate::verdict::{Tally, is_answer_unfinished, summary_since};
use crate::verdict_words::{TallyWords, by_cause, put_verdict};
use h2_conn::{Conn, is_ended};
use h2_explain_item::diagnosis::warning::{Warning, Warnings, all_warnings, is_unacknowledged};
use h2_explain_json::end::{put_end, put_wait};
use h2_explain_json::json::{Aside, Unjudged, line_of, put_opening};
use h2_explain_json::json_words::JsonWords;
use h2_explain_json::member;
use h2_explain_json::warnings::put_warnings;
use h2_explain_step::explainer::{ItemExplainer, opening_of};
use h2_explain_text::paint::{Paint, Role};
use h2_explain_text::rest::{InputRest, missing_of, rest_line, say_place};
use h2_explain_text::waits::{say_wait, wait_of};
use h2_io::say::TextBuilder;
use h2_io::{say_all, string_of, texts};
use std::alloc::{AllocError, Allocator};

/// What is after the last item of a connection that had that many items; `offset` is how many octets came before these.
pub fn rest_of<A: Allocator + Copy>(
    conn: &Conn<'_, A>,
    items: u64,
    offset: usize,
    octets: &[u8],
) -> InputRest
    ensures { result ≡ rest_of conn.now.state items offset octets.now }
{
    InputRest {
        items,
        offset,
        octets: octets.len(),
        ended: conn.ended(),
        missing: missing_of(conn.counts().phase, octets),
    }
}

/// What the end of an explanation is made from.
pub struct End<'e, 'b, A: Allocator> {
    /// Whether it is written as text or as JSON.
    pub form: Form,
    /// The connection after its last item.
    pub conn: &'e Conn<'b, A>,
    /// What was known after the last item.
    pub explainer: &'e ItemExplainer<A>,
    /// The errors and warnings of the items.
    pub tally: &'e Tally<A>,
    /// What is after the last item.
    pub rest: InputRest,
    /// The number of the item since which nobody is blamed, if there is one: a script has spoken there.
    pub since: Option<u64>,
}

/// By hand, since a derived `clone` copies field by field.
impl<A: Allocator> Clone for End<'_, '_, A> {
    ghost is_clone = { λ x y. y ≡ x };

    ghost is_infallible = { λ _. Unit {0} };

    fn clone(&self) -> Result<Self, AllocError> {
        Ok(*self)
    }
}

impl<A: Allocator> Copy for End<'_, '_, A> {}

impl<A: Allocator + Copy> End<'_, '_, A> {
    /// The warnings of the end; none where nobody is blamed.
    fn warnings(&self) -> Warnings {
        if self.since.is_some() {
            return Warnings::none();
        }
        Warnings {
            unacknowledged: is_unacknowledged(&self.conn.counts()),
            answer_unfinished: is_answer_unfinished(self.conn),
            ..Warnings::none()
        }
    }

    /// How many warnings there were in all.
    fn warning_count(&self) -> u64
        ensures { result ≡ all_warnings self.now.since self.now.tally.now self.now.conn.now.state }
    {
        let of_the_end = match (
            self.since,
            is_unacknowledged(&self.conn.counts()),
            is_answer_unfinished(self.conn),
        ) {
            (Some(_), _, _) | (None, false, false) => 0,
            (None, true, false) | (None, false, true) => 1,
            (None, true, true) => 2,
        };
        let tally = self.tally;
        tally.warnings.saturating_add(of_the_end)
    }

    /// Begins a line, after the one before.
    fn begin(&self, out: &mut TextBuilder<A>) {
        let paint = Paint(self.form.color);
        if out.len() > 0 {
            paint.end(out);
        }
        say_place(self.rest.offset, paint, out);
    }

    /// Puts the two lines of each warning last.
    fn say_warnings(&self, out: &mut TextBuilder<A>) {
        let warnings = self.warnings();
        for warning in all_warnings() {
            if warnings.has(*warning) {
                self.say_warning(*warning, out);
            }
        }
    }

    /// Puts the two lines of a warning last.
    fn say_warning(&self, warning: Warning, out: &mut TextBuilder<A>) {
        let paint = Paint(self.form.color);
        self.begin(out);
        say_all!(out; "warning: ", warning.name(), ", ", warning.section());
        paint.end(out);
        paint.begin(Role::Item, out);
        say_all!(out; warning.sentence());
    }

    /// Puts a line last for each live stream that is shown, unless the connection has ended.
    fn say_waits(&self, out: &mut TextBuilder<A>) {
        let (counts, config) = (self.conn.counts(), self.conn.config());
        if is_ended(counts.phase) {
            return;
        }
        for stream in self.explainer.live.keys() {
            if shows_stream(self.form.stream, *stream) {
                self.begin(out);
                let wait = wait_of(&self.conn.stream(*stream), &counts);
                say_wait(&wait, &config, out);
            }
        }
    }

    /// The lines after that of the octets that are left, without the end of the last, and without the words of the tally.
    fn words(&self, alloc: A) -> Result<String<A>, AllocError> {
        let mut words = TextBuilder::new(alloc);
        self.say_warnings(&mut words);
        self.say_waits(&mut words);
        if self.form.strict {
            self.begin(&mut words);
        }
        words.finish()
    }

    /// These words and those of the tally, as lines.
    fn with_tally(&self, alloc: A, words: &str) -> Result<String<A>, AllocError>
        ensures { IfOk result (λ text. EndsWithTally self.now.since self.now.form.color self.now.conn.now.state self.now.rest.items self.now.tally.now (string_bytes text)) }
    {
        let tally = self.tally;
        let by_cause = by_cause(alloc, tally.errors.as_slice())?;
        let said = TallyWords {
            items: self.rest.items,
            errors: tally.errors.len() as u64,
            warnings: self.warning_count(),
            by_cause: by_cause.as_str(),
            since: self.since,
        };
        string_of(alloc, &texts!(words, said, Paint(self.form.color).ended()))
    }

    /// The lines after that of the octets that are left.
    fn lines(&self, alloc: A) -> Result<String<A>, AllocError>
        ensures { IfOk result (λ text. AreEndLines self.now.since self.now.form.strict self.now.form.color self.now.conn.now.state self.now.rest.items self.now.tally.now (string_bytes text)) }
    {
        let words = self.words(alloc)?;
        if self.form.strict {
            return self.with_tally(alloc, words.as_str());
        }
        if words.is_empty() {
            return Ok(String::new(alloc));
        }
        let paint = Paint(self.form.color);
        string_of(alloc, &texts!(words.as_str(), paint.ended()))
    }

    /// The text, with the line of the octets that are left; before it, where no item came, the server's opening.
    fn text(&self, alloc: A, opening: &[u8]) -> Result<String<A>, AllocError>
        ensures { IfOk result (λ text. IsRestOf self.now.since false self.now.form.strict self.now.form.color self.now.conn.now.state self.now.rest.items self.now.tally.now self.now.rest.octets (string_bytes text)) }
    {
        let rest = rest_line(alloc, self.rest, opening, Paint(self.form.color))?;
        let lines = self.lines(alloc)?;
        string_of(alloc, &texts!(rest.as_str(), lines.as_str()))
    }

    /// Puts what each live stream that is shown waits for, if any stream is live.
    fn put_waits(&self, out: &mut JsonWords<A>) {
        let (counts, config) = (self.conn.counts(), self.conn.config());
        if is_ended(counts.phase) || self.explainer.live.is_empty() {
            return;
        }
        out.open_list(member!("waits"));
        for stream in self.explainer.live.keys() {
            if shows_stream(self.form.stream, *stream) {
                let wait = wait_of(&self.conn.stream(*stream), &counts);
                put_wait(&wait, &config, out);
            }
        }
        out.close_list();
    }

    /// Puts what is said about the client.
    fn put_verdict(&self, out: &mut JsonWords<A>) {
        if self.form.strict {
            let (items, left) = (self.rest.items, self.rest.octets);
            let summary = summary_since(self.conn, self.tally, items, left, self.since);
            put_verdict(self.tally, summary.verdict, self.warning_count(), out);
        }
    }

    /// That the end is not judged, where it is not.
    fn unjudged(&self) -> Option<Unjudged> {
        match self.since {
            None => None,
            Some(since) => Some(Unjudged {
                since,
                cause: None,
                is_connection: false,
                ignored: None,
            }),
        }
    }

    /// The last line of JSON; before it, where no item came, that of the server's opening.
    fn json(&self, alloc: A, opening: &[u8]) -> Result<String<A>, AllocError>
        ensures { IfOk result (λ text. EndsLine false (string_bytes text)) }
    {
        let mut out = JsonWords::over(TextBuilder::new(alloc));
        put_opening(opening, Aside::none(), self.form.brief, &mut out);
        out.open_element();
        out.open(member!("end"));
        put_end(self.rest, self.unjudged(), &mut out);
        self.put_verdict(&mut out);
        self.put_waits(&mut out);
        put_warnings(self.warnings(), &mut out);
        out.close();
        out.close();
        line_of(out)
    }

    /// The end in the form that is asked for; before it, where no item came, the server's opening, if it is given.
    ///
    /// `AllocError` where memory is refused.
    pub fn said_after(&self, alloc: A, opening: &[u8]) -> Result<String<A>, AllocError>
        ensures { IfOk result (λ text. IsRestText self.now.since self.now.form self.now.conn.now.state self.now.rest.items self.now.tally.now self.now.rest.octets (string_bytes text)) }
    {
        if self.form.json {
            self.json(alloc, opening)
        } else {
            self.text(alloc, opening)
        }
    }

    /// The end in the form that is asked for; before it, where no item came, the server's opening, if it is shown.
    pub(crate) fn said(&self, alloc: A) -> Result<String<A>, AllocError>
        ensures { IfOk result (λ text. IsRestText self.now.since self.now.form self.now.conn.now.state self.now.rest.items self.now.tally.now self.now.rest.octets (string_bytes text)) }
    {
        let is_asked = self.rest.items == 0 && shows_opening(self.form);
        let opening = opening_of(alloc, self.conn, is_asked)?;
        self.said_after(alloc, opening.as_slice())
    }
}

//! What `--strict` says at the end, as a line of text and as JSON: how many items there were, the errors by cause, and
//! how many warnings. Definitions of the line: `specs/TallyWords.antt`, the form: docs/EXPLAIN.md.

ghost use Rattle.h2_explain.specs.TallyWords.{number_of, since_words, tally_words};

use crate::verdict::{ClientVerdict, Tally};
use h2_explain_json::json_words::JsonWords;
use h2_explain_json::member;
use h2_io::say::TextBuilder;
use h2_io::{DeviceFault, Number, Output, Text, say_all, texts};
use h2_spec::causes::Cause;
use std::alloc::{AllocError, Allocator};

/// How many places there are for counts; there are fewer causes.
const PLACES: usize = 256;

/// How many errors each cause has.
fn counts_of(errors: &[Cause]) -> [u64; PLACES] {
    let mut counts = [0u64; PLACES];
    for cause in errors {
        if let Some(count) = counts.get_mut(*cause as usize) {
            *count = count.saturating_add(1);
        }
    }
    counts
}

/// How many errors a cause has, where it was not asked for before; else 0.
fn take_count(counts: &mut [u64], cause: Cause) -> u64 {
    match counts.get_mut(cause as usize) {
        Some(count) => {
            let taken = *count;
            *count = 0;
            taken
        }
        None => 0,
    }
}

/// A number of things: `no error`, `1 error`, `2 errors`.
#[derive(Clone, Copy)]
struct NumberOf<'w>(u64, &'w str);

impl Text for NumberOf<'_> {
    ghost text = { λ n. number_of n.0 n.1.now };

    fn write_to<O: Output>(&self, output: &mut O) -> Result<(), DeviceFault> {
        match self.0 {
            0 => texts!("no ", self.1).write_to(output),
            1 => texts!("1 ", self.1).write_to(output),
            _ => texts!(Number(self.0), " ", self.1, "s").write_to(output),
        }
    }
}

/// How many errors each cause has, in the order in which they came first.
///
/// `AllocError` where memory is refused.
pub(crate) fn by_cause<A: Allocator>(alloc: A, errors: &[Cause]) -> Result<String<A>, AllocError> {
    let mut out = TextBuilder::new(alloc);
    let mut counts = counts_of(errors);
    let mut between = " (";
    for cause in errors {
        let count = take_count(&mut counts, *cause);
        if count > 0 {
            say_all!(&mut out; between, cause.name(), " ", count);
            between = ", ";
        }
    }
    if !errors.is_empty() {
        say_all!(&mut out; ")");
    }
    out.finish()
}

/// That nobody is blamed since an item, if it is so.
#[derive(Clone, Copy)]
struct SinceWords(Option<u64>);

#[tactic(auto, unfolding(crate::specs::TallyWords::since_words))]
impl Text for SinceWords {
    ghost text = { λ s. since_words s.0 };

    fn write_to<O: Output>(&self, output: &mut O) -> Result<(), DeviceFault> {
        match self.0 {
            None => texts!("").write_to(output),
            Some(since) => {
                let number = Number(since);
                texts!("; not judged, the script has spoken since #", number).write_to(output)
            }
        }
    }
}

/// How many items there were, their errors, and how many warnings, with those of the end.
#[derive(Clone, Copy)]
pub(crate) struct TallyWords<'w> {
    /// How many items there were.
    pub(crate) items: u64,
    /// How many errors.
    pub(crate) errors: u64,
    /// How many warnings.
    pub(crate) warnings: u64,
    /// How many errors each cause has, in words.
    pub(crate) by_cause: &'w str,
    /// The item since which nobody is blamed, if there is one.
    pub(crate) since: Option<u64>,
}

#[tactic(auto, unfolding(crate::specs::TallyWords::tally_words))]
impl Text for TallyWords<'_> {
    ghost text = { λ t. tally_words t.since t.items t.errors t.warnings t.by_cause.now };

    fn write_to<O: Output>(&self, output: &mut O) -> Result<(), DeviceFault> {
        let (items, errors) = (NumberOf(self.items, "item"), NumberOf(self.errors, "error"));
        let (warnings, since) = (NumberOf(self.warnings, "warning"), SinceWords(self.since));
        texts!(items, ", ", errors, self.by_cause, ", ", warnings, since).write_to(output)
    }
}

/// Puts how many errors a cause has, as an element.
fn put_count<A: Allocator>(cause: Cause, count: u64, out: &mut JsonWords<A>) {
    out.open_element();
    out.plain(member!("cause"), cause.name());
    out.number(member!("count"), count);
    out.close();
}

/// Puts how many errors each cause has, in the order in which they came first.
fn put_errors<A: Allocator>(errors: &[Cause], out: &mut JsonWords<A>) {
    let mut counts = counts_of(errors);
    out.open_list(member!("errors"));
    for cause in errors {
        let count = take_count(&mut counts, *cause);
        if count > 0 {
            put_count(*cause, count, out);
        }
    }
    out.close_list();
}

/// Puts what is said about the client.
pub(crate) fn put_verdict<A: Allocator>(
    tally: &Tally<A>,
    verdict: ClientVerdict,
    warnings: u64,
    out: &mut JsonWords<A>,
) {
    out.open(member!("verdict"));
    out.flag(member!("broken"), verdict.broken);
    put_errors(tally.errors.as_slice(), out);
    out.flag(member!("limited"), verdict.limited);
    out.flag(member!("unfinished"), verdict.unfinished);
    out.number(member!("warnings"), warnings);
    out.close();
}

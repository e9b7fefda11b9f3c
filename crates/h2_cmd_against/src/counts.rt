//! How many cases there are of each kind, and which rules the server broke. Definitions: `specs/Results.antt`.

ghost use Rattle.std.specs.Prelude.{◌≡◌, ◌++◌, IfOk, OnOk, false, flat_map, is_err, map};
ghost use Rattle.std.specs.List.{position};
ghost use Rattle.h2_cmd_against.specs.Results.{broken_by, broken_in, broken_name, broken_section, counted, counted_if, counts_text, end_text, first_broken, have_name, is_broken, is_named, is_passed, named, named_at, no_counts, others_text, rule_text, unbroken_text, with_broken, with_rule, with_skipped, with_verdict};

use crate::ends::CaseEnd;
use h2_cmd_items::sent::Sent;
use h2_cmd_judge::case::{Finding, Judgement};
use h2_cmd_judge::judge::Verdict;
use h2_io::{DeviceFault, Gathered, Number, Output, Text, texts};
use std::alloc::{AllocError, Global};

/// How many cases there are.
#[derive(Clone, Copy)]
pub struct Counts {
    pub all: u64,
    pub same: u64,
    pub allowed: u64,
    pub doubtful: u64,
    pub broken: u64,
    pub skipped: u64,
    /// Those that can't be played.
    pub refused: u64,
}

/// A rule that a server may break.
#[derive(Clone, Copy)]
pub enum Broken {
    /// That of a row, by its name and its section.
    Named(&'static str, &'static str),
    /// RST_STREAM on a stream that no frame of the client is on.
    Stray,
    /// A field block that can't be read.
    Unreadable,
}

impl Broken {
    /// Its name.
    fn name(self) -> &'static str
        ensures { result.now ≡ broken_name self }
    {
        match self {
            Broken::Named(name, _) => name,
            Broken::Stray => "rst-stream-on-idle",
            Broken::Unreadable => "unreadable-block",
        }
    }

    /// Its section.
    fn section(self) -> &'static str
        ensures { result.now ≡ broken_section self }
    {
        match self {
            Broken::Named(_, section) => section,
            Broken::Stray => "RFC 9113 6.4",
            Broken::Unreadable => "RFC 9113 4.3",
        }
    }
}

/// A rule that the server broke, and in how many cases.
#[derive(Clone, Copy)]
pub struct Rule {
    pub broken: Broken,
    pub count: u64,
}

#[tactic(auto, unfolding(crate::specs::Results::rule_text))]
impl Text for Rule {
    ghost text = { λ r. rule_text r };

    fn write_to<O: Output>(&self, output: &mut O) -> Result<(), DeviceFault> {
        let (name, section) = (self.broken.name(), self.broken.section());
        let count = Number(self.count);
        texts!("# broken: ", name, ", ", section, ": cases ", count, "\n").write_to(output)
    }
}

/// The first half of the line of counts: what did not break a rule.
#[derive(Clone, Copy)]
struct Unbroken(Counts);

#[tactic(auto, unfolding(crate::specs::Results::unbroken_text))]
impl Text for Unbroken {
    ghost text = { λ u. unbroken_text u.0 };

    fn write_to<O: Output>(&self, output: &mut O) -> Result<(), DeviceFault> {
        let (same, allowed) = (Number(self.0.same), Number(self.0.allowed));
        let doubtful = Number(self.0.doubtful);
        texts!(
            "# same ",
            same,
            ", allowed ",
            allowed,
            ", doubtful ",
            doubtful
        )
        .write_to(output)
    }
}

/// The second half, and how many there are in all.
#[derive(Clone, Copy)]
struct Others(Counts);

#[tactic(auto, unfolding(crate::specs::Results::others_text))]
impl Text for Others {
    ghost text = { λ o. others_text o.0 };

    fn write_to<O: Output>(&self, output: &mut O) -> Result<(), DeviceFault> {
        let (broken, skipped) = (Number(self.0.broken), Number(self.0.skipped));
        let all = Number(self.0.all);
        texts!(
            ", broken ",
            broken,
            ", skipped ",
            skipped,
            "\n1..",
            all,
            "\n"
        )
        .write_to(output)
    }
}

impl Text for Counts {
    ghost text = { λ c. counts_text c };

    fn write_to<O: Output>(&self, output: &mut O) -> Result<(), DeviceFault> {
        texts!(Unbroken(*self), Others(*self)).write_to(output)
    }
}

impl Counts {
    /// No case yet.
    pub fn new() -> Counts
        ensures { result ≡ no_counts }
    {
        Counts {
            all: 0,
            same: 0,
            allowed: 0,
            doubtful: 0,
            broken: 0,
            skipped: 0,
            refused: 0,
        }
    }

    /// Whether no rule is broken, and each case can be played.
    pub fn is_passed(self) -> bool
        ensures { result ≡ is_passed self }
    {
        self.broken == 0 && self.refused == 0
    }

    /// With one case more.
    pub fn with_end(self, end: &CaseEnd) -> Counts
        ensures { result ≡ counted self end.now }
    {
        let all = self.all.saturating_add(1);
        let counts = Counts { all, ..self };
        match end {
            CaseEnd::Judged(judgement) => counts.with_verdict(judgement.verdict),
            CaseEnd::Skipped(_) => counts.with_skipped(),
            CaseEnd::Refused(_) => Counts {
                refused: counts.refused.saturating_add(1),
                ..counts
            },
        }
    }

    /// One of them was passed over.
    fn with_skipped(self) -> Counts
        ensures { result ≡ with_skipped self }
    {
        Counts {
            skipped: self.skipped.saturating_add(1),
            ..self
        }
    }

    /// One of them has this verdict.
    fn with_verdict(self, verdict: Verdict) -> Counts
        ensures { result ≡ with_verdict self verdict }
    {
        match verdict {
            Verdict::Same => Counts {
                same: self.same.saturating_add(1),
                ..self
            },
            Verdict::Allowed => Counts {
                allowed: self.allowed.saturating_add(1),
                ..self
            },
            Verdict::Doubtful => Counts {
                doubtful: self.doubtful.saturating_add(1),
                ..self
            },
            Verdict::Broken => Counts {
                broken: self.broken.saturating_add(1),
                ..self
            },
            Verdict::Skipped(_) => self.with_skipped(),
        }
    }
}

/// The place of the first finding that is broken.
fn broken_place(findings: &[Finding]) -> Option<usize>
    ensures { result ≡ position (λ f. is_broken f.verdict) findings.now }
{
    findings
        .iter()
        .position(|finding| is_broken(finding.verdict))
}

/// The rule of an item.
fn named(item: &Sent) -> Broken
    ensures { result ≡ named item.now }
{
    Broken::Named(item.row.name, item.row.section)
}

/// The rule of the item at a place.
fn named_at(sent: &[Sent], place: usize) -> Option<Broken>
    ensures { result ≡ named_at sent.now place }
{
    match sent.get(place) {
        Some(item) => Some(named(item)),
        None => None,
    }
}

/// The rule of the first finding that is broken.
fn first_broken(sent: &[Sent], findings: &[Finding]) -> Option<Broken>
    ensures { result ≡ first_broken sent.now findings.now }
{
    match broken_place(findings) {
        Some(place) => named_at(sent, place),
        None => None,
    }
}

/// Whether a verdict is that a rule is broken.
fn is_broken(verdict: Verdict) -> bool
    ensures { result ≡ is_broken verdict }
{
    match verdict {
        Verdict::Broken => true,
        Verdict::Same | Verdict::Allowed | Verdict::Doubtful | Verdict::Skipped(_) => false,
    }
}

/// The first rule that the server broke in a case with these items.
fn broken_in(sent: &[Sent], judgement: &Judgement) -> Option<Broken>
    ensures { result ≡ broken_in sent.now judgement.now }
{
    if judgement.stray.is_some() {
        return Some(Broken::Stray);
    }
    if judgement.unreadable.is_some() {
        return Some(Broken::Unreadable);
    }
    first_broken(sent, judgement.findings.as_slice())
}

/// The same of what came of the case.
fn broken_by(sent: &[Sent], end: &CaseEnd) -> Option<Broken>
    ensures { result ≡ broken_by sent.now end.now }
{
    match end {
        CaseEnd::Judged(judgement) => broken_in(sent, judgement),
        CaseEnd::Skipped(_) | CaseEnd::Refused(_) => None,
    }
}

/// Whether a rule has this name.
fn is_named(rule: Rule, name: &str) -> bool
    ensures { result ≡ is_named name.now rule }
{
    rule.broken.name() == name
}

/// A rule, counted once more where it has this name.
fn counted_if(rule: Rule, name: &str) -> Rule
    ensures { result ≡ counted_if name.now rule }
{
    if is_named(rule, name) {
        let count = rule.count.saturating_add(1);
        return Rule { count, ..rule };
    }
    rule
}

/// Whether one of these has this name.
fn have_name(rules: &[Rule], name: &str) -> bool
    ensures { result ≡ have_name name.now rules.now }
{
    for rule in rules {
        if is_named(*rule, name) {
            return true;
        }
    }
    false
}

/// These, of which the one with this name is counted once more.
fn counted_rules(alloc: Global, rules: &[Rule], name: &str) -> Result<Vec<Rule>, AllocError>
    ensures { IfOk result (λ found. found.items ≡ map (counted_if name.now) rules.now) }
{
    let mut found = Vec::new(alloc);
    for rule in rules {
        match found.push(counted_if(*rule, name)) {
            Ok(()) => {}
            Err(_) => return Err(AllocError),
        }
    }
    Ok(found)
}

/// Counts a rule that was broken in a case.
fn count_rule(alloc: Global, rules: &mut Vec<Rule>, broken: Broken) -> Result<(), AllocError>
    ensures { OnOk result (rules.new.items ≡ with_rule rules.old.items broken) }
{
    let name = broken.name();
    if have_name(rules.as_slice(), name) {
        *rules = counted_rules(alloc, rules.as_slice(), name)?;
        return Ok(());
    }
    match rules.push(Rule { broken, count: 1 }) {
        Ok(()) => Ok(()),
        Err(_) => Err(AllocError),
    }
}

/// Counts the first rule that the server broke in a case with these items, if it broke one.
///
/// `AllocError` where memory is refused.
pub fn count_broken(
    alloc: Global,
    rules: &mut Vec<Rule>,
    sent: &[Sent],
    end: &CaseEnd,
) -> Result<(), AllocError>
    ensures { OnOk result (rules.new.items ≡ with_broken rules.old.items (broken_by sent.now end.now)) }
{
    match broken_by(sent, end) {
        Some(broken) => count_rule(alloc, rules, broken),
        None => Ok(()),
    }
}

/// The lines of the rules that were broken.
fn put_rules(rules: &[Rule], out: &mut Gathered) -> Result<(), DeviceFault>
    requires { out.old.failed ≡ false }
    ensures written { OnOk result (out.new.octets.items ≡ out.old.octets.items ++ flat_map rule_text rules.now) }
    ensures flag { out.new.failed ≡ is_err result }
{
    for rule in rules {
        rule.write_to(out)?;
    }
    Ok(())
}

/// The lines at the end: the rules that were broken, how many cases there are of each kind, and how many in all.
///
/// `AllocError` where memory is refused.
pub fn end_text(alloc: Global, counts: Counts, rules: &[Rule]) -> Result<Vec<u8>, AllocError>
    ensures { IfOk result (λ text. text.items ≡ end_text counts rules.now) }
{
    let mut out = Gathered::new(alloc);
    if put_rules(rules, &mut out).is_err() || counts.write_to(&mut out).is_err() {
        return Err(AllocError);
    }
    Ok(out.octets)
}

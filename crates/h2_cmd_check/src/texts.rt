//! The texts of `explain` for the items of a case. They are made before its lines are gone over, of all its octets, as
//! `explain` makes them of the whole script. Definitions: `specs/ItemTexts.antt`.

ghost use Rattle.std.specs.Prelude.{◌≡◌, ◌⊎◌, ◌+◌, ◌++◌, ◌∷◌, [], false, flat_map, length, map, string_bytes, IfErr, IfOk, OnOk};
ghost use Rattle.h2_conn.specs.Connection.{going};
ghost use Rattle.h2_explain_step.specs.Explained.{IsTextOf};
ghost use Rattle.h2_spec.specs.State.{is_allowed, opening};
ghost use Rattle.h2_cmd_check.specs.ItemTexts.{AreTexts, AreTextsOf, TakesText, have_explained, octets_at, octets_of_lines, octets_or_none, octets_said, says_explained, text_before};
ghost use Rattle.h2_cmd_cases.specs.Lines.{line_said};
ghost use Rattle.h2_cmd_check.specs.declared.fault.CaseFault.TheVariants.{BadConfig, NoMemory};

use crate::fault::CaseFault;
use h2_cmd_cases::{Line, line_of};
use h2_conn::{Conn, ConnFault};
use h2_explain_item::item::Explained;
use h2_explain_step::explainer::ItemExplainer;
use h2_explain_step::taking::take_item;
use h2_explain_text::account::Account;
use h2_explain_text::lines::ItemLines;
use h2_explain_text::paint::Paint;
use h2_frame::Part;
use h2_request_book::book::Book;
use h2_script::{LineFault, add_line};
use h2_spec::connection::Config;
use h2_spec::octets::octets_from;
use std::alloc::{AllocError, Global};

/// Whether a line says one of `explain`.
fn says_explained(line: &[u8]) -> bool
    ensures { result ≡ says_explained (line_said line.now) }
{
    match line_of(line) {
        Line::Explained(_) => true,
        Line::Script(_)
        | Line::Title(_)
        | Line::Words(_)
        | Line::Sent(_)
        | Line::Shown(_)
        | Line::Cause(_)
        | Line::Reason(_)
        | Line::Command(_)
        | Line::Unspaced(_) => false,
    }
}

/// Whether lines do.
fn have_explained(lines: &[&[u8]]) -> bool
    ensures { result ≡ have_explained (map (λ l. l.now) lines.now) }
{
    lines.iter().any(|line| says_explained(line))
}

/// Appends the octets of a line of a script, if it is one.
fn add_script(alloc: Global, text: &[u8], octets: &mut Vec<u8>) -> Result<(), AllocError>
    ensures { OnOk result (octets.new.items ≡ octets.old.items ++ octets_or_none (octets_at text.now)) }
{
    let mut more = Vec::new(alloc);
    match add_line(alloc, text, &mut more) {
        Ok(()) => octets.extend_from_slice(more.as_slice()),
        Err(LineFault::Bad(_)) => Ok(()),
        Err(LineFault::NoMemory) => Err(AllocError),
    }
}

/// Appends the octets of a line of a case.
fn add_octets(alloc: Global, line: &[u8], octets: &mut Vec<u8>) -> Result<(), AllocError>
    ensures { OnOk result (octets.new.items ≡ octets.old.items ++ octets_said (line_said line.now)) }
{
    match line_of(line) {
        Line::Script(text) => add_script(alloc, text, octets),
        Line::Title(_)
        | Line::Words(_)
        | Line::Sent(_)
        | Line::Shown(_)
        | Line::Cause(_)
        | Line::Reason(_)
        | Line::Explained(_)
        | Line::Command(_)
        | Line::Unspaced(_) => Ok(()),
    }
}

/// The octets of the lines of a case.
///
/// `AllocError` where memory is refused.
pub fn octets_of_lines(alloc: Global, lines: &[&[u8]]) -> Result<Vec<u8>, AllocError>
    ensures { IfOk result (λ octets. octets.items ≡ octets_of_lines (map (λ l. l.now) lines.now)) }
{
    let mut octets = Vec::new(alloc);
    for line in lines {
        add_octets(alloc, line, &mut octets)?;
    }
    Ok(octets)
}

/// The text of these octets. `AllocError` where they are not UTF-8, which those of a text are.
fn text_with(alloc: Global, octets: &[u8]) -> Result<String, AllocError>
    ensures { IfOk result (λ text. string_bytes text ≡ octets.now) }
{
    match String::from_utf8(Vec::from_slice(alloc, octets)?) {
        Ok(text) => Ok(text),
        Err(_) => Err(AllocError),
    }
}

/// The text of an item that a connection has just taken.
fn text_of(
    alloc: Global,
    explainer: &mut ItemExplainer,
    conn: &Conn<'_, Global>,
    item: &Explained<'_>,
) -> Result<String, AllocError>
    ensures { IfOk result (λ text. IsTextOf false false false conn.now.state item.now (string_bytes text)) }
{
    let mut account = Account::new(alloc);
    explainer.account(alloc, conn, item, &mut account)?;
    account.is_brief = false;
    let mut lines = ItemLines::new(alloc)?;
    lines.put(item, &account, explainer.block(conn), Paint(false))?;
    text_with(alloc, lines.octets())
}

/// Appends a text to others.
fn add_text(text: String, texts: &mut Vec<String>) -> Result<(), AllocError>
    ensures { OnOk result (map string_bytes texts.new.items ≡ map string_bytes texts.old.items ++ string_bytes text ∷ []) }
{
    match texts.push(text) {
        Ok(()) => Ok(()),
        Err(_) => Err(AllocError),
    }
}

/// Takes the item that octets begin with, if there is a whole one, and appends its text to those of the items before it,
/// which had this many octets. Gives how many octets it has; `sent` has what was sent for it.
///
/// `AllocError` where memory is refused.
fn take_text(
    alloc: Global,
    explainer: &mut ItemExplainer,
    conn: &mut Conn<'_, Global>,
    octets: &[u8],
    offset: usize,
    sent: &mut Vec<u8>,
    texts: &mut Vec<String>,
) -> Result<Option<usize>, AllocError>
    requires ready { conn.old ≡ going conn.old.state [] }
    ensures ready { conn.new ≡ going conn.new.state [] }
    ensures takes { IfOk result (λ used. TakesText conn.old.state octets.now offset (map string_bytes texts.old.items) conn.new (map string_bytes texts.new.items) used) }
{
    sent.clear();
    let Some(observed) = take_item(conn, octets, &mut explainer.memory, sent)? else {
        return Ok(None);
    };
    let number = texts.len() as u64 + 1;
    let item = observed.item(number, offset, octets, sent.as_slice());
    let _part: Option<Part<'_>> = item.part; // the borrow checker asks where this type is
    let text = text_of(alloc, explainer, conn, &item)?;
    add_text(text, texts)?;
    Ok(Some(observed.taken.used))
}

/// The texts of the items of octets, by what an explainer knows that is new.
fn explain_items(
    alloc: Global,
    explainer: &mut ItemExplainer,
    conn: &mut Conn<'_, Global>,
    octets: &[u8],
) -> Result<Vec<String>, AllocError>
    requires ready { conn.old ≡ going conn.old.state [] }
    ensures { IfOk result (λ texts. AreTexts conn.old.state octets.now 0 0 (map string_bytes texts.items)) }
{
    let mut texts = Vec::new(alloc);
    let mut sent = Vec::new(alloc);
    let mut at = 0usize;
    loop {
        let rest = octets_from(octets, at);
        match take_text(alloc, explainer, conn, rest, at, &mut sent, &mut texts) {
            Ok(Some(used)) => at += used,
            Ok(None) => return Ok(texts),
            Err(error) => return Err(error),
        }
    }
}

/// The texts of the items of octets on a connection that is new.
fn explain_on(
    alloc: Global,
    conn: &mut Conn<'_, Global>,
    octets: &[u8],
) -> Result<Vec<String>, AllocError>
    requires ready { conn.old ≡ going conn.old.state [] }
    ensures { IfOk result (λ texts. AreTexts conn.old.state octets.now 0 0 (map string_bytes texts.items)) }
{
    let mut explainer = ItemExplainer::new(alloc)?;
    explain_items(alloc, &mut explainer, conn, octets)
}

/// The texts of the items of octets, with this book, these limits and these settings.
fn explain_octets(
    alloc: Global,
    book: &Book<Global>,
    config: Config,
    octets: &[u8],
) -> Result<Vec<String>, CaseFault>
    ensures texts { IfOk result (λ texts. AreTexts (opening book.now config) octets.now 0 0 (map string_bytes texts.items)) }
    ensures fault { IfErr result (λ fault. (fault ≡ NoMemory) ⊎ ((fault ≡ BadConfig) × (is_allowed config ≡ false))) }
{
    let mut sent = Vec::new(alloc);
    match Conn::new(book, config, &mut sent) {
        Ok(mut conn) => match explain_on(alloc, &mut conn, octets) {
            Ok(texts) => Ok(texts),
            Err(_) => Err(CaseFault::NoMemory),
        },
        Err(ConnFault::BadConfig) => Err(CaseFault::BadConfig),
        Err(_) => Err(CaseFault::NoMemory),
    }
}

// Made before the lines of a case are compared, of all its octets and on a connection of its own: so a line
// `;>` is compared with what `explain` prints of the whole script.
/// The texts of the items of a case, with this book, these limits and these settings; none where no line of it says one
/// of `explain`.
///
/// # Errors
///
/// `BadConfig` where a limit or a setting is out of range; `NoMemory` where memory is refused.
pub fn item_texts(
    alloc: Global,
    book: &Book<Global>,
    config: Config,
    lines: &[&[u8]],
) -> Result<Vec<String>, CaseFault>
    ensures texts { IfOk result (λ texts. AreTextsOf book.now config (map (λ l. l.now) lines.now) (map string_bytes texts.items)) }
    ensures fault { IfErr result (λ fault. (fault ≡ NoMemory) ⊎ ((fault ≡ BadConfig) × (is_allowed config ≡ false))) }
{
    if !have_explained(lines) {
        return Ok(Vec::new(alloc));
    }
    match octets_of_lines(alloc, lines) {
        Ok(octets) => explain_octets(alloc, book, config, octets.as_slice()),
        Err(_) => Err(CaseFault::NoMemory),
    }
}

/// The text of the last one of this many items; empty where there is none.
pub fn text_before(texts: &[String], items: usize) -> &str
    ensures { result.now ≡ text_before (map string_bytes texts.now) items }
{
    if items == 0 {
        return "";
    }
    if items > texts.len() {
        return "";
    }
    texts[items - 1].as_str()
}

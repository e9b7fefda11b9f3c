//! The rule of an item. Definitions: `specs/Rules.antt`; which of what is accepted an item shows, and whether the RFC leaves a
//! server more than the row says, no definition says.

ghost use Rattle.std.specs.Prelude.{◌≡◌};
ghost use Rattle.h2_spec.specs.Causes.Rules.{row_shown};
ghost use Rattle.h2_cmd_items.specs.Rules.{IsRowOf, IsRowWithoutError};

use crate::run::Run;
use h2_explain_item::diagnosis::accepted::{all_listed, is_accepted};
use h2_explain_item::diagnosis::fields::value_of;
use h2_explain_item::diagnosis::special::{
    case_of_error, case_of_reason, rule_of_cause, rule_of_reason,
};
use h2_explain_item::diagnosis::warning::opens_stream;
use h2_explain_item::item::Explained;
use h2_explain_item::shown_block::{ShownBlock, SpelledFields};
use h2_explain_text::account::Account;
use h2_explain_text::others::ended_fields;
use h2_frame::Part;
use h2_spec::accepted::Accepted;
use h2_spec::causes::Cause;
use h2_spec::conforming::Least;
use h2_spec::frames::FrameType;
use h2_spec::rules::Row;
use h2_spec::streams::is_live;

/// How many octets of fields each server should take: RFC 9110, 4.1, recommends that of a URI alone.
const SUPPORTED: u64 = 8_000;

/// What is lawful, by the frame.
fn lawful(item: &Explained<'_>) -> Accepted {
    match item.part {
        Some(Part::Settings(_)) => Accepted::Settings,
        Some(Part::Ping(_)) => Accepted::Ping,
        Some(Part::Goaway(_, _)) => Accepted::Goaway,
        _ => Accepted::Lawful,
    }
}

/// The same of an item that ends a field block.
fn lawful_block(item: &Explained<'_>, block: ShownBlock<'_>) -> Accepted {
    if !block.updates.is_empty() {
        Accepted::SizeUpdates
    } else if is_live(item.before.stream.kind) {
        Accepted::Trailers
    } else {
        Accepted::Lawful
    }
}

/// What a server may refuse of an item that ends a field block, though nothing in its fields is wrong.
fn refusable(item: &Explained<'_>, block: ShownBlock<'_>, run: &Run) -> Option<Accepted> {
    if opens_stream(item) && run.is_flood() {
        Some(Accepted::SkippedPriorityFlood)
    } else if SUPPORTED < block.fields.decoded().list_size() {
        Some(Accepted::LargeFieldSection)
    } else if run.has_long_integer() {
        Some(Accepted::LongInteger)
    } else {
        None
    }
}

/// Whether a row lets a server refuse.
fn may_refuse(row: Row) -> bool {
    match row.duties.conforming.least {
        Least::Accept | Least::Ignore => false,
        Least::Connection | Least::Stream | Least::Malformed | Least::None => true,
    }
}

/// What is accepted of an item beside this: the first that lets a server refuse it, else the last.
fn accepted_besides(
    item: &Explained<'_>,
    account: &Account,
    fields: Option<SpelledFields<'_>>,
    other: Accepted,
) -> Accepted {
    let mut found = other;
    for accepted in all_listed() {
        if !may_refuse(found.row()) && is_accepted(*accepted, item, account.warnings, fields) {
            found = *accepted;
        }
    }
    found
}

/// What is accepted of an item that ends a field block.
fn accepted_block(
    item: &Explained<'_>,
    account: &Account,
    block: ShownBlock<'_>,
    run: &Run,
) -> Accepted {
    let other = lawful_block(item, block);
    let found = accepted_besides(item, account, Some(block.fields), other);
    match refusable(item, block, run) {
        Some(other) if !may_refuse(found.row()) => other,
        _ => found,
    }
}

/// What is accepted of an item.
fn accepted_of(
    item: &Explained<'_>,
    account: &Account,
    block: ShownBlock<'_>,
    run: &Run,
) -> Accepted {
    match ended_fields(account, block.fields) {
        Some(_) => accepted_block(item, account, block, run),
        None => accepted_besides(item, account, None, lawful(item)),
    }
}

/// The row of an item that is no error.
fn row_without_error(
    item: &Explained<'_>,
    account: &Account,
    block: ShownBlock<'_>,
    run: &Run,
) -> Row
    ensures { IsRowWithoutError item.now.ignored item.now (row_shown result) }
{
    match item.ignored {
        Some(reason) => rule_of_reason(reason, case_of_reason(item, account.facts)),
        None => accepted_of(item, account, block, run).row(),
    }
}

/// The row of an item's rule; `block` is its field block, and `run` has noted the items up to it.
pub fn row_of(item: &Explained<'_>, account: &Account, block: ShownBlock<'_>, run: &Run) -> Row
    ensures { IsRowOf item.now result }
{
    match item.cause {
        Some(cause) => rule_of_cause(cause, case_of_error(item, account.facts)),
        None => row_without_error(item, account, block, run),
    }
}

/// Whether fields have one with this name, and one that is empty where only that counts.
fn has_field(fields: SpelledFields<'_>, name: &[u8], is_empty: bool) -> bool {
    for place in 0..fields.len() {
        let Some(field) = fields.get(place) else {
            break;
        };
        if field.name == name && (!is_empty || field.value.is_empty()) {
            return true;
        }
    }
    false
}

/// Whether fields have :protocol (RFC 8441, 4).
pub fn has_protocol(fields: SpelledFields<'_>) -> bool {
    has_field(fields, b":protocol".as_slice(), false)
}

/// Whether fields have the method POST.
pub fn is_post(fields: SpelledFields<'_>) -> bool {
    match value_of(b":method", fields) {
        Some(method) => method == b"POST".as_slice(),
        None => false,
    }
}

/// Whether an item is a frame of a type that is not known.
fn is_unknown_type(item: &Explained<'_>) -> bool {
    match item.head() {
        Some(head) => matches!(head.frame_type(), FrameType::Unknown(_)),
        None => false,
    }
}

/// Whether the RFC leaves a server more than a row says: an empty :path may be taken for one that is there (RFC 9113,
/// 8.3.1), a frame of an unknown type be ignored before SETTINGS (3.4 and 5.5); and what a client may not send although it is
/// no error may be refused, where no row says what a server does then.
pub fn is_left(
    item: &Explained<'_>,
    account: &Account,
    row: Row,
    fields: SpelledFields<'_>,
) -> bool {
    match item.cause {
        Some(Cause::LackingPseudoField) => has_field(fields, b":path".as_slice(), true),
        Some(Cause::FirstNotSettings) => is_unknown_type(item),
        Some(_) => false,
        None => !may_refuse(row) && account.warnings.broken_count() > 0,
    }
}

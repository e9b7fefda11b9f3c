//! The octets of a case, as they are sent and judged. Definitions: `specs/CaseItems.antt`.

ghost use Rattle.std.specs.Prelude.{◌≡◌, ◌⊎◌, ◌++◌, false, IfErr, IfOk, map};
ghost use Rattle.h2_spec.specs.State.{is_allowed, opening};
ghost use Rattle.h2_cmd_items.specs.declared.items.ItemsFault.TheVariants.{BadConfig, NoMemory};
ghost use Rattle.h2_cmd_items.specs.CaseItems.{IsCase, IsCaseOf, asks_of, ends_of, is_unfinished, last_end};

use crate::due::{Whole, acknowledgements, dues, highest, judged};
use crate::items::{Items, ItemsFault, items_of};
use crate::sent::Sent;
use h2_cmd_judge::case::Due;
use h2_cmd_judge::event::Seen;
use h2_request_book::book::Book;
use h2_spec::connection::Config;
use std::alloc::{AllocError, Global};

/// The octets of a case, as they are sent and judged.
#[derive(Drop)]
pub struct CaseItems {
    pub octets: Vec<u8>,
    /// The places after the pieces in which they are sent: the items, and what is after the last whole one.
    pub ends: Vec<usize>,
    /// The items that are judged.
    pub dues: Vec<Due>,
    /// The same as they were sent.
    pub judged: Vec<Sent>,
    /// What this server does.
    pub own: Vec<Seen>,
    /// The highest stream that a frame of the case is on.
    pub highest: u32,
    /// Whether a request of the case is a POST.
    pub is_post: bool,
    /// Whether a PING at the end is lawful: SETTINGS came, and neither a field block nor a frame is open.
    pub asks: bool,
}

/// The place after the last item.
fn last_end(items: &[Sent]) -> usize
    ensures { result ≡ last_end 0 items.now }
{
    let mut end = 0usize;
    for item in items {
        end = item.end;
    }
    end
}

/// The places after the pieces in which octets are sent.
fn ends_of(alloc: Global, items: &[Sent], length: usize) -> Result<Vec<usize>, AllocError>
    ensures { IfOk result (λ ends. ends.items ≡ ends_of items.now length) }
{
    let mut ends = Vec::new(alloc);
    for item in items {
        match ends.push(item.end) {
            Ok(()) => {}
            Err(_) => return Err(AllocError),
        }
    }
    if last_end(items) < length {
        match ends.push(length) {
            Ok(()) => {}
            Err(_) => return Err(AllocError),
        }
    }
    Ok(ends)
}

/// Whether octets end in a block or a frame that is open, on a connection that has not ended.
fn is_unfinished(items: &[Sent], length: usize, opens: bool, is_ended: bool) -> bool
    ensures { result ≡ is_unfinished items.now length opens is_ended }
{
    !is_ended && (opens || last_end(items) < length)
}

/// Whether a PING at the end is lawful.
fn asks_of(items: &[Sent], unfinished: bool) -> bool
    ensures { result ≡ asks_of items.now unfinished }
{
    0 < acknowledgements(items) && !unfinished
}

/// Octets with these items, as they are sent and judged.
fn case_of(
    alloc: Global,
    octets: Vec<u8>,
    items: Items,
    is_tagged: bool,
) -> Result<CaseItems, AllocError>
    ensures { IfOk result (λ x. IsCaseOf octets.items items.sent.items items.own.items items.opens items.is_ended is_tagged x) }
{
    let sent = items.sent.as_slice();
    let length = octets.len();
    let is_unfinished = is_unfinished(sent, length, items.opens, items.is_ended);
    let whole = Whole {
        length,
        is_unfinished,
        is_tagged,
    };
    let ends = ends_of(alloc, sent, length)?;
    let dues = dues(alloc, sent, whole)?;
    let judged = judged(alloc, sent)?;
    Ok(CaseItems {
        ends,
        dues,
        judged,
        highest: highest(sent),
        is_post: items.is_post,
        asks: asks_of(sent, is_unfinished),
        octets,
        own: items.own,
    })
}

/// The octets of a case on a new connection with this book, these limits and these settings, as they are sent and judged;
/// `is_tagged`: the case says that the RFC leaves a server more than this server does.
///
/// # Errors
///
/// Those of `items_of`.
pub fn case_items(
    alloc: Global,
    book: &Book<Global>,
    config: Config,
    octets: Vec<u8>,
    is_tagged: bool,
) -> Result<CaseItems, ItemsFault>
    ensures items { IfOk result (λ x. IsCase (opening book.now config) octets.items is_tagged x) }
    ensures fault { IfErr result (λ fault. (fault ≡ NoMemory) ⊎ ((fault ≡ BadConfig) × (is_allowed config ≡ false))) }
{
    let items = items_of(alloc, book, config, octets.as_slice())?;
    match case_of(alloc, octets, items, is_tagged) {
        Ok(found) => Ok(found),
        Err(_) => Err(ItemsFault::NoMemory),
    }
}

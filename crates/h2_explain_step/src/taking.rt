//! An item that a connection takes, with what is looked at of the connection before it and after it. Definitions:
//! `specs/Explained.antt`.

ghost use Rattle.std.specs.Prelude.{◌≡◌, [], IfOk, IfSome, OnErr, option_map};
ghost use Rattle.h2_conn.specs.Connection.{going};
ghost use Rattle.h2_conn.specs.First.{TakesIfAny};
ghost use Rattle.h2_explain_step.specs.Explained.{IsItemOf, Observes, moment_of, stream_ahead};

use h2_conn::{Conn, Scratch, TakenItem};
use h2_explain_item::item::{Explained, Moment, part_in};
use h2_frame::{Outgoing, read_head};
use h2_spec::connection::Phase;
use h2_spec::octets::first_octets;
use std::alloc::{AllocError, Allocator};

/// An item that a connection took, without its octets.
#[derive(Clone, Copy)]
pub struct Observed {
    /// What the connection reported of it.
    pub taken: TakenItem,
    /// The connection before it.
    pub before: Moment,
    /// The connection after it.
    pub after: Moment,
}

impl Observed {
    /// The item, where it has this number, this many octets came before it, it begins these octets, and these were sent for
    /// it.
    #[inline(always)]
    pub fn item<'o>(
        &self,
        number: u64,
        offset: usize,
        octets: &'o [u8],
        sent: &'o [u8],
    ) -> Explained<'o>
        ensures { IsItemOf self.now number offset octets.now sent.now result }
    {
        let taken = self.taken;
        let own = first_octets(octets, taken.used);
        Explained {
            number,
            offset,
            octets: own,
            ahead: octets,
            used: taken.used,
            what: taken.item,
            part: part_in(taken.item, own),
            cause: taken.cause,
            ignored: taken.ignored,
            sent,
            before: self.before,
            after: self.after,
        }
    }
}

/// What is looked at of a connection, with one of its streams.
#[inline(always)]
fn moment_at<A: Allocator + Copy>(conn: &Conn<'_, A>, stream: u32) -> Moment
    ensures { result ≡ moment_of conn.now.state stream }
{
    let stream = conn.stream(stream);
    Moment {
        counts: conn.counts(),
        block: conn.open_block(),
        entries: conn.table_entries(),
        table_size: conn.table_size(),
        table_max: conn.table_max(),
        stream,
    }
}

/// The stream of the frame that octets begin with, 0 where none can be seen or the preface is awaited.
fn stream_ahead(phase: Phase, octets: &[u8]) -> u32
    ensures { result ≡ stream_ahead phase octets.now }
{
    if let Phase::Preface = phase {
        return 0;
    }
    match read_head(octets) {
        Some(head) => head.stream,
        None => 0,
    }
}

/// Takes the item that octets begin with, if there is a whole one. What is sent for it is appended to `out`; the fields
/// that it shows of its block are lent with this memory.
///
/// `AllocError` where memory is refused: nothing of the item is done, and the same item can be taken again.
#[inline(always)]
pub fn take_item<'b, A: Allocator + Copy, O: Outgoing<'b, A>>(
    conn: &mut Conn<'b, A>,
    octets: &[u8],
    memory: &mut Scratch<A>,
    out: &mut O,
) -> Result<Option<Observed>, AllocError>
    requires ready { conn.old ≡ going conn.old.state [] }
    ensures takes { IfOk result (λ item. TakesIfAny conn.old.state octets.now (O.octets out.old) conn.new.state (O.octets out.new) (option_map (λ o. o.taken.used) item)) }
    ensures item { IfOk result (λ item. IfSome item (Observes conn.old.state octets.now (O.octets out.old) (O.octets out.new) conn.new)) }
    ensures ready { conn.new ≡ going conn.new.state [] }
    ensures unchanged { OnErr result ((conn.new ≡ conn.old) × (O.octets out.new ≡ O.octets out.old)) }
{
    let stream = stream_ahead(conn.counts().phase, octets);
    let before = moment_at(conn, stream);
    let Some(taken) = conn.take_and_lend(octets, memory, out)? else {
        return Ok(None);
    };
    Ok(Some(Observed {
        taken,
        before,
        after: moment_at(conn, stream),
    }))
}

//! The places of a run, and which of them are written. Definitions: `specs/Places.antt`.

ghost use Rattle.std.specs.Prelude.{◌≡◌, ◌<◌, ◌^◌, ◌++◌, ℕ, List, [], Some, false, length, IfOk, IfErr, OnOk, is_err};
ghost use Rattle.std.specs.Io.KnownBytes.{Appends};
ghost use Rattle.std.specs.List.{concat};
ghost use Rattle.h2_spec.specs.Trace.{trace};
ghost use Rattle.h2_spec.specs.Texts.View.{view};
ghost use Rattle.h2_conn.specs.Connection.{going};
ghost use Rattle.h2_cmd_play.specs.Places.{StopsAt, TakesNext, Writes, all_shown, goes_on, item_text, item_texts, items_shown, not_written, places_from, text_shown};
ghost use Rattle.h2_cmd_play.specs.declared.places.PlacesFault.TheVariants.{NoMemory, NotWritten};

use h2_conn::Conn;
use h2_conn_view::hex_text::OctetsText;
use h2_io::{DeviceFault, Number, Output, Text, texts};
use h2_spec::octets::octets_from;
use std::alloc::Allocator;

/// Why places were not all written.
#[derive(Clone, Copy)]
pub enum PlacesFault {
    /// Memory was refused.
    NoMemory,
    /// A write of the output failed.
    NotWritten,
}

/// Which places of a run are written: those from this one on, up to the last one; to the end where there is no last.
/// Place 0 is the start of the connection, place N the one after its N-th item.
#[derive(Clone, Copy)]
pub struct ShownPlaces {
    pub first: usize,
    pub last: Option<usize>,
}

impl ShownPlaces {
    /// All of them.
    pub fn all() -> ShownPlaces
        ensures { result ≡ all_shown }
    {
        ShownPlaces {
            first: 0,
            last: None,
        }
    }

    /// Whether a place comes before the last one, so that its next item is taken.
    pub fn goes_on(self, place: usize) -> bool
        ensures { result ≡ goes_on self place }
    {
        match self.last {
            Some(last) => place < last,
            None => true,
        }
    }
}

/// A place of a run: how many items came before it, the octets sent for the last of them, and the text of the state.
#[derive(Drop)]
struct ItemText<'p, 'b, A: Allocator> {
    place: usize,
    sent: &'p [u8],
    conn: &'p Conn<'b, A>,
}

#[tactic(auto, using(h2_io::proofs::Appending::both), unfolding(crate::specs::Places::item_text))]
impl<A: Allocator> Text for ItemText<'_, '_, A> {
    ghost text = { λ x. item_text x.place x.sent.now (view x.conn.now.state) };

    fn write_to<O: Output>(&self, output: &mut O) -> Result<(), DeviceFault> {
        let place = Number(self.place as u64);
        let sent = OctetsText(self.sent);
        texts!("item ", place, "\nsent ", sent, "\n").write_to(output)?;
        self.conn.write_to(output)
    }
}

/// Writes a text of a place where that is not before the first one that is written; else nothing.
///
/// `NotWritten` where the output failed, and only then.
pub fn write_shown<O: Output, T: Text>(
    output: &mut O,
    shown: ShownPlaces,
    place: usize,
    text: &T,
) -> Result<(), PlacesFault>
    requires { O.has_failed output.old ≡ false }
    ensures octets { OnOk result (Appends (O.written output.old) (O.written output.new) (text_shown shown.first place (T.text text.now))) }
    ensures err { IfErr result (λ why. why ≡ NotWritten) }
    ensures flag { O.has_failed output.new ≡ not_written result }
    ensures name { O.name output.new ≡ O.name output.old }
{
    if shown.first > place {
        return Ok(());
    }
    match text.write_to(output) {
        Ok(()) => Ok(()),
        Err(_) => Err(PlacesFault::NotWritten),
    }
}

/// Writes the text of a place, where it is shown. Takes no memory.
///
/// `NotWritten` where the output failed, and only then.
fn write_place<A: Allocator, O: Output>(
    output: &mut O,
    shown: ShownPlaces,
    place: usize,
    sent: &[u8],
    conn: &Conn<'_, A>,
) -> Result<(), PlacesFault>
    requires { O.has_failed output.old ≡ false }
    ensures octets { OnOk result (Appends (O.written output.old) (O.written output.new) (text_shown shown.first place (item_text place sent.now (view conn.now.state)))) }
    ensures err { IfErr result (λ why. why ≡ NotWritten) }
    ensures flag { O.has_failed output.new ≡ not_written result }
    ensures name { O.name output.new ≡ O.name output.old }
{
    write_shown(output, shown, place, &ItemText { place, sent, conn })
}

/// Takes the next item of the octets, and says how many it has; `None` where there is none. `sent` gains what is sent.
fn take_next<A: Allocator + Copy>(
    conn: &mut Conn<'_, A>,
    octets: &[u8],
    sent: &mut Vec<u8, A>,
) -> Result<Option<usize>, PlacesFault>
    requires new { conn.old ≡ going conn.old.state [] }
    requires nothing { sent.old.items ≡ [] }
    ensures ok { IfOk result (TakesNext conn.old.state octets.now conn.new sent.new.items) }
    ensures err { IfErr result (λ why. why ≡ NoMemory) }
{
    let one = match conn.feed_one(octets, sent) {
        Ok(one) => one,
        Err(_) => return Err(PlacesFault::NoMemory),
    };
    if !one.item {
        return Ok(None);
    }
    Ok(Some(one.used))
}

/// Takes each item of a connection over the octets, from place 1 on, until no place is left that is written; writes
/// those that are.
///
/// `NoMemory` where memory is refused: the places of some first items were written. `NotWritten` where a write failed.
fn write_items<A: Allocator + Copy, O: Output>(
    alloc: A,
    conn: &mut Conn<'_, A>,
    octets: &[u8],
    shown: ShownPlaces,
    output: &mut O,
) -> Result<(), PlacesFault>
    requires new { conn.old ≡ going conn.old.state [] }
    requires few { length octets.now < 2 ^ 63 }
    requires writer { O.has_failed output.old ≡ false }
    ensures printed { let items = item_texts 1 (trace conn.old.state octets.now).events in
        OnOk result ((held : List ℕ) → O.written output.old ≡ Some held → O.written output.new ≡ Some (held ++ concat (items_shown shown items))) }
    ensures cut { let items = item_texts 1 (trace conn.old.state octets.now).events in
        IfErr result (λ why. (held : List ℕ) → O.written output.old ≡ Some held → StopsAt shown items held (O.written output.new) why) }
    ensures flag { O.has_failed output.new ≡ not_written result }
    ensures name { O.name output.new ≡ O.name output.old }
{
    let mut at = 0usize;
    let mut place = 0usize;
    while shown.goes_on(place) {
        let mut sent = Vec::new(alloc);
        match take_next(conn, octets_from(octets, at), &mut sent) {
            Ok(Some(used)) => {
                at += used;
                place += 1;
                write_place(output, shown, place, sent.as_slice(), conn)?;
            }
            Ok(None) => return Ok(()),
            Err(_) => return Err(PlacesFault::NoMemory),
        }
    }
    Ok(())
}

/// Writes the places of a run that are shown: the start of a connection, for which these octets were sent, and each of
/// its items.
///
/// `NoMemory` where memory is refused: the places of some first part of the run were written. `NotWritten` where a
/// write failed.
pub fn write_places<A: Allocator + Copy, O: Output>(
    alloc: A,
    conn: &mut Conn<'_, A>,
    sent: &[u8],
    octets: &[u8],
    shown: ShownPlaces,
    output: &mut O,
) -> Result<(), PlacesFault>
    requires new { conn.old ≡ going conn.old.state [] }
    requires few { length octets.now < 2 ^ 63 }
    requires writer { O.has_failed output.old ≡ false }
    ensures printed { let places = places_from (item_text 0 sent.now (view conn.old.state)) conn.old.state octets.now in
        (held : List ℕ) → O.written output.old ≡ Some held → Writes shown places held (O.written output.new) result }
    ensures flag { O.has_failed output.new ≡ not_written result }
    ensures name { O.name output.new ≡ O.name output.old }
{
    write_place(output, shown, 0, sent, conn)?;
    write_items(alloc, conn, octets, shown, output)
}

//! A whole run: a new connection, and octets in pieces of any lengths (RFC 9113, 3.4). The program does not call
//! `play`, which is for users of the library: `open_and_feed` does the same and returns the connection, whose text is
//! written without a view. Definitions: h2_spec's `specs/Trace.antt`, `specs/Runs.antt`.

ghost use Rattle.std.specs.Prelude.{◌≡◌, true, ◌+◌, ◌≤◌, [], length, take, IfErr, IfOk, OnOk, OnErr};
ghost use Rattle.h2_spec.specs.State.{opening};
ghost use Rattle.h2_spec.specs.Texts.View.{view};
ghost use Rattle.h2_conn.specs.Connection.{going};
ghost use Rattle.h2_spec.specs.State.{is_allowed};
ghost use Rattle.h2_conn.specs.Faults.{refusal_for};
ghost use Rattle.h2_conn.specs.Granted.{SendsWithinGrants};
ghost use Rattle.h2_conn.specs.Runs.{Fed, Opens, Plays};
ghost use Rattle.h2_conn.specs.declared.fault.ConnFault.TheVariants.{NoMemory};

use crate::conn::Conn;
use crate::fault::ConnFault;
use crate::view::View;
use h2_conn_send::octets_at;
use h2_frame::Outgoing;
use h2_request_book::book::Book;
use h2_spec::connection::Config;
use h2_spec::octets::octets_from;
use std::alloc::Allocator;

/// Feeds a connection the octets in pieces of these lengths, then what remains.
fn feed_pieces<'b, A: Allocator + Copy, O: Outgoing<'b, A>>(
    conn: &mut Conn<'b, A>,
    octets: &[u8],
    lengths: &[usize],
    out: &mut O,
) -> Result<(), ConnFault>
    requires { conn.old ≡ going conn.old.state [] }
    ensures ok { OnOk result (Fed conn.old octets.now (O.octets out.old) conn.new (O.octets out.new)) }
    ensures fault { IfErr result (λ fault. fault ≡ NoMemory) }
    ensures kept { take (length (O.octets out.old)) (O.octets out.new) ≡ O.octets out.old }
{
    let mut at = 0usize;
    for length in lengths {
        let count = (octets.len() - at).min(*length);
        conn.feed(octets_at(octets, at, count), out)?;
        at += count;
    }
    conn.feed(octets_from(octets, at), out)?;
    Ok(())
}

/// Feeds a connection the octets in pieces of these lengths, then what remains; where memory is refused, `out` is cut
/// to a length.
fn feed_or_cut<'b, A: Allocator + Copy, O: Outgoing<'b, A>>(
    conn: &mut Conn<'b, A>,
    octets: &[u8],
    lengths: &[usize],
    before: usize,
    out: &mut O,
) -> Result<(), ConnFault>
    requires new { conn.old ≡ going conn.old.state [] }
    requires within { before ≤ length (O.octets out.old) }
    ensures ok { OnOk result (Fed conn.old octets.now (O.octets out.old) conn.new (O.octets out.new)) }
    ensures fault { IfErr result (λ fault. fault ≡ NoMemory) }
    ensures cut { OnErr result (O.octets out.new ≡ take before (O.octets out.old)) }
{
    match feed_pieces(conn, octets, lengths, out) {
        Ok(()) => Ok(()),
        Err(fault) => {
            out.keep_first(before);
            Err(fault)
        }
    }
}

/// Opens a connection and feeds it the octets, cut into pieces of these lengths and what remains; a length above the
/// rest takes the rest.
///
/// `out` gains the opening SETTINGS and all frames sent. The connection is the same however the octets are cut.
///
/// # Errors
///
/// `BadConfig` where a limit or a setting is outside its range (`Config::is_allowed`); then `NoMemory`. Both leave
/// `out` as it was.
pub fn open_and_feed<'b, A: Allocator + Copy, O: Outgoing<'b, A>>(
    book: &'b Book<A>,
    config: Config,
    octets: &[u8],
    lengths: &[usize],
    out: &mut O,
) -> Result<Conn<'b, A>, ConnFault>
    ensures ok { IfOk result (λ conn. Opens book.now config octets.now (O.octets out.old) conn (O.octets out.new)) }
    ensures grants { OnOk result (SendsWithinGrants book.now config octets.now (O.octets out.old) (O.octets out.new)) }
    ensures allowed { OnOk result (is_allowed config ≡ true) }
    ensures fault { IfErr result (λ fault. fault ≡ refusal_for (is_allowed config)) }
    ensures unchanged { OnErr result (O.octets out.new ≡ O.octets out.old) }
{
    let before = out.len();
    let mut conn = Conn::new(book, config, out)?;
    feed_or_cut(&mut conn, octets, lengths, before, out)?;
    Ok(conn)
}

/// The view of a connection's state; where memory for it is refused, `out` is cut to a length.
fn view_or_cut<'b, A: Allocator + Copy, O: Outgoing<'b, A>>(
    conn: &Conn<'_, A>,
    length: usize,
    out: &mut O,
) -> Result<View<A>, ConnFault>
    ensures ok { IfOk result (λ shown. (shown ≡ view conn.now.state) × (O.octets out.new ≡ O.octets out.old)) }
    ensures fault { IfErr result (λ fault. fault ≡ NoMemory) }
    ensures cut { OnErr result (O.octets out.new ≡ take length (O.octets out.old)) }
{
    match conn.state(*out.memory()) {
        Ok(view) => Ok(view),
        Err(_) => {
            out.keep_first(length);
            Err(ConnFault::NoMemory)
        }
    }
}

/// Plays a connection over the octets, cut into pieces of these lengths and what remains; a length above the rest takes
/// the rest.
///
/// `out` gains the opening SETTINGS and all frames sent, and the answer is what is shown of the last state, however
/// the octets are cut.
///
/// # Errors
///
/// `BadConfig` where a limit or a setting is outside its range (`Config::is_allowed`); then `NoMemory`. Both leave
/// `out` as it was.
pub fn play<'b, A: Allocator + Copy, O: Outgoing<'b, A>>(
    book: &'b Book<A>,
    config: Config,
    octets: &[u8],
    lengths: &[usize],
    out: &mut O,
) -> Result<View<A>, ConnFault>
    ensures ok { IfOk result (λ shown. Plays book.now config octets.now (O.octets out.old) shown (O.octets out.new)) }
    ensures grants { OnOk result (SendsWithinGrants book.now config octets.now (O.octets out.old) (O.octets out.new)) }
    ensures allowed { OnOk result (is_allowed config ≡ true) }
    ensures fault { IfErr result (λ fault. fault ≡ refusal_for (is_allowed config)) }
    ensures unchanged { OnErr result (O.octets out.new ≡ O.octets out.old) }
{
    let length = out.len();
    let conn = open_and_feed(book, config, octets, lengths, out)?;
    view_or_cut(&conn, length, out)
}

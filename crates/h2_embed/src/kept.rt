//! A connection that stays between calls, with its explanation. Definitions: `specs/Kept.antt`.

ghost use Rattle.std.specs.Prelude.{◌≡◌, ◌≤◌, true, [], length, take, drop, IfOk, OnOk};
ghost use Rattle.std.specs.String.{string_bytes};
ghost use Rattle.h2_spec.specs.State.{is_allowed, opening};
ghost use Rattle.h2_embed.specs.Kept.{GoesOn, Hands, IsEnd, IsReady, IsState, Stands};

use crate::fault::{RunEnd, RunFault, given};
use crate::owned::OwnedConn;
use crate::put::put;
use h2_explain::{Form, RunExplainer};
use h2_io::Gathered;
use h2_request_book::book::Book;
use h2_spec::connection::Config;
use std::alloc::{AllocError, Global};
use std::mem;

/// More octets than a connection ever has.
const MOST: usize = 1 << 63;

/// A connection over the octets that came so far, its explanation, and the text about them that is not given yet.
pub struct KeptConnection {
    /// None only while it goes on.
    pub(crate) conn: Option<OwnedConn>,
    pub(crate) explanation: RunExplainer,
    /// The text about the items so far that is not given yet.
    pub(crate) pending: Vec<u8>,
    /// How many octets came.
    pub(crate) came: usize,
}

/// By hand, so that a function that drops one makes one call.
impl Drop for KeptConnection {
    fn drop(self) {
        let Self {
            conn: _,
            explanation: _,
            pending: _,
            came: _,
        } = self;
    }
}

impl KeptConnection {
    /// A connection of a server with this book and these limits, to which no octets came.
    ///
    /// `AllocError` where memory is refused.
    pub(crate) fn new(
        alloc: Global,
        book: Book<Global>,
        config: Config,
        form: Form,
    ) -> Result<KeptConnection, AllocError>
        requires allowed { is_allowed config ≡ true }
        ensures ready { IfOk result (λ kept. IsReady kept) }
        ensures begins { IfOk result (λ kept. Stands form (opening book config) [] [] kept) }
    {
        let explanation = RunExplainer::new(alloc, form)?;
        let conn = OwnedConn::new(alloc, book, config)?;
        Ok(KeptConnection {
            conn: Some(conn),
            explanation,
            pending: Vec::new(alloc),
            came: 0,
        })
    }

    /// Takes octets. The text about the items that are whole now comes after that which is not given yet.
    ///
    /// `AllocError` where memory is refused: the connection can't go on.
    pub(crate) fn feed(&mut self, alloc: Global, octets: &[u8]) -> Result<(), AllocError>
        requires ready { IsReady self.old }
        ensures ready { OnOk result (IsReady self.new) }
        ensures goes { OnOk result (GoesOn self.old octets.now self.new) }
    {
        let came = self.came.saturating_add(octets.len());
        if came >= MOST {
            return Err(AllocError);
        }
        let owned = self.conn.take().unwrap();
        let mut text = Gathered {
            octets: mem::replace(&mut self.pending, Vec::new(alloc)),
            failed: false,
        };
        let fed = owned.feed(alloc, &mut self.explanation, octets, &mut text)?;
        self.conn = Some(fed);
        self.pending = text.octets;
        self.came = came;
        Ok(())
    }

    /// Gives the text that is not given yet, at the front of `out`, and says how the call ended; nothing where it has no
    /// space there. Returns how many octets were given.
    pub(crate) fn give(&mut self, out: &mut [u8], end: &mut RunEnd) -> usize
        requires ready { IsReady self.old }
        ensures ready { IsReady self.new }
        ensures within { result ≤ length out.new }
        ensures given { Hands self.old (length out.old) (take result out.new) self.new end.new }
        ensures rest { drop result out.new ≡ drop result out.old }
    {
        let count = self.pending.len();
        if count > out.len() {
            *end = given(RunFault::NoRoom.number(), count);
            return 0;
        }
        put(out, self.pending.as_slice());
        self.pending.clear();
        *end = given(0, count);
        count
    }

    /// What is shown of the state, line by line.
    ///
    /// `AllocError` where memory is refused.
    pub(crate) fn state_text(&mut self, alloc: Global) -> Result<String, AllocError>
        requires ready { IsReady self.old }
        ensures text { IfOk result (λ text. IsState self.old (string_bytes text)) }
        ensures same { self.new ≡ self.old }
    {
        let owned = self.conn.take().unwrap();
        let (owned, text) = owned.show(alloc);
        self.conn = Some(owned);
        text
    }

    /// The text about the end, after all texts about items.
    ///
    /// `AllocError` where memory is refused.
    pub(crate) fn end_text(&mut self, alloc: Global) -> Result<Vec<u8>, AllocError>
        requires ready { IsReady self.old }
        ensures text { IfOk result (λ text. IsEnd self.old text.items) }
        ensures same { self.new ≡ self.old }
    {
        let owned = self.conn.take().unwrap();
        let (owned, text) = owned.end(alloc, &self.explanation);
        self.conn = Some(owned);
        text
    }
}

//! A connection that owns its book, between two calls. While it goes on, a `Conn` borrows the book.

ghost use Rattle.std.specs.Prelude.{◌≡◌, [], Some, true, false, IfOk, OnOk, length};
ghost use Rattle.std.specs.String.{string_bytes};
ghost use Rattle.h2_conn.specs.Connection.{going};
ghost use Rattle.h2_explain.specs.Explaining.{EndsAs, GoesOn, HasGained, HasRoom, SaysOf};
ghost use Rattle.h2_spec.specs.State.{is_allowed, opening};
ghost use Rattle.h2_spec.specs.Texts.Show.{show};
ghost use Rattle.h2_spec.specs.Texts.View.{view};

use h2_conn::{Conn, ConnParts};
use h2_explain::{ItemOutbox, NoRecord, RunExplainer};
use h2_io::Gathered;
use h2_request_book::book::Book;
use h2_spec::connection::Config;
use std::alloc::{AllocError, Global};
use std::marker::Model;

/// A connection between two calls, with its book. A contract sees its state.
#[derive(Drop)]
pub struct OwnedConn {
    book: Book<Global>,
    parts: ConnParts<Global>,
}

impl Model for OwnedConn {
    ghost use Rattle.h2_conn.specs.Parts.{AreOfBook, state_of};
    ghost use Rattle.h2_spec.specs.State.{State};

    ghost Value = { State };

    ghost view = { λ c. state_of c.book c.parts };

    ghost invariant = { λ c. AreOfBook c.book c.parts };
}

/// The text about the end, after all octets of an explanation.
///
/// `AllocError` where memory is refused.
fn end_of(
    alloc: Global,
    explanation: &RunExplainer,
    conn: &Conn<'_, Global>,
) -> Result<Vec<u8>, AllocError>
    requires room { HasRoom explanation.now 0 }
    ensures { IfOk result (λ text. EndsAs false conn.now explanation.now (Some []) (Some text.items)) }
{
    let mut text = Gathered::new(alloc);
    match explanation.end(alloc, conn, &mut text) {
        Ok(()) => Ok(text.octets),
        Err(_) => Err(AllocError),
    }
}

impl OwnedConn {
    /// The connection of a server with this book and these limits before anything came.
    ///
    /// `AllocError` where memory is refused.
    pub(crate) fn new(
        alloc: Global,
        book: Book<Global>,
        config: Config,
    ) -> Result<OwnedConn, AllocError>
        requires { is_allowed config ≡ true }
        ensures { IfOk result (λ conn. conn ≡ opening book config) }
    {
        let mut sent = Vec::new(alloc);
        let Ok(conn) = Conn::new(&book, config, &mut sent) else {
            return Err(AllocError);
        };
        let parts = conn.into_parts();
        Ok(OwnedConn { book, parts })
    }

    /// Takes octets, and puts what their explanation says last in `text`.
    ///
    /// `AllocError` where memory is refused.
    pub(crate) fn feed(
        self,
        alloc: Global,
        explanation: &mut RunExplainer,
        octets: &[u8],
        text: &mut Gathered,
    ) -> Result<OwnedConn, AllocError>
        requires room { HasRoom explanation.old (length octets.now) }
        requires writer { text.old.failed ≡ false }
        ensures goes { IfOk result (λ after. GoesOn (going self []) explanation.old octets.now (going after []) explanation.new) }
        ensures gains { OnOk result (SaysOf (going self []) explanation.old octets.now explanation.new (Some text.old.octets.items) (Some text.new.octets.items)) }
        ensures room { OnOk result (HasGained explanation.old (length octets.now) explanation.new) }
        ensures form { OnOk result (explanation.new.form ≡ explanation.old.form) }
    {
        let OwnedConn { book, parts } = self;
        let mut conn = parts.into_conn(alloc, &book);
        let mut sent = ItemOutbox::new(alloc);
        match explanation.feed(alloc, &mut conn, octets, &mut sent, text, &mut NoRecord) {
            Ok(()) => {
                drop(sent);
                let parts = conn.into_parts();
                Ok(OwnedConn { book, parts })
            }
            Err(_) => Err(AllocError),
        }
    }

    /// The text about the end, after all octets of an explanation.
    ///
    /// `AllocError` where memory is refused.
    pub(crate) fn end(
        self,
        alloc: Global,
        explanation: &RunExplainer,
    ) -> (OwnedConn, Result<Vec<u8>, AllocError>)
        requires room { HasRoom explanation.now 0 }
        ensures same { result.0 ≡ self }
        ensures ends { IfOk result.1 (λ text. EndsAs false (going self []) explanation.now (Some []) (Some text.items)) }
    {
        let OwnedConn { book, parts } = self;
        let conn = parts.into_conn(alloc, &book);
        let text = end_of(alloc, explanation, &conn);
        let parts = conn.into_parts();
        (OwnedConn { book, parts }, text)
    }

    /// What is shown of the state, line by line.
    ///
    /// `AllocError` where memory is refused.
    pub(crate) fn show(self, alloc: Global) -> (OwnedConn, Result<String, AllocError>)
        ensures same { result.0 ≡ self }
        ensures shown { IfOk result.1 (λ text. string_bytes text ≡ show (view self)) }
    {
        let OwnedConn { book, parts } = self;
        let conn = parts.into_conn(alloc, &book);
        let text = conn.show(alloc);
        let parts = conn.into_parts();
        (OwnedConn { book, parts }, text)
    }
}

//! Why the server ended a connection. Definitions: `specs/Causes.antt`.

ghost use Rattle.std.specs.Prelude.{◌≡◌, [], IfOk};
ghost use Rattle.h2_conn.specs.Connection.{going};
ghost use Rattle.h2_cmd_dialogue.specs.Causes.{last_cause};
ghost use Rattle.h2_spec.specs.State.{opening};

use crate::item::behind;
use h2_conn::{Conn, ConnFault, Scratch};
use h2_request_book::book::Book;
use h2_spec::causes::Cause;
use h2_spec::connection::Config;
use std::alloc::{AllocError, Global};

/// A new connection.
fn open(book: &Book<Global>, config: Config, alloc: Global) -> Result<Conn<'_, Global>, ConnFault>
    ensures { IfOk result (λ conn. conn ≡ going (opening book.now config) []) }
{
    Conn::new(book, config, &mut Vec::new(alloc))
}

/// The cause of the last item's error, if it is one, where a server receives these octets: they are taken once more.
///
/// `AllocError` where memory is refused.
pub fn last_cause(
    alloc: Global,
    book: &Book<Global>,
    config: Config,
    octets: &[u8],
) -> Result<Option<Cause>, AllocError>
    ensures { IfOk result (λ cause. cause ≡ last_cause (opening book.now config) octets.now) }
{
    let Ok(mut conn) = open(book, config, alloc) else {
        return Err(AllocError);
    };
    let mut memory = Scratch::new(alloc);
    let mut cause = None;
    let mut rest = octets;
    for _item in 0..octets.len() {
        let mut sent = Vec::new(alloc);
        let Some(taken) = conn.take_and_lend(rest, &mut memory, &mut sent)? else {
            return Ok(cause);
        };
        cause = taken.cause;
        rest = behind(rest, taken.used);
    }
    Ok(cause)
}

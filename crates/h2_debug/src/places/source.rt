//! The input of a run: the book and the limits of a new connection, and the octets that it is fed. Definition:
//! `specs/Places.antt`.

ghost use Rattle.std.specs.Prelude.{◌≡◌, ◌<◌, ◌≤◌, ◌^◌, drop, length};

use h2_request_book::book::Book;
use h2_spec::connection::Config;
use std::alloc::Allocator;
use std::marker::Model;

/// The input of a run.
#[derive(Drop)]
pub struct Source<'s, 'b, A: Allocator> {
    /// The answers of the connection.
    pub book: &'b Book<A>,
    /// The limits and the settings that the server is given.
    pub config: Config,
    /// All octets that the connection is fed, from its first on.
    pub octets: &'s [u8],
}

impl<'s, 'b, A: Allocator> Model for Source<'s, 'b, A> {
    ghost use Rattle.h2_debug.specs.Places as places;

    ghost Value = { places.Source };

    ghost view = { λ s. record { book = s.book.now; config = s.config; octets = s.octets.now } };
}

impl<A: Allocator> Source<'_, '_, A> {
    /// The octets from this place on.
    pub fn octets_from(&self, start: usize) -> &[u8]
        requires { start ≤ length self.now.octets }
        ensures octets { result.now ≡ drop start self.now.octets }
        ensures few { length self.now.octets < 2 ^ 64 }
    {
        &self.octets[start..]
    }
}

//! What `play` and the page have in common: answers as words, for a book (METHOD|PATH|STATUS|BODYHEX, any number of parts
//! |NAME=VALUE, and at most one |early), and a connection that is reported place by place, the start and then each item.
//! What is reported is written as it is made, so that its text takes no memory.
#![tactic(auto)]

mod adding;
mod answer;
mod cut;
mod fault;
mod places;

pub use adding::add_answer;
pub use answer::parse_answer;
pub use cut::{place_of, text_before, text_from};
pub use fault::AnswerFault;
pub use places::{PlacesFault, ShownPlaces, write_places, write_shown};

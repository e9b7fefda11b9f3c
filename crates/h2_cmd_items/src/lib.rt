//! The items of a case, as a connection of this server takes them: what a judge has to know of each, and what this server does
//! beside it. Definitions: `specs/Rules.antt` (the rule of an item), `specs/SentItems.antt` (the items), `specs/Dues.antt` (which of
//! them are judged).
#![tactic(auto)]

pub mod case;
pub mod due;
pub mod items;
pub mod judging;
pub mod rule;
pub mod run;
pub mod sent;

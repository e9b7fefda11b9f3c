//! What the RFC asks of both sides where a rule applies: the rows of the table of rules. Definitions:
//! `specs/Causes/Rules.antt`.

ghost use Rattle.std.specs.Prelude.{◌≡◌, ℕ, List, map, slice_get, Some};
ghost use Rattle.std.specs.List.{list_any};
ghost use Rattle.std.specs.Str.{bytes_eq};
ghost use Rattle.h2_spec.specs.declared.rules.Duties.{Duties};
ghost use Rattle.h2_spec.specs.Causes.Rules.{client_words, server_words, text_of};

use crate::conforming::{Conforming, Least, NO_REACTION};

/// What a client did, by the RFC.
#[derive(Clone, Copy)]
pub enum ClientDuty {
    /// It sent what a client MUST NOT send.
    MustNot,
    /// It left out what a client MUST send, or gave it another form.
    Must,
    /// It sent what has another form by the RFC, which has no such word for who sends it.
    Breach,
    /// It broke nothing: it is above a limit of this server.
    Limit,
    /// It broke nothing.
    Nothing,
}

impl ClientDuty {
    /// The duty in words.
    pub fn words(self) -> &'static str
        ensures { result.now ≡ client_words self }
    {
        match self {
            ClientDuty::MustNot => "client MUST NOT",
            ClientDuty::Must => "client MUST",
            ClientDuty::Breach => "client breach",
            ClientDuty::Limit => "limit",
            ClientDuty::Nothing => "nothing",
        }
    }
}

/// How far the RFC decides what a server does.
#[derive(Clone, Copy)]
pub enum ServerDuty {
    /// The RFC demands it.
    Must,
    /// The RFC advises it.
    Should,
    /// The RFC names more than one reaction.
    May,
    /// The RFC leaves it to the server: it says nothing of it, or its sentences disagree.
    Own,
}

impl ServerDuty {
    /// The duty in words.
    pub fn words(self) -> &'static str
        ensures { result.now ≡ server_words self }
    {
        match self {
            ServerDuty::Must => "server MUST",
            ServerDuty::Should => "server SHOULD",
            ServerDuty::May => "server MAY",
            ServerDuty::Own => "own",
        }
    }
}

/// What a row of the table of rules says beside its texts.
#[derive(Clone, Copy)]
pub struct Duties {
    /// What the client did.
    pub client: ClientDuty,
    /// How far the RFC decides what a server does.
    pub server: ServerDuty,
    /// What a server may do.
    pub conforming: Conforming,
}

/// A row of the table of rules.
#[derive(Clone, Copy)]
pub struct Row {
    /// The name, by which documents, examples and outputs call it.
    pub name: &'static str,
    /// The section that has the rule, as `RFC 9113 6.10`.
    pub section: &'static str,
    /// The section that says what the client had to do, or that it was free to do what it did.
    pub client_section: &'static str,
    /// The rule, in a sentence.
    pub sentence: &'static str,
    /// What the RFC asks of both sides.
    pub duties: Duties,
}

/// The codes that are listed.
macro_rules! codes {
    () => { $crate::conforming::Codes::None };
    (any) => { $crate::conforming::Codes::Any };
    ($only:literal) => { $crate::conforming::Codes::One($only) };
    ($first:literal $second:literal) => { $crate::conforming::Codes::Two($first, $second) };
}

/// The reactions that are listed: codes of a connection error, codes of a stream error, others by their names.
macro_rules! reactions {
    ([$($connection:tt)*] [$($stream:tt)*] [$($other:ident)*]) => {
        $crate::conforming::Reactions {
            connection: $crate::rules::codes!($($connection)*),
            stream: $crate::rules::codes!($($stream)*),
            $($other: true,)*
            ..$crate::conforming::NO_REACTION
        }
    };
}

/// A column of rows. A row is its name; the server's duty and the section of the rule; what the client did and the
/// section that says so; the least that a server has to do, the codes of a connection error and of a stream error, and
/// its other reactions; what is open, in the same form; the sentence.
macro_rules! column {
    ($column:ident $($name:literal, $server:ident $section:literal, $client:ident $client_section:literal,
        $least:ident $connection:tt $stream:tt $other:tt $(open $open:tt $open_stream:tt $open_other:tt)?, $sentence:literal;)*) => {
        [$($crate::rules::cell!($column $name, $server $section, $client $client_section,
            $least ($connection $stream $other) ($($open $open_stream $open_other)?), $sentence)),*]
    };
}

/// A cell of a row.
macro_rules! cell {
    (name $name:literal, $($rest:tt)*) => { $name };
    (section $name:literal, $server:ident $section:literal, $($rest:tt)*) => { $section };
    (client_section $name:literal, $server:ident $section:literal, $client:ident $client_section:literal, $($rest:tt)*) => { $client_section };
    (sentence $name:literal, $server:ident $section:literal, $client:ident $client_section:literal, $least:ident $allowed:tt $open:tt, $sentence:literal) => { $sentence };
    (duties $name:literal, $server:ident $section:literal, $client:ident $client_section:literal, $least:ident ($($allowed:tt)*) (), $sentence:literal) => {
        $crate::rules::cell!(duties $name, $server $section, $client $client_section, $least ($($allowed)*) ([] [] []), $sentence)
    };
    (duties $name:literal, $server:ident $section:literal, $client:ident $client_section:literal, $least:ident ($($allowed:tt)*) ($($open:tt)*), $sentence:literal) => {
        $crate::rules::Duties {
            client: $crate::rules::ClientDuty::$client,
            server: $crate::rules::ServerDuty::$server,
            conforming: $crate::conforming::Conforming {
                least: $crate::conforming::Least::$least,
                allowed: $crate::rules::reactions!($($allowed)*),
                open: $crate::rules::reactions!($($open)*),
            },
        }
    };
}

pub(crate) use cell;
pub(crate) use codes;
pub(crate) use column;
pub(crate) use reactions;

/// No duties.
const NO_DUTIES: Duties = Duties {
    client: ClientDuty::Nothing,
    server: ServerDuty::Own,
    conforming: Conforming {
        least: Least::None,
        allowed: NO_REACTION,
        open: NO_REACTION,
    },
};

/// The duties at a place of a table; none where there are none.
pub(crate) fn duties_at(duties: &'static [Duties], place: usize) -> Duties
    ensures { (d : Duties) → slice_get duties.now place ≡ Some d → result ≡ d }
{
    match duties.get(place) {
        Some(duties) => *duties,
        None => NO_DUTIES,
    }
}

/// The text at a place of a table; empty where there is none.
pub fn text_at(texts: &'static [&'static str], place: usize) -> &'static str
    ensures { (t : List ℕ) → slice_get (map text_of texts.now) place ≡ Some t → result.now ≡ t }
{
    match texts.get(place) {
        Some(text) => text,
        None => "",
    }
}

/// Whether a word is one of these texts.
pub(crate) fn is_one_of(word: &[u8], texts: &'static [&'static str]) -> bool
    ensures { result ≡ list_any (λ t. bytes_eq word.now t.now) texts.now }
{
    texts.iter().any(|text| word == text.as_bytes())
}

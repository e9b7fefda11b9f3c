//! What a person writes to a session, and the command that it means.

use h2_cmd_messages::type_number;

/// What a line means.
#[derive(Clone, Copy)]
pub(crate) enum Meaning<'l> {
    /// A command of the session, as it is.
    Command(&'l [u8]),
    /// A command of the session whose last word is a name: this in front of the number.
    Typed(&'l [u8], usize),
    /// The last command once more.
    Again,
    /// The header table, of what `show` prints.
    Table,
    /// A breakpoint at the next item that is an error.
    BreakError,
    /// The breakpoints.
    Breaks,
    Help,
    Quit,
    /// The lines of `explain` for the item of this position.
    Explain,
    /// The items around this position.
    List,
}

/// How many letters the longest name of a frame type has, or more.
const LETTERS: usize = 16;

/// The number of a frame type, by its name in any case of letters.
fn number_of(name: &[u8]) -> Option<u8> {
    let mut letters = [0; LETTERS];
    for (letter, octet) in letters.iter_mut().zip(name) {
        *letter = octet.to_ascii_uppercase();
    }
    type_number(letters.get(..name.len())?)
}

/// A command whose type may be a name.
fn typed<'l>(front: &'l [u8], line: &'l [u8]) -> Option<Meaning<'l>> {
    match number_of(line.strip_prefix(front)?) {
        Some(number) => Some(Meaning::Typed(front, usize::from(number))),
        None => None,
    }
}

/// The words of a person, and what each means.
static WORDS: [(&str, Meaning<'static>); 12] = [
    ("", Meaning::Again),
    ("step", Meaning::Typed(b"step ", 1)),
    ("next", Meaning::Typed(b"step ", 1)),
    ("back", Meaning::Typed(b"back ", 1)),
    ("break error", Meaning::BreakError),
    ("breaks", Meaning::Breaks),
    ("table", Meaning::Table),
    ("help", Meaning::Help),
    ("quit", Meaning::Quit),
    ("exit", Meaning::Quit),
    ("explain", Meaning::Explain),
    ("list", Meaning::List),
];

/// What a line means, without its line feed.
pub(crate) fn meaning_of(line: &[u8]) -> Meaning<'_> {
    for (word, meaning) in &WORDS {
        if word.as_bytes() == line {
            return *meaning;
        }
    }
    if let Some(meaning) = typed(b"break type ".as_slice(), line) {
        return meaning;
    }
    match typed(b"break sent ".as_slice(), line) {
        Some(meaning) => meaning,
        None => Meaning::Command(line),
    }
}

/// What `help` prints.
pub(crate) static HELP: &str = "step N, back N     over N items    go P         to position P
step, next, back   over one item   run          to the next breakpoint, or to the end
break at P, break type T, break stream N, break sent T; T is a number or a name, as WINDOW_UPDATE
break error        at the next item that is an error
breaks             the breakpoints clear        removes them
show               the state here  table        the header table here
explain            this item       list         the items around it
why                the rule that this item broke
an empty line      the last command once more
quit, exit         ends
";

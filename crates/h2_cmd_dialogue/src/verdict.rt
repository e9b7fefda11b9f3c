//! The verdict on what a client does with the octets of a step. Which reactions the RFC allows beside the one that a line says
//! is decided by the one table of allowed reactions, `Conforming` of h2_spec. Definitions: `specs/Verdicts.antt`.

ghost use Rattle.std.specs.Prelude.{◌≡◌, None};
ghost use Rattle.h2_cmd_dialogue.specs.Findings.{does_go_on, is_broken, is_same};
ghost use Rattle.h2_cmd_dialogue.specs.Verdicts.{best_of, better, is_goes_on, is_reaction, is_silent, judged, missed, observed, rank, row_of, table_verdict};

use h2_spec::conforming::{Codes, Conforming, Least, Observed, Permission, Reactions};

/// How much a line `;!` wants.
#[derive(Clone, Copy)]
pub enum Duty {
    Must,
    /// `MUST?`: sentences of the RFC disagree, or none decides.
    Unsettled,
    Should,
    May,
}

/// What a line `;!` wants; streams are numbered as in the file.
#[derive(Clone, Copy)]
pub enum Wanted {
    /// `-`.
    GoesOn,
    /// A connection error with this code.
    Connection(u32),
    /// An error of this stream with this code.
    Stream(u32, u32),
}

/// A line `;!`.
#[derive(Clone, Copy)]
pub struct WantedLine {
    /// Its number in the file, from 1.
    pub line: usize,
    pub duty: Duty,
    pub wanted: Wanted,
}

/// What a client does from a step on to the end of the connection; streams are numbered as in the file.
#[derive(Clone, Copy)]
pub enum Taken {
    /// It goes on: the PING is answered, or it ends the connection with all that it asked for.
    GoesOn,
    /// GOAWAY with this code, which is not NO_ERROR.
    Connection(u32),
    /// RST_STREAM on this stream, with this code.
    Stream(u32, u32),
    /// It ends the connection without such a frame.
    Closed,
    /// It does not even answer the PING.
    Silent,
}

/// A verdict.
#[derive(Clone, Copy)]
pub enum Judged {
    /// It is what the line says.
    Same,
    /// The RFC allows it too.
    Allowed,
    /// The RFC leaves it open, or the code is neither named nor generic.
    Unsettled,
    Broken,
}

impl Duty {
    /// The verdict on a reaction that is neither wanted nor allowed.
    pub fn missed(self) -> Judged
        ensures { result ≡ missed self }
    {
        match self {
            Duty::Must => Judged::Broken,
            Duty::Unsettled => Judged::Unsettled,
            Duty::Should | Duty::May => Judged::Allowed,
        }
    }
}

impl Wanted {
    /// Whether this is what is wanted.
    fn is_reaction(self, taken: Taken) -> bool
        ensures { result ≡ is_reaction self taken }
    {
        match (self, taken) {
            (Wanted::GoesOn, Taken::GoesOn) => true,
            (Wanted::Connection(code), Taken::Connection(other)) => code == other,
            (Wanted::Stream(stream, code), Taken::Stream(reset, other)) => {
                stream == reset && code == other
            }
            _ => false,
        }
    }

    /// Whether the client has to go on.
    pub fn goes_on(self) -> bool
        ensures { result ≡ is_goes_on self }
    {
        matches!(self, Wanted::GoesOn)
    }

    /// The row of the table of allowed reactions: a connection error can have each code (RFC 9113, 5.4).
    fn row(self) -> Conforming
        ensures { result ≡ row_of self }
    {
        let (least, stream) = match self {
            Wanted::GoesOn => (Least::Accept, Codes::None),
            Wanted::Connection(_) => (Least::Connection, Codes::None),
            Wanted::Stream(_, code) => (Least::Stream, Codes::One(code)),
        };
        let none = Reactions {
            connection: Codes::None,
            stream: Codes::None,
            close: false,
            answer: false,
            ignore: false,
            accept: false,
            wait: false,
            http1: false,
        };
        Conforming {
            least,
            allowed: Reactions {
                connection: Codes::Any,
                stream,
                ..none
            },
            open: none,
        }
    }

    /// What the table sees of a reaction; an error of another stream is none of this one.
    fn observed(self, taken: Taken) -> Observed
        ensures { result ≡ observed self taken }
    {
        match taken {
            Taken::GoesOn | Taken::Silent => Observed::Accept,
            Taken::Connection(code) => Observed::ConnectionError(code),
            Taken::Closed => Observed::Close,
            Taken::Stream(reset, code) => match self {
                Wanted::Stream(stream, _) => {
                    if stream == reset {
                        Observed::StreamError(code)
                    } else {
                        Observed::Accept
                    }
                }
                Wanted::GoesOn | Wanted::Connection(_) => Observed::Accept,
            },
        }
    }
}

impl Taken {
    /// Whether the client goes on.
    pub fn does_go_on(self) -> bool
        ensures { result ≡ does_go_on self }
    {
        matches!(self, Taken::GoesOn)
    }

    /// Whether it is silence.
    fn is_silent(self) -> bool
        ensures { result ≡ is_silent self }
    {
        match self {
            Taken::Silent => true,
            Taken::GoesOn | Taken::Connection(_) | Taken::Stream(_, _) | Taken::Closed => false,
        }
    }
}

/// What the table says of a reaction.
fn table_verdict(duty: Duty, permission: Permission) -> Judged
    ensures { result ≡ table_verdict duty permission }
{
    match permission {
        Permission::Allowed => Judged::Allowed,
        Permission::Open => match duty {
            Duty::Must => Judged::Unsettled,
            Duty::Unsettled | Duty::Should | Duty::May => duty.missed(),
        },
        Permission::NotAllowed => duty.missed(),
    }
}

/// The verdict on a reaction. Silence is broken whatever is wanted: the PING has to be answered (RFC 9113, 6.7). A client that
/// has to go on may do nothing else.
pub fn judge(duty: Duty, wanted: Wanted, taken: Taken) -> Judged
    ensures { result ≡ judged duty wanted taken }
{
    if wanted.is_reaction(taken) {
        return Judged::Same;
    }
    if taken.is_silent() {
        return Judged::Broken;
    }
    if wanted.goes_on() {
        return duty.missed();
    }
    table_verdict(duty, wanted.row().allows(wanted.observed(taken)))
}

impl Judged {
    /// Whether it is what a line says.
    pub fn is_same(self) -> bool
        ensures { result ≡ is_same self }
    {
        matches!(self, Judged::Same)
    }

    /// Whether it makes the result of a dialogue `not ok`.
    pub fn is_broken(self) -> bool
        ensures { result ≡ is_broken self }
    {
        matches!(self, Judged::Broken)
    }

    /// The place of a verdict, from the best to the worst.
    fn rank(self) -> u8
        ensures { result ≡ rank self }
    {
        match self {
            Judged::Same => 0,
            Judged::Allowed => 1,
            Judged::Unsettled => 2,
            Judged::Broken => 3,
        }
    }
}

/// A line `;!`, and the verdict by it.
#[derive(Clone, Copy)]
pub struct ByLine {
    pub line: WantedLine,
    pub judged: Judged,
}

/// The verdict by a line.
fn by_line(line: WantedLine, taken: Taken) -> ByLine
    ensures { result ≡ record { line = line; judged = judged line.duty line.wanted taken } }
{
    ByLine {
        line,
        judged: judge(line.duty, line.wanted, taken),
    }
}

/// The better one of two verdicts, and the first where they are the same.
fn better(one: Option<ByLine>, other: ByLine) -> Option<ByLine>
    ensures { result ≡ better one other }
{
    match one {
        Some(one) if one.judged.rank() <= other.judged.rank() => Some(one),
        _ => Some(other),
    }
}

/// The best verdict by lines, each of which is right; none where there is no line.
pub fn best_of(lines: &[WantedLine], taken: Taken) -> Option<ByLine>
    ensures { result ≡ best_of taken None lines.now }
{
    let mut best = None;
    for line in lines {
        best = better(best, by_line(*line, taken));
    }
    best
}

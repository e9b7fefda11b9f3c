//! The words that each command takes, as tables, and the command of the crate `clap` that is built from them. Definitions:
//! `specs/Tables.antt`; that it is the command of `specs/Grammar.antt` is the contract of `usages`.

ghost use Rattle.std.specs.Prelude.{◌≡◌, IfOk};
ghost use Rattle.clap.specs.Words.{app_of};
ghost use Rattle.h2_cmd_args.specs.Grammar.{bench_app, top_app};
ghost use Rattle.h2_cmd_args.specs.Built.{IsArg, IsCommand, IsLocal};
ghost use Rattle.h2_cmd_args.specs.Tables.{usage_app, with_usages, with_words, word_rule};

use crate::legend::LEGEND;
use clap::builder::ValueParser;
use clap::{Arg, ArgAction, Command};
use std::alloc::{AllocError, Global};

/// How a word is given.
enum Kind {
    /// As `--NAME`.
    Flag,
    /// As `--NAME` and a text.
    Text,
    /// As `--NAME` and a number from 0 to this one.
    Number(u64),
    /// As a number from the least to the most, in its place. It has to be there.
    PlacedNumber(u64, u64),
    /// As any number of texts.
    Texts,
    /// As texts, of which one has to be there.
    SomeTexts,
}

/// A word that commands take.
struct Word {
    /// The name that it's read back by; that of an option also follows `--`.
    name: &'static str,
    /// How it is given.
    kind: Kind,
    /// What help says of it.
    help: &'static str,
}

/// A command and its words.
struct Usage {
    /// Its name.
    name: &'static str,
    /// What help says of it.
    about: &'static str,
    /// Its words, in the order of the help.
    words: &'static [Word],
}

const STREAMS: Word = Word {
    name: "streams",
    kind: Kind::Number(4294967295),
    help: "The most streams at a time, 1 to 1000; 100 where none is given",
};

const CREDIT: Word = Word {
    name: "credit",
    kind: Kind::Number(4294967295),
    help: "The octets that are owed before they are given back, 1 to 65535; 32768 where none is given",
};

const TABLE: Word = Word {
    name: "table",
    kind: Kind::Number(4294967295),
    help: "SETTINGS_HEADER_TABLE_SIZE of the server, 0 to 65536; 4096 where none is given",
};

const WINDOW: Word = Word {
    name: "window",
    kind: Kind::Number(4294967295),
    help: "SETTINGS_INITIAL_WINDOW_SIZE of the server, 0 to 2147483647; 65535 where none is given",
};

const FRAME: Word = Word {
    name: "frame",
    kind: Kind::Number(4294967295),
    help: "SETTINGS_MAX_FRAME_SIZE of the server, 16384 to 65536; 16384 where none is given",
};

const CUT: Word = Word {
    name: "cut",
    kind: Kind::Number(65536),
    help: "The octets of a piece, 0 to 65536; 65536 where it is 0 or not given",
};

const EACH: Word = Word {
    name: "each",
    kind: Kind::Flag,
    help: "Shows the state at the start and after each item",
};

const JSON: Word = Word {
    name: "json",
    kind: Kind::Flag,
    help: "Writes one JSON object a line",
};

const COLOR: Word = Word {
    name: "color",
    kind: Kind::Flag,
    help: "Colours the lines of the text by what they say",
};

const STRICT: Word = Word {
    name: "strict",
    kind: Kind::Flag,
    help: "Ends with status 5 where the client broke a rule, 6 above a limit, 7 within a frame, and says how many errors and warnings there were",
};

const EXPLAIN: Word = Word {
    name: "explain",
    kind: Kind::Flag,
    help: "Explains each item as soon as it arrives, each line after the number of its connection; so do --brief, --errors, --stream, --json, --strict, --times and --record",
};

const TIMES: Word = Word {
    name: "times",
    kind: Kind::Flag,
    help: "Explains, with the milliseconds since the connection was accepted before each line and in the record",
};

const RECORD: Word = Word {
    name: "record",
    kind: Kind::Text,
    help: "Explains, and records each connection in this directory: its octets as hex, and a case for check",
};

const INJECT: Word = Word {
    name: "inject",
    kind: Kind::Text,
    help: "A file of dialogues: the frames of one go out after the answers of the first connection, or instead, and its client is judged",
};

const DIALOGUE: Word = Word {
    name: "dialogue",
    kind: Kind::Number(4294967295),
    help: "Which dialogue of the file, from 1; 1 where none is given",
};

const FULL: Word = Word {
    name: "full",
    kind: Kind::Flag,
    help: "Writes long texts whole; without it the first 100 octets of each",
};

const BRIEF: Word = Word {
    name: "brief",
    kind: Kind::Flag,
    help: "Leaves out fields and what changed: each item, what is sent for it, and what is wrong with it",
};

const ERRORS: Word = Word {
    name: "errors",
    kind: Kind::Flag,
    help: "Shows only items that are an error, are ignored or have a warning",
};

const STREAM: Word = Word {
    name: "stream",
    kind: Kind::Number(2147483647),
    help: "Shows only items of this stream, 0 to 2147483647; 0 for those of the connection",
};

const BOOK: Word = Word {
    name: "book",
    kind: Kind::Text,
    help: "A TOML file of answers, which come before those of the command line",
};

const WHY: Word = Word {
    name: "why",
    kind: Kind::Flag,
    help: "Nothing more: the reason is written to standard error in any case",
};

const QUIET: Word = Word {
    name: "quiet",
    kind: Kind::Flag,
    help: "Writes nothing to standard error where something is refused",
};

const IN: Word = Word {
    name: "in",
    kind: Kind::Text,
    help: "The file that is the input, instead of standard input, which - is; a word FILE says the same",
};

const RAW: Word = Word {
    name: "raw",
    kind: Kind::Flag,
    help: "The input has the octets themselves, not their hex",
};

const PROMPT: Word = Word {
    name: "prompt",
    kind: Kind::Text,
    help: "dot: a line . after each answer, for programs; line: a prompt and words for people, as the launcher asks for on a terminal",
};

const BLESS: Word = Word {
    name: "bless",
    kind: Kind::Flag,
    help: "Writes the file anew, with what is sent and what is an error instead of the lines ;< and ;!",
};

const IN_PLACE: Word = Word {
    name: "in-place",
    kind: Kind::Flag,
    help: "With --bless: into the files, instead of to standard output",
};

const JUNIT: Word = Word {
    name: "junit",
    kind: Kind::Text,
    help: "Writes the results as JUnit XML into this file too",
};

const AGAINST: Word = Word {
    name: "against",
    kind: Kind::Number(65535),
    help: "Plays the cases to the server that listens on this port of 127.0.0.1, and judges it",
};

const WAIT: Word = Word {
    name: "wait",
    kind: Kind::Number(1000),
    help: "With --against: the milliseconds without an octet after which the next item is sent, 0 to 1000; 15 where none is given",
};

const PATH: Word = Word {
    name: "path",
    kind: Kind::Text,
    help: "METHOD=PATH: requests of the cases with this method go to this path",
};

const AUTHORITY: Word = Word {
    name: "authority",
    kind: Kind::Text,
    help: "Requests of the cases have this where they have localhost, as in :authority",
};

const JUDGE: Word = Word {
    name: "judge",
    kind: Kind::Flag,
    help: "Judges a server by octets that were recorded: the first FILE has the client's, the second the server's, the others have cases",
};

const ANSWERS: Word = Word {
    name: "ANSWER",
    kind: Kind::Texts,
    help: "METHOD|PATH|STATUS|BODYHEX, any number of |NAME=VALUE, and at most one |early",
};

const INPUT: Word = Word {
    name: "ANSWER",
    kind: Kind::Texts,
    help: "A first word without | is a FILE, the input instead of standard input; the others are answers: METHOD|PATH|STATUS|BODYHEX, any number of |NAME=VALUE, and at most one |early",
};

const LIMIT: Word = Word {
    name: "LIMIT",
    kind: Kind::PlacedNumber(0, 65536),
    help: "The table's limit in octets, 0 to 65536",
};

const PORT: Word = Word {
    name: "PORT",
    kind: Kind::PlacedNumber(1, 65535),
    help: "The port of 127.0.0.1, 1 to 65535",
};

const COUNT: Word = Word {
    name: "COUNT",
    kind: Kind::PlacedNumber(0, 4294967295),
    help: "How many connections are served, one after another",
};

const FILES: Word = Word {
    name: "FILE",
    kind: Kind::SomeTexts,
    help: "A file of cases: scripts, with what is expected in their comments",
};

/// The commands, in the order of the help.
static USAGES: [Usage; 8] = [
    Usage {
        name: "play",
        about: "Plays one connection over the octets that standard input has as hex",
        words: &[
            STREAMS, CREDIT, TABLE, WINDOW, FRAME, CUT, EACH, BOOK, WHY, QUIET, IN, RAW, INPUT,
        ],
    },
    Usage {
        name: "asm",
        about: "Writes the octets of the script that standard input is, as hex",
        words: &[IN, QUIET],
    },
    Usage {
        name: "dis",
        about: "Writes the script of the octets that standard input has as hex",
        words: &[IN, RAW, QUIET],
    },
    Usage {
        name: "table",
        about: "Changes a dynamic header table by the lines of standard input: add NAME VALUE, max N",
        words: &[IN, QUIET, LIMIT],
    },
    Usage {
        name: "debug",
        about: "Debugs one connection: the first line of standard input is hex, each further line a command",
        words: &[
            STREAMS, CREDIT, TABLE, WINDOW, FRAME, BOOK, WHY, QUIET, IN, RAW, PROMPT, INPUT,
        ],
    },
    Usage {
        name: "serve",
        about: "Serves connections of a port, one after another",
        words: &[
            STREAMS, CREDIT, TABLE, WINDOW, FRAME, EXPLAIN, TIMES, RECORD, INJECT, DIALOGUE, JSON,
            COLOR, STRICT, FULL, BRIEF, ERRORS, STREAM, BOOK, WHY, QUIET, PORT, COUNT, ANSWERS,
        ],
    },
    Usage {
        name: "explain",
        about: "Explains one connection, item by item: what it is, what is sent for it, and why",
        words: &[
            STREAMS, CREDIT, TABLE, WINDOW, FRAME, JSON, COLOR, STRICT, FULL, BRIEF, ERRORS,
            STREAM, BOOK, WHY, QUIET, IN, RAW, INPUT,
        ],
    },
    Usage {
        name: "check",
        about: "Plays the cases of files, and says of each whether what it expects holds",
        words: &[
            STREAMS, CREDIT, TABLE, WINDOW, FRAME, BOOK, BLESS, IN_PLACE, JUNIT, AGAINST, WAIT,
            PATH, AUTHORITY, JUDGE, QUIET, FILES,
        ],
    },
];

/// The argument that a word is.
fn arg_of<'a>(alloc: Global, word: &Word) -> Arg<'a>
    ensures { IsArg (word_rule word.now) result }
{
    let arg = Arg::new(alloc, word.name).help(word.help);
    match word.kind {
        Kind::Flag => arg.long(word.name).action(ArgAction::SetTrue),
        Kind::Text => arg.long(word.name).action(ArgAction::Set),
        Kind::Number(most) => {
            let arg = arg.long(word.name).action(ArgAction::Set);
            arg.value_parser(ValueParser::Unsigned(0, most))
        }
        Kind::PlacedNumber(least, most) => {
            let arg = arg.required(true).action(ArgAction::Set);
            arg.value_parser(ValueParser::Unsigned(least, most))
        }
        Kind::Texts => arg.action(ArgAction::Append),
        Kind::SomeTexts => arg.required(true).action(ArgAction::Append),
    }
}

/// The command with these words.
fn with_words<'a>(
    alloc: Global,
    command: Command<'a>,
    words: &[Word],
) -> Result<Command<'a>, AllocError>
    ensures { IsLocal command.entry → IfOk result (IsCommand (with_words (app_of command.entry) words.now)) }
{
    let mut command = command;
    for word in words {
        command = command.arg(arg_of(alloc, word))?;
    }
    Ok(command)
}

/// The command of a usage.
fn command_of<'a>(alloc: Global, usage: &Usage) -> Result<Command<'a>, AllocError>
    ensures { IfOk result (IsCommand (usage_app usage.now)) }
{
    let command = Command::new(alloc, usage.name).about(usage.about);
    with_words(alloc, command, usage.words)
}

/// The commands as a slice; read here alone, so that no other proof goes through them.
fn usages() -> &'static [Usage]
    ensures { with_usages top_app result.now ≡ bench_app }
{
    &USAGES
}

/// The program's own command, with no command below it.
fn top_command<'a>(alloc: Global) -> Command<'a>
    ensures { IsCommand top_app result }
{
    Command::new(alloc, "h2_bench")
        .about("An HTTP/2 server emulator and frame debugger")
        .after_help(LEGEND)
        .subcommand_required(true)
}

/// The program's command, with those below it.
pub(crate) fn bench_command<'a>(alloc: Global) -> Result<Command<'a>, AllocError>
    ensures { IfOk result (IsCommand bench_app) }
{
    let usages = usages();
    let mut command = top_command(alloc);
    for usage in usages {
        command = command.subcommand(command_of(alloc, usage)?)?;
    }
    Ok(command)
}

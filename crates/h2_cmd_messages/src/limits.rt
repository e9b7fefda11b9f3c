//! Which limit or setting is out of its range.

use h2_io::say::{Say, TextBuilder};
use h2_io::say_all;
use h2_spec::connection::Config;

/// The range of an option, and what it is.
#[derive(Clone, Copy)]
pub struct Range {
    /// The option, as the command line has it.
    pub option: &'static str,
    /// The least number that is allowed.
    pub least: u64,
    /// The greatest number that is allowed.
    pub most: u64,
    /// What the number limits, in words.
    pub what: &'static str,
}

/// The options of a connection, in their order in `Config`.
static RANGES: [Range; 5] = [
    Range {
        option: "--streams",
        least: 1,
        most: 1000,
        what: "live streams at a time",
    },
    Range {
        option: "--credit",
        least: 1,
        most: 65535,
        what: "octets received before WINDOW_UPDATE returns them",
    },
    Range {
        option: "--table",
        least: 0,
        most: 65536,
        what: "SETTINGS_HEADER_TABLE_SIZE",
    },
    Range {
        option: "--window",
        least: 0,
        most: 2147483647,
        what: "SETTINGS_INITIAL_WINDOW_SIZE",
    },
    Range {
        option: "--frame",
        least: 16384,
        most: 65536,
        what: "SETTINGS_MAX_FRAME_SIZE",
    },
];

/// The range of an option, by its word.
pub fn range_of(word: &str) -> Option<Range> {
    RANGES.iter().copied().find(|range| range.option == word)
}

/// Says that the number of an option is out of its range.
fn say_outside<S: Say>(range: &Range, value: S, out: &mut TextBuilder) {
    say_all!(out; range.option, " ", value, " is out of range: ", range.what, ", ", range.least, " to ", range.most, ".\n");
}

/// Says which number of an option is out of range.
pub fn say_range(range: Range, value: &str, out: &mut TextBuilder) {
    say_outside(&range, crate::place::Quoted(value.as_bytes()), out);
}

/// Says of a command that a word is none of its own, and no file.
pub fn say_no_file(command: &str, word: &str, out: &mut TextBuilder) {
    say_all!(out; crate::place::Quoted(word.as_bytes()), ": there is no such file; ", command, " reads standard input, or one file.\n");
}

/// The limits and settings of a connection, in the order of `RANGES`.
fn values(config: Config) -> [u32; 5] {
    [
        config.streams,
        config.credit,
        config.table,
        config.window,
        config.frame,
    ]
}

/// Says which limits or settings are out of range.
pub fn say_limits(config: Config, out: &mut TextBuilder) {
    for (range, value) in RANGES.iter().zip(values(config).iter()) {
        let value = u64::from(*value);
        if value < range.least || value > range.most {
            say_outside(range, value, out);
        }
    }
}

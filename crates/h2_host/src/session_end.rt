//! What is said about the octets of a session on standard input: h2_debug is below the sentences, and answers numbers.

use h2_cmd_messages::{
    InputSource, TextBuilder, has_digits, say_limits, say_more_octets, say_no_hex, say_warnings,
};
use h2_io::is_hex_text;
use h2_spec::connection::Config;

/// How a session over standard input ended.
#[derive(Clone, Copy)]
pub struct SessionEnd<'s> {
    /// The exit status.
    pub status: u8,
    /// The limits and the settings of the server.
    pub config: Config,
    /// What it was given.
    pub seen: &'s [u8],
}

impl SessionEnd<'_> {
    /// The text of the octets: the first line.
    fn text(&self) -> &[u8] {
        match self.seen.split(|octet| *octet == b'\n').next() {
            Some(line) => line,
            None => &[],
        }
    }

    /// Says why it did not begin.
    fn say_refused(&self, out: &mut TextBuilder) {
        if !is_hex_text(self.text()) {
            say_no_hex(InputSource::Input, self.text(), out);
        } else if !self.config.is_allowed() {
            say_limits(self.config, out);
        }
    }

    /// Says what is strange about what it was given.
    fn say_strange(&self, out: &mut TextBuilder) {
        say_more_octets(self.seen, out);
        if has_digits(self.text()) {
            say_warnings(InputSource::Input, self.text(), out);
        }
    }

    /// Says why it did not begin, or what is strange about what it was given. Its commands that were refused, and memory that
    /// was, have their sentences already.
    pub fn say(&self, out: &mut TextBuilder) {
        match self.status {
            0 => self.say_strange(out),
            1 => self.say_refused(out),
            _ => {}
        }
    }
}

//! What a line of the input calls for: a word that says what is tried, numbers, octets, moves of a debugger, and after
//! `:` the words of a program, after `< ` a text. Octets are a name (`preface`), hex after an `x`, or either of them
//! after a number and a `*`, which repeats them. Those in a row are one piece; a `,` begins the next one. In a text `|`
//! is a line feed.

use std::alloc::{AllocError, Global};

/// What a line calls for, after its first word.
pub struct Call<'l> {
    numbers: Vec<u64>,
    pieces: Vec<Vec<u8>>,
    asks: Vec<&'l str>,
    words: &'l str,
    text: Vec<u8>,
}

/// By hand, so that a function that drops a call makes one call itself.
impl Drop for Call<'_> {
    fn drop(self) {
        let Self {
            numbers: _,
            pieces: _,
            asks: _,
            words: _,
            text: _,
        } = self;
    }
}

/// The parts of a text before and after a mark; nothing is after it where there is none.
fn parts<'l>(text: &'l str, separator: &str) -> (&'l str, &'l str) {
    match text.split_once(separator) {
        Some(parts) => parts,
        None => (text, ""),
    }
}

/// A text with its line feeds.
fn with_line_feeds(alloc: Global, text: &str) -> Result<Vec<u8>, AllocError> {
    let mut octets = Vec::from_slice(alloc, text.as_bytes())?;
    for octet in &mut octets {
        if *octet == b'|' {
            *octet = b'\n';
        }
    }
    Ok(octets)
}

/// The client preface (RFC 9113, 3.4), SETTINGS of no setting and its acknowledgement (6.5), and a PING (6.7).
static NAMES: [(&str, &[u8]); 4] = [
    ("preface", b"PRI * HTTP/2.0\r\n\r\nSM\r\n\r\n"),
    ("settings", b"\x00\x00\x00\x04\x00\x00\x00\x00\x00"),
    ("ack", b"\x00\x00\x00\x04\x01\x00\x00\x00\x00"),
    (
        "ping",
        b"\x00\x00\x08\x06\x00\x00\x00\x00\x00\x01\x02\x03\x04\x05\x06\x07\x08",
    ),
];

/// The octets of this name.
fn named(word: &str) -> Option<&'static [u8]> {
    for (name, octets) in &NAMES {
        if *name == word {
            return Some(*octets);
        }
    }
    None
}

/// Adds the octets that a word means.
fn add_octets(alloc: Global, octets: &mut Vec<u8>, word: &str) -> Result<(), AllocError> {
    match word.strip_prefix("x") {
        Some(digits) => match hex::decode(alloc, digits) {
            Ok(decoded) => octets.extend_from_slice(decoded.as_slice()),
            Err(_) => Err(AllocError),
        },
        None => match named(word) {
            Some(named) => octets.extend_from_slice(named),
            None => Err(AllocError),
        },
    }
}

/// How often a word repeats its octets, and the word for them.
fn repetition(word: &str) -> (u32, &str) {
    match word.split_once("*") {
        Some((count, octets)) => (count.parse().unwrap_or(0), octets),
        None => (1, word),
    }
}

/// Adds the octets of a word as often as it says.
fn add_repeated(alloc: Global, octets: &mut Vec<u8>, word: &str) -> Result<(), AllocError> {
    let (count, word) = repetition(word);
    for _ in 0..count {
        add_octets(alloc, octets, word)?;
    }
    Ok(())
}

/// Whether a word asks something of a debugger.
fn is_ask(word: &str) -> bool {
    word == "run" || word == "clear" || word.split_once("=").is_some()
}

impl<'l> Call<'l> {
    /// What these words call for. A word that means nothing is refused as memory is.
    pub fn of(alloc: Global, line: &'l str) -> Result<Call<'l>, AllocError> {
        let (line, text) = parts(line, "< ");
        let text = with_line_feeds(alloc, text)?;
        let (line, words) = parts(line, ":");
        let mut call = Call {
            numbers: Vec::new(alloc),
            pieces: Vec::new(alloc),
            asks: Vec::new(alloc),
            words,
            text,
        };
        call.add_all(alloc, line)?;
        Ok(call)
    }

    /// Adds the words of a line.
    fn add_all(&mut self, alloc: Global, words: &'l str) -> Result<(), AllocError> {
        self.pieces.push(Vec::new(alloc))?;
        for word in words.split_ascii_whitespace() {
            self.add(alloc, word)?;
        }
        Ok(())
    }

    /// Adds a word: a number, what is asked of a debugger, a comma between pieces, or octets.
    fn add(&mut self, alloc: Global, word: &'l str) -> Result<(), AllocError> {
        if let Ok(number) = word.parse::<u64>() {
            return Ok(self.numbers.push(number)?);
        }
        if is_ask(word) {
            return Ok(self.asks.push(word)?);
        }
        if word == "," {
            return Ok(self.pieces.push(Vec::new(alloc))?);
        }
        self.add_to_piece(alloc, word)
    }

    /// Adds the octets that a word means to the last piece.
    fn add_to_piece(&mut self, alloc: Global, word: &str) -> Result<(), AllocError> {
        match self.pieces.last_mut() {
            Some(piece) => add_repeated(alloc, piece, word),
            None => Ok(()),
        }
    }

    /// The number in this place, or 0.
    pub fn number(&self, place: usize) -> u64 {
        match self.numbers.get(place) {
            Some(number) => *number,
            None => 0,
        }
    }

    /// The number in this place as a length, or 0.
    pub fn size(&self, place: usize) -> usize {
        usize::try_from(self.number(place)).unwrap_or(0)
    }

    /// The number in this place as one of 32 bits; 0 where it is larger or missing.
    pub fn short(&self, place: usize) -> u32 {
        u32::try_from(self.number(place)).unwrap_or(0)
    }

    /// The octets of this piece, or none.
    pub fn piece(&self, place: usize) -> &[u8] {
        match self.pieces.get(place) {
            Some(octets) => octets.as_slice(),
            None => &[],
        }
    }

    /// The pieces, which commas part.
    pub fn pieces(&self) -> &[Vec<u8>] {
        self.pieces.as_slice()
    }

    /// What is asked of a debugger.
    pub fn asks(&self) -> &[&'l str] {
        self.asks.as_slice()
    }

    /// The words of a program.
    pub fn words(&self) -> &'l str {
        self.words
    }

    /// The text after `< `.
    pub fn text(&self) -> &[u8] {
        self.text.as_slice()
    }
}

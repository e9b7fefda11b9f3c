//! The lines of a text, for the sentence of a fault. Nothing is proved of them but that they are safe.

/// The number of the line in which an octet is, from 1.
pub fn line_at(text: &[u8], octet: usize) -> usize {
    let mut line = 1usize;
    for place in 0..octet.min(text.len()) {
        if text[place] == b'\n' {
            line = line.saturating_add(1);
        }
    }
    line
}

// Found by counting lines `[[answer]]`, since a `toml::Table` keeps no places; none where the count does not
// agree.
/// The line of an answer's header, both counted from 1; 0 where the text has another number of headers than there are
/// answers.
pub fn line_of_answer(text: &str, answer: usize, answers: usize) -> usize {
    let mut line = 0usize;
    let mut headers = 0usize;
    let mut found = 0usize;
    for each in text.lines() {
        line = line.saturating_add(1);
        if is_header(each) {
            headers = headers.saturating_add(1);
            if headers == answer {
                found = line;
            }
        }
    }
    if headers == answers { found } else { 0 }
}

/// The line of a key, from this line on up to the next answer; 0 where no line begins with the key.
pub fn line_of_key(text: &str, from: usize, key: &str) -> usize {
    if key.is_empty() {
        return 0;
    }
    for (before, line) in text.lines().enumerate().skip(from.saturating_sub(1)) {
        if is_header(line) {
            return 0;
        }
        if is_of_key(line, key) {
            return before.saturating_add(1);
        }
    }
    0
}

/// Whether a line begins with a key and `=`; the key may be between quotes.
fn is_of_key(line: &str, key: &str) -> bool {
    let line = line.trim_start();
    let quotes: &[char] = &['"', '\''];
    match line.split_once('=') {
        Some((front, _)) => front.trim().trim_matches(quotes) == key,
        None => false,
    }
}

/// Whether a line is `[[answer]]`, with blanks in it or not.
fn is_header(line: &str) -> bool {
    let line = line.trim_start();
    match line.strip_prefix("[[") {
        Some(rest) => match rest.trim_start().strip_prefix("answer") {
            Some(rest) => rest.trim_start().starts_with("]]"),
            None => false,
        },
        None => false,
    }
}

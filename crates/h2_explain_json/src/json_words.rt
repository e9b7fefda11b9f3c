//! JSON that is put together member by member. What it writes is tested, no definition speaks of it.

use h2_io::json_text::JsonText;
use h2_io::say::{Say, TextBuilder};
use h2_io::say_all;
use std::alloc::{AllocError, Allocator};

/// The name of a member as it is written after another one, `,"NAME":`. `member!` and `element!` give it.
pub type Member = &'static str;

/// The member of a name that has no character to escape, or the first member of the object that is a member: `,"NAME":`
/// and `,"NAME":{"FIRST":`. It is put together when the program is compiled, so that it is written in one part.
#[macro_export]
macro_rules! member {
    ($name:literal) => {
        concat!(",\"", $name, "\":")
    };
    ($name:literal, $first:literal) => {
        concat!(",\"", $name, "\":{\"", $first, "\":")
    };
}

/// The first member of an object that is an element, or of the object that is this member: `,{"NAME":` and
/// `,{"NAME":{"FIRST":`.
#[macro_export]
macro_rules! element {
    ($name:literal) => {
        concat!(",{\"", $name, "\":")
    };
    ($name:literal, $first:literal) => {
        concat!(",{\"", $name, "\":{\"", $first, "\":")
    };
}

/// What is written of a member after another one, or as the first.
fn written(member: Member, follows: bool) -> &'static str {
    if follows {
        member
    } else {
        member.get(1..).unwrap_or("")
    }
}

/// A JSON text that grows. Members are put into the object that was opened last. As a text in words, it is refused as a
/// whole where memory for a part was.
#[derive(Drop)]
pub struct JsonWords<A: Allocator> {
    words: TextBuilder<A>,
    /// Whether what is put next comes after something in its object or list, so that a comma is between them.
    follows: bool,
}

impl<A: Allocator> JsonWords<A> {
    /// Nothing yet, over a text that is empty, which says how much of long texts is shown.
    pub fn over(words: TextBuilder<A>) -> JsonWords<A> {
        JsonWords {
            words,
            follows: false,
        }
    }

    /// What is shown of octets.
    pub(crate) fn shown_of<'o>(&self, octets: &'o [u8]) -> &'o [u8] {
        self.words.shown_of(octets)
    }

    /// The octets of the text. `AllocError` where memory for it was refused.
    pub(crate) fn into_octets(self) -> Result<Vec<u8, A>, AllocError> {
        self.words.into_octets()
    }

    /// The text. `AllocError` where memory for it was refused.
    pub fn finish(self) -> Result<String<A>, AllocError> {
        self.words.finish()
    }

    /// Opens an object, as an element or as the whole.
    pub fn open_element(&mut self) {
        let front = if self.follows { ",{" } else { "{" };
        say_all!(&mut self.words; front);
        self.follows = false;
    }

    /// Opens the object that is a member.
    pub fn open(&mut self, member: Member) {
        self.name(member);
        say_all!(&mut self.words; '{');
        self.follows = false;
    }

    /// Closes an object.
    pub fn close(&mut self) {
        say_all!(&mut self.words; '}');
        self.follows = true;
    }

    /// Opens the list that is a member.
    pub fn open_list(&mut self, member: Member) {
        self.name(member);
        say_all!(&mut self.words; '[');
        self.follows = false;
    }

    /// Closes a list.
    pub fn close_list(&mut self) {
        say_all!(&mut self.words; ']');
        self.follows = true;
    }

    /// Ends a line: another text begins.
    pub fn end_line(&mut self) {
        say_all!(&mut self.words; '\n');
        self.follows = false;
    }

    /// Memory for what belongs into the text was refused.
    pub fn refuse(&mut self) {
        self.words.refuse();
    }

    /// Puts a number, as an element.
    pub(crate) fn element(&mut self, number: u64) {
        let front = if self.follows { "," } else { "" };
        say_all!(&mut self.words; front, number);
        self.follows = true;
    }

    /// Puts a text that has no character to escape, as an element.
    pub(crate) fn text_element(&mut self, text: &str) {
        let front = if self.follows { ",\"" } else { "\"" };
        say_all!(&mut self.words; front, text, '"');
        self.follows = true;
    }

    /// Puts the name of a member. Its value is next.
    #[inline(always)]
    pub(crate) fn name(&mut self, member: Member) {
        say_all!(&mut self.words; written(member, self.follows));
    }

    /// Puts the value of a member, or what it ends with, in quotes.
    pub(crate) fn quoted<S: Say>(&mut self, part: S) {
        say_all!(&mut self.words; '"', part, '"');
        self.follows = true;
    }

    /// Puts a member whose value is written in one part, without quotes.
    pub(crate) fn value<S: Say>(&mut self, member: Member, part: S) {
        self.name(member);
        say_all!(&mut self.words; part);
        self.follows = true;
    }

    /// Puts a number.
    pub fn number(&mut self, member: Member, number: u64) {
        self.value(member, number);
    }

    /// Puts a number that may be below 0.
    pub fn signed(&mut self, member: Member, number: i64) {
        self.value(member, number);
    }

    /// Puts that a value is missing.
    pub fn null(&mut self, member: Member) {
        self.value(member, "null");
    }

    /// Puts a number that may be missing.
    pub fn number_if_any(&mut self, member: Member, number: Option<u64>) {
        match number {
            Some(number) => self.number(member, number),
            None => self.null(member),
        }
    }

    /// Puts a flag.
    pub fn flag(&mut self, member: Member, flag: bool) {
        self.value(member, if flag { "true" } else { "false" });
    }

    /// Puts a text that has no character to escape.
    pub fn plain<S: Say>(&mut self, member: Member, part: S) {
        self.name(member);
        self.quoted(part);
    }

    /// Puts a text.
    pub fn text(&mut self, member: Member, text: &str) {
        self.plain(member, JsonText::new(text));
    }
}

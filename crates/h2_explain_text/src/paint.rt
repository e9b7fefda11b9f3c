//! The lines of a text, and their colours by what they say. Definitions: `specs/Lines.antt`.

ghost use Rattle.std.specs.Prelude.{◌≡◌};
ghost use Rattle.h2_explain_text.specs.Lines.{colour, ended, started};

use h2_io::say::TextBuilder;
use h2_io::say_all;
use std::alloc::Allocator;

/// What a line says.
#[derive(Clone, Copy)]
pub enum Role {
    /// The item itself, or the end.
    Item,
    /// A field, or a table size update.
    Field,
    /// An error, or its sentence.
    Error,
    /// Why it is ignored, or a warning.
    Ignored,
    /// A frame that was sent.
    Sent,
    /// What changed.
    Change,
}

/// Whether lines are coloured.
#[derive(Clone, Copy)]
pub struct Paint(
    /// Whether they are.
    pub bool,
);

/// The colour of a line, as terminals take it.
fn colour(role: Role) -> &'static str
    ensures { result.now ≡ colour role }
{
    match role {
        Role::Item => "\u{1b}[1m",
        Role::Field => "\u{1b}[36m",
        Role::Error => "\u{1b}[31m",
        Role::Ignored => "\u{1b}[33m",
        Role::Sent => "\u{1b}[32m",
        Role::Change => "\u{1b}[2m",
    }
}

impl Paint {
    /// The colour that a line begins with, empty without colours.
    pub fn started(self, role: Role) -> &'static str
        ensures { result.now ≡ started self.0 role }
    {
        if self.0 { colour(role) } else { "" }
    }

    /// The end of a line.
    pub fn ended(self) -> &'static str
        ensures { result.now ≡ ended self.0 }
    {
        if self.0 { "\u{1b}[0m\n" } else { "\n" }
    }

    /// Begins a line at its left end.
    pub fn start<A: Allocator>(self, role: Role, out: &mut TextBuilder<A>) {
        if self.0 {
            say_all!(out; colour(role));
        }
    }

    /// Begins a line below the first one of an item.
    pub fn begin<A: Allocator>(self, role: Role, out: &mut TextBuilder<A>) {
        say_all!(out; "        ");
        self.start(role, out);
    }

    /// Begins a line below the first one of an item with these words, which are given after the blanks that such a line
    /// begins with: without colours that is one part of the text.
    #[inline(always)]
    pub fn lead<A: Allocator>(self, role: Role, indented: &str, out: &mut TextBuilder<A>) {
        if self.0 {
            self.begin(role, out);
            say_all!(out; indented.trim_start());
        } else {
            say_all!(out; indented);
        }
    }

    /// Ends a line.
    #[inline(always)]
    pub fn end<A: Allocator>(self, out: &mut TextBuilder<A>) {
        if self.0 {
            say_all!(out; self.ended());
        } else {
            say_all!(out; "\n");
        }
    }
}

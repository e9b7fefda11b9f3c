//! Why a line is none of a dialogue. Definitions: `specs/Whys.antt`.

ghost use Rattle.std.specs.Prelude.{◌≡◌};
ghost use Rattle.h2_cmd_inject.specs.Whys.{sentence_of};
ghost use Rattle.h2_cmd_inject.specs.declared.why.LineRefusal.TheVariants.{NoMemory};

use std::alloc::AllocError;

/// Why a line is none of a dialogue.
#[derive(Clone, Copy)]
pub enum Why {
    /// It has a mark, which is none of a dialogue, or has no space after it.
    Mark,
    /// No dialogue begins before it.
    NoTitle,
    /// No step begins before it.
    NoStep,
    /// The item of a step is none.
    Item,
    /// It is the preface, or octets.
    NotOneFrame,
    /// `asm` does not read it.
    NotScript,
    Duty,
    Reaction,
    Status,
}

impl Why {
    /// What standard error says of it.
    pub fn sentence(self) -> &'static str
        ensures { result.now ≡ sentence_of self }
    {
        match self {
            Why::Mark => "a mark of a dialogue is ;# ;@ ;+ ;- ;< ;! or ;$, and a space after it",
            Why::NoTitle => "a dialogue begins with a line ;# TITLE",
            Why::NoStep => "a step begins with a line ;+ ITEM or ;- ITEM",
            Why::Item => "an item is start, pong, or NAME FLAGS STREAM",
            Why::NotOneFrame => "a line of a dialogue is one frame",
            Why::NotScript => "not a line of a script; asm says what is wrong with it",
            Why::Duty => "a duty is MUST, MUST?, SHOULD or MAY",
            Why::Reaction => "a reaction is -, connection CODE or stream N CODE",
            Why::Status => "a status is N or !N",
        }
    }
}

/// Why a line is not read.
#[derive(Clone, Copy)]
pub enum LineRefusal {
    NoMemory,
    Because(Why),
}

impl From<AllocError> for LineRefusal {
    ghost from_gives = { λ _ refusal. refusal ≡ NoMemory };

    fn from(_error: AllocError) -> LineRefusal {
        LineRefusal::NoMemory
    }
}

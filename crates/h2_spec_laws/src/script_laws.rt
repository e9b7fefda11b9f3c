//! Laws of scripts: reading is what the relation says, and what is written for octets is a script of them.
//! Each law is the contract of a function with an empty body; definitions: `Script`, `Assemble` and `Written` of
//! `h2_spec/specs`.

ghost use Rattle.std.specs.Prelude.{◌≡◌, ℕ, List, Ok, Err};
ghost use Rattle.hex.specs.Hex.{IsBytes};
ghost use Rattle.h2_spec.specs.Texts.Assemble.{assembled};
ghost use Rattle.h2_spec.specs.Texts.Script.{Bad, IsReadingOf, Script};
ghost use Rattle.h2_spec.specs.Texts.Written.{written};
ghost use Rattle.h2_spec.specs.declared.scripts.SyntaxKind.{SyntaxKind};

/// What a text is read as is what it says: the octets that it represents, or its first bad line with the line's least
/// kind of fault. A text represents one sequence of octets at most, and these are the ones that are read; the first bad
/// line, where there is one, is the one that is named.
pub fn scripts_are_read()
    ensures reading { (text : List ℕ) → IsReadingOf text (assembled text) }
    ensures read { (text octets : List ℕ) → Script text octets → assembled text ≡ Ok octets }
    ensures refused { (text : List ℕ) (line : ℕ) (kind : SyntaxKind) → Bad text line kind → assembled text ≡ Err (line, kind) }
    ensures determined { (text a b : List ℕ) → Script text a → Script text b → a ≡ b }
{}

/// The script that is written for octets represents them, whatever they are, and is read so.
pub fn what_is_written_assembles_to_its_octets()
    ensures assembles { (octets : List ℕ) → IsBytes octets → Script (written octets) octets }
    ensures read { (octets : List ℕ) → IsBytes octets → assembled (written octets) ≡ Ok octets }
{}

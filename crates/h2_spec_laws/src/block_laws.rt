//! Laws of instructions and field blocks, each on a function with an empty body: its contract is the law.
//! They speak of `h2_spec/specs/Hpack/Instruction.antt` and `h2_spec/specs/Hpack/Block.antt`; their lemmas are in
//! `InstructionLaws` and `BlockLaws` of `h2_spec/proofs`, and in `SplitLaws`, `BeginningLaws`, `FormLaws` and
//! `DecodingLaws` of `proofs`.

ghost use Rattle.std.specs.Prelude.{◌≡◌, ◌<◌, ◌≤◌, ℕ, List, ◌++◌, length, take, Some};
ghost use Rattle.std.specs.List.{concat};
ghost use Rattle.hex.specs.Hex.{IsBytes};
ghost use Rattle.h2_spec.specs.Read.{Whole, More, TooLong};
ghost use Rattle.h2_spec.specs.Hpack.Instruction.{CanEnd, Instruction, HasTexts, IsSpellable, IsSpelling, Shape, Splits, instr_at, instruction_at, shape_of, spell, split};
ghost use Rattle.h2_spec.specs.Hpack.Block.{Decoded, Progress, decoded, carried_on, carried_through};
ghost use Rattle.h2_spec_laws.specs.Blocks.{Decodes};
ghost use Rattle.h2_spec_laws.specs.Forms.{IsForm, IsFormOf};

/// An instruction at the front of octets takes some of them, and is there whatever follows: no spelling begins another.
/// Nor does an integer that is too long become any shorter by more octets (RFC 7541, 5 and 6).
pub fn no_spelling_begins_another()
    ensures takes { (octets : List ℕ) (shape : Shape) (used : ℕ) → instr_at octets ≡ Whole shape used → (0 < used) × (used ≤ length octets) }
    ensures stays { (octets more : List ℕ) (shape : Shape) (used : ℕ) → instr_at octets ≡ Whole shape used → instr_at (octets ++ more) ≡ Whole shape used }
    ensures stays_too_long { (octets more : List ℕ) → instr_at octets ≡ TooLong → instr_at (octets ++ more) ≡ TooLong }
{}

/// There is one way to write octets as instructions in a row and a rest that begins with none, and splitting finds it;
/// octets in two pieces split as their sum does (RFC 7541, 6).
pub fn octets_split_in_one_way()
    ensures split { (octets : List ℕ) → Splits octets (split octets).elements (split octets).rest }
    ensures one_way { (octets rest : List ℕ) (shapes : List Shape) → Splits octets shapes rest → (shapes ≡ (split octets).elements) × (rest ≡ (split octets).rest) }
    ensures cut { (octets more : List ℕ) → let later = split ((split octets).rest ++ more) in ((split (octets ++ more)).elements ≡ (split octets).elements ++ later.elements) × ((split (octets ++ more)).rest ≡ later.rest) }
{}

/// Each spelling of an instruction is read as that instruction, whatever follows, however its integers and strings are
/// spelled; and what is read of an instruction is spelled there (RFC 7541, 6).
pub fn instructions_are_read()
    ensures read { (instruction : Instruction) (octets more : List ℕ) → IsSpelling instruction octets → instruction_at (octets ++ more) ≡ Whole (Some instruction) (length octets) }
    ensures spelled { (octets : List ℕ) (instruction : Instruction) (used : ℕ) → instruction_at octets ≡ Whole (Some instruction) used → IsSpelling instruction (take used octets) }
{}

/// The octets that are written for an instruction are one whole spelling of it, by its shape and by its texts (RFC
/// 7541, 6).
/// That its integers are the shortest is a law of `integer_laws`.
pub fn instructions_are_written()
    ensures whole { (shape : Shape) → IsSpellable shape → instr_at (spell shape) ≡ Whole shape (length (spell shape)) }
    ensures spelling { (instruction : Instruction) → IsSpellable (shape_of instruction) → HasTexts instruction → IsSpelling instruction (spell (shape_of instruction)) }
{}

/// An instruction has one of five forms, made of integers and strings: each form is read as its instruction, whatever
/// follows, and what is read of octets is a form of it, by its strings as they are and by their texts (RFC 7541, 5
/// and 6).
pub fn instructions_have_five_forms()
    ensures read { (shape : Shape) (octets more : List ℕ) → IsForm shape octets → instr_at (octets ++ more) ≡ Whole shape (length octets) }
    ensures formed { (octets : List ℕ) (shape : Shape) (used : ℕ) → IsBytes octets → instr_at octets ≡ Whole shape used → IsForm shape (take used octets) }
    ensures text_read { (instruction : Instruction) (octets more : List ℕ) → IsFormOf instruction octets → instruction_at (octets ++ more) ≡ Whole (Some instruction) (length octets) }
    ensures text_formed { (octets : List ℕ) (instruction : Instruction) (used : ℕ) → IsBytes octets → instruction_at octets ≡ Whole (Some instruction) used → IsFormOf instruction (take used octets) }
{}

/// Octets that are the beginning of an instruction become one with some octets more, and these alone do; one with an
/// integer that is too long never does (RFC 7541, 5.1 and 6).
pub fn beginnings_can_be_ended()
    ensures ended { (octets : List ℕ) → instr_at octets ≡ More → CanEnd octets }
    ensures begun { (octets more : List ℕ) (shape : Shape) → 0 < length more → instr_at (octets ++ more) ≡ Whole shape (length (octets ++ more)) → instr_at octets ≡ More }
    ensures too_long { (octets more : List ℕ) → instr_at octets ≡ TooLong → instr_at (octets ++ more) ≡ TooLong }
{}

/// However a field block is cut into fragments, it means the same: its fields, the table after it, and how it ends
/// (RFC 9113, 4.3).
pub fn blocks_are_cut_anywhere()
    ensures once { (limit : ℕ) (before : Progress) (octets more : List ℕ) → decoded limit before (octets ++ more) ≡ carried_on limit (decoded limit before octets) more }
    ensures often { (limit : ℕ) (before : Progress) (octets : List ℕ) (pieces : List (List ℕ)) → carried_through limit (decoded limit before octets) pieces ≡ decoded limit before (octets ++ concat pieces) }
{}

/// A field block decodes the instructions that its octets split into, in order, up to the first that is refused. It
/// ends with that refusal, or else with the rest of the split: the beginning of an instruction, or an integer that is
/// too long. Nothing else is what it results in (RFC 7541, 3.2, 5.1 and 6).
pub fn blocks_are_their_instructions()
    ensures is { (limit : ℕ) (before : Progress) (octets : List ℕ) → Decodes limit before (split octets).elements (split octets).rest (decoded limit before octets) }
    ensures only { (limit : ℕ) (before : Progress) (octets : List ℕ) (d : Decoded) → Decodes limit before (split octets).elements (split octets).rest d → d ≡ decoded limit before octets }
{}

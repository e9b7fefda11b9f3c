//! A law of what is written and read here, on a function with an empty body: what is written is read back as what it was
//! written for. Its lemmas are those from which `h2_spec_laws::block_laws` is proved too, and are in `h2_spec` as the
//! definitions are.

ghost use Rattle.std.specs.Prelude.{◌≡◌, ℕ, List, ◌++◌, length, Some};
ghost use Rattle.h2_hpack_instruction.specs.Instructions.{IsWritable};
ghost use Rattle.h2_spec.specs.Hpack.Instruction.{Instruction, HasTexts, IsSpelling, instruction_at, shape_of, spell};
ghost use Rattle.h2_spec.specs.Read.{Whole};

/// What `write_instr` appends is one whole spelling of the instruction, and is read back, whatever follows (RFC 7541,
/// 6).
pub fn instructions_are_read_back()
    ensures spelling { (instruction : Instruction) → IsWritable instruction → HasTexts instruction → IsSpelling instruction (spell (shape_of instruction)) }
    ensures read { (instruction : Instruction) (more : List ℕ) → IsWritable instruction → HasTexts instruction → instruction_at (spell (shape_of instruction) ++ more) ≡ Whole (Some instruction) (length (spell (shape_of instruction))) }
{}

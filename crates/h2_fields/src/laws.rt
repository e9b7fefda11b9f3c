//! Laws of blocks, each on a function with an empty body: the block of a response is read back as what it was written
//! for, and the decoding of a block takes few steps for its octets, however it is cut.
//! They rest on the lemmas from which `h2_spec_laws::block_laws` is proved too, and which are in `h2_spec` as the
//! definitions do.

ghost use Rattle.std.specs.Prelude.{◌≡◌, ℕ, ◌+◌, ◌*◌, ◌<◌, ◌≤◌, Bool, false, if◌then◌else◌, List, ◌∷◌, length};
ghost use Rattle.std.specs.List.{AllByRecursion, concat};
ghost use Rattle.h2_fields.specs.Blocks.{ArePushed, BlockSoFar, fresh};
ghost use Rattle.h2_fields.specs.ResponseRead.{read_whole, status_field};
ghost use Rattle.h2_hpack_instruction.specs.Instructions.{IsWritableField};
ghost use Rattle.h2_fields.specs.Rests.{most_ticks};
ghost use Rattle.h2_spec.specs.Requests.Answer as answer;
ghost use Rattle.h2_spec.specs.Hpack.Block.{decoded, start};
ghost use Rattle.h2_spec.specs.Hpack.DynamicTable.{Table, resize};
ghost use Rattle.h2_spec.specs.Hpack.Field.{Field};

/// What `response_block` returns is read as its status and its fields, whatever the table holds; the table is emptied
/// first where that is signalled, and else left as it is (RFC 9113, 8.3.2; RFC 7541, 4.2 and 6.2.2).
pub fn responses_are_read()
    ensures { (limit : ℕ) (table : Table) (size_update_pending : Bool) (status : ℕ) (fields : List Field) → AllByRecursion IsWritableField fields → decoded limit (start table false) (answer.response_block size_update_pending status fields) ≡ read_whole (status_field status ∷ fields) (if size_update_pending then resize table 0 else table) }
{}

/// A decoder that took fragments of n octets in all, f of them, each as the clause `ticks` of `BlockDecoder::push` says,
/// counts at least n and at most 4 n + 8 f ticks, however they were cut.
pub fn ticks_are_bounded()
    ensures { (due : Bool) (pieces : List (List ℕ)) (now : BlockSoFar) → ArePushed (fresh due) pieces now → now.ticks < most_ticks → (length (concat pieces) ≤ now.ticks) × (now.ticks ≤ 4 * length (concat pieces) + 8 * length pieces) }
{}

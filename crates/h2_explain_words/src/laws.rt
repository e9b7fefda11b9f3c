//! The law of spellings, on a function with an empty body: its contract is the law. It speaks of specs/Spelled.antt and
//! of h2_spec's specs/Hpack/Block.antt; its lemmas are in `Along` of `proofs`.

ghost use Rattle.std.specs.Prelude.{◌≡◌, ℕ, List, ◌++◌, length};
ghost use Rattle.h2_spec.specs.Hpack.Block.{Progress, decoded};
ghost use Rattle.h2_explain_words.specs.Along.{IsAlong};
ghost use Rattle.h2_explain_words.specs.Spelled.{BlockSpelled, read_more};

/// By how many fields a connection has decoded it is seen which instructions of a block it has carried out: the n-th field
/// is that of the n-th of them that gives one, and how it is spelled is seen in the octets alone (RFC 7541, 6).
pub fn fields_are_spelled_in_their_order()
    ensures { (limit : ℕ) (before : Progress) (b : BlockSpelled) (fragment : List ℕ) → length b.taken.given ≡ length before.fields →
        let d = decoded limit before (b.rest ++ fragment) in IsAlong limit before b.taken d (read_more (length d.progress.fields) limit b fragment) }
{}

//! Laws of the dynamic table, each on a function with an empty body: its contract is the law.
//! They speak of `h2_spec/specs/Hpack/DynamicTable.antt`; their lemmas are in `h2_spec/proofs/TableLaws.antt`.

ghost use Rattle.std.specs.Prelude.{◌≡◌, ◌<◌, ◌≤◌, ℕ, List, [], ◌∷◌, ◌++◌};
ghost use Rattle.h2_spec.specs.Hpack.Field.{Field};
ghost use Rattle.h2_spec.specs.Hpack.DynamicTable.{fit, total_size, IsLongestFit};

/// What fits into a maximum is the longest prefix of the entries, the newest first, whose sizes sum to at most that
/// maximum, and nothing else is (RFC 7541, 4.3).
pub fn fit_is_the_longest_prefix()
    ensures is { (entries : List Field) (max : ℕ) → IsLongestFit entries max (fit entries max) }
    ensures only { (entries : List Field) (max : ℕ) (kept : List Field) → IsLongestFit entries max kept → kept ≡ fit entries max }
{}

/// Evicting one oldest entry after another until the sum is within the maximum leads to what fits (RFC 7541, 4.3 and
/// 4.4).
pub fn eviction_leads_to_the_fit()
    ensures evicts { (entries : List Field) (oldest : Field) (max : ℕ) → max < total_size (entries ++ oldest ∷ []) → fit (entries ++ oldest ∷ []) max ≡ fit entries max }
    ensures stops { (entries : List Field) (max : ℕ) → total_size entries ≤ max → fit entries max ≡ entries }
{}

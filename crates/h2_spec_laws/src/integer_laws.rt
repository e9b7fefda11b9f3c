//! Laws of integers (RFC 7541, 5.1), each on a function with an empty body: its contract is the law.
//! Definitions: `h2_spec/specs/Hpack/Integer.antt`.

ghost use Rattle.std.specs.Prelude.{◌≡◌, ℕ, ◌%◌, ◌^◌, ◌<◌, List, [], ◌++◌, length};
ghost use Rattle.h2_spec.specs.Hpack.Integer.{
  IsInt,
  IsReadOf,
  IsShortest,
  IsTooLong,
  IsUnfinished,
  int_at,
  spell_int,
};
ghost use Rattle.h2_spec.specs.Read.{More, TooLong, Whole};

/// What is read of an integer is what the octets spell, its beginning, or one that is too long; and each of these is
/// read so.
pub fn integers_are_read()
    ensures read { (n : ℕ) (octets : List ℕ) → IsReadOf n octets (int_at n octets) }
    ensures whole { (n v : ℕ) (octets rest : List ℕ) → IsInt n v octets → int_at n (octets ++ rest) ≡ Whole v (length octets) }
    ensures unfinished { (n : ℕ) (octets : List ℕ) → IsUnfinished n octets → int_at n octets ≡ More }
    ensures too_long { (n : ℕ) (octets : List ℕ) → IsTooLong n octets → int_at n octets ≡ TooLong }
{}

/// No integer's octets begin another's, and none are those of two numbers.
pub fn no_integer_begins_another()
    ensures { (n v w : ℕ) (octets rest : List ℕ) → IsInt n v octets → IsInt n w (octets ++ rest) → (v ≡ w) × (rest ≡ []) }
{}

/// What is written of a number below 2^35 is its shortest spelling, with nothing of the bits above the prefix in it,
/// and is read back whatever follows it.
pub fn integers_are_written()
    ensures shortest { (n high v : ℕ) → high % 2 ^ n ≡ 0 → v < 2 ^ 35 → IsShortest n v (spell_int n high v) }
    ensures read_back { (n high v : ℕ) (rest : List ℕ) → high % 2 ^ n ≡ 0 → v < 2 ^ 35 → int_at n (spell_int n high v ++ rest) ≡ Whole v (length (spell_int n high v)) }
{}

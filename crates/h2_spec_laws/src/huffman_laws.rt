//! Laws of the Huffman code and its strings (RFC 7541, 5.2 and Appendix B), each on a function with an empty body.
//! Definitions: `h2_spec/specs/Hpack/HuffmanCode.antt`, `h2_spec/specs/Hpack/Huffman.antt`.

ghost use Rattle.std.specs.Prelude.{◌≡◌, ℕ, ◌<◌, Bool, true, List, ◌++◌, length};
ghost use Rattle.h2_spec.specs.Hpack.HuffmanCode.{are_canonical, code, code_rows, code_table};
ghost use Rattle.h2_spec.specs.Hpack.Huffman.{
  HasEos,
  HuffRead,
  IsDecodingOf,
  IsHuffman,
  IsText,
  huffman_text,
  spell_huffman,
};

/// The table follows the canonical rule, and has a code of a bit or more for each of 257 symbols.
pub fn the_code_is_canonical()
    ensures canonical { are_canonical 0 0 code_rows ≡ true }
    ensures each { (s : ℕ) → s < 257 → 0 < length (code s) }
    ensures once { length code_table ≡ 257 }
{}

/// No code begins another.
pub fn no_code_begins_another()
    ensures { (s t : ℕ) (rest : List Bool) → s < 257 → t < 257 → code t ≡ code s ++ rest → s ≡ t }
{}

/// What octets are said to be is what they are: a text, a string with its end in it, or neither; and only one of these.
pub fn strings_are_read()
    ensures read { (o : List ℕ) → IsDecodingOf o (huffman_text o) }
    ensures only { (o : List ℕ) (r : HuffRead) → IsDecodingOf o r → huffman_text o ≡ r }
{}

/// Octets are one text at most, and none where a whole end of a string is in them.
pub fn strings_have_one_text()
    ensures one { (t u o : List ℕ) → IsHuffman t o → IsHuffman u o → t ≡ u }
    ensures none { (t o : List ℕ) → IsHuffman t o → HasEos o → ⊥ }
{}

/// Each text has one string, which is what is written.
pub fn texts_have_one_string()
    ensures written { (t : List ℕ) → IsText t → IsHuffman t (spell_huffman t) }
    ensures octets { (t : List ℕ) → IsText (spell_huffman t) }
    ensures one { (t o : List ℕ) → IsText o → IsHuffman t o → o ≡ spell_huffman t }
{}

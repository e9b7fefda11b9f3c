//! The sentence of an error, with the values at hand: by its cause (`sentence`), most as a list of words and values
//! (`part`), of the field that is at fault (`field_sentence`), and of a Huffman string (`string_sentence`).
#![tactic(auto)]

mod field_sentence;
mod part;
pub mod sentence;
mod string_sentence;

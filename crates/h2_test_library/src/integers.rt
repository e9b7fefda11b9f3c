//! Integers and strings (RFC 7541, 5.1, 5.2, C.1.2 and C.6.1).

use crate::same::same;
use h2_prim::{IntRead, StrRead, read_int, read_str, write_int};
use std::alloc::Global;
use std::test::Fail;

#[test]
fn an_integer_is_written_and_read(rt: HostRuntime) {
    let mut out = Vec::new(rt.alloc());
    let written = write_int(5, 0, 1337, &mut out);
    let wanted = (Ok(()), b"\x1f\x9a\x0a".as_slice());
    same(&rt, &(written, out.as_slice()), &wanted, &"written");
    assert!(rt; matches!(read_int(5, out.as_slice()), IntRead::Whole(1337, 3)));
}

/// The text of a string, whether it is a Huffman string, and how many octets it takes. No clause says it, so that the
/// proof of a test does not carry what strings are.
fn whole(alloc: Global, octets: &[u8]) -> Result<(Vec<u8>, bool, usize), Fail> {
    match read_str(alloc, octets)? {
        StrRead::Whole(text, huffman, used) => Ok((text, huffman, used)),
        StrRead::More | StrRead::TooLong => Err(Fail::from("a whole string")),
    }
}

#[test]
fn a_huffman_string_is_read(rt: HostRuntime) -> Result<(), Fail> {
    let (text, huffman, used) = whole(rt.alloc(), b"\x82\x64\x02")?;
    let found = (text.as_slice(), huffman, used);
    same(&rt, &found, &(b"302".as_slice(), true, 3), &"302");
    Ok(())
}

//! Field blocks that come in fragments (RFC 7541, C.4.1).

use crate::same::same;
use h2_fields::block::BlockDecoder;
use h2_hpack_instruction::fault::BlockFault;
use h2_hpack_instruction::field::Field;
use h2_table::DynTable;
use std::alloc::{AllocError, Global};
use std::test::Fail;

// These have no clause, so that the proof of a test does not carry the state of each call.

fn empty_table(alloc: Global) -> Result<DynTable<Global>, AllocError> {
    DynTable::new(alloc, 4096)
}

fn started(alloc: Global, table: &DynTable<Global>) -> BlockDecoder<Global> {
    BlockDecoder::start(alloc, table.due())
}

fn pushed(
    decoder: &mut BlockDecoder<Global>,
    table: &mut DynTable<Global>,
    fragment: &[u8],
) -> Result<(), BlockFault> {
    decoder.push(table, fragment)
}

fn finished(decoder: &BlockDecoder<Global>) -> Result<(), BlockFault> {
    decoder.finish()
}

fn copied(decoder: &BlockDecoder<Global>) -> Result<BlockDecoder<Global>, AllocError> {
    decoder.try_clone()
}

/// What a list of fields counts, and the steps that it took to decode it.
fn counts(decoder: &BlockDecoder<Global>) -> (u64, u64) {
    (decoder.list_size(), decoder.ticks())
}

/// The fields so far, each as a line.
fn lines(alloc: Global, decoder: &BlockDecoder<Global>) -> Result<Vec<u8>, AllocError> {
    let mut lines = Vec::new(alloc);
    for field in decoder.fields() {
        lines.extend_from_slice(field.name.as_slice())?;
        lines.extend_from_slice(b": ")?;
        lines.extend_from_slice(field.value.as_slice())?;
        lines.push(b'\n')?;
    }
    Ok(lines)
}

/// The fields of a request, as lines, and what they count.
const REQUEST: &[u8] = b":method: GET\n:scheme: http\n:path: /\n:authority: www.example.com\n";

/// A block in fragments of a length; its fields, what they count, and the steps.
struct Block {
    name: &'static str,
    octets: &'static [u8],
    length: usize,
    fields: &'static [u8],
    counts: (u64, u64),
}

static BLOCKS: [Block; 5] = [
    Block {
        name: "20 octets, 4 instructions, 1 fragment",
        octets: b"\x82\x86\x84\x41\x0fwww.example.com",
        length: 20,
        fields: REQUEST,
        counts: (180, 25),
    },
    Block {
        name: "the same in 20 fragments: no octet is passed again",
        octets: b"\x82\x86\x84\x41\x0fwww.example.com",
        length: 1,
        fields: REQUEST,
        counts: (180, 44),
    },
    Block {
        name: "17 octets, 12 of them a Huffman string, 4 instructions, 1 fragment",
        octets: b"\x82\x86\x84\x41\x8c\xf1\xe3\xc2\xe5\xf2\x3a\x6b\xa0\xab\x90\xf4\xff",
        length: 17,
        fields: REQUEST,
        counts: (180, 34),
    },
    Block {
        name: "the same in 17 fragments",
        octets: b"\x82\x86\x84\x41\x8c\xf1\xe3\xc2\xe5\xf2\x3a\x6b\xa0\xab\x90\xf4\xff",
        length: 1,
        fields: REQUEST,
        counts: (180, 50),
    },
    // 3f, then 3f e1, then 3f e1 1f
    Block {
        name: "an integer of 3 octets is passed from its first octet at each fragment",
        octets: b"\x3f\xe1\x1f",
        length: 1,
        fields: b"",
        counts: (0, 10),
    },
];

/// Pushes a block in fragments, and ends it.
fn push_all(
    decoder: &mut BlockDecoder<Global>,
    table: &mut DynTable<Global>,
    block: &Block,
) -> Result<(), BlockFault> {
    for fragment in block.octets.chunks(block.length.max(1)) {
        pushed(decoder, table, fragment)?;
    }
    finished(decoder)
}

/// What is compared of a decoder.
fn held(
    alloc: Global,
    decoder: &BlockDecoder<Global>,
) -> Result<(Vec<u8>, (u64, u64)), AllocError> {
    Ok((lines(alloc, decoder)?, counts(decoder)))
}

/// What is compared of a decoder after a block, on an empty table.
fn decoded(alloc: Global, block: &Block) -> Result<(Vec<u8>, (u64, u64)), Fail> {
    let mut table = empty_table(alloc)?;
    let mut decoder = started(alloc, &table);
    push_all(&mut decoder, &mut table, block)?;
    Ok(held(alloc, &decoder)?)
}

#[test]
fn blocks_are_decoded_in_fragments(rt: HostRuntime) -> Result<(), Fail> {
    for block in &BLOCKS {
        let (fields, counts) = decoded(rt.alloc(), block)?;
        let found = (fields.as_slice(), counts);
        same(&rt, &found, &(block.fields, block.counts), &block.name);
    }
    Ok(())
}

/// A decoder after an indexed field and the front of a literal.
fn begun(alloc: Global, table: &mut DynTable<Global>) -> Result<BlockDecoder<Global>, BlockFault> {
    let mut decoder = started(alloc, table);
    pushed(&mut decoder, table, b"\x82\x00\x01a\x02b")?;
    Ok(decoder)
}

/// The fields of a decoder that goes on with one octet more.
fn gone_on(
    alloc: Global,
    decoder: &mut BlockDecoder<Global>,
    table: &mut DynTable<Global>,
    octet: u8,
) -> Result<Vec<u8>, Fail> {
    pushed(decoder, table, &[octet])?;
    finished(decoder)?;
    Ok(lines(alloc, decoder)?)
}

/// The fields of a decoder and of its copy, which go on with other octets.
fn two_ways(
    alloc: Global,
    decoder: &mut BlockDecoder<Global>,
    table: &mut DynTable<Global>,
) -> Result<(Vec<u8>, Vec<u8>), Fail> {
    let mut copy = copied(decoder)?;
    let first = gone_on(alloc, decoder, table, b'c')?;
    Ok((first, gone_on(alloc, &mut copy, table, b'd')?))
}

#[test]
fn a_copy_of_a_decoder_goes_its_own_way(rt: HostRuntime) -> Result<(), Fail> {
    let mut table = empty_table(rt.alloc())?;
    let mut decoder = begun(rt.alloc(), &mut table)?;
    let (first, second) = two_ways(rt.alloc(), &mut decoder, &mut table)?;
    let wanted = (
        b":method: GET\na: bc\n".as_slice(),
        b":method: GET\na: bd\n".as_slice(),
    );
    let found = (first.as_slice(), second.as_slice());
    same(&rt, &found, &wanted, &"a decoder and its copy");
    Ok(())
}

fn copied_field(alloc: Global) -> Result<Field<Global>, AllocError> {
    Field::of(alloc, b"a", b"b")?.try_clone()
}

#[test]
fn a_field_is_copied(rt: HostRuntime) -> Result<(), Fail> {
    let copy = copied_field(rt.alloc())?;
    let found = (copy.name.as_slice(), copy.value.as_slice());
    same(&rt, &found, &(b"a".as_slice(), b"b".as_slice()), &"a copy");
    Ok(())
}

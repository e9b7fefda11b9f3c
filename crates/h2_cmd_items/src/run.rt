//! What is seen of several items together: how the integers of a field block are spelled (RFC 7541, 5.1), and how many idle
//! streams had PRIORITY (RFC 9113, 10.5). No definition speaks of it.

use h2_explain_item::item::Explained;
use h2_frame::Part;
use h2_hpack_instruction::instruction::Mode;
use h2_hpack_instruction::shape::{Point, RawName, RawString, Shape, shape_from};
use h2_spec::octets::octets_from;
use h2_spec::streams::StreamState;
use std::alloc::{AllocError, Global};

/// How many PRIORITY frames on idle streams may be taken for a flood. RFC 9113, 10.5, has no number.
const FLOOD: u32 = 20;

/// What came with some first items.
#[derive(Drop)]
pub struct Run {
    /// The fragments of the last field block.
    block: Vec<u8>,
    /// How many PRIORITY frames were on idle streams.
    priorities: u32,
}

/// The fragment of a field block that an item has; none of another item.
fn fragment_of<'o>(item: &Explained<'o>) -> &'o [u8] {
    match item.part {
        Some(Part::Headers(headers)) => headers.fragment,
        Some(Part::Continuation(fragment)) => fragment,
        _ => &[],
    }
}

/// Whether an item is PRIORITY on an idle stream.
fn is_idle_priority(item: &Explained<'_>) -> bool {
    match (item.part, item.before.stream.kind) {
        (Some(Part::Priority), StreamState::Idle) => true,
        _ => false,
    }
}

impl Run {
    /// No item yet. Takes no memory.
    pub fn new(alloc: Global) -> Run {
        Run {
            block: Vec::new(alloc),
            priorities: 0,
        }
    }

    /// Notes an item.
    ///
    /// `AllocError` where memory is refused.
    pub fn note(&mut self, item: &Explained<'_>) -> Result<(), AllocError> {
        if item.before.block.is_none() {
            self.block.clear();
        }
        if is_idle_priority(item) {
            self.priorities = self.priorities.saturating_add(1);
        }
        self.block.extend_from_slice(fragment_of(item))
    }

    /// Whether idle streams had PRIORITY often enough for a flood.
    pub fn is_flood(&self) -> bool {
        FLOOD <= self.priorities
    }

    /// Whether an integer of the last field block has more octets than its value needs.
    pub fn has_long_integer(&self) -> bool {
        has_long_integer(self.block.as_slice())
    }
}

/// How many octets the shortest spelling of a value has; one of less than `full` is in the prefix alone (RFC 7541, 5.1).
fn integer_length(full: u64, value: u64) -> usize {
    if value < full {
        return 1;
    }
    let rest = value - full;
    if rest < 128 {
        2
    } else if rest < 16_384 {
        3
    } else if rest < 2_097_152 {
        4
    } else if rest < 268_435_456 {
        5
    } else {
        6
    }
}

/// The same of a string, with its octets (RFC 7541, 5.2).
fn string_length(string: RawString<'_>) -> usize {
    let octets = string.octets.len();
    integer_length(127, octets as u64).saturating_add(octets)
}

/// The least index that is not in the prefix of a literal alone (RFC 7541, 6.2).
fn full_of(mode: Mode) -> u64 {
    match mode {
        Mode::IncrementalIndexing => 63,
        Mode::WithoutIndexing | Mode::NeverIndexed => 15,
    }
}

/// How many octets the name of a literal has with its mark, each integer in its shortest spelling.
fn name_length(mode: Mode, name: RawName<'_>) -> usize {
    match name {
        RawName::Ref(index) => integer_length(full_of(mode), index),
        RawName::Named(name) => string_length(name).saturating_add(1),
    }
}

/// The same of an instruction (RFC 7541, 6).
fn shortest_length(shape: Shape<'_>) -> usize {
    match shape {
        Shape::Indexed(index) => integer_length(127, index),
        Shape::Update(maximum) => integer_length(31, maximum),
        Shape::Literal(mode, name, value) => {
            name_length(mode, name).saturating_add(string_length(value))
        }
    }
}

/// The octets from a place on; none where there are fewer.
fn behind(octets: &[u8], start: usize) -> &[u8] {
    if octets.len() < start {
        return &[];
    }
    octets_from(octets, start)
}

/// Whether an integer of the instructions of a block has more octets than its value needs.
fn has_long_integer(block: &[u8]) -> bool {
    let mut rest = block;
    for _instruction in 0..block.len() {
        let Ok((shape, used)) = shape_from(Point::start(), rest) else {
            return false;
        };
        if shortest_length(shape) < used {
            return true;
        }
        rest = behind(rest, used);
    }
    false
}

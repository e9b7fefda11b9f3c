//! The allocator that refuses one allocation, by lists of octets.

use crate::refusing::Refusing;
use crate::trials::Reply;
use std::alloc::{AllocError, Global};

/// An allocator over `Global` that refuses one allocation; collections take a `&` to it.
pub type Heap = Refusing<Global>;

/// Whether memory for that many octets is granted.
fn is_granted(heap: &Heap, count: usize) -> bool {
    Vec::<u8, &Heap>::with_capacity(heap, count).is_ok()
}

/// Which of three allocations are granted, and whether one was refused.
fn three_asked(heap: &Heap) -> ([bool; 3], bool) {
    let granted = [
        is_granted(heap, 1),
        is_granted(heap, 2),
        is_granted(heap, 3),
    ];
    (granted, heap.has_refused())
}

/// Which of three allocations are granted, with a new allocator and with one that counts anew.
pub fn granted(alloc: Global, turn: u64) -> Result<Reply, AllocError> {
    let heap = Refusing::new(alloc, turn);
    let first = three_asked(&heap);
    heap.refuse(turn);
    let anew = heap.has_refused();
    let second = three_asked(&heap);
    Ok(Reply {
        text: format!(in alloc;
            "{:?}, refused {}; counted anew {anew}, {:?}, refused {}",
            first.0, first.1, second.0, second.1
        )?,
        failed: first.1,
    })
}

/// Pushes the octets 0 to 31 until one is refused.
fn push_all(octets: &mut Vec<u8, &Heap>) {
    for octet in 0..32 {
        if octets.push(octet).is_err() {
            return;
        }
    }
}

/// Whether octets count up from 0.
fn is_beginning(octets: &[u8]) -> bool {
    for (index, octet) in octets.iter().enumerate() {
        if index != usize::from(*octet) {
            return false;
        }
    }
    true
}

/// Pushes the octets 0 to 31 with a growth refused, and the rest once more.
pub fn grown(alloc: Global, turn: u64) -> Result<Reply, AllocError> {
    let heap = Refusing::new(alloc, turn);
    let mut octets = Vec::new(&heap);
    push_all(&mut octets);
    Ok(Reply {
        text: format!(in alloc;
            "all {}, a beginning {}",
            octets.len() == 32,
            is_beginning(octets.as_slice())
        )?,
        failed: heap.has_refused(),
    })
}

//! Scripts assembled and written with an allocation refused.

use crate::heap::Heap;
use crate::line::Call;
use crate::refusing::Refusing;
use crate::trials::Reply;
use h2_script::{assemble, disassemble};
use std::alloc::{AllocError, Global};
use std::str;

// These have no clause, so that no proof above them carries the definition of each call.

/// The octets that a script represents, as hex, or why it is none.
fn octets_of(alloc: Global, heap: &Heap, script: &str) -> Result<String, AllocError> {
    match assemble(heap, script) {
        Ok(octets) => hex::encode(alloc, octets.as_slice()),
        Err(fault) => format!(in alloc; "{fault:?}"),
    }
}

/// The script that is written for octets.
fn script_of(alloc: Global, heap: &Heap, octets: &[u8]) -> Result<String, AllocError> {
    match disassemble(heap, octets) {
        Ok(script) => format!(in alloc; "{:?}", script.as_str()),
        Err(AllocError) => String::from_str(alloc, "refused"),
    }
}

/// The octets of a script, with an allocation refused; and once more where it was.
pub fn assembled(alloc: Global, call: &Call<'_>, turn: u64) -> Result<Reply, AllocError> {
    let script = str::from_utf8(call.text()).unwrap_or("");
    let heap = Refusing::new(alloc, turn);
    let mut text = octets_of(alloc, &heap, script)?;
    let failed = heap.has_refused();
    heap.refuse(0);
    if failed {
        write!(text, ", then {}", octets_of(alloc, &heap, script)?)?;
    }
    Ok(Reply { text, failed })
}

/// The script of octets, with an allocation refused; and once more where it was.
pub fn disassembled(alloc: Global, call: &Call<'_>, turn: u64) -> Result<Reply, AllocError> {
    let heap = Refusing::new(alloc, turn);
    let mut text = script_of(alloc, &heap, call.piece(0))?;
    let failed = heap.has_refused();
    heap.refuse(0);
    if failed {
        write!(text, ", then {}", script_of(alloc, &heap, call.piece(0))?)?;
    }
    Ok(Reply { text, failed })
}

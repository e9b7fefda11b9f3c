//! What fields ask for, and why they are refused (RFC 9113, 8.1 to 8.3).

use crate::same::same;
use h2_hpack_instruction::field::Field;
use h2_request::{check, check_trailers};
use std::alloc::{AllocError, Global};
use std::test::Fail;

// These have no clause, so that the proof of the test does not carry what fields are.

/// Fields of these names and values.
fn fields_of(alloc: Global, lines: &[(&str, &str)]) -> Result<Vec<Field<Global>>, AllocError> {
    let mut fields = Vec::new(alloc);
    for (name, value) in lines {
        fields.push(Field::of(alloc, name.as_bytes(), value.as_bytes())?)?;
    }
    Ok(fields)
}

/// The octets of the path that fields ask for, or the number of the reason against them.
fn asked(alloc: Global, lines: &[(&str, &str)]) -> Result<(usize, u8), AllocError> {
    let fields = fields_of(alloc, lines)?;
    match check(fields.as_slice()) {
        Ok(request) => Ok((request.path.len(), 0)),
        Err(malformed) => Ok((0, malformed.0.number())),
    }
}

/// The number of the reason against trailers, 0 for none.
fn trailing(alloc: Global, lines: &[(&str, &str)]) -> Result<u8, AllocError> {
    let fields = fields_of(alloc, lines)?;
    match check_trailers(fields.as_slice()) {
        Ok(()) => Ok(0),
        Err(malformed) => Ok(malformed.0.number()),
    }
}

#[test]
fn fields_are_checked(rt: HostRuntime) -> Result<(), Fail> {
    let alloc = rt.alloc();
    let get = [(":method", "GET"), (":scheme", "http"), (":path", "/a")];
    same(&rt, &asked(alloc, &get)?, &(2, 0), &"a GET of /a");
    let lacking = [(":method", "GET"), (":scheme", "http")];
    same(&rt, &asked(alloc, &lacking)?, &(0, 6), &"no :path");
    same(&rt, &trailing(alloc, &[("a", "b")])?, &0, &"trailers");
    same(
        &rt,
        &trailing(alloc, &[(":path", "/")])?,
        &4,
        &"a pseudo-field in trailers",
    );
    Ok(())
}

// The functions that write elements or note them, each of which fails if memory runs out.
use anyhow::anyhow;
use certificate::{Certificate, encode};
use element::{Index, append_constructed, append_primitive};
use length::Length;
use std::alloc::Global;

// A primitive element, alone in a vector before anything else is written. It leaves one byte of the room that a vector
// asks for at first, so the tag of the next element fits and the rest asks for memory.
const OLD: &[u8] = b"\x01\x05hello";

const WRITERS: &str = "append_primitive
append_constructed
Length::append
encode
Index::new
";

// A row of a constructed element, in which stands a primitive, and a primitive.
const ROW: &[u8] = b"\x80\x09\x02\x07letters\x03\x05words";

const CERTIFICATE: Certificate = Certificate {
    subject: 1,
    issuer: 256,
    not_before: 0,
    not_after: 65_536,
    may_issue: true,
    path_len: 2,
};

// A function that ran out of memory, and whether the vector that it was lent is as it was.
struct Failed {
    name: &'static str,
    unchanged: bool,
}

// Err: the function did not write.
fn wrote(name: &'static str, well: bool, unchanged: bool) -> Result<(), Failed> {
    if well {
        return Ok(());
    }
    Err(Failed { name, unchanged })
}

// A vector that holds `OLD`.
fn old_vector(heap: Global) -> Result<Vec<u8>, Failed> {
    let mut out = Vec::new(heap);
    let well = append_primitive(&mut out, OLD[0], &OLD[2..]).is_ok();
    wrote("append_primitive", well, out.is_empty())?;
    Ok(out)
}

// Calls each of the functions.
fn call_writers(heap: Global) -> Result<(), Failed> {
    let mut out = old_vector(heap)?;
    let well = append_primitive(&mut out, 127, ROW).is_ok();
    wrote("append_primitive", well, out.as_slice() == OLD)?;
    let mut out = old_vector(heap)?;
    let well = append_constructed(&mut out, 128, ROW).is_ok();
    wrote("append_constructed", well, out.as_slice() == OLD)?;
    let mut out = old_vector(heap)?;
    let well = Length::append(&mut out, 300).is_ok();
    wrote("Length::append", well, out.as_slice() == OLD)?;
    wrote("encode", encode(heap, &CERTIFICATE).is_ok(), true)?;
    wrote("Index::new", Index::new(heap, ROW).is_ok(), true)
}

// Calls each of the functions, and prints their names. Err: one failed; that nothing changed is said only if it did not.
pub(crate) fn try_writers(rt: &HostRuntime) -> anyhow::Result<()> {
    match call_writers(rt.alloc()) {
        Ok(()) => Ok(rt.print(WRITERS)?),
        Err(
            Failed {
                name,
                unchanged: true,
            },
        ) => Err(anyhow!("{name}: out of memory, nothing changed")),
        Err(
            Failed {
                name,
                unchanged: false,
            },
        ) => Err(anyhow!("{name}: failed, and something changed")),
    }
}

// Elements appended to a vector.
ghost use Rattle.std.specs.Prelude.{◌≡◌, take, is_ok, if◌then◌else◌, vec_len};
ghost use Rattle.element.specs.Appended.{Appended, AppendedPrimitive, AppendedConstructed};
ghost use Rattle.element.specs.declared.writing.WriteError.TheVariants.{Memory};

use crate::judging::Reader;
use length::Length;
use std::alloc::AllocError;

// Why an element was not appended; the vector is then unchanged.
#[derive(Clone, Copy, PartialEq, Eq, Debug)]
pub enum WriteError {
    // The tag belongs to the other kind of element.
    Tag,
    // The contents have more than `Reader::MAX_LENGTH` bytes.
    Length,
    // The contents are no row of elements, or one that nests too deep.
    Contents,
    // Out of memory.
    Memory(AllocError),
}

impl From<AllocError> for WriteError {
    ghost from_gives = { λ error e. e ≡ Memory error };

    // Out of memory.
    fn from(error: AllocError) -> WriteError {
        WriteError::Memory(error)
    }
}

// Appends the parts of an element one by one. If memory runs out, some of them may have been appended.
#[tactic(auto, unfolding(format::specs::Elements::framed))]
fn append_parts(out: &mut Vec<u8>, tag: u8, contents: &[u8]) -> Result<(), WriteError>
    ensures { Appended Unit Unit tag contents.now out.old.items (if is_ok result then out.new.items else take (vec_len out.old) out.new.items) result }
{
    let Ok(size) = u16::try_from(contents.len()) else {
        return Err(WriteError::Length);
    };
    out.extend_from_slice(&[tag])?;
    Length::append(out, size)?;
    out.extend_from_slice(contents)?;
    Ok(())
}

// Appends an element, or nothing.
fn append_any(out: &mut Vec<u8>, tag: u8, contents: &[u8]) -> Result<(), WriteError>
    ensures { Appended Unit Unit tag contents.now out.old.items out.new.items result }
{
    let before = out.len();
    let done = append_parts(out, tag, contents);
    if done.is_err() {
        out.truncate(before);
    }
    done
}

// Appends a primitive element; its contents are any bytes.
pub fn append_primitive(out: &mut Vec<u8>, tag: u8, contents: &[u8]) -> Result<(), WriteError>
    ensures { AppendedPrimitive tag contents.now out.old.items out.new.items result }
{
    if tag >= Reader::CONSTRUCTED {
        return Err(WriteError::Tag);
    }
    append_any(out, tag, contents)
}

// Appends a constructed element; its contents are a row, which may nest one level less than a whole row.
pub fn append_constructed(out: &mut Vec<u8>, tag: u8, row: &[u8]) -> Result<(), WriteError>
    ensures { AppendedConstructed tag row.now out.old.items out.new.items result }
{
    if tag < Reader::CONSTRUCTED {
        return Err(WriteError::Tag);
    }
    // Contents that are too long are rejected for that, and not read.
    if row.len() <= Reader::MAX_LENGTH && !Reader::row(row, Reader::MAX_DEPTH - 1) {
        return Err(WriteError::Contents);
    }
    append_any(out, tag, row)
}

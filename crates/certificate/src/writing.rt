// Permits encoded: the bytes of a certificate.
ghost use Rattle.std.specs.Prelude.{◌≡◌, IsOk, IsErr, IfOk, OnOk, OnErr};
ghost use Rattle.format.specs.Elements.{written};
ghost use Rattle.certificate.specs.inner.Fields.{AppendedField, OnlyMemory};
ghost use Rattle.certificate.specs.Permits.{InRange, certificate_of, fields_row, permit_bytes, tag_of};

use crate::numbering::{MAX_BYTES, size_of};
use crate::{Certificate, Field};
use element::{WriteError, append_constructed, append_primitive};
use std::alloc::{AllocError, Global};

// The permit of a certificate: its bytes, at most 35. The only error is out of memory.
#[tactic(auto, using(crate::proofs::Laws::permit_written, crate::proofs::Laws::written_behind, crate::proofs::Laws::fields_read, crate::proofs::Wholes::fields_few))]
pub fn encode(heap: Global, c: &Certificate) -> Result<Vec<u8>, AllocError>
    ensures { IfOk result (λ v. v.items ≡ permit_bytes (certificate_of c.now)) }
{
    let fields = fields(heap, c)?;
    let mut out = Vec::new(heap);
    only_memory(append_constructed(&mut out, Certificate::PERMIT, &fields))?;
    Ok(out)
}

// The bytes of the six fields of a certificate.
fn fields(heap: Global, c: &Certificate) -> Result<Vec<u8>, AllocError>
    ensures { IfOk result (λ v. InRange (certificate_of c.now) × (v.items ≡ written (fields_row (certificate_of c.now)))) }
{
    let mut out = Vec::new(heap);
    append_number(&mut out, Field::Subject, c.subject)?;
    append_number(&mut out, Field::Issuer, c.issuer)?;
    append_number(&mut out, Field::NotBefore, c.not_before)?;
    append_number(&mut out, Field::NotAfter, c.not_after)?;
    append_number(&mut out, Field::MayIssue, u32::from(c.may_issue))?;
    append_number(&mut out, Field::PathLen, c.path_len)?;
    Ok(out)
}

// Appends a field with a number to the bytes.
#[tactic(auto, using(crate::proofs::Laws::number_written, crate::proofs::Laws::written_behind))]
fn append_number(out: &mut Vec<u8>, field: Field, value: u32) -> Result<(), AllocError>
    ensures { OnOk result (AppendedField (tag_of field) value out.old.items out.new.items) }
{
    let bytes = value.to_be_bytes();
    let start = MAX_BYTES - size_of(value);
    only_memory(append_primitive(out, u8::from(field), &bytes[start..]))
}

// The same result, where the only error can be out of memory.
fn only_memory(done: Result<(), WriteError>) -> Result<(), AllocError>
    requires { OnlyMemory done }
    ensures ok { OnOk result (IsOk done) }
    ensures err { OnErr result (IsErr done) }
{
    match done {
        Ok(()) => Ok(()),
        Err(WriteError::Memory(error)) => Err(error),
        Err(_) => unreachable(),
    }
}

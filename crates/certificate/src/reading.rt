// Permits decoded: a certificate from its bytes.
ghost use Rattle.std.specs.Prelude.{◌≡◌};
ghost use Rattle.certificate.specs.inner.Fields.{NextField, AllFields, flag_of};
ghost use Rattle.certificate.specs.Permits.{Decoded, tag_of};

use crate::numbering::read_number;
use crate::{Certificate, Field};
use element::Cursor;

// The certificate whose permit the bytes are; None if they are no permit, or a permit and more. The format is in docs/FORMAT.md, "Permits".
pub fn decode(bytes: &[u8]) -> Option<Certificate>
    ensures { Decoded bytes.now result }
{
    let mut row = Cursor::new(bytes);
    let permit = row.next()?;
    if permit.tag != Certificate::PERMIT || !row.is_empty() {
        return None;
    }
    fields(permit.row()?)
}

// The certificate whose fields are all that is ahead; None if there is no such certificate.
fn fields(start: Cursor<'_>) -> Option<Certificate>
    ensures { AllFields start.entry result }
{
    let mut fields = start;
    let subject = number(&mut fields, Field::Subject)?;
    let issuer = number(&mut fields, Field::Issuer)?;
    let not_before = number(&mut fields, Field::NotBefore)?;
    let not_after = number(&mut fields, Field::NotAfter)?;
    let may_issue = flag(number(&mut fields, Field::MayIssue)?)?;
    let path_len = number(&mut fields, Field::PathLen)?;
    if !fields.is_empty() {
        return None;
    }
    Some(Certificate {
        subject,
        issuer,
        not_before,
        not_after,
        may_issue,
        path_len,
    })
}

// The number in the next field; None if it is another one, has no number, or isn't there.
#[tactic(auto, using(crate::proofs::Digits::few_bytes, crate::proofs::Tails::field_read))]
fn number(fields: &mut Cursor<'_>, field: Field) -> Option<u32>
    ensures { NextField fields.old (tag_of field) result fields.new }
{
    let first = fields.next()?;
    if first.tag != u8::from(field) {
        return None;
    }
    read_number(first.contents)
}

// What a flag says: 0 no, 1 yes; None if it is neither.
fn flag(value: u32) -> Option<bool>
    ensures { result ≡ flag_of value }
{
    match value {
        0 => Some(false),
        1 => Some(true),
        _ => None,
    }
}

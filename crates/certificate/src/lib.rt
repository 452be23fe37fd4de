// Permits: a certificate from its bytes (decode), and its bytes (encode).
#![tactic(auto)]

ghost use Rattle.std.specs.Prelude.{◌≡◌};
ghost use Rattle.certificate.specs.Permits.{tag_of};
ghost use Rattle.certificate.specs.Promise.{NumberBytes, OnePermit, PermitReads, DecodesBack};

mod numbering;
mod reading;
mod writing;

pub use reading::decode;
pub use writing::encode;

// What a permit says. Days are counted from a first day that all share; each number is below 2^32. After X.509 (RFC 5280, 4.1 and 4.2.1.9), with
// numbers in place of names.
#[derive(Clone, Copy, PartialEq, Eq, Debug)]
pub struct Certificate {
    // Number of the authority or holder that the permit is for.
    pub subject: u32,
    // Number of the authority that issued it.
    pub issuer: u32,
    // First day on which it holds.
    pub not_before: u32,
    // Last day on which it holds.
    pub not_after: u32,
    // Whether its subject may issue permits.
    pub may_issue: bool,
    // How many certificates may stand between this one and the first of a chain.
    pub path_len: u32,
}

impl Certificate {
    // Tag of the constructed element that is a permit.
    pub const PERMIT: u8 = 128;
}

// The fields of a permit, by their tags and in their order; each is a primitive element. Numbers and days take 1 to 4 bytes, the higher first, in the fewest bytes.
#[derive(Clone, Copy, PartialEq, Eq, Debug)]
pub enum Field {
    Subject = 1,
    Issuer = 2,
    // A day.
    NotBefore = 3,
    // A day.
    NotAfter = 4,
    // One byte: 1 for yes, 0 for no.
    MayIssue = 5,
    // A number of certificates.
    PathLen = 6,
}

impl From<Field> for u8 {
    ghost from_gives = { λ field tag. tag ≡ tag_of field };

    // The tag of a field.
    fn from(field: Field) -> u8 {
        field as u8
    }
}

// The bytes of a number have its value, and no fewer have.
pub fn number_bytes_stands() -> u8
    ensures { NumberBytes }
{
    0
}

// Bytes are the permit of one certificate or of none.
pub fn one_permit_stands() -> u8
    ensures { OnePermit }
{
    0
}

// The bytes of a permit are well-formed, and read as its row.
pub fn permit_reads_stands() -> u8
    ensures { PermitReads }
{
    0
}

// Decoding the bytes of a certificate gives that certificate.
pub fn decodes_back_stands() -> u8
    ensures { DecodesBack }
{
    0
}

// The input of a pool, and why it is rejected.
ghost use Rattle.std.specs.Prelude.{◌≡◌};
ghost use Rattle.chain.specs.Rejections.{rejection_number};

// The most certificates in a pool.
pub const MOST: usize = 200;

// How many numbers a certificate has, in the order of a permit's fields.
pub const NUMBERS: usize = 6;

// Place of the subject among a certificate's numbers.
pub const SUBJECT: usize = 0;

// Place of the issuer.
pub const ISSUER: usize = 1;

// Place of the first day on which the certificate holds.
pub const NOT_BEFORE: usize = 2;

// Place of the last day on which it holds.
pub const NOT_AFTER: usize = 3;

// Place of the flag that says whether its subject may issue certificates, 0 or `YES`.
pub const MAY_ISSUE: usize = 4;

// Place of the path length.
pub const PATH_LEN: usize = 5;

// The mark that says yes, also the largest one; 0 says no.
pub const YES: u8 = 1;

// Unchecked input of a pool: the count, six numbers per certificate, n × n signature marks, n anchor marks.
// C passes the count by itself, so it may not fit the lists.
#[derive(Clone, Copy)]
pub struct PoolInput<'a> {
    pub count: u64,
    pub certificates: &'a [u32],
    pub signatures: &'a [u8],
    pub anchors: &'a [u8],
}

// Why an input is rejected; the reasons are tested in this order.
#[derive(Clone, Copy, PartialEq, Eq, Debug)]
pub enum Rejection {
    // No certificate, more than `MOST`, not six numbers for each, or a may_issue above 1.
    Certificates = 1,
    // Not a signature mark for each two certificates, not an anchor mark for each, or a mark above 1.
    Marks = 2,
    // The certificate asked about is not there.
    Unknown = 3,
    // The output buffer does not have one number for each certificate.
    Buffer = 4,
}

impl Rejection {
    // The number of the reason, 1 to 4.
    pub fn number(self) -> u8
        ensures { result ≡ rejection_number self }
    {
        self as u8
    }
}

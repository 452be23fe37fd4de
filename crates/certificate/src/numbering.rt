// Numbers as bytes, the higher first, in the fewest bytes.
ghost use Rattle.std.specs.Prelude.{◌≡◌};
ghost use Rattle.certificate.specs.Numbers.{number_size};
ghost use Rattle.certificate.specs.inner.Fields.{Numbered};

// The most bytes that a number takes.
pub(crate) const MAX_BYTES: usize = 4;

// The number whose bytes these are; None if they are no number's: none or more than four, or fewer would do.
#[tactic(auto, using(crate::proofs::Digits::shaped, crate::proofs::Digits::one_number, crate::proofs::Digits::two_number, crate::proofs::Digits::three_number, crate::proofs::Digits::four_number))]
pub(crate) fn read_number(bytes: &[u8]) -> Option<u32>
    ensures { Numbered bytes.now result }
{
    match *bytes {
        [a] => Some(u32::from(a)),
        // The rest without the 0 is the same number in fewer bytes.
        [0, ..] => None,
        [a, b] => Some(u32::from_be_bytes([0, 0, a, b])),
        [a, b, c] => Some(u32::from_be_bytes([0, a, b, c])),
        [a, b, c, d] => Some(u32::from_be_bytes([a, b, c, d])),
        _ => None,
    }
}

// How many bytes a number takes.
pub(crate) fn size_of(value: u32) -> usize
    ensures { result ≡ number_size value }
{
    match value {
        0..=0xff => 1,
        0x100..=0xffff => 2,
        0x1_0000..=0xff_ffff => 3,
        _ => MAX_BYTES,
    }
}

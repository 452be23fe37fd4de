// Lengths: read from the front of bytes, written, and how many bytes one takes. They are the definite forms of X.690, 8.1.3, with at most two
// further bytes; as in DER (10.1), only the shortest form of a length is read.
#![tactic(auto)]

ghost use Rattle.std.specs.Prelude.{◌≡◌, ◌++◌, length, is_ok, if◌then◌else◌};
ghost use Rattle.format.specs.Elements.{written_length};
ghost use Rattle.length.specs.Lengths.{front_length, ReadsLength};

use std::alloc::AllocError;

// A length, as `Length::read` answers it.
#[derive(Clone, Copy)]
pub struct Length {
    // How many bytes the contents have, 0 to 65,535.
    pub value: usize,
    // How many bytes the length itself takes, 1 to 3.
    pub size: usize,
}

impl Length {
    // A first byte below this is the length itself (short form).
    pub const SHORT: u8 = 128;
    // First byte of a long form: the length is in the next byte.
    pub const ONE_BYTE: u8 = 129;
    // First byte of a long form: the length is in the next two bytes, the higher first.
    pub const TWO_BYTES: u8 = 130;

    // The length at the front of the bytes; None if they are too few, the first byte begins no length, or a shorter form would do.
    pub fn read(bytes: &[u8]) -> Option<Length>
        ensures { result ≡ front_length bytes.now }
    {
        let [first, behind @ ..] = bytes else {
            return None;
        };
        match (*first, behind) {
            (short, _) if short < Length::SHORT => Some(Length {
                value: usize::from(short),
                size: 1,
            }),
            (Length::ONE_BYTE, [value, ..]) if *value >= Length::SHORT => Some(Length {
                value: usize::from(*value),
                size: 2,
            }),
            (Length::TWO_BYTES, [high, low, ..]) => {
                let value = u16::from_be_bytes([*high, *low]);
                if value <= u16::from(u8::MAX) {
                    return None;
                }
                Some(Length {
                    value: usize::from(value),
                    size: 3,
                })
            }
            _ => None,
        }
    }

    // How many bytes a length takes, 1 to 3.
    pub fn size_of(value: u16) -> usize
        ensures { result ≡ length (written_length value) }
    {
        if value < u16::from(Length::SHORT) {
            1
        } else if value <= u16::from(u8::MAX) {
            2
        } else {
            3
        }
    }

    // Appends a length to the bytes. Out of memory is an error, and then the bytes are unchanged.
    pub fn append(out: &mut Vec<u8>, value: u16) -> Result<(), AllocError>
        ensures { out.new.items ≡ (if is_ok result then out.old.items ++ written_length value else out.old.items) }
    {
        let [high, low] = value.to_be_bytes();
        match Length::size_of(value) {
            1 => out.extend_from_slice(&[low]),
            2 => out.extend_from_slice(&[Length::ONE_BYTE, low]),
            _ => out.extend_from_slice(&[Length::TWO_BYTES, high, low]),
        }
    }
}

// The length that is read at the front of bytes is the one that is written there; none is read exactly if none is written there.
pub fn reads_length_stands() -> u8
    ensures { ReadsLength }
{
    0
}

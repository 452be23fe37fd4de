// Where a reader is within an element, and where one more byte leads it.
ghost use Rattle.std.specs.Prelude.{◌≡◌};
ghost use Rattle.element.specs.Machine.{taken, after_tag, after_first, after_high, next_position};

use crate::judging::Reader;
use length::Length;

// Where a reader is within an element.
#[derive(Clone, Copy)]
pub enum Position {
    // Before a tag.
    Tag,
    // Behind a tag, before a length.
    Length { tag: u8 },
    // Behind 129, before the byte of the length.
    OneByte { tag: u8 },
    // Behind 130, before the higher byte of the length.
    TwoBytes { tag: u8 },
    // Before the lower byte.
    LowByte { tag: u8, high: u8 },
    // Behind a header, before contents of `len` bytes.
    Header { tag: u8, len: u16 },
    // Within the contents of a primitive element, of which `left` bytes are still to come.
    Contents { left: u16 },
    // Nowhere: no bytes can make a row of what has been read.
    Nowhere,
}

// How many bytes an element with contents of `len` bytes takes.
pub(crate) fn taken(len: u16) -> usize
    ensures { result ≡ taken len }
{
    1 + Length::size_of(len) + usize::from(len)
}

impl Position {
    // The shortest contents whose length is written in two bytes behind 130.
    const TWO_BYTES_FROM: u16 = u8::MAX as u16 + 1;

    // The position behind one more byte, in a row that still needs `room` bytes and in which `levels` levels may open.
    pub(crate) fn next(self, room: usize, levels: u8, byte: u8) -> Position
        ensures { result ≡ next_position room levels self byte }
    {
        match self {
            Position::Tag => Position::after_tag(room, levels, byte),
            Position::Length { tag } => Position::after_first(room, tag, byte),
            Position::OneByte { tag } if byte >= Length::SHORT => Position::Header {
                tag,
                len: u16::from(byte),
            },
            Position::TwoBytes { tag } => Position::after_high(room, tag, byte),
            Position::LowByte { tag, high } => Position::Header {
                tag,
                len: u16::from_be_bytes([high, byte]),
            },
            Position::Contents { left } => Position::Contents {
                left: left.saturating_sub(1),
            },
            Position::OneByte { .. } | Position::Header { .. } | Position::Nowhere =>
                Position::Nowhere,
        }
    }

    // Behind a tag. An empty constructed element must not leave one byte of the row, and with one byte of contents it would hold no row.
    fn after_tag(room: usize, levels: u8, tag: u8) -> Position
        ensures { result ≡ after_tag room levels tag }
    {
        if tag >= Reader::CONSTRUCTED && (levels == 0 || room == taken(0) + 1) {
            return Position::Nowhere;
        }
        Position::Length { tag }
    }

    // Behind the first byte of a length.
    fn after_first(room: usize, tag: u8, byte: u8) -> Position
        ensures { result ≡ after_first room tag byte }
    {
        match byte {
            ..Length::SHORT => Position::Header {
                tag,
                len: u16::from(byte),
            },
            Length::ONE_BYTE if room >= taken(u16::from(Length::SHORT)) => Position::OneByte {
                tag,
            },
            Length::TWO_BYTES if room >= taken(Position::TWO_BYTES_FROM) => Position::TwoBytes {
                tag,
            },
            _ => Position::Nowhere,
        }
    }

    // Behind the higher of a length's two bytes.
    fn after_high(room: usize, tag: u8, high: u8) -> Position
        ensures { result ≡ after_high room tag high }
    {
        if high == 0 || room < taken(u16::from_be_bytes([high, 0])) {
            return Position::Nowhere;
        }
        Position::LowByte { tag, high }
    }
}

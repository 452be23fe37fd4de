// The format of elements: no code, only definitions (specs/) and the laws that hold of them, each the contract of a function.
#![tactic(auto)]

ghost use Rattle.format.specs.Promise.{OneReading, SameFront, WrittenOnce, Wider, PartOfBytes, OnePath, Samples};

// Any bytes are one row of elements or malformed, and which of the two is decided.
pub fn one_reading_stands() -> u8
    ensures { OneReading }
{
    0
}

// No element is the front of another one.
pub fn same_front_stands() -> u8
    ensures { SameFront }
{
    0
}

// What is written of a row reads as that row, and no other bytes do; of all its spellings, also those with longer lengths than need be, only the written one reads.
pub fn written_once_stands() -> u8
    ensures { WrittenOnce }
{
    0
}

// What reads within narrower limits reads as the same row within wider ones.
pub fn wider_stands() -> u8
    ensures { Wider }
{
    0
}

// An element by a path is a part of the bytes, at its place.
pub fn part_of_bytes_stands() -> u8
    ensures { PartOfBytes }
{
    0
}

// Two paths that lead to elements at the same place are the same path.
pub fn one_path_stands() -> u8
    ensures { OnePath }
{
    0
}

// The samples read, or don't, within any limits that have room for them.
pub fn samples_stands() -> u8
    ensures { Samples }
{
    0
}

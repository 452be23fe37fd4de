// The library for a gate: what its C program calls (include/permit.h). None of the functions allocates or keeps anything from call to call.
#![tactic(auto)]

ghost use Rattle.chain.specs.Inputs.{raw_input};
ghost use Rattle.gate.specs.Numbers.{JudgeCall, PieceCall, ChainCall};
ghost use Rattle.gate.specs.Promise.{Gate};

use chain::PoolInput;
use element::{Verdict, locate};
use shortest::find_chain;

// A part of the bytes, as C reads it. C has no option: `at` 0 with `len` 0 stands for no element.
#[repr(C)]
#[derive(Clone, Copy)]
pub struct SpanNumbers {
    // The place of its first byte, counted from 0.
    pub at: u64,
    // How many bytes it has.
    pub len: u64,
}

// What `chain` answers, as C reads it.
#[repr(C)]
#[derive(Clone, Copy)]
pub struct ChainNumbers {
    // 0, or the number of the rejection: the table is in docs/FORMAT.md.
    pub rejection: u64,
    // How many certificates the chain has; 0 if there is no chain or the input is rejected.
    pub len: u64,
}

// Whether the bytes are a row of elements: 0 if they are, k + 1 if they are ill at k.
#[unsafe(no_mangle)]
pub extern "C" fn judge(bytes: &[u8]) -> u64
    ensures { JudgeCall bytes.now result }
{
    match element::judge(bytes) {
        Verdict::Well => 0,
        Verdict::Ill { at } => at as u64 + 1,
    }
}

// The element that a path leads to, tag and length included; `at` 0 with `len` 0 if the bytes are malformed or the path leads to nothing.
#[unsafe(no_mangle)]
pub extern "C" fn piece(bytes: &[u8], path: &[u64]) -> SpanNumbers
    ensures { PieceCall bytes.now path.now result }
{
    match locate(bytes, path) {
        Some(span) => SpanNumbers {
            at: span.at as u64,
            len: span.len as u64,
        },
        None => SpanNumbers { at: 0, len: 0 },
    }
}

// A shortest chain from certificate `first` up to a trust anchor on a day, among n certificates. It is written to the front of the output buffer, the rest
// of which is unchanged; where no chain is answered all of it is.
#[unsafe(no_mangle)]
pub extern "C" fn chain<'a>(
    n: u64,
    certificates: &'a [u32],
    signatures: &'a [u8],
    anchors: &'a [u8],
    day: u64,
    first: u64,
    out: &mut [u16],
) -> ChainNumbers
    ensures { ChainCall (raw_input n certificates.now signatures.now anchors.now) day first out.old out.new result }
{
    let input = PoolInput {
        count: n,
        certificates,
        signatures,
        anchors,
    };
    match find_chain(input, day, first, out) {
        Ok(Some(len)) => ChainNumbers {
            rejection: 0,
            len: len as u64,
        },
        Ok(None) => ChainNumbers {
            rejection: 0,
            len: 0,
        },
        Err(why) => ChainNumbers {
            rejection: u64::from(why.number()),
            len: 0,
        },
    }
}

// What is promised of the three calls, in the numbers that C sees.
pub fn gate_stands() -> u8
    ensures { Gate }
{
    0
}

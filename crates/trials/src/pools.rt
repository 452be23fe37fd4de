// Pools of certificates: the chain that is found, against all chains.
use crate::draws::Draws;
use crate::tally::Tally;
use chain::{PoolInput, PoolView, judge_chain};
use shortest::find_chain;
use std::array;

// The most certificates of a pool.
const MOST: usize = 5;

const SIGNATURES: usize = MOST * MOST;

// How many times of sixteen the certificate at each place is a trust anchor: the first seldom is.
const ANCHORS: [u8; MOST] = [1, 3, 5, 7, 9];

// What a certificate says, apart from the crates that are tried.
#[derive(Clone, Copy)]
struct Certificate {
    subject: u32,
    issuer: u32,
    not_before: u32,
    not_after: u32,
    may_issue: bool,
    path_len: u32,
}

impl Certificate {
    // A certificate drawn: names from 1 to 3, days and path_len from 0 to 3.
    fn draw(draws: &mut Draws) -> Certificate {
        Certificate {
            subject: u32::from(draws.below(3)) + 1,
            issuer: u32::from(draws.below(3)) + 1,
            not_before: u32::from(draws.below(4) / 3),
            not_after: 3 - u32::from(draws.below(9) / 4),
            may_issue: draws.below(8) > 0,
            path_len: u32::from(draws.below(4)),
        }
    }

    // Its six numbers.
    fn numbers(self) -> [u32; 6] {
        [
            self.subject,
            self.issuer,
            self.not_before,
            self.not_after,
            u32::from(self.may_issue),
            self.path_len,
        ]
    }
}

// The first `count` certificates, a signature mark for each two of them and an anchor mark for each.
// Arrays with room for the most: with vectors each draw could fail by memory.
#[derive(Clone, Copy)]
struct Pool {
    count: usize,
    certificates: [Certificate; MOST],
    signatures: [u8; SIGNATURES],
    anchors: [u8; MOST],
}

impl Pool {
    // A pool drawn.
    fn draw(draws: &mut Draws) -> Pool {
        let certificates = array::from_fn(|_| Certificate::draw(draws));
        let signatures = array::from_fn(|_| draws.below(8).min(1));
        let anchors = ANCHORS.map(|often| u8::from(draws.below(16) < often));
        Pool {
            count: usize::from(draws.below(5)) + 1,
            certificates,
            signatures,
            anchors,
        }
    }

    // Whether a may stand next above b, with `below` certificates between it and the first of the chain.
    fn above(&self, a: usize, b: usize, below: u32) -> bool {
        let mark = a.saturating_mul(self.count).saturating_add(b);
        let (Some(issuer), Some(subject)) = (self.certificates.get(a), self.certificates.get(b))
        else {
            return false;
        };
        self.signatures.get(mark) == Some(&1)
            && issuer.may_issue
            && issuer.subject == subject.issuer
            && below <= issuer.path_len
    }

    // The least length of a chain up from a certificate below which `below` stand, if one has at most `fuel`.
    fn least(&self, day: u32, a: usize, below: u32, fuel: usize) -> Option<usize> {
        let certificate = self.certificates.get(a)?;
        if fuel == 0 || day < certificate.not_before || day > certificate.not_after {
            return None;
        }
        if self.anchors.get(a) == Some(&1) {
            return Some(1);
        }
        let mut best = None;
        for b in 0..self.count {
            if self.above(b, a, below) {
                let rest = self.least(day, b, below.saturating_add(1), fuel - 1);
                best = best.into_iter().chain(rest).min();
            }
        }
        best.map(|rest| rest.saturating_add(1))
    }
}

// Whether the answer is a chain of the least length up from the first certificate, or none if there is none.
fn agrees(pool: &Pool, day: u32, least: Option<usize>) -> bool {
    let n = pool.count.min(MOST);
    let numbers = pool.certificates.map(Certificate::numbers);
    let input = PoolInput {
        count: n as u64,
        certificates: &numbers.as_flattened()[..6 * n],
        signatures: &pool.signatures[..n.saturating_mul(n).min(SIGNATURES)],
        anchors: &pool.anchors[..n],
    };
    let mut out = [0; MOST];
    let Ok(found) = find_chain(input, u64::from(day), 0, &mut out[..n]) else {
        return false;
    };
    let row = out.map(u64::from);
    found == least && found.is_none_or(|size| is_chain(input, day, &row, size))
}

// Whether the first `size` numbers of a row are judged to be a chain.
fn is_chain(input: PoolInput, day: u32, row: &[u64], size: usize) -> bool {
    let Ok(view) = PoolView::check(input) else {
        return false;
    };
    size <= row.len() && judge_chain(&view, u64::from(day), 0, &row[..size])
}

// Draws pools and tries them.
pub(crate) fn try_pools(draws: &mut Draws, many: usize) -> Tally {
    let mut tally = Tally::default();
    for _ in 0..many {
        let pool = Pool::draw(draws);
        let day = u32::from(draws.below(4));
        let least = pool.least(day, 0, 0, pool.count);
        tally.add(least.is_some(), agrees(&pool, day, least));
    }
    tally
}

// Tries the crates on drawn bytes and pools, against a plain reader and against all chains. Where the environment has
// TRIALS=memory it calls the functions that write elements or note them instead: tests/memory/run refuses their allocations.
#![tactic(auto)]

mod bytes;
mod draws;
mod pools;
mod tally;
mod writers;

use bytes::{draw_deep, draw_long, draw_short, try_strings};
use draws::Draws;
use pools::try_pools;
use std::env;
use tally::Tally;
use writers::try_writers;

// How many strings of each kind and how many pools are tried.
const STRINGS: usize = 5_000;

const POOLS: usize = 5_000;

// How many of a kind were tried, how many of them were so, and on how many all agree.
fn report(rt: &HostRuntime, kind: &str, so: &str, tally: &Tally) -> anyhow::Result<()> {
    let Tally {
        tried,
        found,
        agreed,
    } = *tally;
    println!(rt; "{tried} {kind}, {found} {so}, {agreed} agree")?;
    Ok(())
}

// Tries drawn bytes and pools.
fn try_draws(rt: &HostRuntime) -> anyhow::Result<()> {
    let mut draws = Draws::new();
    let tallies = [
        (
            "short strings",
            "well-formed",
            try_strings(&mut draws, STRINGS, draw_short),
        ),
        (
            "long strings",
            "well-formed",
            try_strings(&mut draws, STRINGS, draw_long),
        ),
        (
            "deep strings",
            "well-formed",
            try_strings(&mut draws, STRINGS, draw_deep),
        ),
        ("pools", "with a chain", try_pools(&mut draws, POOLS)),
    ];
    for (kind, so, tally) in &tallies {
        report(rt, kind, so, tally)?;
    }
    let all = tallies.iter().all(|(_, _, tally)| tally.all());
    println!(rt; "{}", if all { "all agree" } else { "DISAGREE" })?;
    Ok(())
}

fn main(rt: HostRuntime) -> anyhow::Result<()> {
    match env::var(&rt, "TRIALS") {
        Ok(word) if word.as_str() == "memory" => try_writers(&rt),
        _ => try_draws(&rt),
    }
}

// Tests that cross crates, a module for each part.
#![tactic(auto)]

mod answers;
mod chains;
mod elements;
mod index;
mod lines;
mod permits;
mod places;

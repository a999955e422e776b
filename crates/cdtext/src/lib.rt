// CD-TEXT: packs made from the titles of tracks, and titles read back from packs. Every routine takes any input and answers with a
// value or a refusal.
#![tactic(auto)]

pub mod check;
pub mod packs;
pub mod refusals;
mod titles;

// What the recorder's panel shows, and the step over a recorder that is lent.
#![tactic(auto)]

pub mod display;
pub mod step;

// The recorder of CD-R and CD-RW: an order is taken, then one reply of the drive at a time, and each call
// gives the next state with a command or an end.
#![tactic(auto)]

pub mod answers;
pub mod exchanges;
pub mod job;
pub mod places;
pub mod replies;
mod rules;
pub mod script;

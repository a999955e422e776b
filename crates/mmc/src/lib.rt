// The byte layouts of CD recording: order and reply blocks, times, the write parameters page, the cue
// sheet and the commands. Every routine takes any input and answers with a value or a refusal.
#![tactic(auto)]

mod block;
pub mod bytes;
pub mod commands;
pub mod order;
pub mod order_block;
pub mod page;
pub mod refusals;
pub mod reply_block;
pub mod sheet;
pub mod times;
pub mod units;

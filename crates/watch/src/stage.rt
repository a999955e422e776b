// Where the panel program stands after the order and after each reply: the recorder is called, and what its panel shows becomes a line.
ghost use Rattle.std.specs.Prelude.{◌≡◌, []};
ghost use Rattle.mmc.specs.Refusals.{refuse, number_of};
ghost use Rattle.mmc.specs.ReplyBlock.{read_reply, reply_said};
ghost use Rattle.recorder.specs.Job.{give_of};
ghost use Rattle.watch.specs.Watch.{standing, begun_with, replied_of, read_on, Stands};

use lines::shown;
use mmc::refusals::Refusal;
use mmc::reply_block::{Reply, read_reply};
use panel::step::lend;
use recorder::job::{Recorder, take};

// So many bytes are enough for any line.
pub(crate) const WIDEST: usize = 128;

// The recorder that is held, whether a reply is awaited, and how many bytes of the buffer the line has.
#[derive(Clone, Copy)]
pub struct Watch {
    pub recorder: Recorder,
    pub waiting: bool,
    pub used: usize,
}

// Shows what the panel shows of a recorder.
pub(crate) fn show(r: Recorder, text: &mut [u8; WIDEST]) -> Watch
    ensures { Stands (standing r) result text.new }
{
    let line = shown::shown_line(r, text);
    Watch {
        recorder: r,
        waiting: !r.rests(),
        used: line.unwrap_or(0),
    }
}

// An order block is taken.
pub(crate) fn begin(block: &[u8], text: &mut [u8; WIDEST]) -> Watch
    ensures { Stands (begun_with block.now) result text.new }
{
    show(take(block).state, text)
}

// A block that is no reply block.
fn refuse_block(r: Recorder, refusal: Refusal, text: &mut [u8; WIDEST]) -> Watch
    ensures { Stands (replied_of r (refuse (number_of refusal))) result text.new }
{
    let line = shown::refused_line(refusal, r.count, text);
    Watch {
        recorder: r,
        waiting: false,
        used: line.unwrap_or(0),
    }
}

// The recorder is lent with a reply, and found moved on.
fn moved_on(r: Recorder, reply: Reply<'_>) -> Recorder
    ensures { result ≡ (give_of r (reply_said reply.entry).good (reply_said reply.entry).bytes).state }
{
    lend(r, reply).recorder
}

// A reply block.
fn reply(r: Recorder, block: &[u8], text: &mut [u8; WIDEST]) -> Watch
    ensures { Stands (replied_of r (read_reply block.now)) result text.new }
{
    match read_reply(block) {
        Ok(reply) => show(moved_on(r, reply), text),
        Err(refusal) => refuse_block(r, refusal, text),
    }
}

// No more replies come.
fn run_out(r: Recorder, text: &mut [u8; WIDEST]) -> Watch
    ensures { Stands (read_on r []) result text.new }
{
    let line = shown::waiting_line(r.count, text);
    Watch {
        recorder: r,
        waiting: false,
        used: line.unwrap_or(0),
    }
}

// What was read: a reply block, or nothing.
pub(crate) fn go_on(r: Recorder, input: &[u8], text: &mut [u8; WIDEST]) -> Watch
    ensures { Stands (read_on r input.now) result text.new }
{
    if input.is_empty() {
        return run_out(r, text);
    }
    reply(r, input, text)
}

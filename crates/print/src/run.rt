// A run of the print program over the blocks that were read: the recorder is called, and its answers become lines.
ghost use Rattle.std.specs.Prelude.{◌≡◌, true, ◌+◌, ◌-◌, ◌≤◌, length};
ghost use Rattle.mmc.specs.ReplyBlock.{read_reply};
ghost use Rattle.recorder.specs.Answers.{said};
ghost use Rattle.recorder.specs.Job.{next_in};
ghost use Rattle.print.specs.Run.{waits, replied_of, replied_to, input_blocks, fed, waiting_for, stage_in};
ghost use Rattle.print.specs.Run.{AddsLine, room_for, Reaches, Begins, GoesOn};

use mmc::reply_block::read_reply;
use recorder::answers::Answer;
use recorder::job::{Recorder, Step, take};

// A block has so many bytes; the input's last one can be short.
pub(crate) const BLOCK_BYTES: usize = 512;

// The recorder's state, whether it waits for a reply, and how many bytes of the text are used.
#[derive(Clone, Copy)]
pub struct Run {
    pub state: Recorder,
    pub waiting: bool,
    pub used: usize,
}

// Whether an answer is a command, so that a reply is awaited.
fn is_command(answer: Answer) -> bool
    ensures { result ≡ waits (said answer) }
{
    matches!(answer, Answer::Issue(_))
}

// What a reply block leads to: the recorder's step, or a stop with 1, 2 or 3 that changes nothing.
#[tactic(auto, unfolding(recorder::specs::Answers::cdb_of))]
fn replied(state: Recorder, block: &[u8]) -> Step
    ensures { next_in result ≡ replied_of state (read_reply block.now) }
{
    match read_reply(block) {
        Ok(reply) => state.give(reply),
        Err(refusal) => state.answered(Answer::Stop(refusal)),
    }
}

// Writes the line of a step's answer behind the text.
fn add_line(step: Step, used: usize, text: &mut [u8]) -> Run
    requires { used + 64 ≤ length text.old }
    ensures state { result.state ≡ step.state }
    ensures line { AddsLine (said step.answer) step.cdb step.count used text.old result text.new }
{
    let line = lines::answer_line(step.answer, step.cdb, step.count, &mut text[used..]);
    Run {
        state: step.state,
        waiting: is_command(step.answer),
        used: used + line.unwrap_or(0),
    }
}

// One reply block.
fn next_block(run: Run, block: &[u8], text: &mut [u8]) -> Run
    requires { run.used + 64 ≤ length text.old }
    ensures { Reaches (replied_to (stage_in run text.old) block.now) (run.used + 64) result text.new }
{
    add_line(replied(run.state, block), run.used, text)
}

// The reply blocks of a read, until the run ends.
fn feed(run: Run, input: &[u8], text: &mut [u8]) -> Run
    requires { run.used + room_for (length input.now) ≤ length text.old }
    ensures { Reaches (fed (stage_in run text.old) (input_blocks input.now)) (length text.old) result text.new }
{
    let mut current = run;
    for block in input.chunks(BLOCK_BYTES) {
        if !current.waiting {
            return current;
        }
        current = next_block(current, block, text);
    }
    current
}

// The order block and the reply blocks of the first read.
pub(crate) fn begin(input: &[u8], text: &mut [u8]) -> Run
    requires { 64 + room_for (length input.now - 512) ≤ length text.old }
    ensures { Begins input.now (length text.old) result text.new }
{
    let (order, replies) = input.split_at(input.len().min(BLOCK_BYTES));
    let run = add_line(take(order), 0, text);
    feed(run, replies, text)
}

// The last line where replies run out.
fn wait(state: Recorder, text: &mut [u8]) -> Run
    requires { 64 ≤ length text.old }
    ensures { Reaches (waiting_for state) (length text.old) result text.new }
{
    let line = lines::waiting_line(state.count, text);
    Run {
        state,
        waiting: false,
        used: line.unwrap_or(0),
    }
}

// A later read, where a reply is awaited and all text is written out: its reply blocks, or the last line where it brought no byte.
pub(crate) fn go_on(run: Run, input: &[u8], text: &mut [u8]) -> Run
    requires { (run.waiting ≡ true) × (run.used ≡ 0) × (64 ≤ length text.old) × (room_for (length input.now) ≤ length text.old) }
    ensures { GoesOn run.state input.now (length text.old) result text.new }
{
    if input.is_empty() {
        return wait(run.state, text);
    }
    feed(run, input, text)
}

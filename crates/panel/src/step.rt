// A reply over a recorder that is lent, and found moved on.
ghost use Rattle.mmc.specs.ReplyBlock.{reply_said};
ghost use Rattle.recorder.specs.History.{Gives};
ghost use Rattle.panel.specs.Step.{step_with};

use mmc::reply_block::Reply;
use recorder::answers::{Answer, Cdb};
use recorder::job::Recorder;

// What comes out of a reply beside the next state: a command or an end, the count of commands, and the command's bytes.
#[derive(Clone, Copy)]
pub struct Given {
    pub answer: Answer,
    pub count: u64,
    pub cdb: Cdb,
}

// A reply to the latest command goes in; the recorder is found moved on, as the step by value says.
pub fn give_in_place(r: &mut Recorder, reply: Reply<'_>) -> Given
    ensures { Gives r.old (reply_said reply.entry).good (reply_said reply.entry).bytes (step_with r.new result) }
{
    let step = r.give(reply);
    *r = step.state;
    Given {
        answer: step.answer,
        count: step.count,
        cdb: step.cdb,
    }
}

// A recorder after a reply, and what came out beside it.
#[derive(Clone, Copy)]
pub struct Held {
    pub recorder: Recorder,
    pub given: Given,
}

// Holds a recorder, lends it with a reply, and finds it moved on.
pub fn lend(r: Recorder, reply: Reply<'_>) -> Held
    ensures { Gives r (reply_said reply.entry).good (reply_said reply.entry).bytes (step_with result.recorder result.given) }
{
    let mut recorder = r;
    let given = give_in_place(&mut recorder, reply);
    Held { recorder, given }
}

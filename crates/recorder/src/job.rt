// The plain job: what it holds, what comes out of each step, and the steps.
ghost use Rattle.std.specs.Prelude.{◌≡◌, suc, []};
ghost use Rattle.recorder.specs.declared.job.Phase.TheVariants.{Idle};
ghost use Rattle.mmc.specs.ReplyBlock.{reply_said};
ghost use Rattle.recorder.specs.Answers.{issue, said, cdb_of};
ghost use Rattle.recorder.specs.Places.{piece_of};
ghost use Rattle.recorder.specs.Bench.{StarredSheets, OtherSheets, PollSheets, EraseSheets, ChargeSheets, AudioSheets, RecipeSheets};
ghost use Rattle.recorder.specs.History.{Takes, Gives, Rests};
ghost use Rattle.recorder.specs.Job.{due_at, due_in, in_order, in_time, in_piece, is_write, waits_at, waits_in, stands_polled, stands_erasing, stands, rests_at, valid_of, Prepared, command_of, went, turn_in, onward_by, turn_of, state_of, next_in, next_of, step_of, opening};

use crate::answers::{Answer, Cdb, Command, cdb_of, no_cdb};
use crate::exchanges::{Seen, address_at, see_reply};
use crate::places::{op_after, piece_length};
use crate::replies::{Reading, Sense, read_reply};
use crate::rules::{LAST_FRAME, Stop, Verdict, is_polled, judge_reply};
use crate::script::{Op, closes_tracks, is_erasing, is_stepwise, portion_of, track_of};
use mmc::order::{MOST_TRACKS, Method, Order, no_order};
use mmc::order_block::read_order;
use mmc::refusals::Refusal;
use mmc::reply_block::Reply;
use mmc::units::FrameCount;

// Whether no order was taken yet, a job goes on, or how it ended: as done, with a number of document 01, or with 12 and the triple.
#[derive(Clone, Copy)]
pub enum Phase {
    Idle,
    Going,
    Finished,
    Stopped(u8),
    Failed(Sense),
}

// Whether the operation at the place is polled, and then which poll is under way: TEST UNIT READY or REQUEST SENSE.
#[derive(Clone, Copy)]
pub enum Poll {
    Off,
    Ready,
    Sense,
}

// Where the job stands: the operation of the script whose reply or whose polling's end is awaited, its polling, and what was seen in the
// replies so far.
#[derive(Clone, Copy)]
pub struct Progress {
    pub place: Op,
    pub poll: Poll,
    pub seen: Seen,
}

// The recorder's state: the order, where the job stands, whether it goes on, and how many commands were given since the order was
// taken. A recorder that has taken none is idle.
#[derive(Clone, Copy)]
pub struct Recorder {
    pub order: Order,
    pub progress: Progress,
    pub phase: Phase,
    pub count: u64,
}

// What comes out of a call: the next state, a command or an end, the count of commands, and the command's bytes.
#[derive(Clone, Copy)]
pub struct Step {
    pub state: Recorder,
    pub answer: Answer,
    pub count: u64,
    pub cdb: Cdb,
}

// The operation whose reply is awaited: that of the place, or a poll.
pub fn due_at(place: Op, poll: Poll) -> Op
    ensures { result ≡ due_at place poll }
{
    match poll {
        Poll::Off => place,
        Poll::Ready => Op::TestUnitReady,
        Poll::Sense => Op::RequestSense,
    }
}

// Whether a track is one of an order's.
#[tactic(auto, unfolding(crate::specs::Job::in_order))]
fn in_order(o: &Order, track: u16) -> bool
    ensures { result ≡ in_order o.now.count track }
{
    1 <= track && track <= o.count as u16
}

// Whether so many blocks from a frame on end at most at the last frame.
#[tactic(auto, unfolding(crate::specs::Job::in_time))]
fn in_time(length: u32, at: FrameCount) -> bool
    ensures { result ≡ in_time length at }
{
    at.0 as u64 + length as u64 <= LAST_FRAME
}

// Whether a job writes a piece: a track, or in a session at once the pause too, if the next track has a block.
#[tactic(auto, unfolding(crate::specs::Job::in_piece))]
fn in_piece(o: &Order, track: u16) -> bool
    ensures { result ≡ in_piece o.now.method o.now.count (piece_of o.now (suc track)) track }
{
    match o.method {
        Method::Tao => in_order(o, track),
        Method::Sao if track < o.count as u16 => 0 < piece_length(o, track as u32 + 1),
        Method::Sao => track == o.count as u16,
    }
}

// Whether a WRITE from a block on, of so many, is one of a piece of so many blocks, and the piece ends at most at the last frame.
#[tactic(auto, unfolding(crate::specs::Job::is_write))]
fn is_write(length: u32, first: u32, count: u32, at: FrameCount) -> bool
    ensures { result ≡ is_write length first count at }
{
    first < length && (count == portion_of(length, first) && in_time(length - first, at))
}

// Whether a job can wait for the reply to an operation, with the next block at a frame.
fn stands_at(o: &Order, place: Op, at: FrameCount) -> bool
    ensures { result ≡ waits_at o.now at place }
{
    let length = piece_length(o, track_of(place) as u32);
    match place {
        Op::GetConfiguration | Op::ReadDiscInformation | Op::Blank => true,
        Op::ReadTrackInformation(track) | Op::SynchronizeCache(track) => in_order(o, track.0),
        Op::ModeSelect(track) => in_order(o, track.0) && in_time(length, at),
        Op::SendCueSheet => !is_stepwise(o.method) && in_time(length, at),
        Op::Write {
            track,
            first,
            count,
        } => in_piece(o, track.0) && is_write(length, first.0, count.0, at),
        Op::CloseTrack(track) => closes_tracks(o.method, o.recipe) && in_order(o, track.0),
        Op::CloseSession => is_stepwise(o.method),
        Op::TestUnitReady | Op::RequestSense => false,
    }
}

// The same, and the order has 1 to 99 tracks.
#[tactic(auto, unfolding(crate::specs::Job::stands_in))]
fn stands_in(o: &Order, place: Op, at: FrameCount) -> bool
    ensures { result ≡ waits_in o.now at place }
{
    1 <= o.count && (o.count <= MOST_TRACKS && stands_at(o, place, at))
}

// Whether an operation can be polled where it is: with the flag one that takes Immed.
fn stands_polled(immed: bool, place: Op, poll: Poll) -> bool
    ensures { result ≡ stands_polled immed place poll }
{
    match poll {
        Poll::Off => true,
        Poll::Ready | Poll::Sense => is_polled(immed, place),
    }
}

// Whether an operation can stand in an order that lets the disc be erased, or does not.
fn stands_erasing(erase: bool, place: Op) -> bool
    ensures { result ≡ stands_erasing erase place }
{
    !is_erasing(place) || erase
}

// Where a job begins.
const OPENING: Progress = Progress {
    place: Op::GetConfiguration,
    poll: Poll::Off,
    seen: Seen {
        profile: 0,
        status: 0,
        at: FrameCount(0),
        erased: false,
        ready: false,
        progress: 0,
    },
};

impl Progress {
    // The operation whose reply the job waits for.
    pub fn due(&self) -> Op
        ensures { result ≡ due_in self.now }
    {
        due_at(self.place, self.poll)
    }

    // Its command.
    fn command(&self) -> Command
        ensures { result ≡ command_of self.now }
    {
        Command {
            op: self.due(),
            address: address_at(self.seen.at),
        }
    }

    // Whether a job of an order can stand here.
    fn stands(&self, o: &Order) -> bool
        ensures { result ≡ stands o.now self.now }
    {
        stands_polled(o.immed, self.place, self.poll)
            && (stands_erasing(o.erase, self.place) && stands_in(o, self.place, self.seen.at))
    }

    // Goes on from an operation of the script or its polls: after TEST UNIT READY comes REQUEST SENSE, else what comes
    // after the operation.
    fn onward(self, next: Option<Op>, seen: Seen) -> Option<Progress>
        ensures { went result ≡ onward_by self.poll self.place next seen }
    {
        match self.poll {
            Poll::Off | Poll::Sense => next.map(|place| Progress {
                place,
                poll: Poll::Off,
                seen,
            }),
            Poll::Ready => Some(Progress {
                poll: Poll::Sense,
                seen,
                ..self
            }),
        }
    }

    // What a reply leads to: the next command, or the end as done.
    fn turn(self, o: &Order, reading: Reading) -> Result<Option<Progress>, Stop>
        requires { Prepared o.now self reading }
        ensures { turn_in result ≡ turn_of o.now self reading }
    {
        let op = self.due();
        let verdict = judge_reply(o, op, self.seen, reading)?;
        let seen = see_reply(o.method, op, self.seen, reading);
        Ok(match verdict {
            Verdict::Again => Some(self),
            Verdict::Onward => self.onward(op_after(o, self.place), seen),
            Verdict::Poll => Some(Progress {
                poll: Poll::Ready,
                seen,
                ..self
            }),
            Verdict::Erase => Some(Progress {
                place: Op::Blank,
                poll: Poll::Off,
                seen,
            }),
        })
    }
}

// A recorder that waits to begin with an order.
fn opened(order: Order) -> Recorder
    ensures { result ≡ state_of order opening Idle 0 }
{
    Recorder {
        order,
        progress: OPENING,
        phase: Phase::Idle,
        count: 0,
    }
}

// A recorder that has taken no order: a reply to it is 13 and leaves it idle. Its contract also keeps the sheets from the bench, which hold
// of the definitions that every step meets.
pub fn idle() -> Recorder
    ensures { (Rests result) × StarredSheets × OtherSheets × PollSheets × EraseSheets × ChargeSheets × AudioSheets × RecipeSheets }
{
    opened(no_order())
}

// An order block is taken: the first command, or 1 to 3.
pub fn take(block: &[u8]) -> Step
    ensures { Takes block.now result }
{
    match read_order(block) {
        Ok(order) => opened(order).stepped(Ok(Some(OPENING))),
        Err(refusal) => opened(no_order()).stepped(Err(Stop::Refused(refusal))),
    }
}

impl Recorder {
    // Whether no reply is awaited: before an order, and after the end of a job.
    pub fn rests(&self) -> bool
        ensures { result ≡ rests_at self.now.phase }
    {
        !matches!(self.phase, Phase::Going)
    }

    // Gives the command of its place.
    fn issued(self) -> Step
        ensures { next_in result ≡ next_of self (issue (command_of self.progress)) }
    {
        let command = self.progress.command();
        Step {
            state: self,
            answer: Answer::Issue(command),
            count: self.count,
            cdb: cdb_of(&self.order, command),
        }
    }

    // Answers without a command.
    pub fn answered(self, answer: Answer) -> Step
        ensures { next_in result ≡ record { state = self; answer = said answer; count = self.count; cdb = cdb_of [] } }
    {
        Step {
            state: self,
            answer,
            count: self.count,
            cdb: no_cdb(),
        }
    }

    // Goes where a reply leads: a command is given, the job is done, or it stops.
    fn stepped(self, turn: Result<Option<Progress>, Stop>) -> Step
        ensures { next_in result ≡ step_of self.order self.progress self.count (turn_in turn) }
    {
        match turn {
            Ok(Some(progress)) => Recorder {
                progress,
                phase: Phase::Going,
                count: self.count.saturating_add(1),
                ..self
            }
            .issued(),
            Ok(None) => Recorder {
                phase: Phase::Finished,
                ..self
            }
            .answered(Answer::Done),
            Err(Stop::Refused(refusal)) => Recorder {
                phase: Phase::Stopped(refusal.into()),
                ..self
            }
            .answered(Answer::Stop(refusal)),
            Err(Stop::Failed(sense)) => Recorder {
                phase: Phase::Failed(sense),
                ..self
            }
            .answered(Answer::DriveFailed(sense)),
        }
    }

    // The recorder's own test: one that awaits no reply passes, another where it can stand where it does.
    #[tactic(auto, unfolding(crate::specs::Job::valid_of))]
    pub fn is_valid(self) -> bool
        ensures { result ≡ valid_of self }
    {
        self.rests() || self.progress.stands(&self.order)
    }

    // A reply to the latest command goes in: 3 for a state that fails the test, 13 for a job that has ended or an idle recorder, both
    // with the state as it was; else the next state comes out with a command or an end.
    pub fn give(self, reply: Reply<'_>) -> Step
        ensures { Gives self (reply_said reply.entry).good (reply_said reply.entry).bytes result }
    {
        if self.rests() {
            return self.answered(Answer::Stop(Refusal::JobEnded));
        }
        if !self.progress.stands(&self.order) {
            return self.answered(Answer::Stop(Refusal::FieldValue));
        }
        let reading = read_reply(self.progress.due(), reply);
        self.stepped(self.progress.turn(&self.order, reading))
    }
}

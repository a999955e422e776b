// What is seen in the replies to the commands given so far.
ghost use Rattle.std.specs.Prelude.{◌≡◌, ◌<◌, ◌^◌};
ghost use Rattle.mmc.specs.Times.{frames_to, address_at};
ghost use Rattle.recorder.specs.Replies.{Unsigned, UnsignedIn};
ghost use Rattle.recorder.specs.Exchanges.{start_at, past, progress_past, see};

use crate::replies::{Reading, TrackInformation};
use crate::script::{Op, asks_ready, is_erasing, takes_immed};
use mmc::order::Method;
use mmc::times::LEAD_FRAMES;
use mmc::units::{BlockAddress, FrameCount};

// What the rules look at in the replies so far: the profile, the disc status, and the frames to where the next block goes (address
// plus 150): the address of the latest READ TRACK INFORMATION in a track at once, or the end of the last WRITE; whether the disc was
// erased; whether TEST UNIT READY was answered good and nothing but busy since. Beside these the latest progress of a polling, which
// the panel shows.
#[derive(Clone, Copy)]
pub struct Seen {
    pub profile: u16,
    pub status: u8,
    pub at: FrameCount,
    pub erased: bool,
    pub ready: bool,
    pub progress: u16,
}

// The frames to a Next Writable Address.
#[tactic(auto, using(crate::proofs::exchanges::Laws::frames), unfolding(mmc::specs::Times::frames_to))]
pub(crate) fn frames_to(a: BlockAddress) -> u64
    requires { Unsigned a }
    ensures { (result ≡ (frames_to a).0) × (result < 2 ^ 33) }
{
    (a.0 + LEAD_FRAMES) as u64
}

// The address where the next block goes.
#[tactic(auto, unfolding(mmc::specs::Times::address_at))]
pub(crate) fn address_at(at: FrameCount) -> BlockAddress
    ensures { result ≡ address_at at }
{
    BlockAddress(at.0 as i64 - LEAD_FRAMES)
}

// Where the next block goes once READ TRACK INFORMATION has passed.
fn start_at(m: Method, at: FrameCount, i: TrackInformation) -> FrameCount
    requires unsigned { Unsigned i.address }
    requires i_bound { (start_at m at i).0 < 2 ^ 32 }
    ensures { result ≡ start_at m at i }
{
    match m {
        Method::Tao => FrameCount(frames_to(i.address) as u32),
        Method::Sao => at,
    }
}

// Where the next block goes after an operation: a WRITE moves it by its count.
fn past_op(op: Op, at: FrameCount) -> FrameCount
    requires { (past op at).0 < 2 ^ 32 }
    ensures { result ≡ past op at }
{
    match op {
        Op::Write { count, .. } => FrameCount(at.0 + count.0),
        _ => at,
    }
}

// The latest progress after an operation: one that takes Immed begins anew.
fn progress_past(op: Op, progress: u16) -> u16
    ensures { result ≡ progress_past op progress }
{
    if takes_immed(op) { 0 } else { progress }
}

// What is seen after a reply to an operation.
pub(crate) fn see_reply(m: Method, op: Op, v: Seen, reading: Reading) -> Seen
    requires v_bound { (see m op reading v).at.0 < 2 ^ 32 }
    requires unsigned_in { UnsignedIn reading }
    ensures { result ≡ see m op reading v }
{
    let unready = Seen { ready: false, ..v };
    match reading {
        Reading::Busy => v,
        Reading::NotReady | Reading::Failed(_) | Reading::Malformed => unready,
        Reading::Profile(profile) => Seen { profile, ..unready },
        Reading::Disc(d) => Seen {
            status: d.status,
            ..unready
        },
        Reading::Information(i) => Seen {
            at: start_at(m, v.at, i),
            ..unready
        },
        Reading::ProgressIndication(progress) => Seen {
            progress,
            ..unready
        },
        Reading::Unread => Seen {
            at: past_op(op, v.at),
            erased: is_erasing(op) || v.erased,
            ready: asks_ready(op),
            progress: progress_past(op, v.progress),
            ..v
        },
    }
}

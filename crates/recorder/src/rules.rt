// The judgement of a reply: what the rules look at, and the numbers 4 to 10, 12, 16 and 24.
ghost use Rattle.std.specs.Prelude.{◌≡◌, true, List, [], ◌≤◌, ◌<◌, ◌^◌};
ghost use Rattle.mmc.specs.Order.{most_tracks};
ghost use Rattle.recorder.specs.declared.rules.Stop.TheVariants.{Refused};
ghost use Rattle.recorder.specs.Replies.{Unsigned, UnsignedIn, ForTrack};
ghost use Rattle.recorder.specs.Script.{track_in, is_polled};
ghost use Rattle.recorder.specs.Rules.{other_profile, unsuitable, unusable, audio_in_tao, gap, charge, needed, fits, too_long, used, not_erasable, turns, in_turn, tests_in, answered, tested, erasing_tests, erasing_if, judge_disc, track_tests, polls_if, is_last, onward, verdict_in, judgement_by, judgement_in, judge};

use crate::exchanges::{Seen, frames_to};
use crate::replies::{DiscInformation, Reading, Sense, TrackInformation};
use crate::script::{Op, is_stepwise, takes_immed, track_of};
use mmc::order::{Kind, LAST_LEAD_OUT, Method, Order};
use mmc::refusals::Refusal;
use mmc::times;
use mmc::units::{BlockSum, FrameCount};

// What a reply that passes leads to: the same command again, or onward, also with a round of polls or an erasing first.
#[derive(Clone, Copy, Debug, PartialEq, Eq)]
pub(crate) enum Verdict {
    Again,
    Onward,
    Poll,
    Erase,
}

// Why a job stops: it is refused, or the drive failed with a triple.
#[derive(Clone, Copy, Debug, PartialEq, Eq)]
pub(crate) enum Stop {
    Refused(Refusal),
    Failed(Sense),
}

impl From<Refusal> for Stop {
    ghost from_gives = { λ refusal stop. stop ≡ Refused refusal };

    fn from(refusal: Refusal) -> Stop {
        Stop::Refused(refusal)
    }
}

// The profiles of a CD-R and a CD-RW.
const CD_R: u16 = 0x0009;

const CD_RW: u16 = 0x000A;

// A disc's status; 3 is another one.
const BLANK: u8 = 0;

const APPENDABLE: u8 = 1;

const FINALIZED: u8 = 2;

// The frames before address 0.
const LEAD_FRAMES: u64 = times::LEAD_FRAMES as u64;

// The frames to the last address of a lead-out.
pub(crate) const LAST_FRAME: u64 = (times::LAST_ADDRESS + times::LEAD_FRAMES) as u64;

// In a track at once so many blocks lie between one track and the next.
const BETWEEN_TRACKS: u64 = 152;

// 5: neither CD-R nor CD-RW.
#[tactic(auto, unfolding(crate::specs::Rules::other_profile))]
fn other_profile(profile: u16) -> bool
    ensures { result ≡ other_profile profile }
{
    profile != CD_R && profile != CD_RW
}

// 6: the disc is not blank, in a track at once not appendable either.
#[tactic(auto, unfolding(crate::specs::Rules::unsuitable))]
fn unsuitable_status(m: Method, status: u8) -> bool
    ensures { result ≡ unsuitable m status }
{
    match m {
        Method::Tao => APPENDABLE < status,
        Method::Sao => BLANK < status,
    }
}

// 7: Damage, or in a track at once no address, or one before the end of the track before.
#[tactic(auto, unfolding(crate::specs::Rules::unusable))]
fn is_unusable(m: Method, end: FrameCount, i: TrackInformation) -> bool
    requires { Unsigned i.address }
    ensures { result ≡ unusable m end i }
{
    i.damaged || (is_stepwise(m) && (!i.addressed || frames_to(i.address) < end.0 as u64))
}

// 24: a track at once with an audio track.
fn audio_in_tao(o: &Order) -> bool
    ensures { result ≡ audio_in_tao o.now }
{
    match o.method {
        Method::Tao => !o.all_kind(Kind::Data),
        Method::Sao => false,
    }
}

// How many blocks lie between a track and the next: none in a session at once.
fn gap_of(m: Method) -> u64
    ensures { (result ≡ gap m) × (result < 2 ^ 16) }
{
    match m {
        Method::Tao => BETWEEN_TRACKS,
        Method::Sao => 0,
    }
}

// What lies between so many tracks that are still to come.
fn charge_for(m: Method, tracks: usize) -> u64
    requires { tracks ≤ most_tracks }
    ensures { (result ≡ charge m tracks) × (result < 2 ^ 32) }
{
    gap_of(m) * tracks.saturating_sub(1) as u64
}

// What is needed from a track on: the blocks still to be recorded, and what lies between their tracks.
fn needed_from(o: &Order, track: u16) -> BlockSum
    requires { 1 ≤ track }
    ensures { result.0 ≡ needed o.now track }
{
    let first = track as usize - 1;
    let charge = charge_for(o.method, o.tracks_after(first));
    BlockSum(o.blocks_after(first).0 + charge)
}

// 10 for the lead-out limit alone, where the first track starts at address 0.
#[tactic(auto, unfolding(crate::specs::Rules::too_long))]
fn is_too_long(o: &Order) -> bool
    ensures { result ≡ too_long o.now }
{
    LAST_LEAD_OUT < needed_from(o, 1).0
}

// 10 where not: what is needed is free, and the lead-out has a time.
#[tactic(auto, unfolding(crate::specs::Rules::fits))]
fn it_fits(m: Method, blocks: BlockSum, i: TrackInformation) -> bool
    requires { Unsigned i.address }
    ensures { result ≡ fits m blocks.0 i }
{
    let sum = blocks.0;
    if (i.free.0 as u64) < sum {
        return false;
    }
    match m {
        Method::Tao => frames_to(i.address) + sum <= LAST_FRAME,
        Method::Sao => sum + LEAD_FRAMES <= LAST_FRAME,
    }
}

// Whether a disc has to be erased: it is appendable or finalized.
#[tactic(auto, unfolding(crate::specs::Rules::used))]
fn is_used(status: u8) -> bool
    ensures { result ≡ used status }
{
    status == APPENDABLE || status == FINALIZED
}

// 16: a used disc that is no CD-RW, or not erasable.
#[tactic(auto, unfolding(crate::specs::Rules::not_erasable))]
fn not_erasable(profile: u16, d: DiscInformation) -> bool
    ensures { result ≡ not_erasable profile d }
{
    is_used(d.status) && (profile != CD_RW || !d.erasable)
}

// Refuses with the first of the tests that applies; they stand in the order of `turns`, 24 before 8. Where none does, the
// operation is answered, whatever comes next.
fn first_of(tests: &[(bool, Refusal)]) -> Result<(), Refusal>
    requires { in_turn turns (tests_in tests.now) ≡ true }
    ensures { (xs : List Op) → answered xs result ≡ tested (tests_in tests.now) xs }
{
    for (applies, refusal) in tests {
        if *applies {
            return Err(*refusal);
        }
    }
    Ok(())
}

// Onward, with an erasing first or without.
fn erasing_if(due: bool) -> Verdict
    ensures { verdict_in result ≡ onward (erasing_if due) }
{
    if due { Verdict::Erase } else { Verdict::Onward }
}

// Judges the first READ DISC INFORMATION of a job that may erase the disc: 5 to 10 as far as they are known, with 24, and 16.
fn judge_used(o: &Order, profile: u16, d: DiscInformation) -> Result<Verdict, Refusal>
    ensures { judgement_by result ≡ tested (erasing_tests o.now profile d) (erasing_if (used d.status)) }
{
    first_of(&[
        (other_profile(profile), Refusal::Profile),
        (FINALIZED < d.status, Refusal::DiscStatus),
        (audio_in_tao(o), Refusal::AudioInTao),
        (o.mixed_or_kept(), Refusal::MixedOrKept),
        (!o.all_long(), Refusal::ShortTrack),
        (is_too_long(o), Refusal::NoRoom),
        (not_erasable(profile, d), Refusal::NotErasable),
    ])?;
    Ok(erasing_if(is_used(d.status)))
}

// Judges READ DISC INFORMATION: with the flag 5 to 10, 24 and 16 before an erasing, and after it that the disc is blank.
fn judge_disc(o: &Order, v: Seen, d: DiscInformation) -> Result<Verdict, Refusal>
    ensures { judgement_by result ≡ judge_disc o.now v d }
{
    if !o.erase {
        return Ok(Verdict::Onward);
    }
    if !v.erased {
        return judge_used(o, v.profile, d);
    }
    first_of(&[(BLANK < d.status, Refusal::DiscStatus)])?;
    Ok(Verdict::Onward)
}

// Judges READ TRACK INFORMATION before a track: that of the first judges 5 to 10 and 24, a later one 7 and 10. So does the first of a job that may
// erase the disc, where the others were judged before.
fn judge_track(o: &Order, track: u16, v: Seen, i: TrackInformation) -> Result<Verdict, Refusal>
    requires le_track { 1 ≤ track }
    requires unsigned { Unsigned i.address }
    ensures { judgement_by result ≡ tested (track_tests o.now track v i) [] }
{
    let unusable = is_unusable(o.method, v.at, i);
    let full = !it_fits(o.method, needed_from(o, track), i);
    if track == 1 && !o.erase {
        first_of(&[
            (other_profile(v.profile), Refusal::Profile),
            (unsuitable_status(o.method, v.status), Refusal::DiscStatus),
            (unusable, Refusal::TrackInformation),
            (audio_in_tao(o), Refusal::AudioInTao),
            (o.mixed_or_kept(), Refusal::MixedOrKept),
            (!o.all_long(), Refusal::ShortTrack),
            (full, Refusal::NoRoom),
        ])?;
    } else {
        first_of(&[
            (unusable, Refusal::TrackInformation),
            (full, Refusal::NoRoom),
        ])?;
    }
    Ok(Verdict::Onward)
}

// Whether an operation is polled: one that takes Immed, with the flag.
pub(crate) fn is_polled(immed: bool, op: Op) -> bool
    ensures { result ≡ is_polled immed op }
{
    takes_immed(op) && immed
}

// Onward, with a round of polls first or without.
fn polls_if(due: bool) -> Verdict
    ensures { verdict_in result ≡ polls_if due }
{
    if due { Verdict::Poll } else { Verdict::Onward }
}

// Whether a round of polls was the last: the drive was ready and reports no progress.
fn is_last(ready: bool, progress: u16) -> bool
    ensures { result ≡ is_last ready progress }
{
    ready && progress == 0
}

// Judges a reply to an operation: disc and track information are tested.
pub(crate) fn judge_reply(o: &Order, op: Op, v: Seen, reading: Reading) -> Result<Verdict, Stop>
    requires unsigned_in { UnsignedIn reading }
    requires for_track { ForTrack (track_in op) reading }
    ensures { judgement_in result ≡ judge o.now v op reading }
{
    match reading {
        Reading::Busy => Ok(Verdict::Again),
        Reading::NotReady | Reading::Profile(_) => Ok(Verdict::Onward),
        Reading::Failed(sense) => Err(Stop::Failed(sense)),
        Reading::Malformed => Err(Stop::Refused(Refusal::ReplyForm)),
        Reading::Disc(d) => Ok(judge_disc(o, v, d)?),
        Reading::Information(i) => Ok(judge_track(o, track_of(op), v, i)?),
        Reading::ProgressIndication(n) => Ok(polls_if(!is_last(v.ready, n))),
        Reading::Unread => Ok(polls_if(is_polled(o.immed, op))),
    }
}

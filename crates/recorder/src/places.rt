// The places of a job: which operation comes after another, and the pieces that are written.
ghost use Rattle.std.specs.Prelude.{◌≡◌, suc, ◌+◌};
ghost use Rattle.recorder.specs.Script.{portion, write};
ghost use Rattle.recorder.specs.Places.{piece_of, piece_ended, before_in, after_page, after_track, after_synchronize, after_in};

use crate::script::{Op, portion_of};
use mmc::order::{Method, Order, Recipe};
use mmc::times::LEAD_FRAMES;
use mmc::units::{BlockCount, TrackNumber};

// The blocks of the pause before track 1 of a session at once, which starts at the first address.
const PAUSE_BLOCKS: u32 = LEAD_FRAMES as u32;

// The blocks of a piece of the job: the pause, or a track; none past the last row.
pub fn piece_length(o: &Order, t: u32) -> u32
    ensures { result ≡ piece_of o.now t }
{
    if t == 0 {
        return PAUSE_BLOCKS;
    }
    match o.tracks.get(t as usize - 1) {
        Some(track) => track.length.0,
        None => 0,
    }
}

// The WRITE of a piece of so many blocks from one of them on.
fn write_from(track: u16, length: u32, first: u32) -> Op
    ensures { result ≡ write track first (portion length first) }
{
    Op::Write {
        track: TrackNumber(track),
        first: BlockCount(first),
        count: BlockCount(portion_of(length, first)),
    }
}

// What comes after a piece: its closing, or in a session at once the next of the tracks.
#[tactic(auto, unfolding(crate::specs::Places::piece_ended))]
fn piece_ended(o: &Order, track: u16) -> Op
    ensures { result ≡ piece_ended o.now.method o.now.count (piece_of o.now (suc track)) track }
{
    match o.method {
        Method::Sao if track < o.count as u16 => {
            write_from(track + 1, piece_length(o, track as u32 + 1), 0)
        }
        _ => Op::SynchronizeCache(TrackNumber(track)),
    }
}

// The WRITE from the block on that comes after so many from another one on, or what comes after the piece.
#[tactic(auto, unfolding(crate::specs::Places::before_block))]
fn before_block(o: &Order, track: u16, first: u32, count: u32) -> Op
    ensures { result ≡ before_in o.now track (first + count) }
{
    let length = piece_length(o, track as u32);
    if count < length.saturating_sub(first) {
        write_from(track, length, first + count)
    } else {
        piece_ended(o, track)
    }
}

// After MODE SELECT: the track's WRITEs, or the cue sheet.
fn after_page(o: &Order, track: u16) -> Op
    ensures { result ≡ after_page o.now.method (before_in o.now track 0) }
{
    match o.method {
        Method::Tao => before_block(o, track, 0, 0),
        Method::Sao => Op::SendCueSheet,
    }
}

// After a track is closed: the next of the tracks, or the closing of the session.
#[tactic(auto, unfolding(crate::specs::Places::after_track))]
fn after_track(o: &Order, track: u16) -> Op
    ensures { result ≡ after_track o.now.count track }
{
    if track < o.count as u16 {
        Op::ReadTrackInformation(TrackNumber(track + 1))
    } else {
        Op::CloseSession
    }
}

// After SYNCHRONIZE CACHE: the track is closed, by the new recipe it is already, or a session at once is done.
fn after_synchronize(o: &Order, track: u16) -> Option<Op>
    ensures { result ≡ after_synchronize o.now.method o.now.recipe o.now.count track }
{
    match (o.method, o.recipe) {
        (Method::Tao, Recipe::Old) => Some(Op::CloseTrack(TrackNumber(track))),
        (Method::Tao, Recipe::New) => Some(after_track(o, track)),
        (Method::Sao, _) => None,
    }
}

// The operation after another in an order.
pub(crate) fn op_after(o: &Order, op: Op) -> Option<Op>
    ensures { result ≡ after_in o.now op }
{
    match op {
        Op::GetConfiguration | Op::Blank => Some(Op::ReadDiscInformation),
        Op::ReadDiscInformation => Some(Op::ReadTrackInformation(TrackNumber(1))),
        Op::ReadTrackInformation(track) => Some(Op::ModeSelect(track)),
        Op::ModeSelect(track) => Some(after_page(o, track.0)),
        Op::SendCueSheet => Some(before_block(o, 0, 0, 0)),
        Op::Write {
            track,
            first,
            count,
        } => Some(before_block(o, track.0, first.0, count.0)),
        Op::SynchronizeCache(track) => after_synchronize(o, track.0),
        Op::CloseTrack(track) => Some(after_track(o, track.0)),
        Op::CloseSession | Op::TestUnitReady | Op::RequestSense => None,
    }
}

// The operations of a job.
ghost use Rattle.std.specs.Prelude.{◌≡◌};
ghost use Rattle.recorder.specs.Script.{portion, stepwise, closes_tracks, track_in, asks_ready, is_erasing, takes_immed};

use mmc::commands::MOST_BLOCKS;
use mmc::order::{Method, Recipe};
use mmc::units::{BlockCount, TrackNumber};

// A command without its address. A WRITE has its track (0: the pause), its first block there, from 0 on, and its count; MODE SELECT
// is for a track, READ TRACK INFORMATION comes before one, SYNCHRONIZE CACHE and the closing of a track after one. BLANK erases the
// disc. The last two poll.
#[derive(Clone, Copy)]
pub enum Op {
    GetConfiguration,
    ReadDiscInformation,
    ReadTrackInformation(TrackNumber),
    ModeSelect(TrackNumber),
    SendCueSheet,
    Write {
        track: TrackNumber,
        first: BlockCount,
        count: BlockCount,
    },
    SynchronizeCache(TrackNumber),
    CloseTrack(TrackNumber),
    CloseSession,
    Blank,
    TestUnitReady,
    RequestSense,
}

// The blocks of the WRITE of a piece of so many blocks from one of them on.
pub(crate) fn portion_of(length: u32, first: u32) -> u32
    ensures { result ≡ portion length first }
{
    length.saturating_sub(first).min(MOST_BLOCKS)
}

// The track of an operation, 0 where it has none.
pub fn track_of(op: Op) -> u16
    ensures { result ≡ track_in op }
{
    match op {
        Op::ReadTrackInformation(track)
        | Op::ModeSelect(track)
        | Op::Write { track, .. }
        | Op::SynchronizeCache(track)
        | Op::CloseTrack(track) => track.0,
        _ => 0,
    }
}

// Whether an operation has an Immed bit: it closes a track or the session, forces the cache out, or erases the disc.
pub(crate) fn takes_immed(op: Op) -> bool
    ensures { result ≡ takes_immed op }
{
    matches!(
        op,
        Op::SynchronizeCache(_) | Op::CloseTrack(_) | Op::CloseSession | Op::Blank
    )
}

// Whether an operation asks if the drive is ready.
pub(crate) fn asks_ready(op: Op) -> bool
    ensures { result ≡ asks_ready op }
{
    matches!(op, Op::TestUnitReady)
}

// Whether an operation erases the disc.
pub(crate) fn is_erasing(op: Op) -> bool
    ensures { result ≡ is_erasing op }
{
    matches!(op, Op::Blank)
}

// Whether a track has its own READ TRACK INFORMATION, and starts where that says: in a track at once.
pub(crate) fn is_stepwise(m: Method) -> bool
    ensures { result ≡ stepwise m }
{
    matches!(m, Method::Tao)
}

// Whether CLOSE TRACK SESSION function 1 closes the tracks: in a track at once, by the old recipe.
pub(crate) fn closes_tracks(m: Method, q: Recipe) -> bool
    ensures { result ≡ closes_tracks m q }
{
    matches!((m, q), (Method::Tao, Recipe::Old))
}

// The cue sheet of a session at once: made from an order, and read back to kind and lengths.
ghost use Rattle.std.specs.Prelude.{◌≡◌, true, ◌++◌, map, ◌+◌, ◌-◌, ◌*◌, ◌≤◌, ◌<◌, length, drop, replicate};
ghost use Rattle.basics.specs.Bytes.{put_at};
ghost use Rattle.mmc.specs.Order.{most_tracks, no_track};
ghost use Rattle.mmc.specs.Refusals.{pass, fault_in, Fills};
ghost use Rattle.mmc.specs.Sheet.{sheet_fault, sheet_size, control_of, track_form, edge_form, cue_entry, lead_in_entry, pause_entry, start_entry, lead_out_entry, behind, all_entries, sheet_of, sheet_bytes, HasRoom, kind_in, frames_in, length_in, lengths_in, no_length, sheet_in, track_for, order_for, is_sheet, MakesSheet, ReadsSheet};
ghost use Rattle.mmc.specs.Times.{in_range};

use crate::bytes::{fill, put, same};
use crate::order::{Kind, Method, NO_TRACK, Order, ROWS, Recipe, Track};
use crate::refusals::Refusal;
use crate::times::{FIRST_ADDRESS, Time, frames_of, time_at};
use crate::units::{BlockAddress, BlockCount, FrameCount, TrackNumber};

// What a cue sheet reads back to: the kind of all its tracks, and their lengths, of which the first count are there.
#[derive(Clone, Copy)]
pub struct Sheet {
    pub kind: Kind,
    pub count: u8,
    pub lengths: [BlockCount; ROWS],
}

// Whether an order has a cue sheet: 3, 8, 9 and 10.
#[tactic(auto, unfolding(crate::specs::Sheet::sheet_fault))]
fn check_sheet(o: &Order) -> Result<(), Refusal>
    ensures { fault_in result ≡ sheet_fault o.now }
{
    if !o.is_valid() {
        return Err(Refusal::FieldValue);
    }
    if o.method != Method::Sao {
        return Err(Refusal::FieldValue);
    }
    if o.mixed_or_kept() {
        return Err(Refusal::MixedOrKept);
    }
    if !o.all_long() {
        return Err(Refusal::ShortTrack);
    }
    if o.is_overlong() {
        return Err(Refusal::NoRoom);
    }
    Ok(())
}

// A cue sheet has so many bytes at least, of one track, and at most, of 99.
const LEAST_BYTES: usize = 8 * (1 + 3);

const MOST_BYTES: usize = 8 * (ROWS + 3);

// Whether a cue sheet can have so many bytes: 8 for each of 4 to 102 entries.
#[tactic(auto, unfolding(crate::specs::Sheet::sheet_size))]
pub(crate) fn sheet_size(n: usize) -> bool
    ensures { result ≡ sheet_size n }
{
    (LEAST_BYTES..=MOST_BYTES).contains(&n) && n % 8 == 0
}

fn control(k: Kind) -> u8
    ensures { result ≡ control_of k }
{
    match k {
        Kind::Audio => 0x01,
        Kind::Data => 0x41,
    }
}

fn track_form(k: Kind) -> u8
    ensures { result ≡ track_form k }
{
    match k {
        Kind::Audio => 0x00,
        Kind::Data => 0x10,
    }
}

fn edge_form(k: Kind) -> u8
    ensures { result ≡ edge_form k }
{
    match k {
        Kind::Audio => 0x01,
        Kind::Data => 0x14,
    }
}

// An entry of eight bytes.
#[tactic(auto, using(crate::proofs::times::Signed::range_time), unfolding(crate::specs::Sheet::cue_entry))]
fn cue_entry(k: Kind, track: TrackNumber, index: u8, form: u8, at: BlockAddress) -> [u8; 8]
    requires { (track.0 < 256) × (in_range at ≡ true) }
    ensures { result ≡ cue_entry k track index form at }
{
    let t = time_at(at);
    [
        control(k),
        track.0 as u8,
        index,
        form,
        0,
        t.minute,
        t.second,
        t.frame,
    ]
}

#[tactic(auto, unfolding(crate::specs::Sheet::lead_in_entry, crate::specs::Times::in_range))]
fn lead_in_entry(kind: Kind) -> [u8; 8]
    ensures { result ≡ lead_in_entry kind }
{
    let first = BlockAddress(FIRST_ADDRESS);
    cue_entry(kind, TrackNumber(0), 0, edge_form(kind), first)
}

#[tactic(auto, unfolding(crate::specs::Sheet::pause_entry, crate::specs::Times::in_range))]
fn pause_entry(kind: Kind) -> [u8; 8]
    ensures { result ≡ pause_entry kind }
{
    let first = BlockAddress(FIRST_ADDRESS);
    cue_entry(kind, TrackNumber(1), 0, track_form(kind), first)
}

// Index 1 of a track.
#[tactic(auto, unfolding(crate::specs::Sheet::start_entry))]
fn start_entry(kind: Kind, track: TrackNumber, at: BlockAddress) -> [u8; 8]
    requires { (track.0 < 256) × (in_range at ≡ true) }
    ensures { result ≡ start_entry kind track at }
{
    cue_entry(kind, track, 1, track_form(kind), at)
}

#[tactic(auto, unfolding(crate::specs::Sheet::lead_out_entry))]
fn lead_out_entry(kind: Kind, at: BlockAddress) -> [u8; 8]
    requires { in_range at ≡ true }
    ensures { result ≡ lead_out_entry kind at }
{
    cue_entry(kind, TrackNumber(0xAA), 1, edge_form(kind), at)
}

// The address behind so many blocks from an address on.
#[tactic(auto, using(crate::proofs::times::Signed::plus_fits, crate::proofs::times::Signed::plus_is))]
fn behind(at: BlockAddress, n: BlockCount) -> BlockAddress
    requires { in_range at ≡ true }
    ensures { result ≡ behind at n }
{
    BlockAddress(at.0 + n.0 as i64)
}

// Writes index 1 of each track, then the lead-out.
fn put_tracks(o: &Order, out: &mut [u8])
    requires { HasRoom o.now (length out.old) }
    ensures { out.new ≡ put_at out.old 16 (all_entries o.now) }
{
    let kind = o.kind();
    let tracks = o.ordered();
    let mut at = BlockAddress(0);
    for (i, track) in tracks.iter().enumerate() {
        put(
            out,
            16 + 8 * i,
            &start_entry(kind, TrackNumber(i as u16 + 1), at),
        );
        at = behind(at, track.length);
    }
    put(out, 16 + 8 * tracks.len(), &lead_out_entry(kind, at));
}

// Writes the whole sheet at the start of out.
fn put_sheet(o: &Order, out: &mut [u8])
    requires { HasRoom o.now (length out.old) }
    ensures { out.new ≡ sheet_of o.now ++ drop (sheet_bytes o.now.count) out.old }
{
    let kind = o.kind();
    put(out, 0, &lead_in_entry(kind));
    put(out, 8, &pause_entry(kind));
    put_tracks(o, out);
}

// Makes the cue sheet of an order that has one.
fn fill_sheet(o: &Order, out: &mut [u8]) -> Result<usize, Refusal>
    requires { sheet_fault o.now ≡ 0 }
    ensures { Fills (pass (sheet_of o.now)) result out.old out.new }
{
    let mut sheet = [0u8; MOST_BYTES];
    put_sheet(o, &mut sheet);
    let n = o.count as usize;
    fill(&sheet[..8 * (n + 3)], out)
}

// Makes the cue sheet of an order: 3, 8, 9, 10, then 11.
pub fn make_sheet(o: Order, out: &mut [u8]) -> Result<usize, Refusal>
    ensures { MakesSheet o result out.old out.new }
{
    check_sheet(&o)?;
    fill_sheet(&o, out)
}

fn kind_in(control: u8) -> Kind
    ensures { result ≡ kind_in control }
{
    if control == 0x41 {
        Kind::Data
    } else {
        Kind::Audio
    }
}

// The time of the first entry.
#[tactic(auto, unfolding(crate::specs::Sheet::frames_in))]
fn frames_in(b: &[u8]) -> FrameCount
    requires { 8 ≤ length b.now }
    ensures { result ≡ frames_in b.now }
{
    frames_of(Time {
        minute: b[5],
        second: b[6],
        frame: b[7],
    })
}

// The length of the track that the first entry starts; it ends where the next entry starts.
#[tactic(auto, unfolding(crate::specs::Sheet::length_in))]
fn length_in(b: &[u8]) -> BlockCount
    requires { 16 ≤ length b.now }
    ensures { result ≡ length_in b.now }
{
    let starts = frames_in(b);
    let ends = frames_in(&b[8..]);
    BlockCount(ends.0.saturating_sub(starts.0))
}

// The lengths of the tracks that the first n entries start.
#[tactic(auto, using(crate::proofs::sheet::Reading::no_lengths, crate::proofs::sheet::Reading::more_lengths))]
fn lengths_in(n: usize, b: &[u8]) -> [BlockCount; ROWS]
    requires { (n ≤ most_tracks) × (8 * (n + 1) ≤ length b.now) }
    ensures { result ≡ lengths_in n b.now ++ replicate (most_tracks - n) no_length }
{
    let mut lengths = [BlockCount(0); ROWS];
    for i in 0..n {
        lengths[i] = length_in(&b[8 * i..]);
    }
    lengths
}

// The kind and the lengths that the bytes give, whatever else they hold.
#[tactic(auto, using(crate::proofs::sheet::Reading::shape), unfolding(crate::specs::Sheet::sheet_in))]
fn sheet_in(b: &[u8]) -> Sheet
    requires { sheet_size (length b.now) ≡ true }
    ensures { result ≡ sheet_in b.now }
{
    let n = b.len() / 8 - 3;
    Sheet {
        kind: kind_in(b[0]),
        count: n as u8,
        lengths: lengths_in(n, &b[16..]),
    }
}

// The tracks of a kind with these lengths.
#[tactic(auto, using(crate::proofs::sheet::Reading::more_tracks))]
fn tracks_for(kind: Kind, lengths: &[BlockCount]) -> [Track; ROWS]
    requires { length lengths.now ≤ most_tracks }
    ensures { result ≡ map (track_for kind) lengths.now ++ replicate (most_tracks - length lengths.now) no_track }
{
    let mut tracks = [NO_TRACK; ROWS];
    for (i, length) in lengths.iter().enumerate() {
        tracks[i] = Track {
            kind,
            length: *length,
        };
    }
    tracks
}

// The order that a sheet is for.
#[tactic(auto, unfolding(crate::specs::Sheet::order_for))]
fn order_for(s: &Sheet) -> Order
    requires { s.now.count ≤ most_tracks }
    ensures { result ≡ order_for s.now }
{
    Order {
        method: Method::Sao,
        keep: false,
        protect: false,
        immed: false,
        erase: false,
        recipe: Recipe::Old,
        count: s.count,
        tracks: tracks_for(s.kind, &s.lengths[..s.count as usize]),
    }
}

// Whether the bytes are the sheet of the order that their kind and lengths give.
fn is_sheet(o: &Order, b: &[u8]) -> bool
    requires { (sheet_size (length b.now) ≡ true) × (o.now ≡ order_for (sheet_in b.now)) }
    ensures { result ≡ is_sheet b.now }
{
    if check_sheet(o).is_err() {
        return false;
    }
    let mut sheet = [0u8; MOST_BYTES];
    put_sheet(o, &mut sheet);
    same(&sheet[..b.len()], b)
}

// Reads a cue sheet: 14.
#[tactic(auto, using(crate::proofs::sheet::Laws::found), unfolding(crate::specs::Sheet::read_sheet))]
pub fn read_sheet(b: &[u8]) -> Result<Sheet, Refusal>
    ensures { ReadsSheet b.now result }
{
    if !sheet_size(b.len()) {
        return Err(Refusal::NoCueSheet);
    }
    let sheet = sheet_in(b);
    if !is_sheet(&order_for(&sheet), b) {
        return Err(Refusal::NoCueSheet);
    }
    Ok(sheet)
}

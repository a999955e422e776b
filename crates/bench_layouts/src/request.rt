// The arguments of a request, at their fixed places. Numbers stand high byte first, and what lies past
// the payload's end is 0.
//
//    1 time                     address (8 bytes, two's complement) at 1
//    2 address                  minute at 1, second at 2, frame at 3
//    3 order-read               bytes from 1 on
//    4 reply-read               bytes from 1 on
//    5 sheet-read               bytes from 1 on
//    6 get-configuration        from 6 on: the lent buffer's length (2 bytes, up to 4,096) at 1
//    7 read-disc-information
//    8 read-track-information
//    9 mode-select
//   10 synchronize-cache        Immed at 3
//   11 send-cue-sheet           length (4 bytes) at 3
//   12 write                    address (8) at 3, count (4) at 11
//   13 close-track-session      function at 3, track (2) at 4, Immed at 6
//   14 reply-write              status, 0 good or 1 failed, at 3; bytes from 4 on
//   15 order-write              order at 3
//   16 page                     order at 3, kind at 502
//   17 sheet                    order at 3
//   18 test-unit-ready
//   19 request-sense
//   20 blank                    Immed at 3
//
// Immed is set where its byte is not 0.
// An order takes 499 bytes: method (1 TAO, 2 SAO), flags (1 keep, 2 protect, 4 Immed, 8 erase), count,
// 99 rows of kind (0 audio, 1 data) and length (4 bytes), and recipe (0 old, 1 new).
ghost use Rattle.std.specs.Prelude.{◌≡◌, not, ◌≤◌, min, eqb, get_or, drop};
ghost use Rattle.basics.specs.Bytes.{be16, be32};
ghost use Rattle.mmc.specs.OrderBlock.{kind_of, method_of, recipe_of};

use mmc::bytes::{number16, number32};
use mmc::order::{Kind, Method, NO_TRACK, Order, ROWS, Recipe, Track};
use mmc::reply_block::Reply;
use mmc::units::{BlockAddress, BlockCount};

// What a request asks for.
#[derive(Clone, Copy)]
pub(crate) enum Operation {
    Read(Reading),
    Make(Form),
}

// What is converted or read.
#[derive(Clone, Copy)]
pub(crate) enum Reading {
    Time,
    Address,
    Order,
    Reply,
    Sheet,
}

// What is made in a lent buffer.
#[derive(Clone, Copy)]
pub(crate) enum Form {
    GetConfiguration,
    ReadDiscInformation,
    ReadTrackInformation,
    ModeSelect,
    SynchronizeCache,
    SendCueSheet,
    Write,
    CloseTrackSession,
    Reply,
    Order,
    Page,
    Sheet,
    TestUnitReady,
    RequestSense,
    Blank,
}

// No operation has the number.
#[derive(Clone, Copy)]
pub(crate) struct BadRequest;

impl TryFrom<u8> for Operation {
    type Error = BadRequest;

    fn try_from(n: u8) -> Result<Operation, BadRequest> {
        match n {
            1 => Ok(Operation::Read(Reading::Time)),
            2 => Ok(Operation::Read(Reading::Address)),
            3 => Ok(Operation::Read(Reading::Order)),
            4 => Ok(Operation::Read(Reading::Reply)),
            5 => Ok(Operation::Read(Reading::Sheet)),
            6 => Ok(Operation::Make(Form::GetConfiguration)),
            7 => Ok(Operation::Make(Form::ReadDiscInformation)),
            8 => Ok(Operation::Make(Form::ReadTrackInformation)),
            9 => Ok(Operation::Make(Form::ModeSelect)),
            10 => Ok(Operation::Make(Form::SynchronizeCache)),
            11 => Ok(Operation::Make(Form::SendCueSheet)),
            12 => Ok(Operation::Make(Form::Write)),
            13 => Ok(Operation::Make(Form::CloseTrackSession)),
            14 => Ok(Operation::Make(Form::Reply)),
            15 => Ok(Operation::Make(Form::Order)),
            16 => Ok(Operation::Make(Form::Page)),
            17 => Ok(Operation::Make(Form::Sheet)),
            18 => Ok(Operation::Make(Form::TestUnitReady)),
            19 => Ok(Operation::Make(Form::RequestSense)),
            20 => Ok(Operation::Make(Form::Blank)),
            _ => Err(BadRequest),
        }
    }
}

// A payload has so many bytes at most, and so has a lent buffer.
pub(crate) const MOST_BYTES: usize = 4096;

// The bytes from an index on.
pub(crate) fn from(b: &[u8], at: usize) -> &[u8]
    ensures { result.now ≡ drop at b.now }
{
    &b[b.len().min(at)..]
}

// The byte at an index.
pub(crate) fn one_at(b: &[u8], at: usize) -> u8
    ensures { result ≡ get_or b.now at 0 }
{
    b.get(at).copied().unwrap_or(0)
}

// Whether the byte at an index is not 0.
pub(crate) fn set_at(b: &[u8], at: usize) -> bool
    ensures { result ≡ not (eqb (get_or b.now at 0) 0) }
{
    one_at(b, at) != 0
}

// The number in the two bytes at an index.
pub(crate) fn two_at(b: &[u8], at: usize) -> u16
    ensures { result ≡ be16 (drop at b.now) }
{
    number16(from(b, at)) as u16
}

// The number in the four bytes at an index.
pub(crate) fn four_at(b: &[u8], at: usize) -> u32
    ensures { result ≡ be32 (drop at b.now) }
{
    number32(from(b, at))
}

// The address in the eight bytes at an index.
pub(crate) fn address_at(b: &[u8], at: usize) -> BlockAddress {
    let bytes = from(b, at);
    let high = number32(bytes) as u64;
    let low = number32(from(bytes, 4)) as u64;
    BlockAddress((high << 32 | low).cast_signed())
}

// How many bytes are lent, at most all there are.
pub(crate) fn lent_length(b: &[u8]) -> usize
    ensures { (result ≡ min (be16 (drop 1 b.now)) 4096) × (result ≤ 4096) }
{
    MOST_BYTES.min(two_at(b, 1) as usize)
}

// The kind of the byte at an index: data for one that is not listed.
pub(crate) fn kind_at(b: &[u8], at: usize) -> Kind
    ensures { result ≡ kind_of (get_or b.now at 0) }
{
    Kind::try_from(one_at(b, at)).unwrap_or(Kind::Data)
}

// The method of the byte at an index: SAO for one that is not listed.
#[tactic(auto, unfolding(mmc::specs::OrderBlock::method_of))]
fn method_at(b: &[u8], at: usize) -> Method
    ensures { result ≡ method_of (get_or b.now at 0) }
{
    Method::try_from(one_at(b, at)).unwrap_or(Method::Sao)
}

// The recipe of the byte at an index: the new one for one that is not listed.
fn recipe_at(b: &[u8], at: usize) -> Recipe
    ensures { result ≡ recipe_of (get_or b.now at 0) }
{
    Recipe::try_from(one_at(b, at)).unwrap_or(Recipe::New)
}

// The reply whose status stands at an index, and whose data behind it.
pub(crate) fn reply_at(b: &[u8], at: usize) -> Reply<'_> {
    match from(b, at) {
        [0, bytes @ ..] => Reply::Good(bytes),
        [_, bytes @ ..] => Reply::Failed(bytes),
        [] => Reply::Good(&[]),
    }
}

// The track of a row.
fn track_of(row: &[u8]) -> Track {
    Track {
        kind: kind_at(row, 0),
        length: BlockCount(four_at(row, 1)),
    }
}

// The tracks of 99 rows.
fn tracks_in(rows: &[u8]) -> [Track; ROWS] {
    let mut tracks = [NO_TRACK; ROWS];
    for (track, row) in tracks.iter_mut().zip(rows.chunks(5)) {
        *track = track_of(row);
    }
    tracks
}

// The order at an index.
pub(crate) fn order_at(b: &[u8], at: usize) -> Order {
    let bytes = from(b, at);
    let flags = one_at(bytes, 1);
    Order {
        method: method_at(bytes, 0),
        keep: flags % 2 == 1,
        protect: flags / 2 % 2 == 1,
        immed: flags / 4 % 2 == 1,
        erase: flags / 8 % 2 == 1,
        recipe: recipe_at(bytes, 498),
        count: one_at(bytes, 2),
        tracks: tracks_in(from(bytes, 3)),
    }
}

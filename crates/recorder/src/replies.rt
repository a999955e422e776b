// The drive's replies, read into the values that the recording rules go by.
ghost use Rattle.std.specs.Prelude.{◌≡◌, ◌≤◌, length};
ghost use Rattle.mmc.specs.ReplyBlock.{reply_said};
ghost use Rattle.recorder.specs.Replies.{response_code, has_sense, sense_of, not_ready, long_write, read_profile, disc_of, read_disc, information_of, read_information, progress_of, read_progress, read_good, failed_by, reading, Unsigned, UnsignedIn};

use crate::script::{Op, asks_ready};
use mmc::bytes::{byte_at, number16, number32};
use mmc::reply_block::Reply;
use mmc::units::{BlockAddress, BlockCount};

// The triple of a failed reply: sense key, additional sense code, additional sense code qualifier.
#[derive(Clone, Copy, Debug, PartialEq, Eq)]
pub struct Sense {
    pub key: u8,
    pub asc: u8,
    pub ascq: u8,
}

// The fields of a disc: its status, and whether it can be erased.
#[derive(Clone, Copy, Debug, PartialEq, Eq)]
pub struct DiscInformation {
    pub status: u8,
    pub erasable: bool,
}

// The fields of a track that is about to be written: Damage, NWA_V, Next Writable Address, Free Blocks.
#[derive(Clone, Copy)]
pub struct TrackInformation {
    pub damaged: bool,
    pub addressed: bool,
    pub address: BlockAddress,
    pub free: BlockCount,
}

// What a reply says: of a failed one, that the drive is busy and took nothing, that it is not ready yet (of TEST UNIT READY), or that it
// failed; of a good one, that it is too short or of another type, the fields that are named for its command, or nothing that is read.
#[derive(Clone, Copy)]
pub enum Reading {
    Busy,
    NotReady,
    Failed(Sense),
    Malformed,
    Profile(u16),
    Disc(DiscInformation),
    Information(TrackInformation),
    ProgressIndication(u16),
    Unread,
}

// The response code of sense data.
fn response_code(bytes: &[u8]) -> u32
    ensures { result ≡ response_code bytes.now }
{
    byte_at(bytes, 0) % 128
}

// Whether a failed reply bears a triple: fixed format sense data, current (70h) or deferred (71h).
#[tactic(auto, unfolding(crate::specs::Replies::has_sense))]
fn has_sense(bytes: &[u8]) -> bool
    ensures { result ≡ has_sense bytes.now }
{
    14 <= bytes.len() && matches!(response_code(bytes), 0x70 | 0x71)
}

// The triple of a failed reply that bears none.
const NO_SENSE: Sense = Sense {
    key: 0,
    asc: 0,
    ascq: 0,
};

// The triple of a failed reply, zeros where it bears none.
#[tactic(auto, unfolding(crate::specs::Replies::sense_of))]
fn sense_of(bytes: &[u8]) -> Sense
    ensures { result ≡ sense_of bytes.now }
{
    if !has_sense(bytes) {
        return NO_SENSE;
    }
    Sense {
        key: (byte_at(bytes, 2) % 16) as u8,
        asc: byte_at(bytes, 12) as u8,
        ascq: byte_at(bytes, 13) as u8,
    }
}

impl Sense {
    // 02h/04h: logical unit not ready.
    #[tactic(auto, unfolding(crate::specs::Replies::not_ready))]
    fn not_ready(self) -> bool
        ensures { result ≡ not_ready self }
    {
        self.key == 0x02 && self.asc == 0x04
    }

    // 02h/04h/08h: logical unit not ready, long write in progress.
    #[tactic(auto, unfolding(crate::specs::Replies::long_write))]
    fn long_write(self) -> bool
        ensures { result ≡ long_write self }
    {
        self.key == 0x02 && (self.asc == 0x04 && self.ascq == 0x08)
    }
}

// Reads a good reply to GET CONFIGURATION: the profile.
#[tactic(auto, unfolding(crate::specs::Replies::whole_profile, crate::specs::Replies::read_profile))]
fn read_profile(bytes: &[u8]) -> Reading
    ensures { (result ≡ read_profile bytes.now) × UnsignedIn result }
{
    if bytes.len() < 8 || number32(bytes) < 4 {
        return Reading::Malformed;
    }
    Reading::Profile(number16(&bytes[6..]) as u16)
}

// The fields of a whole reply to READ DISC INFORMATION.
#[tactic(auto, unfolding(crate::specs::Replies::disc_of))]
fn disc_of(bytes: &[u8]) -> DiscInformation
    requires { 34 ≤ length bytes.now }
    ensures { result ≡ disc_of bytes.now }
{
    let fields = byte_at(bytes, 2);
    DiscInformation {
        status: (fields % 4) as u8,
        erasable: fields / 16 % 2 == 1,
    }
}

// Reads a good reply to READ DISC INFORMATION: its fields.
#[tactic(auto, unfolding(crate::specs::Replies::whole_disc, crate::specs::Replies::read_disc))]
fn read_disc(bytes: &[u8]) -> Reading
    ensures { (result ≡ read_disc bytes.now) × UnsignedIn result }
{
    if bytes.len() < 34 || number16(bytes) < 32 || byte_at(bytes, 2) / 32 != 0 {
        return Reading::Malformed;
    }
    Reading::Disc(disc_of(bytes))
}

// The fields of a whole reply to READ TRACK INFORMATION.
#[tactic(auto, unfolding(crate::specs::Replies::information_of))]
fn information_of(bytes: &[u8]) -> TrackInformation
    requires { 28 ≤ length bytes.now }
    ensures fields { result ≡ information_of bytes.now }
    ensures unsigned { Unsigned result.address }
{
    TrackInformation {
        damaged: byte_at(bytes, 5) / 32 % 2 == 1,
        addressed: byte_at(bytes, 7) % 2 == 1,
        address: BlockAddress(number32(&bytes[12..]) as i64),
        free: BlockCount(number32(&bytes[16..])),
    }
}

// Reads a good reply to READ TRACK INFORMATION: its fields.
#[tactic(auto, unfolding(crate::specs::Replies::whole_information, crate::specs::Replies::read_information))]
fn read_information(bytes: &[u8]) -> Reading
    ensures { (result ≡ read_information bytes.now) × UnsignedIn result }
{
    if bytes.len() < 28 || number16(bytes) < 26 {
        return Reading::Malformed;
    }
    Reading::Information(information_of(bytes))
}

// The progress indication of a whole reply to REQUEST SENSE, 0 where it has none.
#[tactic(auto, unfolding(crate::specs::Replies::progress_of))]
fn progress_of(bytes: &[u8]) -> u16
    requires { 18 ≤ length bytes.now }
    ensures { result ≡ progress_of bytes.now }
{
    if byte_at(bytes, 15) / 128 % 2 == 1 {
        number16(&bytes[16..]) as u16
    } else {
        0
    }
}

// Reads a good reply to REQUEST SENSE: how far the drive is.
#[tactic(auto, unfolding(crate::specs::Replies::read_progress))]
fn read_progress(bytes: &[u8]) -> Reading
    ensures { (result ≡ read_progress bytes.now) × UnsignedIn result }
{
    if bytes.len() < 18 {
        return Reading::Malformed;
    }
    Reading::ProgressIndication(progress_of(bytes))
}

// Reads a good reply, by its command. A command without data has nothing that is read.
fn read_good(op: Op, bytes: &[u8]) -> Reading
    ensures { (result ≡ read_good op bytes.now) × UnsignedIn result }
{
    match op {
        Op::GetConfiguration => read_profile(bytes),
        Op::ReadDiscInformation => read_disc(bytes),
        Op::ReadTrackInformation(_) => read_information(bytes),
        Op::RequestSense => read_progress(bytes),
        _ => Reading::Unread,
    }
}

// Reads a failed reply, by its command: that to TEST UNIT READY, which is never busy, as not ready yet, another as
// busy, or the triple.
#[tactic(auto, unfolding(crate::specs::Replies::is_busy, crate::specs::Replies::read_failed, crate::specs::Replies::is_unready, crate::specs::Replies::read_unready))]
fn failed_by(op: Op, bytes: &[u8]) -> Reading
    ensures { (result ≡ failed_by op bytes.now) × UnsignedIn result }
{
    let sense = sense_of(bytes);
    match (response_code(bytes), asks_ready(op)) {
        (0x70, true) if sense.not_ready() => Reading::NotReady,
        (0x70, false) if sense.long_write() => Reading::Busy,
        _ => Reading::Failed(sense),
    }
}

// Reads a reply to a command.
pub(crate) fn read_reply(op: Op, reply: Reply<'_>) -> Reading
    ensures { (result ≡ reading op (reply_said reply.entry)) × UnsignedIn result }
{
    match reply {
        Reply::Good(bytes) => read_good(op, bytes),
        Reply::Failed(bytes) => failed_by(op, bytes),
    }
}

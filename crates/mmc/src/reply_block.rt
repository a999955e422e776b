// The reply block: 512 bytes that hold a good or failed mark and the drive's data.
ghost use Rattle.std.specs.Prelude.{◌≡◌, ◌++◌, ◌+◌, ◌-◌, ◌≤◌, min, length, take, drop};
ghost use Rattle.basics.specs.Bytes.{if, all_zero, part_of};
ghost use Rattle.mmc.specs.Refusals.{pass, refuse};
ghost use Rattle.mmc.specs.ReplyBlock.{reply_in, most_data, data_length, reply_ok, status_byte, reply_said, reply_found, reply_head, ReadsReply, WritesReply};

use crate::block::{BLOCK_BYTES, check_first, put_check, whole};
use crate::bytes::{all_zero, fill, number16, put};
use crate::refusals::Refusal;

// What the drive answered: good or failed, with its data.
#[derive(Clone, Copy)]
pub enum Reply<'a> {
    Good(&'a [u8]),
    Failed(&'a [u8]),
}

// A reply block holds so many bytes of data at most.
const MOST_DATA: usize = 506;

// How many bytes of data a block says it holds.
fn data_length(b: &[u8; BLOCK_BYTES]) -> usize
    ensures { (result ≡ data_length b.now) × (result ≤ 65535) }
{
    number16(&b[2..]) as usize
}

// Where the data ends that a block says it holds; where it says too much, behind byte 509.
fn data_end(b: &[u8; BLOCK_BYTES]) -> usize
    ensures { result ≡ min (4 + data_length b.now) 510 }
{
    (4 + data_length(b)).min(510)
}

// How many bytes are to be summed: those up to the data's end where only zeros follow, else bytes 0 to 509.
fn filled(end: usize, zero: bool) -> usize
    ensures { result ≡ if zero end 510 }
{
    if zero { end } else { 510 }
}

// The reply in a block whose check is right: 3 where a field's value is not listed, or where not all behind the data is 0.
fn read_fields(b: &[u8; BLOCK_BYTES], zero: bool) -> Result<Reply<'_>, Refusal>
    requires { zero ≡ all_zero (take (most_data - data_length b.now) (drop (4 + data_length b.now) b.now)) }
    ensures { reply_found result ≡ if (reply_ok b.now) (pass (reply_in b.now)) (refuse 3) }
{
    let n = data_length(b);
    if b[0] != 2 || MOST_DATA < n || !zero {
        return Err(Refusal::FieldValue);
    }
    let bytes = reply_data(b, n);
    match b[1] {
        0 => Ok(Reply::Good(bytes)),
        1 => Ok(Reply::Failed(bytes)),
        _ => Err(Refusal::FieldValue),
    }
}

// Reads a reply block: 1, 2 and 3. What stands behind the data is looked at first: zeros need not be summed.
pub fn read_reply(b: &[u8]) -> Result<Reply<'_>, Refusal>
    ensures { ReadsReply b.now result }
{
    let block = whole(b)?;
    let end = data_end(block);
    let zero = all_zero(&block[end..510]);
    check_first(block, filled(end, zero))?;
    read_fields(block, zero)
}

// The part of a block that holds so many bytes of data, or none of it where the block is too short.
#[tactic(auto, unfolding(basics::specs::Bytes::part_of))]
pub fn reply_data(b: &[u8], count: usize) -> &[u8]
    ensures { result.now ≡ part_of b.now 4 count }
{
    b.get(4..)
        .and_then(|data| data.get(..count))
        .unwrap_or_default()
}

impl<'a> Reply<'a> {
    // The data of a reply.
    pub fn bytes(self) -> &'a [u8]
        ensures { result.now ≡ (reply_said self.entry).bytes }
    {
        match self {
            Reply::Good(bytes) | Reply::Failed(bytes) => bytes,
        }
    }

    // Byte 1 of its block.
    fn status_byte(self) -> u8
        ensures { result ≡ status_byte (reply_said self.entry).good }
    {
        match self {
            Reply::Good(_) => 0,
            Reply::Failed(_) => 1,
        }
    }
}

// Writes the head of a reply block and its data.
#[tactic(auto, using(crate::proofs::reply_block::Laws::head_put))]
fn put_reply(reply: Reply<'_>, out: &mut [u8; BLOCK_BYTES])
    requires { length (reply_said reply).bytes ≤ 506 }
    ensures { out.new ≡ reply_head (reply_said reply.entry) ++ drop (4 + length (reply_said reply.entry).bytes) out.old }
{
    let bytes = reply.bytes();
    let n = bytes.len();
    let [high, low] = (n as u16).to_be_bytes();
    put(out, 0, &[2, reply.status_byte(), high, low]);
    put(out, 4, bytes);
}

// Writes a reply block: 3, then 11.
pub fn write_reply(reply: Reply<'_>, out: &mut [u8]) -> Result<usize, Refusal>
    ensures { WritesReply (reply_said reply.entry) result out.old out.new }
{
    if MOST_DATA < reply.bytes().len() {
        return Err(Refusal::FieldValue);
    }
    let mut block = [0u8; BLOCK_BYTES];
    put_reply(reply, &mut block);
    put_check(&mut block);
    fill(&block, out)
}

// Reading bytes as numbers, and putting bytes into a lent buffer. Numbers stand high byte first.
ghost use Rattle.std.specs.Prelude.{◌≡◌, ◌+◌, ◌≤◌, length, get_or};
ghost use Rattle.basics.specs.Bytes.{if, be16, be32, sum_of, all_zero, same_bytes, put_at};
ghost use Rattle.mmc.specs.Refusals.{pass, Fills};

use crate::refusals::Refusal;

// The byte at i as a number, 0 past the end.
pub fn byte_at(b: &[u8], i: usize) -> u32
    ensures { (result ≡ get_or b.now i 0) × (result ≤ 255) }
{
    b.get(i).map_or(0, |x| *x as u32)
}

// The number in the first two bytes.
pub fn number16(b: &[u8]) -> u32
    ensures { (result ≡ be16 b.now) × (result ≤ 65535) }
{
    byte_at(b, 0) * 256 + byte_at(b, 1)
}

// The number in the first four bytes.
#[tactic(auto, unfolding(basics::specs::Bytes::be32))]
pub fn number32(b: &[u8]) -> u32
    ensures { result ≡ be32 b.now }
{
    byte_at(b, 0) * 16777216 + byte_at(b, 1) * 65536 + byte_at(b, 2) * 256 + byte_at(b, 3)
}

// n where the flag is set, else 0.
pub fn flag(set: bool, n: u8) -> u8
    ensures { (result ≡ if set n 0) × (result ≤ n) }
{
    if set { n } else { 0 }
}

// The sum of the bytes of a block.
pub(crate) fn byte_sum(s: &[u8]) -> u32
    requires { length s.now ≤ 512 }
    ensures { result ≡ sum_of s.now }
{
    s.iter().map(|x| *x as u32).sum()
}

// Whether every byte is 0. It looks at all of them: a loop that ends at the first other byte can't take many bytes at a time.
pub(crate) fn all_zero(s: &[u8]) -> bool
    ensures { result ≡ all_zero s.now }
{
    let mut zero = true;
    for x in s {
        if *x != 0 {
            zero = false;
        }
    }
    zero
}

// Whether two runs of bytes are equal.
#[tactic(auto, using(basics::proofs::Bytes::equal_is))]
pub fn same(s: &[u8], t: &[u8]) -> bool
    ensures { result ≡ same_bytes s.now t.now }
{
    s == t
}

// Writes s at the index at.
#[tactic(auto, using(basics::proofs::Bytes::part_is))]
pub(crate) fn put(out: &mut [u8], at: usize, s: &[u8])
    requires { at + length s.now ≤ length out.old }
    ensures { out.new ≡ put_at out.old at s.now }
{
    out[at..at + s.len()].copy_from_slice(s);
}

// The whole answer s goes to the start of a lent buffer, or none of it does.
pub fn fill(s: &[u8], out: &mut [u8]) -> Result<usize, Refusal>
    ensures { Fills (pass s.now) result out.old out.new }
{
    if out.len() < s.len() {
        return Err(Refusal::ShortBuffer);
    }
    put(out, 0, s);
    Ok(s.len())
}

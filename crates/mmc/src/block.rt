// What order blocks and reply blocks share: 512 bytes, the last two of which are their check.
ghost use Rattle.std.specs.Prelude.{◌≡◌, ◌≢◌, true, ◌-◌, ◌≤◌, IfOk, IfErr, length, take, drop};
ghost use Rattle.mmc.specs.Block.{block_fault, sealed};
ghost use Rattle.basics.specs.Bytes.{all_zero};
ghost use Rattle.mmc.specs.Refusals.{fault_in};

use crate::bytes::{byte_sum, number16, put};
use crate::refusals::Refusal;

// A block has so many bytes.
pub(crate) const BLOCK_BYTES: usize = 512;

// The block that the bytes are: 1 for another length.
pub(crate) fn whole(b: &[u8]) -> Result<&[u8; BLOCK_BYTES], Refusal>
    ensures block { IfOk result (λ x. x.now ≡ b.now) }
    ensures refusal { IfErr result (λ r. (r ≡ Refusal.BlockLength) × (length b.now ≢ 512)) }
{
    <&[u8; BLOCK_BYTES]>::try_from(b).map_err(|_| Refusal::BlockLength)
}

// 2 for another check. Only zeros stand from byte n on, so the sum of the first n bytes is that of all.
pub(crate) fn check_first(b: &[u8; BLOCK_BYTES], n: usize) -> Result<(), Refusal>
    requires { (n ≤ 510) × (all_zero (take (510 - n) (drop n b.now)) ≡ true) }
    ensures { fault_in result ≡ block_fault b.now }
{
    let sum = byte_sum(&b[..n]) % 65536;
    if number16(&b[510..]) != sum {
        return Err(Refusal::BlockCheck);
    }
    Ok(())
}

// Writes bytes 510 and 511 of a block whose other bytes are written.
#[tactic(auto, using(crate::proofs::block::Laws::check_put))]
pub(crate) fn put_check(out: &mut [u8; BLOCK_BYTES])
    ensures { out.new ≡ sealed (take 510 out.old) }
{
    let sum = (byte_sum(&out[..510]) % 65536) as u16;
    put(out, 510, &sum.to_be_bytes());
}

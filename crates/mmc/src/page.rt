// The mode data of MODE SELECT: a header and the write parameters page.
ghost use Rattle.std.specs.Prelude.{◌≡◌, ◌≤◌};
ghost use Rattle.mmc.specs.Page.{write_type, track_mode, block_type, mode_bytes, MakesModeData};

use crate::bytes::{fill, flag};
use crate::order::{Kind, Method, Order};
use crate::refusals::Refusal;

fn write_type(m: Method) -> u8
    ensures { (result ≡ write_type m) × (result ≤ 2) }
{
    match m {
        Method::Tao => 1,
        Method::Sao => 2,
    }
}

fn track_mode(k: Kind) -> u8
    ensures { (result ≡ track_mode k) × (result ≤ 4) }
{
    match k {
        Kind::Audio => 0,
        Kind::Data => 4,
    }
}

fn block_type(k: Kind) -> u8
    ensures { result ≡ block_type k }
{
    match k {
        Kind::Audio => 0,
        Kind::Data => 8,
    }
}

// The blocks of a pause before an audio track.
const AUDIO_PAUSE: u8 = 150;

// The 60 bytes of mode data for tracks of a kind.
#[tactic(auto, unfolding(crate::specs::Page::mode_bytes, crate::specs::Page::page))]
fn mode_bytes(o: Order, k: Kind) -> [u8; 60]
    ensures { result ≡ mode_bytes o k }
{
    let mut out = [0u8; 60];
    out[8] = 0x05;
    out[9] = 0x32;
    out[10] = flag(o.protect, 0x40) + write_type(o.method);
    out[11] = flag(o.keep, 0xC0) + track_mode(k);
    out[12] = block_type(k);
    out[23] = AUDIO_PAUSE;
    out
}

// Makes the mode data of an order for its tracks of a kind: 3, 8, then 11.
pub fn mode_data(o: Order, k: Kind, out: &mut [u8]) -> Result<usize, Refusal>
    ensures { MakesModeData o k result out.old out.new }
{
    if !o.is_valid() {
        return Err(Refusal::FieldValue);
    }
    if o.keeps_sao() {
        return Err(Refusal::MixedOrKept);
    }
    fill(&mode_bytes(o, k), out)
}

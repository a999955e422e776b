// The command descriptor blocks: 00h and 03h have six bytes, A1h twelve, the others ten. Immed, in 35h, 5Bh and A1h,
// has the drive answer before its work is done.
ghost use Rattle.std.specs.Prelude.{◌≡◌, true};
ghost use Rattle.mmc.specs.Times.{in_range};
ghost use Rattle.mmc.specs.Commands.{get_configuration, read_disc_information, read_track_information, mode_select, send_cue_sheet, twos, write_range, write_bytes, write_command, synchronize_cache, close_track_session, test_unit_ready, request_sense, blank};
ghost use Rattle.mmc.specs.Refusals.{pass, Fills};

use crate::bytes::{fill, flag};
use crate::refusals::Refusal;
use crate::sheet::sheet_size;
use crate::times::in_range;
use crate::units::{BlockAddress, BlockCount, TrackNumber};

// 46h: the drive's current profile.
pub fn get_configuration(out: &mut [u8]) -> Result<usize, Refusal>
    ensures { Fills (pass get_configuration) result out.old out.new }
{
    let cdb = [0x46u8, 0, 0, 0, 0, 0, 0, 0, 8, 0];
    fill(&cdb, out)
}

// 51h: the disc's status.
pub fn read_disc_information(out: &mut [u8]) -> Result<usize, Refusal>
    ensures { Fills (pass read_disc_information) result out.old out.new }
{
    let cdb = [0x51u8, 0, 0, 0, 0, 0, 0, 0, 34, 0];
    fill(&cdb, out)
}

// 52h: the next writable address, of the track with the number FFh.
pub fn read_track_information(out: &mut [u8]) -> Result<usize, Refusal>
    ensures { Fills (pass read_track_information) result out.old out.new }
{
    let cdb = [0x52u8, 0x01, 0, 0, 0, 0xFF, 0, 0, 48, 0];
    fill(&cdb, out)
}

// 55h: announces the mode data.
pub fn mode_select(out: &mut [u8]) -> Result<usize, Refusal>
    ensures { Fills (pass mode_select) result out.old out.new }
{
    let cdb = [0x55u8, 0x10, 0, 0, 0, 0, 0, 0, 60, 0];
    fill(&cdb, out)
}

// 5Dh: announces a cue sheet of so many bytes, 8 for each of 4 to 102 entries.
pub fn send_cue_sheet(length: usize, out: &mut [u8]) -> Result<usize, Refusal>
    ensures { Fills (send_cue_sheet length) result out.old out.new }
{
    if !sheet_size(length) {
        return Err(Refusal::OutOfRange);
    }
    let [_, high, middle, low] = (length as u32).to_be_bytes();
    let cdb = [0x5Du8, 0, 0, 0, 0, 0, high, middle, low, 0];
    fill(&cdb, out)
}

// A WRITE takes so many blocks at most.
pub const MOST_BLOCKS: u32 = 16;

// Whether a WRITE can start at an address and take so many blocks.
#[tactic(auto, unfolding(crate::specs::Commands::write_range))]
fn write_range(a: BlockAddress, n: BlockCount) -> bool
    ensures { result ≡ write_range a n }
{
    in_range(a) && (1..=MOST_BLOCKS).contains(&n.0)
}

// An address's 32 bits in two's complement.
fn bits_of(a: BlockAddress) -> u32
    requires { in_range a ≡ true }
    ensures { result ≡ twos a.0 }
{
    ((a.0 + 4294967296) as u64 % 4294967296) as u32
}

// The WRITE of so many blocks from an address on, which stands in two's complement.
fn write_bytes(a: BlockAddress, n: BlockCount) -> [u8; 10]
    requires { write_range a n ≡ true }
    ensures { result ≡ write_bytes a n }
{
    let [byte_2, byte_3, byte_4, byte_5] = bits_of(a).to_be_bytes();
    let [byte_7, byte_8] = (n.0 as u16).to_be_bytes();
    [
        0x2A, 0, byte_2, byte_3, byte_4, byte_5, 0, byte_7, byte_8, 0,
    ]
}

// 2Ah: so many blocks from an address on.
pub fn write(a: BlockAddress, n: BlockCount, out: &mut [u8]) -> Result<usize, Refusal>
    ensures { Fills (write_command a n) result out.old out.new }
{
    if !write_range(a, n) {
        return Err(Refusal::OutOfRange);
    }
    fill(&write_bytes(a, n), out)
}

// 35h: forces the cache out to the disc. Immed is bit 1 of byte 1.
pub fn synchronize_cache(immed: bool, out: &mut [u8]) -> Result<usize, Refusal>
    ensures { Fills (pass (synchronize_cache immed)) result out.old out.new }
{
    let byte_1 = flag(immed, 0x02);
    let cdb = [0x35u8, byte_1, 0, 0, 0, 0, 0, 0, 0, 0];
    fill(&cdb, out)
}

// 5Bh: function 1 closes a track, function 2 the session. Immed is bit 0 of byte 1.
pub fn close_track_session(
    immed: bool,
    function: u8,
    track: TrackNumber,
    out: &mut [u8],
) -> Result<usize, Refusal>
    ensures { Fills (close_track_session immed function track) result out.old out.new }
{
    if !(1..=2).contains(&function) {
        return Err(Refusal::OutOfRange);
    }
    let [high, low] = track.0.to_be_bytes();
    let byte_1 = flag(immed, 0x01);
    let cdb = [0x5Bu8, byte_1, function, 0, high, low, 0, 0, 0, 0];
    fill(&cdb, out)
}

// 00h: whether the drive is ready.
pub fn test_unit_ready(out: &mut [u8]) -> Result<usize, Refusal>
    ensures { Fills (pass test_unit_ready) result out.old out.new }
{
    let cdb = [0u8, 0, 0, 0, 0, 0];
    fill(&cdb, out)
}

// 03h: asks for 18 bytes of sense data, which tell the progress.
pub fn request_sense(out: &mut [u8]) -> Result<usize, Refusal>
    ensures { Fills (pass request_sense) result out.old out.new }
{
    let cdb = [0x03u8, 0, 0, 0, 0x12, 0];
    fill(&cdb, out)
}

// A1h: blanks the disc, the least that makes it so (01h). Immed is bit 4 of byte 1.
pub fn blank(immed: bool, out: &mut [u8]) -> Result<usize, Refusal>
    ensures { Fills (pass (blank immed)) result out.old out.new }
{
    let byte_1 = 0x01 + flag(immed, 0x10);
    let cdb = [0xA1u8, byte_1, 0, 0, 0, 0, 0, 0, 0, 0, 0, 0];
    fill(&cdb, out)
}

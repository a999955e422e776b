// What a call answers: a command with its bytes, or an end.
ghost use Rattle.std.specs.Prelude.{◌≡◌, []};
ghost use Rattle.mmc.specs.Refusals.{value_or, Fills};
ghost use Rattle.recorder.specs.Answers.{made_for, cdb_of};

use crate::replies::Sense;
use crate::script::Op;
use mmc::commands::{
    blank, close_track_session, get_configuration, mode_select, read_disc_information,
    read_track_information, request_sense, send_cue_sheet, synchronize_cache, test_unit_ready,
    write,
};
use mmc::order::Order;
use mmc::refusals::Refusal;
use mmc::units::{BlockAddress, TrackNumber};

// A command for the drive: an operation, and the address where the next block goes, at which a WRITE starts.
#[derive(Clone, Copy)]
pub struct Command {
    pub op: Op,
    pub address: BlockAddress,
}

// What a call answers.
#[derive(Clone, Copy)]
pub enum Answer {
    Issue(Command),
    Done,
    Stop(Refusal),
    DriveFailed(Sense),
}

// The command descriptor block of a command: so many bytes, and zeros behind them. Where no command is given there are none.
#[derive(Clone, Copy)]
pub struct Cdb {
    pub bytes: [u8; 12],
    pub length: usize,
}

// Makes the bytes of a command of a job.
fn make_command(o: &Order, c: Command, out: &mut [u8]) -> Result<usize, Refusal>
    ensures { Fills (made_for o.now.immed o.now.count c) result out.old out.new }
{
    match c.op {
        Op::GetConfiguration => get_configuration(out),
        Op::ReadDiscInformation => read_disc_information(out),
        Op::ReadTrackInformation(_) => read_track_information(out),
        Op::ModeSelect(_) => mode_select(out),
        Op::SendCueSheet => send_cue_sheet(8 * (o.count as usize + 3), out),
        Op::Write { count, .. } => write(c.address, count, out),
        Op::SynchronizeCache(_) => synchronize_cache(o.immed, out),
        Op::CloseTrack(_) => close_track_session(o.immed, 1, TrackNumber(0xFF), out),
        Op::CloseSession => close_track_session(o.immed, 2, TrackNumber(0), out),
        Op::Blank => blank(o.immed, out),
        Op::TestUnitReady => test_unit_ready(out),
        Op::RequestSense => request_sense(out),
    }
}

// No bytes.
#[tactic(auto, unfolding(crate::specs::Answers::cdb_of))]
pub(crate) fn no_cdb() -> Cdb
    ensures { result ≡ cdb_of [] }
{
    Cdb {
        bytes: [0u8; 12],
        length: 0,
    }
}

// The bytes of a command of a job.
pub(crate) fn cdb_of(o: &Order, c: Command) -> Cdb
    ensures { result ≡ cdb_of (value_or [] (made_for o.now.immed o.now.count c)) }
{
    let mut bytes = [0u8; 12];
    match make_command(o, c, &mut bytes) {
        Ok(length) => Cdb { bytes, length },
        Err(_) => no_cdb(),
    }
}

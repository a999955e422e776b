// The lines that the panel program writes: what the panel shows of a recorder, in words.
ghost use Rattle.std.specs.Prelude.{◌≡◌, ◌+◌, ◌≤◌, ◌++◌, length, unwrap_or};
ghost use Rattle.mmc.specs.Refusals.{number_of};
ghost use Rattle.recorder.specs.Replies.{no_sense};
ghost use Rattle.ascii.specs.Text.{codes};
ghost use Rattle.lines.specs.Lines.{Writes};
ghost use Rattle.lines.specs.Shown.{pair, of_tracks, in_piece, how_far, percent, command_text, busy_line, idle_line, finished_line, waiting_shown, failure, words_of, stopped_line, shown_with, shown_line, widest};
ghost use Rattle.lines.specs.Bench.{ExampleShown};

use crate::{WIDEST, counted_line};
use ascii::line::Line;
use mmc::bytes::fill;
use mmc::refusals::Refusal;
use panel::display::{Panel, panel_of, progress_of};
use recorder::job::Recorder;
use recorder::places::piece_length;
use recorder::replies::Sense;
use recorder::script::{Op, track_of};

// Writes two numbers, each behind its words.
#[tactic(auto, unfolding(crate::specs::Shown::pair))]
fn push_pair(line: &mut Line<WIDEST>, before: &[u8], x: u64, between: &[u8], y: u64)
    requires { length line.old + length before.now + length between.now + 40 ≤ widest }
    ensures text { line.new ≡ line.old ++ pair before.now x between.now y }
    ensures short { length line.new ≤ length line.old + length before.now + length between.now + 40 }
{
    line.push(before);
    line.push_decimal(x);
    line.push(between);
    line.push_decimal(y);
}

// A command that waits for its reply, in a job of so many tracks. The piece of a WRITE has so many blocks; the progress is the latest of a
// polling.
#[derive(Clone, Copy)]
struct Busy {
    op: Op,
    tracks: u8,
    blocks: u32,
    progress: u16,
}

impl Busy {
    // Writes a command and its track of so many.
    fn push_track(&self, line: &mut Line<WIDEST>, name: &[u8], track: u16)
        requires { length line.old + length name.now + 52 ≤ widest }
        ensures text { line.new ≡ line.old ++ (name.now ++ of_tracks track self.now.tracks) }
        ensures short { length line.new ≤ length line.old + length name.now + 52 }
    {
        line.push(name);
        push_pair(
            line,
            b", track ",
            u64::from(track),
            b" of ",
            u64::from(self.tracks),
        );
    }

    // Writes where a WRITE is: in the pause, or in a track of so many.
    fn push_piece(&self, line: &mut Line<WIDEST>, track: u16)
        requires { length line.old + 57 ≤ widest }
        ensures text { line.new ≡ line.old ++ (codes "WRITE" ++ in_piece track self.now.tracks) }
        ensures short { length line.new ≤ length line.old + 57 }
    {
        if track == 0 {
            line.push(b"WRITE, pause");
        } else {
            self.push_track(line, b"WRITE", track);
        }
    }

    // Writes a WRITE from a block of its piece on, which has so many.
    #[tactic(auto, unfolding(ascii::specs::Text::codes, crate::specs::Shown::how_far))]
    fn push_write(&self, line: &mut Line<WIDEST>, track: u16, first: u32)
        requires { length line.old + 110 ≤ widest }
        ensures text { line.new ≡ line.old ++ (codes "WRITE" ++ in_piece track self.now.tracks ++ how_far first self.now.blocks) }
        ensures short { length line.new ≤ length line.old + 110 }
    {
        self.push_piece(line, track);
        push_pair(
            line,
            b", ",
            u64::from(first),
            b" of ",
            u64::from(self.blocks),
        );
        line.push(b" blocks");
    }

    // Writes a command and the progress as a percentage.
    #[tactic(auto, unfolding(ascii::specs::Text::codes, crate::specs::Shown::percent))]
    fn push_percent(&self, line: &mut Line<WIDEST>, name: &[u8])
        requires { length line.old + length name.now + 45 ≤ widest }
        ensures text { line.new ≡ line.old ++ (name.now ++ percent self.now.progress) }
        ensures short { length line.new ≤ length line.old + length name.now + 45 }
    {
        let tenths = u64::from(self.progress) * 1000 / 65536;
        line.push(name);
        push_pair(line, b", ", tenths / 10, b".", tenths % 10);
        line.push(b" %");
    }

    // Writes a command and what follows its name.
    fn push_command(&self, line: &mut Line<WIDEST>)
        requires { length line.old + 110 ≤ widest }
        ensures text { line.new ≡ line.old ++ command_text self.now.op self.now.tracks self.now.blocks self.now.progress }
        ensures short { length line.new ≤ length line.old + 110 }
    {
        match self.op {
            Op::GetConfiguration => line.push(b"GET CONFIGURATION"),
            Op::ReadDiscInformation => line.push(b"READ DISC INFORMATION"),
            Op::ReadTrackInformation(track) => self.push_track(
                line,
                b"READ TRACK INFORMATION",
                track.0,
            ),
            Op::ModeSelect(track) => self.push_track(line, b"MODE SELECT", track.0),
            Op::SendCueSheet => line.push(b"SEND CUE SHEET"),
            Op::Write { track, first, .. } => self.push_write(line, track.0, first.0),
            Op::SynchronizeCache(track) => self.push_track(line, b"SYNCHRONIZE CACHE", track.0),
            Op::CloseTrack(track) => self.push_track(line, b"CLOSE TRACK SESSION", track.0),
            Op::CloseSession => line.push(b"CLOSE TRACK SESSION, session"),
            Op::Blank => line.push(b"BLANK"),
            Op::TestUnitReady => self.push_percent(line, b"TEST UNIT READY"),
            Op::RequestSense => self.push_percent(line, b"REQUEST SENSE"),
        }
    }

    // The line of a command that waits for its reply.
    #[tactic(auto, unfolding(ascii::specs::Text::codes, crate::specs::Shown::busy_line))]
    fn line(&self, out: &mut [u8]) -> Result<usize, Refusal>
        ensures { Writes widest (busy_line self.now.op self.now.tracks self.now.blocks self.now.progress) result out.old out.new }
    {
        let mut line = Line::new();
        line.push(b"busy: ");
        self.push_command(&mut line);
        line.push(b"\n");
        fill(line.as_bytes(), out)
    }
}

// The line before any order.
#[tactic(auto, unfolding(ascii::specs::Text::codes, crate::specs::Shown::idle_line))]
fn idle_line(out: &mut [u8]) -> Result<usize, Refusal>
    ensures { Writes widest idle_line result out.old out.new }
{
    fill(b"idle\n", out)
}

// The line of a job that is done.
#[tactic(auto, unfolding(ascii::specs::Text::codes, crate::specs::Shown::finished_line))]
fn finished_line(count: u64, out: &mut [u8]) -> Result<usize, Refusal>
    ensures { Writes widest (finished_line count) result out.old out.new }
{
    counted_line(b"finished, commands given: ", count, out)
}

// The line where replies run out. Its contract also keeps the example lines, which hold of the definitions that the makers meet.
pub fn waiting_line(count: u64, out: &mut [u8]) -> Result<usize, Refusal>
    ensures { (Writes widest (waiting_shown count) result out.old out.new) × ExampleShown }
{
    counted_line(b"waiting, commands given: ", count, out)
}

// Writes the triple of 12.
#[tactic(auto, unfolding(ascii::specs::Text::codes, crate::specs::Shown::failure))]
fn push_triple(line: &mut Line<WIDEST>, sense: Sense)
    requires { length line.old + 27 ≤ widest }
    ensures text { line.new ≡ line.old ++ failure sense }
    ensures short { length line.new ≤ length line.old + 27 }
{
    line.push(b"drive failed with ");
    line.push_hex(&[sense.key, sense.asc, sense.ascq]);
}

// Writes the words of a number, of 12 with the triple.
#[tactic(auto, unfolding(ascii::specs::Text::codes, crate::specs::Shown::words_of))]
fn push_words(line: &mut Line<WIDEST>, number: u8, sense: Sense)
    requires { length line.old + 49 ≤ widest }
    ensures text { line.new ≡ line.old ++ words_of number sense }
    ensures short { length line.new ≤ length line.old + 49 }
{
    match number {
        1 => line.push(b"block not of 512 bytes"),
        2 => line.push(b"block check differs"),
        3 => line.push(b"field value not allowed"),
        4 => line.push(b"reply too short or of another type"),
        5 => line.push(b"neither CD-R nor CD-RW"),
        6 => line.push(b"disc status unsuitable"),
        7 => line.push(b"track information unusable"),
        8 => line.push(b"session at once of mixed kinds or kept appendable"),
        9 => line.push(b"track of fewer than 300 blocks"),
        10 => line.push(b"does not fit"),
        11 => line.push(b"lent buffer too short"),
        12 => push_triple(line, sense),
        13 => line.push(b"job already ended"),
        14 => line.push(b"no cue sheet"),
        16 => line.push(b"disc cannot be erased"),
        24 => line.push(b"track at once with an audio track"),
        _ => line.push(b"number out of range"),
    }
}

// The line of a job that stopped with a number, 12 with its triple, or with zeros where none is known.
#[tactic(auto, unfolding(ascii::specs::Text::codes, crate::specs::Shown::reason, crate::specs::Shown::stopped_line))]
fn stopped_line(
    number: u8,
    sense: Option<Sense>,
    count: u64,
    out: &mut [u8],
) -> Result<usize, Refusal>
    ensures { Writes widest (stopped_line number (unwrap_or sense no_sense) count) result out.old out.new }
{
    let none = Sense {
        key: 0,
        asc: 0,
        ascq: 0,
    };
    let mut line = Line::<WIDEST>::new();
    line.push(b"stopped: ");
    line.push_decimal(u64::from(number));
    line.push(b", ");
    push_words(&mut line, number, sense.unwrap_or(none));
    line.push(b", commands given: ");
    counted_line(line.as_bytes(), count, out)
}

// The line of a stop by a refusal, which has no triple.
pub fn refused_line(refusal: Refusal, count: u64, out: &mut [u8]) -> Result<usize, Refusal>
    ensures { Writes widest (stopped_line (number_of refusal) no_sense count) result out.old out.new }
{
    stopped_line(u8::from(refusal), None, count, out)
}

// The line of a recorder: what its panel shows. The piece that it writes has so many blocks.
fn shown_with(r: Recorder, blocks: u32, out: &mut [u8]) -> Result<usize, Refusal>
    ensures { Writes widest (shown_with r blocks) result out.old out.new }
{
    match panel_of(r) {
        Panel::Idle => idle_line(out),
        Panel::Busy(x) => {
            let busy = Busy {
                op: r.progress.due(),
                tracks: r.order.count,
                blocks,
                progress: progress_of(x),
            };
            busy.line(out)
        }
        Panel::Finished => finished_line(r.count, out),
        Panel::Stopped { number, sense } => stopped_line(number, sense, r.count, out),
    }
}

// The line of a recorder: what its panel shows.
pub fn shown_line(r: Recorder, out: &mut [u8]) -> Result<usize, Refusal>
    ensures { Writes widest (shown_line r) result out.old out.new }
{
    let track = track_of(r.progress.due());
    shown_with(r, piece_length(&r.order, u32::from(track)), out)
}

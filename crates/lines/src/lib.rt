// The lines that the programs write, each put whole into a lent buffer. Here are those of the print program: each answer of the recorder
// as a line of text.
#![tactic(auto, unfolding(ascii::specs::Text::codes))]

pub mod shown;

ghost use Rattle.std.specs.Prelude.{◌≡◌, ◌+◌, ◌≤◌, length};
ghost use Rattle.mmc.specs.Refusals.{number_of};
ghost use Rattle.recorder.specs.Answers.{said};
ghost use Rattle.lines.specs.Lines.{command_line, counted_line, waiting_line, stop_text, stop_line, failed_line, line_of, longest, Writes};
ghost use Rattle.lines.specs.Shown.{widest};
ghost use Rattle.lines.specs.Bench.{ExampleLines};

use ascii::line::Line;
use mmc::bytes::fill;
use mmc::refusals::Refusal;
use recorder::answers::{Answer, Cdb};
use recorder::replies::Sense;

// So many bytes are enough for any line of the print program.
const LONGEST: usize = 64;

// So many are enough for any line of the panel program.
const WIDEST: usize = 128;

// A command's bytes.
#[tactic(auto, unfolding(ascii::specs::Text::codes, crate::specs::Lines::command_line))]
fn command_line(bytes: &[u8], out: &mut [u8]) -> Result<usize, Refusal>
    requires { length bytes.now ≤ 12 }
    ensures { Writes longest (command_line bytes.now) result out.old out.new }
{
    let mut line = Line::<LONGEST>::new();
    line.push_hex(bytes);
    line.push(b"\n");
    fill(line.as_bytes(), out)
}

// Some words and the count.
#[tactic(auto, unfolding(ascii::specs::Text::codes, crate::specs::Lines::counted_line))]
pub(crate) fn counted_line(words: &[u8], count: u64, out: &mut [u8]) -> Result<usize, Refusal>
    requires { length words.now + 21 ≤ widest }
    ensures { Writes (length words.now + 21) (counted_line words.now count) result out.old out.new }
{
    let mut line = Line::<WIDEST>::new();
    line.push(words);
    line.push_decimal(count);
    line.push(b"\n");
    fill(line.as_bytes(), out)
}

// `waiting N`, where replies run out. Its contract also keeps the example lines, which hold of the definitions that the makers meet.
#[tactic(auto, using(crate::proofs::Bench::example_lines), unfolding(ascii::specs::Text::codes, crate::specs::Lines::waiting_line))]
pub fn waiting_line(count: u64, out: &mut [u8]) -> Result<usize, Refusal>
    ensures { (Writes longest (waiting_line count) result out.old out.new) × ExampleLines }
{
    counted_line(b"waiting ", count, out)
}

// `stop R N`, with which a line begins.
#[tactic(auto, unfolding(ascii::specs::Text::codes, crate::specs::Lines::stop_text))]
fn stop_text(number: u8, count: u64) -> Line<LONGEST>
    ensures text { result ≡ stop_text number count }
    ensures short { length result ≤ 46 }
{
    let mut line = Line::new();
    line.push(b"stop ");
    line.push_decimal(u64::from(number));
    line.push(b" ");
    line.push_decimal(count);
    line
}

// `stop R N`, by the refusal. 12 comes here without its triple only from a caller that makes such an answer itself: the recorder stops
// with it as `DriveFailed`, and a block is not refused with it.
#[tactic(auto, unfolding(ascii::specs::Text::codes, crate::specs::Lines::stop_line))]
fn stop_line(refusal: Refusal, count: u64, out: &mut [u8]) -> Result<usize, Refusal>
    ensures { Writes longest (stop_line (number_of refusal) count) result out.old out.new }
{
    let mut line = stop_text(u8::from(refusal), count);
    line.push(b"\n");
    fill(line.as_bytes(), out)
}

// `stop 12 N KK AA QQ`, the triple in hex.
#[tactic(auto, unfolding(ascii::specs::Text::codes, crate::specs::Lines::failed_line))]
fn failed_line(sense: Sense, count: u64, out: &mut [u8]) -> Result<usize, Refusal>
    ensures { Writes longest (failed_line sense count) result out.old out.new }
{
    let mut line = stop_text(12, count);
    line.push(b" ");
    line.push_hex(&[sense.key, sense.asc, sense.ascq]);
    line.push(b"\n");
    fill(line.as_bytes(), out)
}

// The line of an answer: the command's bytes, or the end with the count of commands.
#[tactic(auto, unfolding(ascii::specs::Text::codes, crate::specs::Lines::done_line))]
pub fn answer_line(answer: Answer, cdb: Cdb, count: u64, out: &mut [u8]) -> Result<usize, Refusal>
    ensures { Writes longest (line_of (said answer) cdb count) result out.old out.new }
{
    match answer {
        Answer::Issue(_) => command_line(&cdb.bytes[..cdb.length.min(12)], out),
        Answer::Done => counted_line(b"done ", count, out),
        Answer::Stop(refusal) => stop_line(refusal, count, out),
        Answer::DriveFailed(sense) => failed_line(sense, count, out),
    }
}

// The panel program: it reads an order block and then reply blocks from standard input, as the print program does, and shows before
// these and after each of them what the panel shows, as a line that a person can read. On a terminal each line takes the place of the
// one before. Where its output can't be written, it says so on standard error.
#![tactic(auto)]

mod stage;

ghost use Rattle.std.specs.Prelude.{◌≡◌, true, false, ◌&&◌, ◌≤◌, length, Ok, MatchOption, is_ok};
ghost use Rattle.lines.specs.Shown.{widest};
ghost use Rattle.watch.specs.Bench.{ExampleStages};
ghost use Rattle.watch.specs.Watch.{drawn_over, watch_in, reads_on, complaint, stage_in, written_in, Finishes};

use crate::stage::{WIDEST, Watch, begin, go_on, show};
use recorder::job::idle;
use std::io::IsTerminal;

// The descriptors of the standard streams.
const STDIN_FILENO: i32 = 0;

const STDOUT_FILENO: i32 = 1;

const STDERR_FILENO: i32 = 2;

// A block has so many bytes.
const BLOCK_BYTES: usize = 512;

// The output took not all of a line, and the program ends.
#[derive(Clone, Copy)]
struct OutputLost {
    watch: Watch,
}

// A line that goes over the one before: only the last one ends.
fn unended(last: bool, line: &[u8]) -> &[u8]
    ensures { result.now ≡ drawn_over last line.now }
{
    match line {
        [drawn @ .., _] if !last => drawn,
        _ => line,
    }
}

// Both.
fn both(a: bool, b: bool) -> bool
    ensures { result ≡ (a && b) }
{
    a && b
}

// Writes a line out, and answers whether the output took all of it. On a terminal it goes over the line before.
fn put_line(terminal: bool, last: bool, line: &[u8]) -> bool {
    if !terminal {
        return io::write_all(STDOUT_FILENO, line);
    }
    let erased = io::write_all(STDOUT_FILENO, b"\r\x1B[K");
    let drawn = io::write_all(STDOUT_FILENO, unended(last, line));
    both(erased, drawn)
}

// Shows the line. The buffer is named for the contract alone: the bytes are the line's.
fn send(terminal: bool, last: bool, w: Watch, text: &[u8], line: &[u8]) -> Result<Watch, OutputLost>
    requires { line.now ≡ (stage_in w text.now).line }
    ensures { watch_in result ≡ w }
{
    if put_line(terminal, last, line) {
        Ok(w)
    } else {
        Err(OutputLost { watch: w })
    }
}

// Shows the line of where the program stands.
fn flush(terminal: bool, last: bool, w: Watch, text: &[u8]) -> Result<Watch, OutputLost>
    requires { w.used ≤ length text.now }
    ensures { watch_in result ≡ w }
{
    send(terminal, last, w, text, &text[..w.used])
}

// Where the program reads on: the output took all of the line, and a reply is awaited. The buffer is named for the
// contract alone.
fn reads_on(s: Result<Watch, OutputLost>, text: &[u8]) -> Option<Watch>
    ensures { MatchOption result (reads_on (written_in s text.now) ≡ false) (λ w. (s ≡ Ok w) × (w.waiting ≡ true)) }
{
    match s {
        Ok(w) if w.waiting => Some(w),
        _ => None,
    }
}

// Reads on until no reply is awaited, or the output can't be written. A proved loop has to end, so it has more turns
// than any run takes. Its contract also keeps the short inputs, which hold of the definitions that the program meets.
fn finish(
    terminal: bool,
    first: Result<Watch, OutputLost>,
    block: &mut [u8; BLOCK_BYTES],
    text: &mut [u8; WIDEST],
) -> Result<Watch, OutputLost>
    requires { (length block.old ≡ 512) × (length text.old ≡ widest) }
    ensures { (Finishes (written_in first text.old) result text.new) × ExampleStages }
{
    let mut shown = first;
    for _ in 0..u64::MAX {
        let Some(w) = reads_on(shown, text) else {
            break;
        };
        let n = io::read_full(STDIN_FILENO, block);
        let next = go_on(w.recorder, &block[..n], text);
        shown = flush(terminal, !next.waiting, next, text);
    }
    shown
}

// Writes the complaint, and nothing else, to standard error, where the output could not be written.
fn complain(shown: Result<Watch, OutputLost>, line: &[u8])
    requires { (is_ok shown ≡ false) × (line.now ≡ complaint) }
{
    io::write_all(STDERR_FILENO, line);
}

// Complains unless the output took everything.
#[tactic(auto, unfolding(ascii::specs::Text::codes))]
fn report(shown: Result<Watch, OutputLost>) {
    if shown.is_err() {
        complain(shown, b"watch: the output could not be written\n");
    }
}

// Shows what comes of an order block and reply blocks. Nothing is read where the output did not take the line before.
fn show_job(
    before: Result<Watch, OutputLost>,
    terminal: bool,
    text: &mut [u8; WIDEST],
) -> Result<Watch, OutputLost>
    requires { is_ok before ≡ true }
{
    let mut block = [0u8; BLOCK_BYTES];
    let n = io::read_full(STDIN_FILENO, &mut block);
    let begun = begin(&block[..n], text);
    let first = flush(terminal, !begun.waiting, begun, text);
    finish(terminal, first, &mut block, text)
}

fn main(rt: HostRuntime) {
    let terminal = rt.stdout().is_terminal();
    let mut text = [0u8; WIDEST];
    let idle = show(idle(), &mut text);
    let before = flush(terminal, false, idle, &text);
    let last = if before.is_ok() {
        show_job(before, terminal, &mut text)
    } else {
        before
    };
    report(last);
}

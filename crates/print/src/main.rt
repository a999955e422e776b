// Document 01's print program: an order block and then reply blocks on standard input, and on standard output each
// command as a line of hex bytes and last `done N`, `stop R N` or `waiting N`. Where its output can't be written, it
// says so on standard error.
#![tactic(auto)]

mod run;

ghost use Rattle.std.specs.Prelude.{◌≡◌, true, false, ◌+◌, ◌%◌, ◌≤◌, ◌<◌, length, Ok, MatchOption, is_ok};
ghost use Rattle.print.specs.Run.{run_in, reads_on, complaint, stage_in, ReadsRest, Sends, Finishes};
ghost use Rattle.print.specs.Bench.{ExampleTexts};

use crate::run::{BLOCK_BYTES, Run, begin, go_on};
use std::io::Read;
use std::rt::Stdin;

// The descriptors of the standard streams.
const STDIN_FILENO: i32 = 0;

const STDOUT_FILENO: i32 = 1;

const STDERR_FILENO: i32 = 2;

// A read brings so many bytes at most: 128 blocks.
const INPUT_BYTES: usize = 128 * BLOCK_BYTES;

// So many bytes are enough for the lines of its blocks.
const TEXT_BYTES: usize = 128 * 64;

// Where the last block ends that the first n bytes reach into.
fn whole_blocks(n: usize) -> usize
    requires { n ≤ 65536 }
    ensures { (result % 512 ≡ 0) × (n ≤ result) × (result < n + 512) }
{
    n.next_multiple_of(BLOCK_BYTES)
}

// Reads the rest of the last block that the first n bytes reach into, and answers how many bytes there are then.
fn read_rest(n: usize, input: &mut [u8; INPUT_BYTES]) -> usize
    requires { n ≤ 65536 }
    ensures { ReadsRest n input.old result input.new }
{
    let end = whole_blocks(n);
    n + io::read_full(STDIN_FILENO, &mut input[n..end])
}

// Reads what the input has at hand, and the rest of a block that it has a part of. A read that fails brings nothing.
fn read_blocks(mut stdin: Stdin, input: &mut [u8; INPUT_BYTES]) -> usize
    ensures { result ≤ 65536 }
{
    let n = stdin.read(input).unwrap_or(0);
    read_rest(n, input)
}

// The output took not all of a run's text, and the program ends.
#[derive(Clone, Copy)]
struct OutputLost {
    run: Run,
}

// Writes bytes out, and hands the run back without text. The run's buffer is named for the contract alone: the bytes
// are the run's text.
fn send(run: Run, text: &[u8], bytes: &[u8]) -> Result<Run, OutputLost>
    requires { bytes.now ≡ (stage_in run text.now).text }
    ensures { Sends run result }
{
    let sent = Run { used: 0, ..run };
    if io::write_all(STDOUT_FILENO, bytes) {
        Ok(sent)
    } else {
        Err(OutputLost { run: sent })
    }
}

// Writes the text of a run out.
fn flush(run: Run, text: &[u8]) -> Result<Run, OutputLost>
    requires { run.used ≤ length text.now }
    ensures { Sends run result }
{
    send(run, text, &text[..run.used])
}

// The run with which the program reads on: the output took all the text, and a reply is awaited.
fn reads_on(sent: Result<Run, OutputLost>) -> Option<Run>
    ensures { MatchOption result (reads_on sent ≡ false) (λ run. (sent ≡ Ok run) × (run.waiting ≡ true)) }
{
    match sent {
        Ok(run) if run.waiting => Some(run),
        _ => None,
    }
}

// Reads on until the run ends, or the output can't be written. A proved loop has to end, so it has more turns than any
// run takes. Its contract also keeps document 01's example texts, which hold of the definitions that recorder and run
// meet.
fn finish(
    stdin: Stdin,
    first: Result<Run, OutputLost>,
    input: &mut [u8; INPUT_BYTES],
    text: &mut [u8; TEXT_BYTES],
) -> Result<Run, OutputLost>
    requires { ((run_in first).used ≡ 0) × (length input.old ≡ 65536) × (length text.old ≡ 8192) }
    ensures { (Finishes first result) × ExampleTexts }
{
    let mut sent = first;
    for _ in 0..u64::MAX {
        let Some(run) = reads_on(sent) else {
            break;
        };
        let n = read_blocks(stdin, input);
        let next = go_on(run, &input[..n], text);
        sent = flush(next, text);
    }
    sent
}

// Writes the complaint, and nothing else, to standard error, where the output could not be written.
fn complain(sent: Result<Run, OutputLost>, line: &[u8])
    requires { (is_ok sent ≡ false) × (line.now ≡ complaint) }
{
    io::write_all(STDERR_FILENO, line);
}

// Complains unless the output took everything.
#[tactic(auto, unfolding(ascii::specs::Text::codes))]
fn report(sent: Result<Run, OutputLost>) {
    if sent.is_err() {
        complain(sent, b"print: the output could not be written\n");
    }
}

fn main(rt: HostRuntime) {
    let stdin = rt.stdin();
    let mut input = [0u8; INPUT_BYTES];
    let mut text = [0u8; TEXT_BYTES];
    let n = read_blocks(stdin, &mut input);
    let first = begin(&input[..n], &mut text);
    let sent = flush(first, &text);
    let last = finish(stdin, sent, &mut input, &mut text);
    report(last);
}

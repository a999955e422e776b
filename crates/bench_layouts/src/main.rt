// Answers requests over the byte layouts: binary requests on standard input, a line of text for each
// on standard output. A request is two bytes, high byte first, with the length of its payload, 1 to
// 4,096, and the payload. The payload's first byte is the operation; its arguments stand at fixed
// places behind it (request.rt), and what is missing of them is 0. The lines are those of the second
// program's tool `layouts`, whose tool `pack` makes the binary form from the text form.
#![tactic(auto)]

mod line;
mod makers;
mod readers;
mod request;

use crate::line::AnswerLine;
use crate::makers::made_line;
use crate::readers::read_line;
use crate::request::{BadRequest, MOST_BYTES, Operation, one_at};

// The descriptors of the standard streams.
const STDIN_FILENO: i32 = 0;

const STDOUT_FILENO: i32 = 1;

// Answers a request, and tells whether the whole answer was written.
fn answer(b: &[u8]) -> bool {
    let mut line = AnswerLine::new();
    match Operation::try_from(one_at(b, 0)) {
        Ok(Operation::Read(reading)) => read_line(reading, b, &mut line),
        Ok(Operation::Make(form)) => made_line(form, b, &mut line),
        Err(BadRequest) => line.push(b"bad request"),
    }
    line.push(b"\n");
    io::write_all(STDOUT_FILENO, line.as_bytes())
}

// Answers one request, and tells whether to go on.
fn serve() -> bool {
    let mut head = [0u8; 2];
    if io::read_full(STDIN_FILENO, &mut head) < head.len() {
        return false;
    }
    let n = usize::from(u16::from_be_bytes(head));
    if n < 1 || MOST_BYTES < n {
        return false;
    }
    let mut space = [0u8; MOST_BYTES];
    let payload = &mut space[..n];
    io::read_full(STDIN_FILENO, payload) == n && answer(payload)
}

// Answers requests until the input ends. A proved loop has to end, and nothing says that the input
// does: so the loop has more turns than any run takes.
fn main() {
    for _ in 0..u64::MAX {
        if !serve() {
            break;
        }
    }
}

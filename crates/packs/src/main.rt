// The packs program: requests over CD-TEXT on standard input, an answer to each on standard output, all in binary. Numbers stand
// high byte first.
//
// A request: the operation (1 makes packs from titles, 2 reads titles from packs, 3 gives check bytes); the length of the lent
// buffer in two bytes, up to 8,192; the length of the payload in two bytes, up to 32,768; the payload. Anything else ends the
// program.
//
// An answer: 0, or the refusal's number; in two bytes the number of packs, the length of the run of titles, or the check bytes, and
// 0 where refused; then the lent buffer, which was filled with A5h beforehand.
#![tactic(auto)]

ghost use Rattle.std.specs.Prelude.{◌≡◌, true, false, [], ◌++◌, ◌+◌, ◌≤◌, length, take, drop, MatchOption};
ghost use Rattle.io.specs.Counts.{IsPrefixLen};
ghost use Rattle.packs.specs.Answers.{answer_to, bytes_of};
ghost use Rattle.packs.specs.Requests.{most_room, number_of, listed, Says, is_head, is_request, next_length, answered};

use cdtext::check::check_of;
use cdtext::packs::{make_packs, read_packs};
use cdtext::refusals::Refusal;
use mmc::bytes::number16;

// The descriptors of the standard streams.
const STDIN_FILENO: i32 = 0;

const STDOUT_FILENO: i32 = 1;

// The longest lent buffer.
const MOST_ROOM: usize = 8192;

// The longest payload.
const MOST_SIZE: usize = 32768;

// The longest answer.
const MOST_ANSWER: usize = 3 + MOST_ROOM;

// What a request asks for: packs from titles, titles from packs, or check bytes.
#[derive(Clone, Copy, Debug, PartialEq, Eq)]
enum Operation {
    Make,
    Read,
    Check,
}

// The operation that a byte names.
impl TryFrom<u8> for Operation {
    type Error = ();

    ghost try_from_gives = { λ n r. r ≡ listed n };

    fn try_from(n: u8) -> Result<Operation, ()> {
        match n {
            1 => Ok(Operation::Make),
            2 => Ok(Operation::Read),
            3 => Ok(Operation::Check),
            _ => Err(()),
        }
    }
}

// Does what the operation asks for, and answers the amount to be told.
fn done(operation: Operation, payload: &[u8], lent: &mut [u8]) -> Result<u16, Refusal>
    requires { length lent.old ≤ most_room }
    ensures { bytes_of result ++ lent.new ≡ answer_to (number_of operation) payload.now lent.old }
{
    match operation {
        Operation::Make => Ok(make_packs(payload, lent)? as u16),
        Operation::Read => Ok(read_packs(payload, lent)? as u16),
        Operation::Check => Ok(check_of(payload)),
    }
}

// The bytes that stand before the lent buffer in an answer.
fn head_of(outcome: Result<u16, Refusal>) -> [u8; 3]
    ensures { result ≡ bytes_of outcome }
{
    match outcome {
        Ok(amount) => {
            let [high, low] = amount.to_be_bytes();
            [0, high, low]
        }
        Err(refusal) => [u8::from(refusal), 0, 0],
    }
}

// Puts the answer to a request into out, where the lent buffer stands from the fourth byte on.
fn put_answer(operation: Operation, payload: &[u8], out: &mut [u8])
    requires { (3 ≤ length out.old) × (length out.old ≤ 3 + most_room) }
    ensures { out.new ≡ answer_to (number_of operation) payload.now (drop 3 out.old) }
{
    let outcome = done(operation, payload, &mut out[3..]);
    out[..3].copy_from_slice(&head_of(outcome));
}

// What the head of a request says: the operation, and the lengths of the lent buffer and of the payload.
#[derive(Clone, Copy)]
struct Request {
    operation: Operation,
    room: usize,
    size: usize,
}

// What the bytes say, where they are the head of a request within the limits.
fn request_of(head: &[u8]) -> Option<Request>
    ensures { MatchOption result (is_head head.now ≡ false) (λ r. Says head.now r) }
{
    if head.len() != 5 {
        return None;
    }
    let room = number16(&head[1..]) as usize;
    let size = number16(&head[3..]) as usize;
    match Operation::try_from(head[0]) {
        Ok(operation) if room <= MOST_ROOM && size <= MOST_SIZE => Some(Request {
            operation,
            room,
            size,
        }),
        _ => None,
    }
}

// Reads until the space is full or the input ends, and tells how many bytes came. What came of the request before is named for the
// contract alone: the space is for what comes next, and for no more.
fn receive(before: &[u8], space: &mut [u8]) -> usize
    requires { length space.old ≡ next_length before.now }
    ensures { IsPrefixLen result space.new }
{
    io::read_full(STDIN_FILENO, space)
}

// Writes the answer to a request, and tells whether the whole of it was written. The request is named for the contract alone: the
// bytes are its answer.
fn send(head: &[u8], payload: &[u8], bytes: &[u8]) -> bool
    requires { (is_request head.now payload.now ≡ true) × (bytes.now ≡ answered head.now payload.now) }
{
    io::write_all(STDOUT_FILENO, bytes)
}

// Tells not to go on. What came is named for the contract alone: it is no request.
fn stop(head: &[u8], payload: &[u8]) -> bool
    requires { is_request head.now payload.now ≡ false }
    ensures { result ≡ false }
{
    false
}

// Answers a request in a space of the answer's length, and tells whether the whole answer was written.
fn reply(head: &[u8], request: Request, payload: &[u8], out: &mut [u8]) -> bool
    requires { Says head.now request × (is_request head.now payload.now ≡ true) × (length out.old ≡ 3 + request.room) }
{
    out.fill(0xA5);
    put_answer(request.operation, payload, out);
    send(head, payload, out)
}

// Answers a request if its payload came whole, and tells whether to go on. Of the space the first got bytes came. The space for
// answers is lent, so that it is not made anew.
fn serve_payload(
    head: &[u8],
    request: Request,
    space: &[u8],
    got: usize,
    out: &mut [u8; MOST_ANSWER],
) -> bool
    requires { Says head.now request × IsPrefixLen got space.now }
    ensures { is_request head.now (take got space.now) ≡ false → result ≡ false }
{
    let payload = &space[..got];
    if payload.len() != request.size {
        return stop(head, payload);
    }
    reply(head, request, payload, &mut out[..3 + request.room])
}

// Reads the payload that a head announces, into a space of that length, and answers the request.
fn read_payload(
    head: &[u8],
    request: Request,
    space: &mut [u8],
    out: &mut [u8; MOST_ANSWER],
) -> bool
    requires { Says head.now request × (length space.old ≡ request.size) }
{
    let got = receive(head, space);
    serve_payload(head, request, space, got, out)
}

// Answers a request if what came is a head, and tells whether to go on. Of the space the first got bytes came.
fn serve_head(
    space: &[u8],
    got: usize,
    payload: &mut [u8; MOST_SIZE],
    out: &mut [u8; MOST_ANSWER],
) -> bool
    requires { IsPrefixLen got space.now }
    ensures { is_head (take got space.now) ≡ false → result ≡ false }
{
    let head = &space[..got];
    match request_of(head) {
        Some(request) => read_payload(head, request, &mut payload[..request.size], out),
        None => stop(head, &[]),
    }
}

// Answers one request, and tells whether to go on. The spaces for payloads and for answers are lent.
fn serve(payload: &mut [u8; MOST_SIZE], out: &mut [u8; MOST_ANSWER]) -> bool {
    let mut space = [0; 5];
    let got = receive(&[], &mut space);
    serve_head(&space, got, payload, out)
}

// Does nothing. Why the program ends is named for the contract alone: it is not to go on, or has had all its turns.
fn over(more: bool, turns: u64)
    requires { more ≡ true → turns ≡ 0 }
{}

// Answers requests until the input ends. A proved loop has to end, and nothing says that the input does: so the loop counts its
// turns down, from a number that no run uses up.
fn main() {
    let mut payload = [0; MOST_SIZE];
    let mut out = [0; MOST_ANSWER];
    let mut turns = u64::MAX;
    let mut more = serve(&mut payload, &mut out);
    while turns > 0 && more {
        turns -= 1;
        more = serve(&mut payload, &mut out);
    }
    over(more, turns);
}

// An answer line, and what it has besides words.
use crate::request::MOST_BYTES;
use ascii::line::Line;
use mmc::refusals::Refusal;

// An answer line is not longer: a lent buffer in hex, and what the maker answered.
const LONGEST_LINE: usize = 4 * MOST_BYTES;

pub(crate) type AnswerLine = Line<LONGEST_LINE>;

// Writes bytes in hex parted by spaces, and no bytes as a dash.
pub(crate) fn push_bytes(line: &mut AnswerLine, bytes: &[u8]) {
    if bytes.is_empty() {
        line.push(b"-");
    } else {
        line.push_hex(bytes);
    }
}

// Writes `ok` and a number behind it.
pub(crate) fn push_first(line: &mut AnswerLine, n: u64) {
    line.push(b"ok ");
    line.push_decimal(n);
}

// Writes a space and a number.
pub(crate) fn push_next(line: &mut AnswerLine, n: u64) {
    line.push(b" ");
    line.push_decimal(n);
}

// Writes a number that may be negative.
pub(crate) fn push_signed(line: &mut AnswerLine, z: i64) {
    if z < 0 {
        line.push(b"-");
    }
    line.push_decimal(z.unsigned_abs());
}

// Writes a refusal with its number.
pub(crate) fn push_refusal(line: &mut AnswerLine, refusal: Refusal) {
    line.push(b"refused ");
    line.push_decimal(u64::from(u8::from(refusal)));
}

// A line of text that is being written.
ghost use Rattle.std.specs.Prelude.{◌≡◌, ◌+◌, ◌*◌, ◌≤◌, ◌<◌, [], ◌++◌, length};
ghost use Rattle.ascii.specs.Text.{parted, decimal};

use crate::{add, add_decimal, add_hex};
use std::marker::Model;

// A line of at most N bytes, in fixed memory. Each method writes its text whole behind what is there; where it does not fit in what is left,
// the line stays as it is.
#[derive(Drop)]
pub struct Line<const N: usize> {
    bytes: [u8; N],
    end: usize,
}

// A contract sees a line as the codes that were written.
impl<const N: usize> Model for Line<N> {
    ghost use Rattle.std.specs.Prelude.{List, ℕ, take, ◌≤◌};

    ghost Value = { List ℕ };

    ghost view = { λ l. take l.end l.bytes };

    ghost invariant = { λ l. l.end ≤ N };
}

impl<const N: usize> Line<N> {
    // A line with nothing on it.
    pub fn new() -> Self
        ensures { result ≡ [] }
    {
        Line {
            bytes: [0; N],
            end: 0,
        }
    }

    // Writes a text.
    pub fn push(&mut self, text: &[u8])
        ensures fits { length self.old + length text.now ≤ N → self.new ≡ self.old ++ text.now }
        ensures full { N < length self.old + length text.now → self.new ≡ self.old }
    {
        self.end = add(&mut self.bytes, self.end, text);
    }

    // Writes a number in decimal, which has at most 20 digits.
    pub fn push_decimal(&mut self, n: u64)
        ensures fits { length self.old + length (decimal n) ≤ N → self.new ≡ self.old ++ decimal n }
        ensures full { N < length self.old + length (decimal n) → self.new ≡ self.old }
        ensures short { length (decimal n) ≤ 20 }
    {
        self.end = add_decimal(&mut self.bytes, self.end, n);
    }

    // Writes bytes as two capital hex digits each, parted by single spaces: fewer than three codes a byte.
    pub fn push_hex(&mut self, bytes: &[u8])
        ensures fits { length self.old + length (parted bytes.now) ≤ N → self.new ≡ self.old ++ parted bytes.now }
        ensures full { N < length self.old + length (parted bytes.now) → self.new ≡ self.old }
        ensures short { length (parted bytes.now) ≤ 3 * length bytes.now }
    {
        self.end = add_hex(&mut self.bytes, self.end, bytes);
    }

    // The bytes that were written.
    pub fn as_bytes(&self) -> &[u8]
        ensures { result.now ≡ self.now }
    {
        &self.bytes[..self.end]
    }
}

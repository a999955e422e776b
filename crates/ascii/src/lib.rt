// Text as ASCII codes, written into a lent buffer behind an index. Each function writes its text whole and answers the index behind it;
// where the text does not fit there, the buffer stays as it is and the index comes back.
#![tactic(auto)]

ghost use Rattle.std.specs.Prelude.{◌≡◌, ◌+◌, ◌*◌, ◌/◌, ◌%◌, ◌≤◌, ◌<◌, length, set};
ghost use Rattle.ascii.specs.Text.{digit, parted, decimal, Adds};
ghost use Rattle.ascii.specs.Bench.{ExampleCodes};

pub mod line;

use itoa::Buffer;

// Writes a text.
pub fn add(out: &mut [u8], at: usize, text: &[u8]) -> usize
    ensures { Adds text.now at out.old result out.new }
{
    if out.len() < at || out.len() - at < text.len() {
        return at;
    }
    let end = at + text.len();
    out[at..end].copy_from_slice(text);
    end
}

// Writes a number in decimal, which has at most 20 digits.
pub fn add_decimal(out: &mut [u8], at: usize, n: u64) -> usize
    ensures { (Adds (decimal n) at out.old result out.new) × (length (decimal n) ≤ 20) }
{
    let mut digits = Buffer::new();
    add(out, at, digits.format(n).as_bytes())
}

// The code of a hex digit.
fn hex_digit(d: u8) -> u8
    requires { d < 16 }
    ensures { result ≡ digit d }
{
    if d < 10 { 48 + d } else { 55 + d }
}

// Writes a byte as two hex digits.
fn put_byte(out: &mut [u8], at: usize, b: u8)
    requires { at + 2 ≤ length out.old }
    ensures { out.new ≡ set (set out.old at (digit (b / 16))) (at + 1) (digit (b % 16)) }
{
    out[at] = hex_digit(b / 16);
    out[at + 1] = hex_digit(b % 16);
}

// Writes bytes in hex where they fit: all but the last with a space behind them.
fn put_hex(out: &mut [u8], at: usize, bytes: &[u8]) -> usize
    requires { at + 3 * length bytes.now ≤ length out.old + 1 }
    ensures { Adds (parted bytes.now) at out.old result out.new }
{
    let Some((last, before)) = bytes.split_last() else {
        return at;
    };
    let mut end = at;
    for byte in before {
        put_byte(out, end, *byte);
        out[end + 2] = b' ';
        end += 3;
    }
    put_byte(out, end, *last);
    end + 2
}

// Writes bytes as two capital hex digits each, parted by single spaces: fewer than three codes a byte. Its contract also keeps the
// example texts, which hold of the definitions.
pub fn add_hex(out: &mut [u8], at: usize, bytes: &[u8]) -> usize
    ensures { (Adds (parted bytes.now) at out.old result out.new) × (length (parted bytes.now) ≤ 3 * length bytes.now) × ExampleCodes }
{
    if out.len() < at {
        return at;
    }
    // n bytes take 3 n - 1 codes
    let room = out.len() - at;
    if (room + 1) / 3 < bytes.len() {
        return at;
    }
    put_hex(out, at, bytes)
}

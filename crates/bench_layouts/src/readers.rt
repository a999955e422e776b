// Requests that convert a number or read bytes. They answer `ok` and what was read, or `refused` and
// the refusal's number.
use crate::line::{AnswerLine, push_bytes, push_first, push_next, push_refusal, push_signed};
use crate::request::{Reading, address_at, from, one_at};
use mmc::order::Track;
use mmc::order_block::read_order;
use mmc::refusals::Refusal;
use mmc::reply_block::{Reply, read_reply};
use mmc::sheet::read_sheet;
use mmc::times::{Time, address_of, time_of};

// Answers `time`.
fn time_line(b: &[u8], line: &mut AnswerLine) -> Result<(), Refusal> {
    let time = time_of(address_at(b, 1))?;
    push_first(line, u64::from(time.minute));
    push_next(line, u64::from(time.second));
    push_next(line, u64::from(time.frame));
    Ok(())
}

// Answers `address`.
fn address_line(b: &[u8], line: &mut AnswerLine) -> Result<(), Refusal> {
    let address = address_of(Time {
        minute: one_at(b, 1),
        second: one_at(b, 2),
        frame: one_at(b, 3),
    })?;
    line.push(b"ok ");
    push_signed(line, address.0);
    Ok(())
}

// Writes a track: its kind and its length.
fn push_track(line: &mut AnswerLine, track: Track) {
    push_next(line, u64::from(u8::from(track.kind)));
    push_next(line, u64::from(track.length.0));
}

// Answers `order-read`: method, flags, count, the ordered tracks, recipe.
fn order_line(b: &[u8], line: &mut AnswerLine) -> Result<(), Refusal> {
    let order = read_order(from(b, 1))?;
    push_first(line, u64::from(u8::from(order.method)));
    push_next(line, u64::from(order.flags()));
    push_next(line, u64::from(order.count));
    for track in order.ordered() {
        push_track(line, *track);
    }
    push_next(line, u64::from(u8::from(order.recipe)));
    Ok(())
}

// Answers `reply-read`: the status and the data.
fn reply_line(b: &[u8], line: &mut AnswerLine) -> Result<(), Refusal> {
    match read_reply(from(b, 1))? {
        Reply::Good(bytes) => {
            line.push(b"ok 0 ");
            push_bytes(line, bytes);
        }
        Reply::Failed(bytes) => {
            line.push(b"ok 1 ");
            push_bytes(line, bytes);
        }
    }
    Ok(())
}

// Answers `sheet-read`: the kind, the count and the lengths.
fn sheet_line(b: &[u8], line: &mut AnswerLine) -> Result<(), Refusal> {
    let sheet = read_sheet(from(b, 1))?;
    push_first(line, u64::from(u8::from(sheet.kind)));
    push_next(line, u64::from(sheet.count));
    for length in sheet.lengths.iter().take(usize::from(sheet.count)) {
        push_next(line, u64::from(length.0));
    }
    Ok(())
}

// Answers a request to convert a number or to read bytes.
pub(crate) fn read_line(reading: Reading, b: &[u8], line: &mut AnswerLine) {
    let read = match reading {
        Reading::Time => time_line(b, line),
        Reading::Address => address_line(b, line),
        Reading::Order => order_line(b, line),
        Reading::Reply => reply_line(b, line),
        Reading::Sheet => sheet_line(b, line),
    };
    if let Err(refusal) = read {
        push_refusal(line, refusal);
    }
}

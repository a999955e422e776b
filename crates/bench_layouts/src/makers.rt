// Requests that make bytes in a lent buffer. They answer `ok`, or `refused` and the refusal's number,
// and the whole buffer, which was filled with A5h beforehand.
use crate::line::{AnswerLine, push_bytes, push_refusal};
use crate::request::{
    Form, MOST_BYTES, address_at, four_at, kind_at, lent_length, one_at, order_at, reply_at,
    set_at, two_at,
};
use mmc::commands;
use mmc::order_block::write_order;
use mmc::page::mode_data;
use mmc::refusals::Refusal;
use mmc::reply_block::write_reply;
use mmc::sheet::make_sheet;
use mmc::units::{BlockCount, TrackNumber};

// Makes a form from a request's arguments.
fn make(form: Form, b: &[u8], out: &mut [u8]) -> Result<usize, Refusal> {
    match form {
        Form::GetConfiguration => commands::get_configuration(out),
        Form::ReadDiscInformation => commands::read_disc_information(out),
        Form::ReadTrackInformation => commands::read_track_information(out),
        Form::ModeSelect => commands::mode_select(out),
        Form::SynchronizeCache => commands::synchronize_cache(set_at(b, 3), out),
        Form::SendCueSheet => commands::send_cue_sheet(four_at(b, 3) as usize, out),
        Form::Write => commands::write(address_at(b, 3), BlockCount(four_at(b, 11)), out),
        Form::CloseTrackSession => commands::close_track_session(
            set_at(b, 6),
            one_at(b, 3),
            TrackNumber(two_at(b, 4)),
            out,
        ),
        Form::Reply => write_reply(reply_at(b, 3), out),
        Form::Order => write_order(order_at(b, 3), out),
        Form::Page => mode_data(order_at(b, 3), kind_at(b, 502), out),
        Form::Sheet => make_sheet(order_at(b, 3), out),
        Form::TestUnitReady => commands::test_unit_ready(out),
        Form::RequestSense => commands::request_sense(out),
        Form::Blank => commands::blank(set_at(b, 3), out),
    }
}

// Answers a request to make a form.
pub(crate) fn made_line(form: Form, b: &[u8], line: &mut AnswerLine) {
    let mut space = [0xA5u8; MOST_BYTES];
    let lent = &mut space[..lent_length(b)];
    match make(form, b, lent) {
        Ok(_) => line.push(b"ok"),
        Err(refusal) => push_refusal(line, refusal),
    }
    line.push(b" ");
    push_bytes(line, lent);
}

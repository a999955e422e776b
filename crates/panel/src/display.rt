// What the panel shows of a recorder.
ghost use Rattle.std.specs.Prelude.{◌≡◌};
ghost use Rattle.recorder.specs.Job.{latest_progress};
ghost use Rattle.panel.specs.Bench.{ExamplePanels};
ghost use Rattle.panel.specs.Panel.{Displays, Fraction, ProgressBack};

use recorder::job::{Phase, Poll, Progress, Recorder};
use recorder::replies::Sense;
use std::num::truncating_f64_to_u64;

// One of four things: idle, busy with its fraction, finished, or stopped with its number. 12 has its triple beside it.
#[derive(Clone, Copy)]
pub enum Panel {
    Idle,
    Busy(f64),
    Finished,
    Stopped { number: u8, sense: Option<Sense> },
}

// The latest progress of a polling under way, else 0.
fn latest(s: Progress) -> u16
    ensures { result ≡ latest_progress s }
{
    match s.poll {
        Poll::Off => 0,
        Poll::Ready | Poll::Sense => s.seen.progress,
    }
}

// The fraction of a progress: a double below 1.
pub fn fraction(progress: u16) -> f64
    ensures { Fraction progress result }
{
    progress as f64 / 65536.0
}

// The progress back from its fraction: as a cast that drops what is behind the point and stops at the ends of 16 bits.
pub fn progress_of(x: f64) -> u16
    ensures { ProgressBack x result }
{
    let y = x * 65536.0;
    if y > -1.0 {
        if y < 65536.0 {
            return truncating_f64_to_u64(y) as u16;
        }
        return 65535;
    }
    0
}

// What the panel shows of a recorder: by how its job stands.
pub fn panel_of(r: Recorder) -> Panel
    ensures { (Displays r result) × ExamplePanels }
{
    match r.phase {
        Phase::Idle => Panel::Idle,
        Phase::Going => Panel::Busy(fraction(latest(r.progress))),
        Phase::Finished => Panel::Finished,
        Phase::Stopped(number) => Panel::Stopped {
            number,
            sense: None,
        },
        Phase::Failed(sense) => Panel::Stopped {
            number: 12,
            sense: Some(sense),
        },
    }
}

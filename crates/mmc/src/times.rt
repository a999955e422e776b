// Block addresses as minute, second and frame, and back: minutes 0 to 89 are the program area, minutes 90 to 99 the lead-in before it.
// The conversion adds, subtracts, compares and shifts, and does nothing else: the processor has no divide, and may have no multiply.
ghost use Rattle.std.specs.Prelude.{◌≡◌, true, ◌+◌, ◌*◌, ◌/◌, ◌%◌, ◌^◌, ◌<◌, ◌≤◌};
ghost use Rattle.mmc.specs.Times.{in_range, has_time, frames_to, address_at, time_frames, address_at_time, is_time, clock, time_at, frames_of, all_frames, GivesTime, GivesAddress};

use crate::refusals::Refusal;
use crate::units::{BlockAddress, FrameCount};

#[derive(Clone, Copy, Debug, PartialEq, Eq)]
pub struct Time {
    pub minute: u8,
    pub second: u8,
    pub frame: u8,
}

// The frames before address 0, which are the blocks of a pause.
pub const LEAD_FRAMES: i64 = 150;

// The first address of the program area, where the pause of a session at once starts: 00:00:00.
pub const FIRST_ADDRESS: i64 = -LEAD_FRAMES;

// The last address that has a time, also the last for a lead-out: 89:59:74.
pub const LAST_ADDRESS: i64 = 404849;

// The first address of the lead-in that has a time: 90:00:00.
const LEAD_IN_ADDRESS: i64 = -45150;

// From this minute on a time lies in the lead-in, so many frames ahead of its address.
const LEAD_IN_MINUTE: u8 = 90;

const LEAD_IN_FRAMES: i64 = 450150;

// Whether an address lies in the program area.
#[tactic(auto, unfolding(crate::specs::Times::in_range))]
pub(crate) fn in_range(a: BlockAddress) -> bool
    ensures { result ≡ in_range a }
{
    FIRST_ADDRESS <= a.0 && a.0 <= LAST_ADDRESS
}

// Whether an address has a time.
#[tactic(auto, unfolding(crate::specs::Times::has_time))]
fn has_time(a: BlockAddress) -> bool
    ensures { result ≡ has_time a }
{
    LEAD_IN_ADDRESS <= a.0 && a.0 <= LAST_ADDRESS
}

// The frames to an address of the program area.
#[tactic(auto, using(crate::proofs::times::Signed::frames), unfolding(crate::specs::Times::frames_to))]
fn frames_to(a: BlockAddress) -> FrameCount
    requires { in_range a ≡ true }
    ensures { result ≡ frames_to a }
{
    FrameCount((a.0 + LEAD_FRAMES) as u32)
}

// The address at a count of frames in the program area.
#[tactic(auto, unfolding(crate::specs::Times::address_at))]
fn address_at(f: FrameCount) -> BlockAddress
    ensures { result ≡ address_at f }
{
    BlockAddress(f.0 as i64 - LEAD_FRAMES)
}

// The time of an address in frames.
#[tactic(auto, using(crate::proofs::times::Signed::by_area))]
fn time_frames(a: BlockAddress) -> FrameCount
    requires { has_time a ≡ true }
    ensures { result ≡ time_frames a }
{
    if FIRST_ADDRESS <= a.0 {
        frames_to(a)
    } else {
        FrameCount((a.0 + LEAD_IN_FRAMES) as u32)
    }
}

// Three times a number.
fn three(x: u32) -> u32
    requires { x < 1048576 }
    ensures { result ≡ 3 * x }
{
    x + x + x
}

// Nine times a number.
fn nine(x: u32) -> u32
    requires { x < 262144 }
    ensures { result ≡ 9 * x }
{
    three(three(x))
}

// A count of frames in 512ths of a second: 13981 / 2048 of it, as 31 / 32 of 7 + 3 / 64. With 5 more, for what the shifts drop, it lies past
// the frame's start and before its end.
fn in_512ths(n: u32) -> u32
    requires { n < all_frames }
    ensures { (512 * n + 7 ≤ 75 * result) × (75 * result < 512 * n + 512) × (result / 512 ≡ n / 75) }
{
    let t = three(n);
    let x = n + t + t + (t >> 6) + 5;
    x - (x >> 5)
}

// A count of seconds in 256ths of a minute: 4369 / 1024 of it, as 257 / 256 of 4 + 1 / 4. With 3 more it lies within the second likewise.
fn in_256ths(n: u32) -> u32
    requires { n < 6000 }
    ensures { (256 * n ≤ 60 * result) × (60 * result < 256 * n + 256) × (result / 256 ≡ n / 60) }
{
    let x = n + n + n + n + (n >> 2);
    x + (x >> 8) + 3
}

// What lies past the last whole second or minute, in so many bits behind the point.
fn past(x: u32, bits: u32) -> u32
    requires { bits < 32 }
    ensures { result ≡ x % 2 ^ bits }
{
    x - ((x >> bits) << bits)
}

// The frame at so many 512ths of a second: 75 / 512 of them, as 1 / 64 of 9 + 3 / 8.
fn frame_at(part: u32) -> u32
    requires { part < 512 }
    ensures { result ≡ (9 * part + 3 * part / 8) / 64 }
{
    let t = three(part);
    (t + t + t + (t >> 3)) >> 6
}

// The second at so many 256ths of a minute: 60 / 256 of them, as 15 / 64.
fn second_at(part: u32) -> u32
    requires { part < 256 }
    ensures { result ≡ 60 * part / 256 }
{
    ((part << 4) - part) >> 6
}

// The seconds in a count of frames.
fn seconds_of(n: u32) -> u32
    requires { n < all_frames }
    ensures { result ≡ n / 75 }
{
    in_512ths(n) >> 9
}

// The frame that a count of frames leads to, past its whole seconds.
fn frame_of(n: u32) -> u8
    requires { n < all_frames }
    ensures { result ≡ n % 75 }
{
    frame_at(past(in_512ths(n), 9)) as u8
}

// The minutes in a count of seconds.
fn minute_of(n: u32) -> u8
    requires { n < 6000 }
    ensures { result ≡ n / 60 }
{
    (in_256ths(n) >> 8) as u8
}

// The second that a count of seconds leads to, past its whole minutes.
fn second_of(n: u32) -> u8
    requires { n < 6000 }
    ensures { result ≡ n % 60 }
{
    second_at(past(in_256ths(n), 8)) as u8
}

// A count of frames as a time.
fn clock_of(f: FrameCount) -> Time
    requires { f.0 < all_frames }
    ensures { result ≡ clock f }
{
    let s = seconds_of(f.0);
    Time {
        minute: minute_of(s),
        second: second_of(s),
        frame: frame_of(f.0),
    }
}

// The time of an address that has one.
#[tactic(auto, using(crate::proofs::times::Signed::few_frames))]
pub(crate) fn time_at(a: BlockAddress) -> Time
    requires { has_time a ≡ true }
    ensures { result ≡ time_at a }
{
    clock_of(time_frames(a))
}

// Whether minute, second and frame are a time.
#[tactic(auto, unfolding(crate::specs::Times::is_time))]
fn is_time(t: Time) -> bool
    ensures { result ≡ is_time t }
{
    t.minute <= 99 && (t.second <= 59 && t.frame <= 74)
}

// Minutes and seconds in frames: 72 and 3 a second, and a minute 72 times 63 less 36.
fn frames_before(minute: u8, second: u8) -> u32
    ensures { result ≡ (minute * 60 + second) * 75 }
{
    let m = minute as u32;
    let s = second as u32;
    let x = nine((m << 6) - m + s);
    let y = nine(m);
    (x << 3) - (y << 2) + three(s)
}

// Minutes, seconds and frames in frames.
fn in_frames(minute: u8, second: u8, frame: u8) -> u32
    ensures { result ≡ (minute * 60 + second) * 75 + frame }
{
    frames_before(minute, second) + (frame as u32)
}

// A time as a count of frames.
pub(crate) fn frames_of(t: Time) -> FrameCount
    ensures { result ≡ frames_of t }
{
    FrameCount(in_frames(t.minute, t.second, t.frame))
}

// The address of a time.
#[tactic(auto, unfolding(crate::specs::Times::address_at_time))]
fn address_at_time(t: Time) -> BlockAddress
    ensures { result ≡ address_at_time t }
{
    let f = frames_of(t);
    if LEAD_IN_MINUTE <= t.minute {
        BlockAddress(f.0 as i64 - LEAD_IN_FRAMES)
    } else {
        address_at(f)
    }
}

// The time of an address: 15 for one outside -45,150 to 404,849.
#[tactic(auto, using(crate::proofs::times::Laws::time_address), unfolding(crate::specs::Times::time_of))]
pub fn time_of(a: BlockAddress) -> Result<Time, Refusal>
    ensures { GivesTime a result }
{
    if has_time(a) {
        Ok(time_at(a))
    } else {
        Err(Refusal::OutOfRange)
    }
}

// The address of a time: 15 for what is no time.
#[tactic(auto, using(crate::proofs::times::Laws::address_time), unfolding(crate::specs::Times::address_of))]
pub fn address_of(t: Time) -> Result<BlockAddress, Refusal>
    ensures { GivesAddress t result }
{
    if is_time(t) {
        Ok(address_at_time(t))
    } else {
        Err(Refusal::OutOfRange)
    }
}

// The numbers that are kept apart: none of them can be handed over as another.

// A logical block address. Track 1 of a session at once starts at 0, its pause at -150.
#[derive(Clone, Copy)]
pub struct BlockAddress(pub i64);

// How many blocks: a track's length, a Transfer Length.
#[derive(Clone, Copy, Debug, PartialEq, Eq)]
pub struct BlockCount(pub u32);

// The sum of several lengths.
#[derive(Clone, Copy)]
pub struct BlockSum(pub u64);

// How many frames from time 00:00:00 on, 75 a second.
#[derive(Clone, Copy)]
pub struct FrameCount(pub u32);

// A track's number as a command or a cue sheet bears it.
#[derive(Clone, Copy)]
pub struct TrackNumber(pub u16);

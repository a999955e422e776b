// The numbers a refusal bears.
ghost use Rattle.std.specs.Prelude.{◌≡◌};
ghost use Rattle.mmc.specs.Refusals.{number_of};

// Why an input is refused.
#[derive(Clone, Copy, Debug, PartialEq, Eq)]
pub enum Refusal {
    BlockLength,
    BlockCheck,
    FieldValue,
    ReplyForm,
    Profile,
    DiscStatus,
    TrackInformation,
    MixedOrKept,
    ShortTrack,
    NoRoom,
    ShortBuffer,
    DriveFailed,
    JobEnded,
    NoCueSheet,
    OutOfRange,
    NotErasable,
    AudioInTao,
}

// The number that a refusal bears.
impl From<Refusal> for u8 {
    ghost from_gives = { λ r n. n ≡ number_of r };

    fn from(r: Refusal) -> u8 {
        match r {
            Refusal::BlockLength => 1,
            Refusal::BlockCheck => 2,
            Refusal::FieldValue => 3,
            Refusal::ReplyForm => 4,
            Refusal::Profile => 5,
            Refusal::DiscStatus => 6,
            Refusal::TrackInformation => 7,
            Refusal::MixedOrKept => 8,
            Refusal::ShortTrack => 9,
            Refusal::NoRoom => 10,
            Refusal::ShortBuffer => 11,
            Refusal::DriveFailed => 12,
            Refusal::JobEnded => 13,
            Refusal::NoCueSheet => 14,
            Refusal::OutOfRange => 15,
            Refusal::NotErasable => 16,
            Refusal::AudioInTao => 24,
        }
    }
}

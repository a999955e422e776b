// The numbers a refusal bears.
ghost use Rattle.std.specs.Prelude.{◌≡◌};
ghost use Rattle.cdtext.specs.Refusals.{number_of};

// Why an input is refused.
#[derive(Clone, Copy, Debug, PartialEq, Eq)]
pub enum Refusal {
    ShortBuffer,
    TitleNotAllowed,
    NoPacks,
    TooManyPacks,
}

// The number that a refusal bears.
impl From<Refusal> for u8 {
    ghost from_gives = { λ r n. n ≡ number_of r };

    fn from(r: Refusal) -> u8 {
        match r {
            Refusal::ShortBuffer => 11,
            Refusal::TitleNotAllowed => 17,
            Refusal::NoPacks => 18,
            Refusal::TooManyPacks => 19,
        }
    }
}

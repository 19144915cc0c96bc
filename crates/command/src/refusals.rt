// The refusals by their numbers.
ghost use Rattle.std.specs.Prelude.{◌≡◌};
ghost use Rattle.command.specs.View.{refusal_of};
ghost use Rattle.command.specs.Numbered.{number_of};

use crate::Refusal;

// The number of a refusal.
impl From<Refusal> for usize {
    ghost from_gives = { λ why n. n ≡ number_of (refusal_of why) };

    #[tactic(auto, unfolding(crate::specs::Numbered::number_of, crate::specs::Numbered::first, crate::specs::View::refusal_of, paper::specs::Refusal::figures))]
    fn from(why: Refusal) -> usize {
        match why {
            Refusal::TooLong => 1,
            Refusal::ControlByte => 2,
            Refusal::NotNow => 3,
            Refusal::Unknown => 4,
            Refusal::Malformed => 5,
            Refusal::OutOfRange => 6,
            Refusal::Overfull => 7,
            Refusal::IsSpoiled => 8,
            Refusal::Unsound { line: _ } => 9,
            Refusal::NameTaken => 10,
            Refusal::NoRoom => 11,
            Refusal::Absent => 12,
            Refusal::Unfit => 13,
            Refusal::Overrun => 14,
            Refusal::TooShort => 15,
            Refusal::NotPrinting => 16,
            Refusal::OthersCollect => 17,
            Refusal::NoTablet => 18,
            Refusal::HeldOpen => 19,
        }
    }
}

// The refusals as values of one type, for code that decides; what a customer's call gives back is a refusal's number, 0 where there is none.

ghost use Rattle.std.specs.Prelude.{◌≡◌};
ghost use Rattle.rules.specs.Told.{refusal_number, told as told_of};

// 01, "Numbers that calls give back", in the order of the numbers.
#[derive(Clone, Copy, Debug, PartialEq, Eq)]
pub enum Refusal {
    OutsideLimits,
    TooEarly,
    NotThere,
    IdTaken,
    IsClosing,
    Unchanged,
    SecondEvent,
    NotAtSlot,
    NoLanes,
    WrongRows,
    Malformed,
    OutOfTurn,
    BelowFloor,
    AboveCap,
    FloorAboveCap,
    TooSoon,
    DoorsUnchanged,
    PastClock,
    IsSteady,
}

impl Refusal {
    // The number that a customer's call gives back for a refusal.
    pub fn number(self) -> u8
        ensures { result ≡ refusal_number self }
    {
        match self {
            Refusal::OutsideLimits => crate::OUTSIDE_LIMITS,
            Refusal::TooEarly => crate::TOO_EARLY,
            Refusal::NotThere => crate::NOT_THERE,
            Refusal::IdTaken => crate::ID_TAKEN,
            Refusal::IsClosing => crate::IS_CLOSING,
            Refusal::Unchanged => crate::UNCHANGED,
            Refusal::SecondEvent => crate::SECOND_EVENT,
            Refusal::NotAtSlot => crate::NOT_AT_SLOT,
            Refusal::NoLanes => crate::NO_LANES,
            Refusal::WrongRows => crate::WRONG_ROWS,
            Refusal::Malformed => crate::MALFORMED,
            Refusal::OutOfTurn => crate::OUT_OF_TURN,
            Refusal::BelowFloor => crate::BELOW_FLOOR,
            Refusal::AboveCap => crate::ABOVE_CAP,
            Refusal::FloorAboveCap => crate::FLOOR_ABOVE_CAP,
            Refusal::TooSoon => crate::TOO_SOON,
            Refusal::DoorsUnchanged => crate::DOORS_UNCHANGED,
            Refusal::PastClock => crate::PAST_CLOCK,
            Refusal::IsSteady => crate::IS_STEADY,
        }
    }
}

// What a customer's call gives back of an answer: 0, or the number of the refusal.
pub fn told(answer: Result<(), Refusal>) -> u8
    ensures { result ≡ told_of answer }
{
    match answer {
        Ok(()) => crate::DONE,
        Err(refusal) => refusal.number(),
    }
}

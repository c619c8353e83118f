// Document 01's numbers of refusals ("What is refused"), and of what a call answers.
#![tactic(auto)]

ghost use Rattle.std.specs.Prelude.{◌≡◌};
ghost use Rattle.meaning.specs.Refusals.{number_of};
ghost use Rattle.answers.specs.Answers.{answer_number};

use meaning::Refusal;

// Document 01's number of a refusal.
// Stays: no plainer as From, which only `meaning`, the crate of the enum, could give, and that has no code.
#[tactic(auto, unfolding(meaning::specs::Refusals::number_of))]
pub fn number(why: Refusal) -> u64
    ensures { result ≡ number_of why }
{
    match why {
        Refusal::CutShort => 1,
        Refusal::UnknownTag => 2,
        Refusal::WrongLength => 3,
        Refusal::OutOfTurn => 4,
        Refusal::OutOfRange => 5,
        Refusal::Overlap => 6,
        Refusal::Full => 7,
        Refusal::IdHeld => 8,
        Refusal::NotHeld => 9,
        Refusal::NoFreeCell => 10,
        Refusal::NoRoom => 11,
        Refusal::Endless => 12,
        Refusal::Late { bound } => 13,
        Refusal::OverHorizon => 14,
    }
}

// Document 01's number of an answer: 0 where the call is accepted.
#[tactic(auto, unfolding(crate::specs::Answers::answer_number))]
pub fn number_of_answer<T>(answer: &Result<T, Refusal>) -> u64
    ensures { result ≡ answer_number answer.now }
{
    match answer {
        Ok(_) => 0,
        Err(why) => number(*why),
    }
}

// The values beside the number of an answer, 0 where there is none.
ghost use Rattle.std.specs.Prelude.{◌≡◌};
ghost use Rattle.meaning.specs.Refusals.{values_of};
ghost use Rattle.answers.specs.Answers.{answer_values};
ghost use Rattle.face.specs.Told.{the_one};

use meaning::Refusal;

// The bound that goes with a refusal: a late stream's.
fn bound_of(why: Refusal) -> u32
    ensures { result ≡ the_one (values_of why) }
{
    match why {
        Refusal::Late { bound } => bound,
        _ => 0,
    }
}

// The figure asked for, or the bound of a late stream.
#[tactic(auto, unfolding(answers::specs::Answers::answer_values, crate::specs::Told::the_one))]
pub fn figure_value(answer: Result<u64, Refusal>) -> u64
    ensures { result ≡ the_one (answer_values answer) }
{
    match answer {
        Ok(x) => x,
        Err(why) => u64::from(bound_of(why)),
    }
}

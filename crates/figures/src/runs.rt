ghost use Rattle.std.specs.Prelude.{◌≡◌, [], ◌∷◌, Some, Ok};
ghost use Rattle.network.specs.Lists.{member};
ghost use Rattle.forest.specs.Order.{run_over};
ghost use Rattle.plan.specs.Questions.{RunIs};
ghost use Rattle.figures.specs.Grades.{copper, fibre, metres, plain, by_length, shorter};
ghost use Rattle.figures.specs.Rigs.{example_sheet};

use crate::rigs::{closed_over, example_sheet};
use forest::grade::Metres;
use forest::yardstick::{Length, Plain};
use network::cable::Run;
use network::refusal::Refusal;

/// A fibre of 300 m joins 10 and 13, and by the plain yardstick it is better than any copper way round.
pub fn fibre_between() -> Result<Option<Run>, Refusal>
    ensures figure { RunIs run_over plain example_sheet (member (10 ∷ 13 ∷ [])) (Some (fibre 300)) }
    ensures answer { result ≡ Ok (Some (fibre 300)) }
{
    closed_over(example_sheet()).run(&[10, 13], &Plain)
}

/// By length the way round is better: its cables have 20 m each.
pub fn shorter_round() -> Result<Option<Metres>, Refusal>
    ensures figure { RunIs shorter by_length example_sheet (member (10 ∷ 13 ∷ [])) (Some (metres 20)) }
    ensures answer { result ≡ Ok (Some (metres 20)) }
{
    closed_over(example_sheet()).run(&[10, 13], &Length)
}

/// Device 11 has copper cables only.
pub fn copper_only() -> Result<Option<Run>, Refusal>
    ensures figure { RunIs run_over plain example_sheet (member (11 ∷ 13 ∷ [])) (Some (copper 20)) }
    ensures answer { result ≡ Ok (Some (copper 20)) }
{
    closed_over(example_sheet()).run(&[11, 13], &Plain)
}

ghost use Rattle.std.specs.Prelude.{◌≡◌, [], ◌∷◌, Ok, Err};
ghost use Rattle.network.specs.declared.refusal.Refusal.TheVariants.{PartLeadsOut, PartHoldsList};
ghost use Rattle.plan.specs.Judging.{part_of, Verdict};
ghost use Rattle.figures.specs.CutSheets.{one_part, twenty_alone};
ghost use Rattle.figures.specs.Rigs.{example_sheet};

use crate::rigs::{closed_over, example_sheet};
use network::refusal::Refusal;

// A cut sheet with device 20 in part 1 and the rest in part 0.
fn twenty_alone() -> [u8; 128]
    ensures { result ≡ twenty_alone }
{
    let mut sheet = [0; 128];
    sheet[20] = 1;
    sheet
}

/// Device 20 hangs on one cable: a sheet that puts it in a part of its own is good at 1.
pub fn accepted_at_one() -> Result<(), Refusal>
    ensures figure { Verdict example_sheet (20 ∷ []) 1 (part_of twenty_alone) result }
    ensures answer { result ≡ Ok tt }
{
    closed_over(example_sheet()).judge(&[20], 1, &twenty_alone())
}

/// The same sheet claims too little at 0.
pub fn refused_at_none() -> Result<(), Refusal>
    ensures figure { Verdict example_sheet (20 ∷ []) 0 (part_of twenty_alone) result }
    ensures answer { result ≡ Err PartLeadsOut }
{
    closed_over(example_sheet()).judge(&[20], 0, &twenty_alone())
}

/// With all devices in one part the sheet says nothing.
pub fn refused_in_one_part() -> Result<(), Refusal>
    ensures figure { Verdict example_sheet (20 ∷ []) 1 (part_of one_part) result }
    ensures answer { result ≡ Err PartHoldsList }
{
    closed_over(example_sheet()).judge(&[20], 1, &[0; 128])
}

ghost use Rattle.std.specs.Prelude.{replicate};
ghost use Rattle.plan.specs.Questions.{StrengthAnswer, GroupAnswer};
ghost use Rattle.plan.specs.Tables.{closed_cables};

use houses::house::House;
use network::refusal::Refusal;
use plan::plan::Closed;

/// What a plan tells of a list: its strength, and its group with the 128 bytes that mark it.
#[derive(Drop)]
pub struct Told {
    pub strength: Result<Option<u16>, Refusal>,
    pub group: Result<Option<(u16, u8)>, Refusal>,
    // The buffer that the answer was written to, as every caller of a plan has one.
    pub bytes: [u8; 128],
}

// Asks a plan for both.
pub(crate) fn ask<H: House>(plan: &Closed<H>, list: &[u8]) -> Told
    ensures strength { StrengthAnswer (closed_cables plan.now) list.now result.strength }
    ensures group { GroupAnswer (closed_cables plan.now) list.now (replicate 128 0) result.group result.bytes }
{
    let strength = plan.strength(list);
    let mut bytes = [0; 128];
    let group = plan.group(list, &mut bytes);
    Told {
        strength,
        group,
        bytes,
    }
}

ghost use Rattle.std.specs.Prelude.{[], ◌∷◌, ◌++◌};
ghost use Rattle.figures.specs.Rigs.{two_cliques, bridge, first_clique, both_cliques};
ghost use Rattle.figures.specs.Tells.{Tells};

use crate::rigs::{PATCH, begin_over, two_cliques};
use crate::told::{Told, ask};

const DRUM: u16 = 7;

/// What a plan of two cliques tells over its life: of two devices of the first clique, and of one of each.
#[derive(Drop)]
pub struct Life {
    pub within: Told,
    pub across: Told,
    pub bridged: Told,
    pub within_again: Told,
    pub across_again: Told,
}

/// Two cliques of four with two cables between them: 0 and 1 have strength 3, and their group is their clique; 0 and 4 have
/// strength 2, and their group is all eight. With a third cable between the cliques the group of 0 and 1 is all eight. When
/// that cable is lifted, the first figures return.
pub fn two_cliques_bridged() -> Life
    ensures within { Tells two_cliques (0 ∷ 1 ∷ []) result.within 3 first_clique }
    ensures across { Tells two_cliques (0 ∷ 4 ∷ []) result.across 2 both_cliques }
    ensures bridged { Tells (two_cliques ++ bridge ∷ []) (0 ∷ 1 ∷ []) result.bridged 3 both_cliques }
    ensures within_again { Tells two_cliques (0 ∷ 1 ∷ []) result.within_again 3 first_clique }
    ensures across_again { Tells two_cliques (0 ∷ 4 ∷ []) result.across_again 2 both_cliques }
{
    let plan = begin_over(two_cliques()).close();
    let within = ask(&plan, &[0, 1]);
    let across = ask(&plan, &[0, 4]);
    let mut open = plan.reopen();
    let _ = open.lay(DRUM, 2, 6, PATCH);
    let plan = open.close();
    let bridged = ask(&plan, &[0, 1]);
    let mut open = plan.reopen();
    let _ = open.lift(DRUM);
    let plan = open.close();
    let within_again = ask(&plan, &[0, 1]);
    let across_again = ask(&plan, &[0, 4]);
    Life {
        within,
        across,
        bridged,
        within_again,
        across_again,
    }
}

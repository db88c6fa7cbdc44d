ghost use Rattle.std.specs.Prelude.{◌≡◌, [], ◌∷◌, None, Ok};
ghost use Rattle.network.specs.Lists.{ListStrength};
ghost use Rattle.figures.specs.Rigs.{two_between, triangle_and_tail, three_ways};
ghost use Rattle.figures.specs.Tells.{Tells};

use crate::rigs::{closed_over, three_ways, triangle_and_tail, two_between};
use crate::told::{Told, ask};
use network::refusal::Refusal;

/// With no cable, a device is apart.
pub fn uncabled() -> Result<Option<u16>, Refusal>
    ensures apart { ListStrength [] (5 ∷ []) 0 }
    ensures answer { result ≡ Ok None }
{
    closed_over(&[]).strength(&[5])
}

/// Two cables between the same two devices: strength 2.
pub fn doubled() -> Told
    ensures { Tells two_between (4 ∷ 5 ∷ []) result 2 (4 ∷ 5 ∷ []) }
{
    ask(&closed_over(two_between()), &[4, 5])
}

/// A triangle of 0, 1 and 2, and 3 cabled to 0: 3 hangs on one cable, and its group is all four.
pub fn tail_end() -> Told
    ensures { Tells triangle_and_tail (3 ∷ []) result 1 (0 ∷ 1 ∷ 2 ∷ 3 ∷ []) }
{
    ask(&closed_over(triangle_and_tail()), &[3])
}

/// In the same rig 0 has strength 2, and its group is the triangle.
pub fn triangle() -> Told
    ensures { Tells triangle_and_tail (0 ∷ []) result 2 (0 ∷ 1 ∷ 2 ∷ []) }
{
    ask(&closed_over(triangle_and_tail()), &[0])
}

/// 0 and 1 each cabled to 2, 3 and 4: three separate ways, and strength 2, since each device on a way hangs on two cables.
pub fn three_separate_ways() -> Told
    ensures { Tells three_ways (0 ∷ 1 ∷ []) result 2 (0 ∷ 1 ∷ 2 ∷ 3 ∷ 4 ∷ []) }
{
    ask(&closed_over(three_ways()), &[0, 1])
}

ghost use Rattle.std.specs.Prelude.{◌≡◌, [], ◌∷◌, Some, None, Ok};
ghost use Rattle.figures.specs.Rigs.{patch};

use crate::rigs::PATCH;
use houses::house::House;
use houses::ring::Ring;
use network::cable::Cable;
use network::refusal::Refusal;

/// A ring of three devices from 126 on goes on from 127 to 0, and back to 126. There is no fourth cable.
pub fn past_the_last() -> Result<[Option<Cable>; 4], Refusal>
    ensures { result ≡ Ok (Some (patch 126 127) ∷ Some (patch 127 0) ∷ Some (patch 0 126) ∷ None ∷ []) }
{
    let ring = Ring::new(126, 3, PATCH)?;
    Ok([ring.cable(0), ring.cable(1), ring.cable(2), ring.cable(3)])
}

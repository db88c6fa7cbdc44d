ghost use Rattle.std.specs.Prelude.{◌≤◌, length};
ghost use Rattle.network.specs.Cables.{Lawful};

use arrayvec::ArrayVec;
use network::cable::Cable;

mod calls;

// No `impl Model`: laws of the crates above read the invariants of a rig, which a model hides.

/// The cables of a plan in their order: at most 512, all lawful.
#[derive(Drop)]
pub struct Rig {
    cables: ArrayVec<Cable, 512>,
    ghost few: { length cables.items ≤ 512 },
    ghost lawful: { Lawful cables.items },
}

/// Why a cable was not put into a rig.
#[derive(Clone, Copy, PartialEq, Eq, Debug)]
pub enum Unfit {
    /// Its ends are not two different devices, or its run is out of range.
    Unlawful,
    /// There are 512 cables already.
    Full,
}

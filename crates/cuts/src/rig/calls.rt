ghost use Rattle.std.specs.Prelude.{◌≡◌, [], length};
ghost use Rattle.std.specs.List.{slice_get};
ghost use Rattle.cuts.specs.Rigs.{rig_cables, Pushed};

use crate::rig::{Rig, Unfit};
use arrayvec::ArrayVec;
use network::cable::Cable;

impl Rig {
    /// A rig of no cables.
    pub fn empty() -> Rig
        ensures { rig_cables result ≡ [] }
    {
        Rig {
            cables: ArrayVec::new(),
        }
    }

    /// Puts a lawful cable after the others. The rig stays as it is for an unlawful cable, and where there are 512 already.
    pub fn push(&mut self, cable: Cable) -> Result<(), Unfit>
        ensures { Pushed (rig_cables self.old) cable (rig_cables self.new) result }
    {
        cable.check().map_err(|_| Unfit::Unlawful)?;
        self.cables.try_push(cable).map_err(|_| Unfit::Full)
    }

    /// How many cables there are.
    pub fn len(&self) -> u16
        ensures { result ≡ length (rig_cables self.now) }
    {
        self.cables.len() as u16
    }

    /// The cables in their order.
    pub fn cables(&self) -> &[Cable]
        ensures { result.now ≡ rig_cables self.now }
    {
        self.cables.as_slice()
    }

    /// The cable at a place, counted from 0.
    pub fn get(&self, place: u16) -> Option<Cable>
        ensures { result ≡ slice_get (rig_cables self.now) place }
    {
        self.cables().get(place as usize).copied()
    }
}

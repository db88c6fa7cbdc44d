ghost use Rattle.std.specs.Prelude.{◌≡◌, ◌+◌, ◌<◌, List, length};
ghost use Rattle.network.specs.declared.cable.Cable.{Cable};
ghost use Rattle.network.specs.Sets.{crosses};
ghost use Rattle.cuts.specs.Finding.{Finds};
ghost use Rattle.cuts.specs.Members.{set_of};
ghost use Rattle.cuts.specs.Rigs.{rig_cables};
ghost use Rattle.marks.specs.Shedding.{inside, Marking};
ghost use Rattle.marks.specs.State.{number, Holds, SplitUp};

use crate::parts::Parts;
use crate::{move_side, one_part};
use cuts::devices::Devices;
use cuts::finder::{Cut, Finder};
use cuts::labels::labelled;
use cuts::rig::Rig;
use network::cable::Cable;

// Whether the cable joins the side to the rest of the set.
fn joins_sides(c: Cable, set: &Devices, side: &Devices) -> bool
    ensures { result ≡ crosses (set_of set.now) (set_of side.now) c }
{
    set.has(c.a) && set.has(c.b) && side.has(c.a) != side.has(c.b)
}

// The cables between the two sides of the set are marked m.
fn stamp(marks: &mut [u16; 512], rig: &Rig, set: &Devices, side: &Devices, m: u16)
    ensures marking { Marking (rig_cables rig.now) (set_of set.now) m (set_of side.now) (number marks.old) (number marks.new) }
    ensures long { length marks.new ≡ 512 }
{
    // Each mark is set by its place: a proof knows nothing of what a loop over `marks.iter_mut().zip(..)` has written.
    for (i, cable) in rig.cables().iter().enumerate() {
        if joins_sides(*cable, set, side) {
            marks[i] = m;
        }
    }
}

impl Parts {
    /// All devices in part 0, with no floor and no marks.
    pub fn whole() -> Parts
        ensures { (cs : List Cable) → SplitUp cs result 0 }
    {
        Parts {
            count: 1,
            part: one_part(),
            floor: [0; 128],
            marks: [0; 512],
        }
    }

    /// Splits part p until it is a single device.
    pub fn split_up<F: Finder>(&mut self, finder: &F, rig: &Rig, p: u8)
        requires low { p < 128 }
        requires split { SplitUp (rig_cables rig.now) self.old p }
        ensures { SplitUp (rig_cables rig.now) self.new (p + 1) }
    {
        let mut set = labelled(&self.part, p);
        while let Some(cut) = finder.find(rig, &set, self.floor[p as usize]) {
            self.shed(rig, p, &set, &cut);
            set = labelled(&self.part, p);
        }
    }

    // A cut of part p, whose devices are the set: those on the cut's side become a part of their own. The cables across get its crossings
    // as their mark, or the floor of part p if that is higher, and the two parts get the same as their floor.
    fn shed(&mut self, rig: &Rig, p: u8, set: &Devices, cut: &Cut)
        requires low { p < 128 }
        requires split { SplitUp (rig_cables rig.now) self.old p }
        requires set { Holds (number self.old.part) p (set_of set.now) }
        requires found { Finds (rig_cables rig.now) (inside (number self.old.part) p) (number self.old.floor p) cut.now.crossings (set_of cut.now.side) }
        ensures split { SplitUp (rig_cables rig.now) self.new p }
        ensures more { self.new.count ≡ self.old.count + 1 }
    {
        let low = self.floor[p as usize];
        let m = low.max(cut.crossings);
        stamp(&mut self.marks, rig, set, &cut.side, m);
        move_side(&mut self.part, &cut.side, p, self.count);
        self.floor[p as usize] = m;
        self.floor[self.count as usize] = m;
        self.count += 1;
    }
}

// Rigs, gathered from houses and from records that hold a cable.
ghost use Rattle.std.specs.Prelude.{◌≡◌, ◌+◌, ◌≤◌, ◌++◌, map, length};
ghost use Rattle.network.specs.Cables.{Lawful};
ghost use Rattle.network.specs.declared.cable.Cable.{Cable as Wire};
ghost use Rattle.cuts.specs.Rigs.{rig_cables};

use cuts::rig::Rig;
use houses::house::House;
use network::cable::{Cable, MarkedCable, TourCable};

// A trait of the two, and no iterator of cables as a parameter: its clauses would have to say what the iterator gives.

/// A record that holds a cable.
pub(crate) trait Record {
    ghost held: { Self → Wire };

    fn cable(&self) -> Cable
        ensures { result ≡ held self.now };
}

impl Record for TourCable {
    ghost held = { λ r. r.cable };

    fn cable(&self) -> Cable {
        self.cable
    }
}

impl Record for MarkedCable {
    ghost held = { λ r. r.cable };

    fn cable(&self) -> Cable {
        self.cable
    }
}

/// The house's cables by place.
pub(crate) fn house_rig<H: House>(house: &H) -> Rig
    ensures { rig_cables result ≡ H.House.cables house.now }
{
    let mut rig = Rig::empty();
    while let Some(cable) = house.cable(rig.len()) {
        let _ = rig.push(cable);
    }
    rig
}

/// Puts the cables of the records behind those of the rig.
pub(crate) fn add_all<R: Record>(rig: &mut Rig, records: &[R])
    requires room { length (rig_cables rig.old) + length records.now ≤ 512 }
    requires lawful { Lawful (map R.Record.held records.now) }
    ensures { rig_cables rig.new ≡ rig_cables rig.old ++ map R.Record.held records.now }
{
    for record in records {
        let _ = rig.push(record.cable());
    }
}

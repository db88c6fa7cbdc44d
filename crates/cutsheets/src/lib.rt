// The cut sheet of a list of devices: sides without listed devices are shed from a core, cut after cut, until a cut parts the list.
#![tactic(auto)]

ghost use Rattle.std.specs.Prelude.{◌≡◌, ℕ, ◌<◌, true, not, List, length, Decides};
ghost use Rattle.network.specs.Lists.{member, ListStrength};
ghost use Rattle.network.specs.Sheets.{GoodSheet};
ghost use Rattle.cuts.specs.Members.{set_of};
ghost use Rattle.cuts.specs.Rigs.{rig_cables};
ghost use Rattle.marks.specs.State.{number};
ghost use Rattle.cutsheets.specs.Listing.{Names, Meets, Facing};

use cuts::devices::Devices;
use cuts::finder::Finder;
use cuts::labels::labelled;
use cuts::rig::Rig;
use marks::move_side;

// The strength is 0 for apart, and no `Option`: a sheet is good at 0 too. The desk has a struct like it, of what is told and not of what was found.

/// A cut sheet, as the part of each device, and the strength that it shows.
#[derive(Clone, Copy)]
pub struct OwnSheet {
    pub parts: [u8; 128],
    pub strength: u16,
}

// Whether some listed device is on the side.
fn meets(devices: &Devices, side: &Devices) -> bool
    ensures { Decides result (Meets (set_of devices.now) (set_of side.now)) }
{
    devices
        .flags()
        .iter()
        .zip(side.flags())
        .any(|(listed, on)| *listed && *on)
}

// The devices that are not on the side.
fn opposite(side: &Devices) -> Devices
    ensures { (d : ℕ) → d < 128 → set_of result d ≡ not (set_of side.now d) }
{
    let mut others = [false; 128];
    // Each flag is set by its device: an array's `map` takes thirty times as long.
    for (d, on) in side.flags().iter().enumerate() {
        others[d] = !*on;
    }
    Devices::from_flags(others)
}

// The side, or the other one where no listed device is on it.
fn facing(devices: &Devices, side: Devices) -> Devices
    ensures { Facing (set_of devices.now) (set_of side) (set_of result) }
{
    if meets(devices, &side) {
        side
    } else {
        opposite(&side)
    }
}

/// The cut sheet of the listed devices, with their strength. The core, which has all of them, is cut; the side without a listed
/// device is left behind as a part, and the other is the next core. A cut that parts the list, or a core of one device, ends the
/// sheet. There are at most 127 cuts.
pub fn own_sheet<F: Finder>(finder: &F, rig: &Rig, devices: &Devices) -> OwnSheet
    ensures strength { (l : List ℕ) → Names l (set_of devices.now) → (x : ℕ) → member l x ≡ true → ListStrength (rig_cables rig.now) l result.strength }
    ensures good { (l : List ℕ) → Names l (set_of devices.now) → (x : ℕ) → member l x ≡ true → GoodSheet (rig_cables rig.now) l result.strength (number result.parts) }
    ensures low { (d : ℕ) → d < 128 → number result.parts d < 128 }
    ensures long { length result.parts ≡ 128 }
{
    let mut sheet = OwnSheet {
        parts: [0; 128],
        strength: 0,
    };
    for core in 0..128u8 {
        let all = labelled(&sheet.parts, core);
        let Some(cut) = finder.find(rig, &all, sheet.strength) else {
            break;
        };
        sheet.strength = sheet.strength.max(cut.crossings);
        let near = facing(devices, cut.side);
        let far = opposite(&near);
        move_side(&mut sheet.parts, &near, core, core + 1);
        if meets(devices, &far) {
            break;
        }
    }
    sheet
}

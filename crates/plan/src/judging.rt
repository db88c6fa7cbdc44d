// How a cut sheet is judged.
ghost use Rattle.std.specs.Prelude.{◌≡◌, ℕ, ◌<◌, true, false, List, MatchResult, ◌≢◌};
ghost use Rattle.cuts.specs.Members.{set_of};
ghost use Rattle.network.specs.Cables.{LawfulCable};
ghost use Rattle.network.specs.Sheets.{leads_up, Lone};
ghost use Rattle.network.specs.declared.refusal.Refusal.TheVariants.{BadCutSheet};
ghost use Rattle.forest.specs.Labels.{Tells};
ghost use Rattle.plan.specs.Tests.{ill_formed};
ghost use Rattle.plan.specs.Tables.{table_cables};
ghost use Rattle.cutsheets.specs.Listing.{Names};
ghost use Rattle.plan.specs.Judging.{part_of, Small, FirstFault};

use crate::list::any_out_of_range;
use crate::table::Table;
use cuts::devices::Devices;
use network::cable::Cable;
use network::refusal::Refusal;

/// The parts that a cut sheet tells. Refused where it is not 128 bytes, or one of them is above 127.
pub(crate) fn parts_told(sheet: &[u8]) -> Result<&[u8; 128], Refusal>
    ensures { MatchResult result (λ parts. (ill_formed sheet.now ≡ false) × (parts.now ≡ sheet.now)) (λ e. (ill_formed sheet.now ≡ true) × (e ≡ BadCutSheet)) }
{
    let parts = <&[u8; 128]>::try_from(sheet).map_err(|_| Refusal::BadCutSheet)?;
    if any_out_of_range(sheet) {
        return Err(Refusal::BadCutSheet);
    }
    Ok(parts)
}

// Parts and a part, here and below, and no struct of them: a part is a number that the judge goes through, and no part of a sheet.

/// Whether the cable joins the part and a part with a higher number.
fn leads_out(cable: Cable, parts: &[u8; 128], part: u8) -> bool
    requires { LawfulCable cable }
    ensures { result ≡ leads_up (part_of parts.now) part cable }
{
    let a = parts[cable.a as usize];
    let b = parts[cable.b as usize];
    (a == part && part < b) || (b == part && part < a)
}

/// Whether a listed device is in another part.
fn lacks(devices: &Devices, parts: &[u8; 128], part: u8) -> bool
    ensures { Tells result ((d : ℕ) × (set_of devices.now d ≡ true) × (part_of parts.now d ≢ part)) }
{
    devices
        .flags()
        .iter()
        .zip(parts)
        .any(|(listed, of)| *listed && *of != part)
}

/// Whether the part has one device at most.
fn is_lone(parts: &[u8; 128], part: u8) -> bool
    ensures { Tells result (Lone (part_of parts.now) part) }
{
    parts.iter().filter(|of| **of == part).count() <= 1
}

/// Whether the part lacks a listed device, or has one device at most.
fn is_small(devices: &Devices, parts: &[u8; 128], part: u8) -> bool
    ensures { (l : List ℕ) → Names l (set_of devices.now) → Tells result (Small l (part_of parts.now) part) }
{
    lacks(devices, parts, part) || is_lone(parts, part)
}

/// The fault of the lowest part that has one: it leads out by more than `k` cables, or else it is several devices and holds the whole
/// list. It costs one look at each cable for each part.
pub(crate) fn first_fault(
    table: &Table,
    devices: &Devices,
    k: u16,
    parts: &[u8; 128],
) -> Option<Refusal>
    ensures { (l : List ℕ) → Names l (set_of devices.now) → FirstFault (table_cables table.now) l k (part_of parts.now) result }
{
    // A `loop` that breaks with the fault, with the cables that lead out counted inside: the form in which a judge is wanted. An `Option`,
    // and no `Result`: a fault or none is what `FirstFault` speaks of, and `judge` makes the refusal of it.
    let mut part: u8 = 0;
    loop {
        if part > 127 {
            break None;
        }
        let mut leading: u16 = 0;
        for row in table.rows() {
            if leads_out(row.cable, parts, part) {
                leading += 1;
            }
        }
        if leading > k {
            break Some(Refusal::PartLeadsOut);
        }
        if !is_small(devices, parts, part) {
            break Some(Refusal::PartHoldsList);
        }
        part += 1;
    }
}

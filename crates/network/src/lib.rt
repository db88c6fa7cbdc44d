// Devices, cables and refusals, and what the strength of a set of devices is.
#![tactic(auto)]

ghost use Rattle.std.specs.Prelude.{◌≡◌, ◌++◌, Some, codes, decimal};
ghost use Rattle.network.specs.Cables.{above, fit_run};
ghost use Rattle.network.specs.Laws.{OneStrength, NoneStronger, OneGroup, UnionTied, TiedHolds, StrengthParts};
ghost use Rattle.network.specs.MarkLaws.{CommonChain, ListChained, SeveralLinked, LoneTouched, GroupChained};
ghost use Rattle.network.specs.SheetLaws.{SheetSound, OwnNone, OwnCut, OwnMore, OwnDone, OwnLone};
ghost use Rattle.network.specs.Figures.{SetStrength, HasStrength, HasGroup};
ghost use Rattle.network.specs.Refusals.{number_of, cable_check};

pub mod cable;
pub mod media;
pub mod refusal;

use cable::{Cable, Medium, Run};
use refusal::Refusal;
use std::fmt;

impl Refusal {
    /// The number by which a refusal is known.
    pub fn number(self) -> u8
        ensures { result ≡ number_of self }
    {
        self as u8
    }
}

/// As `refused 4`.
impl fmt::Display for Refusal {
    ghost output = { λ r. Some (codes "refused " ++ decimal (number_of r)) };

    fn fmt<W: fmt::Write>(&self, f: &mut fmt::Formatter<W>) -> fmt::Result {
        let number = self.number();
        write!(f, "refused {number}")
    }
}

impl Medium {
    /// The longest run of this medium, in metres.
    pub fn reach(self) -> u16
        ensures { result ≡ Rattle.network.specs.Cables.reach self }
    {
        match self {
            Medium::Copper => 100,
            Medium::Fibre => 2000,
        }
    }
}

impl Run {
    /// Whether the length lies in the medium's range.
    pub fn fits(self) -> bool
        ensures { result ≡ fit_run self }
    {
        (1..=self.medium.reach()).contains(&self.length)
    }
}

impl Cable {
    /// The first rule that the cable breaks: an end that is no device, both ends the same, a run out of range.
    pub fn check(self) -> Result<(), Refusal>
        ensures { result ≡ cable_check self }
    {
        if out_of_range(self.a) || out_of_range(self.b) {
            return Err(Refusal::DeviceOutOfRange);
        }
        if self.a == self.b {
            return Err(Refusal::SameEnds);
        }
        if !self.run.fits() {
            return Err(Refusal::RunOutOfRange);
        }
        Ok(())
    }
}

// A test, and no `Result` with the refusal: each caller has its own rules before it and behind it.

/// Whether a number is above the highest device, 127.
pub fn out_of_range(device: u8) -> bool
    ensures { result ≡ above device }
{
    device > 127
}

/// The laws of strengths, groups and joining, for any cables. They are what the answers of a plan rest on.
pub fn strength_laws()
    ensures one_strength { OneStrength }
    ensures none_stronger { NoneStronger }
    ensures one_group { OneGroup }
    ensures union { UnionTied }
    ensures holds { TiedHolds }
    ensures parts { StrengthParts }
    ensures has_strength { HasStrength }
    ensures has_set_strength { SetStrength }
    ensures has_group { HasGroup }
{}

/// What the marks of the cables say of the strength and the group of every list.
pub fn mark_laws()
    ensures common_chain { CommonChain }
    ensures list_chained { ListChained }
    ensures several_linked { SeveralLinked }
    ensures lone_touched { LoneTouched }
    ensures group_chained { GroupChained }
{}

/// What a good cut sheet says of every set that contains its list, and how a list's own sheet becomes good.
pub fn sheet_laws()
    ensures sound { SheetSound }
    ensures own_none { OwnNone }
    ensures own_cut { OwnCut }
    ensures own_more { OwnMore }
    ensures own_done { OwnDone }
    ensures own_lone { OwnLone }
{}

// The rigs as house sheets, one record to a line, and plans over them.
ghost use Rattle.std.specs.Prelude.{◌≡◌, [], Ok};
ghost use Rattle.houses.specs.Sheets.{meaning, cables_of};
ghost use Rattle.plan.specs.Tables.{closed_cables};
ghost use Rattle.figures.specs.Over.{Over};
ghost use Rattle.figures.specs.Rigs.{two_between, triangle_and_tail, three_ways, two_cliques, example_sheet};

use houses::sheet::Sheet;
use network::cable::{Medium, Run};
use plan::plan::{Closed, Open};

/// A short copper cable, the run of all that need no other.
pub(crate) const PATCH: Run = Run {
    medium: Medium::Copper,
    length: 5,
};

// A plan begun over the sheet of these bytes.
pub(crate) fn begin_over<'a>(bytes: &'a [u8]) -> Open<Sheet<'a>>
    ensures { Over result (cables_of (meaning bytes.now)) [] }
{
    let mut house = Sheet::empty();
    let _ = house.load(bytes);
    Open::begin(house)
}

// The same plan closed, with no tour cable.
pub(crate) fn closed_over<'a>(bytes: &'a [u8]) -> Closed<Sheet<'a>>
    ensures { closed_cables result ≡ cables_of (meaning bytes.now) }
{
    begin_over(bytes).close()
}

// Two cables.
pub(crate) fn two_between() -> &'static [u8]
    ensures { meaning result.now ≡ Ok two_between }
{
    b"\x01\x04\x05\x00\x00\x05\
      \x01\x04\x05\x00\x00\x05"
}

// A chain of two cables from 0, and a cable for each of the others.
pub(crate) fn triangle_and_tail() -> &'static [u8]
    ensures { meaning result.now ≡ Ok triangle_and_tail }
{
    b"\x02\x00\x02\x00\x00\x05\
      \x01\x02\x00\x00\x00\x05\
      \x01\x00\x03\x00\x00\x05"
}

// Two stars.
pub(crate) fn three_ways() -> &'static [u8]
    ensures { meaning result.now ≡ Ok three_ways }
{
    b"\x03\x00\x02\x03\x00\x00\x05\
      \x03\x01\x02\x03\x00\x00\x05"
}

// Each clique is two stars and a cable; two cables lead across.
pub(crate) fn two_cliques() -> &'static [u8]
    ensures { meaning result.now ≡ Ok two_cliques }
{
    b"\x03\x00\x01\x03\x00\x00\x05\
      \x03\x01\x02\x02\x00\x00\x05\
      \x01\x02\x03\x00\x00\x05\
      \x03\x04\x05\x03\x00\x00\x05\
      \x03\x05\x06\x02\x00\x00\x05\
      \x01\x06\x07\x00\x00\x05\
      \x01\x00\x04\x00\x00\x05\
      \x01\x01\x05\x00\x00\x05"
}

// A chain of three, a fibre and a star of two.
pub(crate) fn example_sheet() -> &'static [u8]
    ensures { meaning result.now ≡ Ok example_sheet }
{
    b"\x02\x0A\x03\x00\x00\x14\
      \x01\x0D\x0A\x01\x01\x2C\
      \x03\x0A\x14\x02\x00\x00\x05"
}

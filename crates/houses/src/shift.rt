ghost use Rattle.std.specs.Prelude.{◌≡◌, map};
ghost use Rattle.houses.specs.Shifts.{shifted};
ghost use Rattle.houses.specs.ShiftRules.{few_shifted, lawful_shifted};

use crate::circle::counted_up;
use crate::house::House;
use network::cable::Cable;

/// A house whose devices are each moved up by the same number, modulo 128.
#[derive(Drop)]
pub struct Shift<H: House> {
    house: H,
    by: u8,
}

impl<H: House> Shift<H> {
    /// The house with each end of each cable moved up by `by`, any byte, modulo 128.
    pub fn over(house: H, by: u8) -> Self
        ensures house { result.house ≡ house }
        ensures by { result.by ≡ by }
    {
        Shift { house, by }
    }
}

impl<H: House> House for Shift<H> {
    ghost cables = { λ s. map (shifted s.by) (H.House.cables s.house) };

    ghost few = { λ s. few_shifted s.by (H.House.cables s.house) (H.House.few s.house) };

    ghost lawful = { λ s. lawful_shifted s.by (H.House.cables s.house) (H.House.lawful s.house) };

    fn count(&self) -> u16 {
        self.house.count()
    }

    fn cable(&self, place: u16) -> Option<Cable> {
        self.house.cable(place).map(|cable| Cable {
            a: counted_up(cable.a, self.by, 128),
            b: counted_up(cable.b, self.by, 128),
            run: cable.run,
        })
    }
}

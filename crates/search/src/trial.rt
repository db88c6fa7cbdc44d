// A plan that is closed over a small rig, and how far its marks agree with the search.
use crate::RUN;
use crate::sets::highest_strength;
use crate::small::Small;
use houses::house::House;
use plan::plan::{Closed, Open};

/// A closed plan, and the rig whose cables it was given.
#[derive(Drop)]
pub struct Trial<'a, H: House> {
    pub closed: Closed<H>,
    pub rig: &'a [Small],
}

impl<'a, H: House> Trial<'a, H> {
    /// A plan over the house, whose cables come first in the rig: the others are the tour's. One that is refused is missed at
    /// its place.
    pub fn over(house: H, rig: &'a [Small]) -> Self {
        let own = usize::from(house.count());
        let mut plan = Open::begin(house);
        for (tag, cable) in (0..u16::MAX).zip(rig.iter().skip(own)) {
            let _ = plan.lay(tag, cable.a, cable.b, RUN);
        }
        Trial {
            closed: plan.close(),
            rig,
        }
    }

    // Whether the plan has this cable at the place, with the mark that the search finds.
    fn agrees_at(&self, place: u16, cable: &Small) -> bool {
        self.closed.mark(place).is_some_and(|marked| {
            // Each end by itself: a rig's own cable has no run to compare.
            marked.cable.a == cable.a
                && marked.cable.b == cable.b
                && usize::from(marked.mark) == highest_strength(self.rig, cable.ends)
        })
    }

    /// How many of the rig's cables the plan has at their places, with the marks that the search finds.
    pub fn agreeing(&self) -> usize {
        (0..u16::MAX)
            .zip(self.rig)
            .filter(|(place, cable)| self.agrees_at(*place, cable))
            .count()
    }

    pub fn highest_mark(&self) -> u16 {
        (0..self.closed.count())
            .filter_map(|place| self.closed.mark(place))
            .map(|marked| marked.mark)
            .max()
            .unwrap_or(0)
    }

    /// Writes each mark of the plan, with a space before it.
    pub fn write_marks(&self, rt: &HostRuntime) -> anyhow::Result<()> {
        // By place, here, above, in bench and in the mark list: a plan is asked for one cable at a time.
        for marked in (0..self.closed.count()).filter_map(|place| self.closed.mark(place)) {
            print!(rt; " {}", marked.mark)?;
        }
        Ok(())
    }

    /// Writes each cable of the rig, and the plan's mark and the search's. A cable that the plan misses has mark 0.
    pub fn show(&self, rt: &HostRuntime) -> anyhow::Result<()> {
        println!(rt;
            "disagreement; the plan has {} cables:",
            self.closed.count()
        )?;
        for (place, cable) in (0..u16::MAX).zip(self.rig) {
            let Small { a, b, ends } = *cable;
            let mark = self.closed.mark(place).map_or(0, |marked| marked.mark);
            let found = highest_strength(self.rig, ends);
            println!(rt; "  {a} {b}: mark {mark}, search {found}")?;
        }
        Ok(())
    }
}

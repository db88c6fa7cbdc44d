// Tells what the limits answer, and compares the marks of closed plans with a search through all sets of devices: on three fixed
// rigs, and on random ones.
#![tactic(auto)]

mod generator;
mod limits;
mod sets;
mod small;
mod trial;

use anyhow::bail;
use generator::Generator;
use houses::house::House;
use houses::ring::Ring;
use houses::sheet::Sheet;
use limits::tell_limits;
use network::cable::{Medium, Run};
use small::{FIRST, SPREAD, Small, add_random, rig_of};
use trial::Trial;

const SEED: u64 = 20240229;

/// How many random rigs there are over each of the two houses.
const ROUNDS: u32 = 100;

/// The run of every cable.
const RUN: Run = Run {
    medium: Medium::Copper,
    length: 10,
};

/// What was compared so far. It stands beside the runtime in each function that compares, as in any program that writes as it counts.
#[derive(Default, Drop)]
struct Tally {
    rigs: u32,
    rings: u32,
    cables: usize,
    agree: usize,
    highest: u16,
}

impl Tally {
    // Compares a rig, and shows it where the plan and the search disagree.
    fn add<H: House>(&mut self, rt: &HostRuntime, trial: &Trial<H>) -> anyhow::Result<()> {
        let cables = trial.rig.len();
        let agree = trial.agreeing();
        self.rigs = self.rigs.saturating_add(1);
        self.cables = self.cables.saturating_add(cables);
        self.agree = self.agree.saturating_add(agree);
        self.highest = self.highest.max(trial.highest_mark());
        if agree != cables || usize::from(trial.closed.count()) != cables {
            trial.show(rt)?;
        }
        Ok(())
    }
}

// The house's own cables and random ones behind them, over the house.
fn try_over<H: House + Drop>(
    rt: &HostRuntime,
    house: H,
    mut rig: Vec<Small>,
    generator: &mut Generator,
    tally: &mut Tally,
) -> anyhow::Result<()> {
    add_random(generator, &mut rig)?;
    tally.add(rt, &Trial::over(house, rig.as_slice()))
}

// Random rigs over a house of no cables and over a ring of 3, in turn.
fn try_random(rt: &HostRuntime, tally: &mut Tally) -> anyhow::Result<()> {
    let mut generator = Generator::new(SEED);
    for _ in 0..ROUNDS {
        let none = Vec::new(rt.alloc());
        try_over(rt, Sheet::empty(), none, &mut generator, tally)?;
        let Ok(ring) = Ring::new(126, 3, RUN) else {
            bail!("the ring is refused");
        };
        let own = rig_of(rt.alloc(), &SPREAD, &[(0, 1), (1, 2), (2, 0)])?;
        try_over(rt, ring, own, &mut generator, tally)?;
        tally.rings = tally.rings.saturating_add(1);
    }
    Ok(())
}

const TRIANGLES: [(u8, u8); 7] = [(0, 1), (1, 2), (2, 0), (3, 4), (4, 5), (5, 3), (2, 3)];

const DOUBLED: [(u8, u8); 2] = [(0, 1), (0, 1)];

const TWO_TO_THREE: [(u8, u8); 6] = [(0, 2), (0, 3), (0, 4), (1, 2), (1, 3), (1, 4)];

// Writes the marks of the fixed rigs, and compares them too.
fn tell_fixed(rt: &HostRuntime, tally: &mut Tally) -> anyhow::Result<()> {
    let heap = rt.alloc();
    let triangles = rig_of(heap, &FIRST, &TRIANGLES)?;
    let doubled = rig_of(heap, &FIRST, &DOUBLED)?;
    let two_to_three = rig_of(heap, &FIRST, &TWO_TO_THREE)?;
    for (name, rig) in [
        ("two triangles and a cable between", triangles.as_slice()),
        ("two cables between two devices", doubled.as_slice()),
        ("two devices cabled to three", two_to_three.as_slice()),
    ] {
        let trial = Trial::over(Sheet::empty(), rig);
        print!(rt; "{name}: marks")?;
        trial.write_marks(rt)?;
        println!(rt; "")?;
        tally.add(rt, &trial)?;
    }
    Ok(())
}

fn run(rt: &HostRuntime) -> anyhow::Result<()> {
    tell_limits(rt)?;
    let mut fixed = Tally::default();
    tell_fixed(rt, &mut fixed)?;
    println!(rt;
        "fixed: rigs {} cables {} marks agree {}",
        fixed.rigs, fixed.cables, fixed.agree
    )?;
    let mut random = Tally::default();
    try_random(rt, &mut random)?;
    println!(rt;
        "random: rigs {}, over a ring {}, cables {} marks agree {}, highest mark {}",
        random.rigs, random.rings, random.cables, random.agree, random.highest
    )?;
    Ok(())
}

fn main(rt: HostRuntime) -> anyhow::Result<()> {
    run(&rt)
}

// What the limits of a tour, a sheet and a ring answer, one case a line.
use crate::RUN;
use houses::house::House;
use houses::ring::Ring;
use houses::sheet::Sheet;
use network::cable::{Medium, Run};
use plan::plan::Open;
use std::fmt::Display;

fn tell<E: Display + Drop>(
    rt: &HostRuntime,
    what: &str,
    answer: Result<u16, E>,
) -> anyhow::Result<()> {
    match answer {
        Ok(count) => println!(rt; "{what}: {count}")?,
        Err(refused) => println!(rt; "{what}: {refused}")?,
    }
    Ok(())
}

// Lengths, ends and tags at their limits.
fn tell_lays(rt: &HostRuntime) -> anyhow::Result<()> {
    let mut plan = Open::begin(Sheet::empty());
    for (what, tag, a, b, medium, length) in [
        ("lay 200 to 200", 0, 200, 200, Medium::Copper, 10),
        ("lay 127 to 127", 0, 127, 127, Medium::Copper, 0),
        ("copper 0", 0, 0, 1, Medium::Copper, 0),
        ("copper 100", 0, 0, 1, Medium::Copper, 100),
        ("copper 101", 1, 0, 1, Medium::Copper, 101),
        ("fibre 2000", 1, 0, 1, Medium::Fibre, 2000),
        ("fibre 2001", 2, 0, 1, Medium::Fibre, 2001),
        ("a tag again", 1, 0, 1, Medium::Copper, 1),
    ] {
        let answer = plan.lay(tag, a, b, Run { medium, length });
        tell(rt, what, answer)?;
    }
    for what in ["lift it", "lift it again"] {
        tell(rt, what, plan.lift(1))?;
    }
    Ok(())
}

// The 256th cable of a tour, and the next.
fn tell_full(rt: &HostRuntime) -> anyhow::Result<()> {
    let mut plan = Open::begin(Sheet::empty());
    for tag in 0..255 {
        let _ = plan.lay(tag, 0, 1, RUN);
    }
    for (what, tag) in [
        ("the last tour cable", 255),
        ("one more", 256),
        ("one more with a tag that is taken", 255),
    ] {
        tell(rt, what, plan.lay(tag, 0, 1, RUN))?;
    }
    Ok(())
}

// A chain and a star to the last device and past it, no record, and a record that ends early.
fn tell_sheets(rt: &HostRuntime) -> anyhow::Result<()> {
    let sheets: [(&str, &[u8]); 6] = [
        ("chain 120 count 7", &[2, 120, 7, 0, 0, 10]),
        ("chain 120 count 8", &[2, 120, 8, 0, 0, 10]),
        ("star 0 from 1 count 127", &[3, 0, 1, 127, 0, 0, 10]),
        ("star 1 from 1 count 1", &[3, 1, 1, 1, 0, 0, 10]),
        ("no bytes", &[]),
        ("a body cut short", &[1, 0, 1, 0, 0, 10, 3, 0, 1, 1, 0, 0]),
    ];
    for (what, bytes) in sheets {
        tell(rt, what, Sheet::empty().load(bytes))?;
    }
    Ok(())
}

// Counts and first devices of a ring at their limits.
fn tell_rings(rt: &HostRuntime) -> anyhow::Result<()> {
    for (what, first, count) in [
        ("ring of 2", 0, 2),
        ("ring of 128", 127, 128),
        ("ring from 128", 128, 3),
    ] {
        let ring = Ring::new(first, count, RUN);
        tell(rt, what, ring.map(|ring| ring.count()))?;
    }
    Ok(())
}

pub fn tell_limits(rt: &HostRuntime) -> anyhow::Result<()> {
    tell_lays(rt)?;
    tell_full(rt)?;
    tell_sheets(rt)?;
    tell_rings(rt)
}

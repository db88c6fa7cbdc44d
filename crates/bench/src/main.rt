// Closes a plan as often as its argument says, and tells the sum of the marks. The cables come from standard input, a line
// `A B` for each: the first 256 are the house's, the others the tour's.
#![tactic(auto)]

use anyhow::{Context, anyhow, ensure};
use houses::house::House;
use houses::misread::Misread;
use houses::sheet::Sheet;
use network::cable::{Medium, Run};
use network::out_of_range;
use plan::plan::{Closed, Open};
use std::alloc::{AllocError, Global};
use std::env;
use std::io::{BufRead, BufReader};

/// The most cables that a plan has.
const MOST: usize = 512;

/// How many of them are the house's.
const HOUSE: usize = 256;

/// The run of every cable. The search has a run of its own, since two programs share no crate of theirs.
const RUN: Run = Run {
    medium: Medium::Copper,
    length: 10,
};

// A pair of its own: those of the library are private to their crates, and these may be unlawful.

/// The two devices that a cable joins.
#[derive(Clone, Copy)]
struct Ends {
    a: u8,
    b: u8,
}

// The device that a word tells.
fn device_in(word: &str) -> Option<u8> {
    word.parse().ok().filter(|device| !out_of_range(*device))
}

// The two devices that a line tells. An `Option`, and no `FromStr` with an error type: a line that is no pair tells no more.
fn ends_in(line: &str) -> Option<Ends> {
    let (a, b) = line.split_once(' ')?;
    Some(Ends {
        a: device_in(a)?,
        b: device_in(b)?,
    })
}

// The cables that standard input tells.
fn cables_told(rt: &HostRuntime) -> anyhow::Result<Vec<Ends>> {
    let mut cables = Vec::new(rt.alloc());
    for line in BufReader::new(rt.alloc(), rt.stdin())?.lines(rt.alloc()) {
        let line = line?;
        let text = line.as_str();
        let ends = ends_in(text).context(format_args!("not two device numbers: {text}"))?;
        ensure!(cables.len() < MOST, "more than {MOST} cables");
        cables.push(ends)?;
    }
    Ok(cables)
}

// How often to close: what the first argument says, or once.
fn closes_asked(rt: &HostRuntime) -> anyhow::Result<u32> {
    let Some(word) = env::args(rt)?.nth(1) else {
        return Ok(1);
    };
    let times = word
        .as_str()
        .parse()
        .context("the first argument is how often to close")?;
    ensure!(times > 0, "a plan is closed once at least");
    Ok(times)
}

// The sheet of a house of these cables: for each a record of kind 1, one cable, and of medium 0, copper.
fn sheet_of(heap: Global, house: &[Ends]) -> Result<Vec<u8>, AllocError> {
    let mut bytes = Vec::new(heap);
    let [high, low] = RUN.length.to_be_bytes();
    for ends in house {
        bytes.extend_from_slice(&[1, ends.a, ends.b, 0, high, low])?;
    }
    Ok(bytes)
}

// Lays the cables, with tags from 0 on. A refused cable ends it, where the search goes on.
fn lay_tour<H: House>(plan: &mut Open<H>, tour: &[Ends]) -> anyhow::Result<()> {
    for (tag, ends) in (0..u16::MAX).zip(tour) {
        plan.lay(tag, ends.a, ends.b, RUN).map_err(|refusal| anyhow!(
            "tour cable {tag} is refused: {refusal:?}"
        ))?;
    }
    Ok(())
}

// Closes the plan so many times, and reopens it between.
fn close_often<H: House>(plan: Open<H>, times: u32) -> Closed<H> {
    let mut closed = plan.close();
    for _ in 1..times {
        closed = closed.reopen().close();
    }
    closed
}

// No `sum`, which asks for a bound on the whole: of what `filter_map` lets through, a proof knows none.
fn sum_of_marks<H: House>(closed: &Closed<H>) -> u64 {
    (0..closed.count())
        .filter_map(|place| closed.mark(place))
        .fold(0, |sum: u64, marked| {
            sum.saturating_add(u64::from(marked.mark))
        })
}

// Begins a plan over the house, lays the tour, closes often and writes how many cables there are and the sum of their marks.
fn tell<H: House + Drop>(
    rt: &HostRuntime,
    house: H,
    tour: &[Ends],
    times: u32,
) -> anyhow::Result<()> {
    let mut plan = Open::begin(house);
    lay_tour(&mut plan, tour)?;
    let closed = close_often(plan, times);
    let cables = closed.count();
    let marks = sum_of_marks(&closed);
    println!(rt; "cables {cables} closes {times} marks {marks}")?;
    Ok(())
}

fn run(rt: &HostRuntime) -> anyhow::Result<()> {
    let times = closes_asked(rt)?;
    let cables = cables_told(rt)?;
    let (house, tour) = cables.as_slice().split_at(cables.len().min(HOUSE));
    let bytes = sheet_of(rt.alloc(), house)?;
    let mut sheet = Sheet::empty();
    sheet.load(bytes.as_slice()).map_err(|Misread { cause, place }| {
        anyhow!("the sheet is refused at byte {place}: {cause:?}")
    })?;
    tell(rt, sheet, tour, times)
}

fn main(rt: HostRuntime) -> anyhow::Result<()> {
    if let Err(cause) = run(&rt) {
        println!(rt; "{cause}")?;
    }
    Ok(())
}

// Reads a sheet from standard input and writes a line for each cable: its place, its ends and its mark. A refused sheet
// has one line: the number of its fault, and where it is.
#![tactic(auto)]

ghost use Rattle.std.specs.Prelude.{◌≡◌, ◌≤◌, length, IsOkAnd};

use arrayvec::ArrayVec;
use houses::house::House;
use houses::sheet::Sheet;
use lines::{ROOM, mark_line, refusal_line};
use network::refusal::Refusal;
use plan::plan::Open;
use std::io;
use std::io::{Read, Write};

/// How many bytes of a sheet are read. A longer sheet has its first fault among them.
const MOST: usize = 2048;

// Writes the line that `lay` lays into a buffer.
fn write_line<F: FnOnce(&mut [u8]) -> Result<usize, Refusal>>(
    rt: &HostRuntime,
    lay: F,
) -> io::Result<()>
    requires callable { F.IsAlwaysCallable lay }
    requires within { (line r after : _) → length line.now ≡ 128 → F.post lay line r after → IsOkAnd r (λ n. n ≤ 128) }
{
    // A buffer and how much of it is written: what both kinds of line take.
    let mut line = [0u8; ROOM];
    let len = lay(&mut line).unwrap();
    rt.stdout().write_all(&line[..len])
}

// Writes the cables of a house in order.
fn write_marks<H: House + Drop>(rt: &HostRuntime, house: H) -> io::Result<()> {
    let plan = Open::begin(house).close();
    for place in 0..plan.count() {
        let marked = plan.mark(place).unwrap();
        write_line(rt, |line| mark_line(place, marked, line))?;
    }
    Ok(())
}

fn main(rt: HostRuntime) -> io::Result<()> {
    let mut bytes = ArrayVec::<u8, MOST>::new();
    io::copy(&mut rt.stdin().take(MOST as u64), &mut bytes)?;
    let mut sheet = Sheet::empty();
    match sheet.load(bytes.as_slice()) {
        Ok(_) => write_marks(&rt, sheet),
        Err(fault) => write_line(&rt, |line| {
            refusal_line(u16::from(fault.cause.number()), fault.place, line)
        }),
    }
}

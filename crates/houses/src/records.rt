ghost use Rattle.std.specs.Prelude.{◌≡◌, suc, ◌<◌, drop, Ok, Err, MatchResult, slice_index};
ghost use Rattle.houses.specs.Records.{run_of, one_record, chain_record, star_record, front, body, link, Sound};

use network::cable::{Cable, Medium, Run};
use network::out_of_range;
use network::refusal::Refusal;

/// Cables from each device to the next, from `first` on.
#[derive(Clone, Copy)]
pub struct Chain {
    pub first: u8,
    pub count: u8,
    pub run: Run,
}

/// Cables from one hub to each of the devices from `first` on.
#[derive(Clone, Copy)]
pub struct Star {
    pub hub: u8,
    pub first: u8,
    pub count: u8,
    pub run: Run,
}

/// A record of a sheet.
#[derive(Clone, Copy)]
pub enum Record {
    One(Cable),
    Chain(Chain),
    Star(Star),
}

fn run_of(medium: u8, high: u8, low: u8) -> Option<Run>
    ensures { result ≡ run_of medium high low }
{
    let run = Run {
        medium: Medium::try_from(medium).ok()?,
        length: u16::from_be_bytes([high, low]),
    };
    run.fits().then_some(run)
}

// Each reader asks for the run itself, behind its own rules: its refusal is the last, and a maker passed to one function for
// all three is no shorter.
fn read_one(a: u8, b: u8, run: Option<Run>) -> Result<Record, Refusal>
    ensures { result ≡ one_record a b run }
{
    if out_of_range(a) || out_of_range(b) {
        return Err(Refusal::DeviceOutOfRange);
    }
    if a == b {
        return Err(Refusal::SameEnds);
    }
    let run = run.ok_or(Refusal::RunOutOfRange)?;
    Ok(Record::One(Cable { a, b, run }))
}

fn read_chain(first: u8, count: u8, run: Option<Run>) -> Result<Record, Refusal>
    ensures { result ≡ chain_record first count run }
{
    if out_of_range(first) {
        return Err(Refusal::DeviceOutOfRange);
    }
    if count < 1 || u16::from(first) + u16::from(count) > 127 {
        return Err(Refusal::BadChainOrStar);
    }
    let run = run.ok_or(Refusal::RunOutOfRange)?;
    Ok(Record::Chain(Chain { first, count, run }))
}

fn read_star(hub: u8, first: u8, count: u8, run: Option<Run>) -> Result<Record, Refusal>
    ensures { result ≡ star_record hub first count run }
{
    if out_of_range(hub) || out_of_range(first) {
        return Err(Refusal::DeviceOutOfRange);
    }
    let leaves = u16::from(first)..u16::from(first) + u16::from(count);
    if count < 1 || leaves.end > 128 || leaves.contains(&u16::from(hub)) {
        return Err(Refusal::BadChainOrStar);
    }
    let run = run.ok_or(Refusal::RunOutOfRange)?;
    Ok(Record::Star(Star {
        hub,
        first,
        count,
        run,
    }))
}

// The record that the bytes begin with, and the bytes after it.
#[tactic(auto, using(std::proofs::lemmas::List::take_rest))]
pub(crate) fn first_record(bytes: &[u8]) -> Result<(Record, &[u8]), Refusal>
    ensures { MatchResult result (λ p. (front bytes.now ≡ Ok p.0) × (p.1.now ≡ drop (suc (body (slice_index bytes.now 0))) bytes.now)) (λ e. front bytes.now ≡ Err e) }
{
    // Slice patterns, the form in which a format is wanted: each names a kind's number and the fields where the bytes have them.
    match bytes {
        [1, a, b, medium, high, low, rest @ ..] => {
            Ok((read_one(*a, *b, run_of(*medium, *high, *low))?, rest))
        }
        [2, first, count, medium, high, low, rest @ ..] => {
            Ok((
                read_chain(*first, *count, run_of(*medium, *high, *low))?,
                rest,
            ))
        }
        [3, hub, first, count, medium, high, low, rest @ ..] => {
            Ok((
                read_star(*hub, *first, *count, run_of(*medium, *high, *low))?,
                rest,
            ))
        }
        [1 | 2 | 3, ..] => Err(Refusal::BodyCutShort),
        _ => Err(Refusal::UnknownKind),
    }
}

impl Record {
    // How many cables the record has.
    pub(crate) fn span(self) -> u16
        ensures { result ≡ Rattle.houses.specs.Records.span self }
    {
        match self {
            Record::One(_) => 1,
            Record::Chain(chain) => u16::from(chain.count),
            Record::Star(star) => u16::from(star.count),
        }
    }

    // The cable at a place of the record.
    pub(crate) fn cable(self, place: u16) -> Cable
        requires within { place < Rattle.houses.specs.Records.span self }
        requires sound { Sound self }
        ensures { result ≡ link self place }
    {
        match self {
            Record::One(cable) => cable,
            Record::Chain(chain) => {
                let a = chain.first + place as u8;
                Cable {
                    a,
                    b: a + 1,
                    run: chain.run,
                }
            }
            Record::Star(star) => Cable {
                a: star.hub,
                b: star.first + place as u8,
                run: star.run,
            },
        }
    }
}

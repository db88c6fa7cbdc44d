ghost use Rattle.std.specs.Prelude.{◌≡◌, true, [], is_ok, MatchResult};
ghost use Rattle.houses.specs.Sheets.{meaning, counted, cables_of};
ghost use Rattle.houses.specs.SheetRules.{few_read, lawful_read};
ghost use Rattle.houses.specs.SheetLaws.{FirstFault};

use crate::house::House;
use crate::misread::Misread;
use crate::walk::Walk;
use network::cable::Cable;
use network::refusal::Refusal;

/// A house told by bytes. The sheet keeps no copy: it reads the bytes each time it is asked.
#[derive(Drop)]
pub struct Sheet<'a> {
    bytes: &'a [u8],
    ghost sound: { is_ok (meaning bytes.now) ≡ true },
}

// How many cables the bytes have, or their first fault.
fn survey(bytes: &[u8]) -> Result<u16, Misread>
    ensures { result ≡ counted 0 (meaning bytes.now) }
{
    let mut count: u16 = 0;
    for (place, record) in Walk::over(bytes) {
        let place = place as u16;
        let more = record.map_err(|cause| Misread { cause, place })?.span();
        if count + more > 256 {
            return Err(Misread {
                cause: Refusal::TooManyCables,
                place,
            });
        }
        count += more;
    }
    Ok(count)
}

/// A sheet of more than 2,048 bytes has a fault, and its first 2,048 bytes have the same: a record has at most seven bytes
/// and at least one cable, so the 257th cable comes before.
#[tactic(auto, using(crate::proofs::Prefixes::first_fault))]
pub fn first_fault()
    ensures { FirstFault }
{}

impl<'a> Sheet<'a> {
    /// A sheet of no bytes: an empty house.
    pub fn empty() -> Self
        ensures { result.bytes.now ≡ [] }
    {
        Sheet { bytes: &[] }
    }

    /// Takes the bytes in place of those it had and answers how many cables they have, or tells their first fault and keeps
    /// what it had.
    pub fn load(&mut self, bytes: &'a [u8]) -> Result<u16, Misread>
        ensures answer { result ≡ counted 0 (meaning bytes.now) }
        ensures after { MatchResult result (λ _. self.new.bytes.now ≡ bytes.now) (λ _. self.new ≡ self.old) }
    {
        let count = survey(bytes)?;
        self.bytes = bytes;
        Ok(count)
    }
}

impl<'a> House for Sheet<'a> {
    ghost cables = { λ s. cables_of (meaning s.bytes.now) };

    ghost few = { λ s. few_read s.bytes.now };

    ghost lawful = { λ s. lawful_read s.bytes.now };

    fn count(&self) -> u16 {
        survey(self.bytes).unwrap_or(0)
    }

    #[tactic(auto, using(crate::proofs::Reading::followed_start, crate::proofs::Reading::followed_here, crate::specs::RecordRules::front_sound))]
    fn cable(&self, place: u16) -> Option<Cable> {
        let mut skip = place;
        for (_, record) in Walk::over(self.bytes) {
            let record = record.ok()?;
            let more = record.span();
            if skip < more {
                return Some(record.cable(skip));
            }
            skip -= more;
        }
        None
    }
}

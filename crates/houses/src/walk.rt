ghost use Rattle.std.specs.Prelude.{◌+◌, ◌<◌, ◌^◌, ◌≡◌, length};
ghost use Rattle.std.specs.Iterator.{at_most};
ghost use Rattle.houses.specs.Walks.{Stepped};

use crate::records::{Record, first_record};
use network::refusal::Refusal;

/// The records of bytes in turn, each with the offset of its kind byte. One that cannot be read is the last.
#[derive(Drop)]
pub(crate) struct Walk<'a> {
    left: &'a [u8],
    place: usize,
    ghost within: { place + length left.now < 2 ^ 64 },
}

impl<'a> Walk<'a> {
    pub(crate) fn over(bytes: &'a [u8]) -> Self
        ensures left { result.left.now ≡ bytes.now }
        ensures place { result.place ≡ 0 }
    {
        Walk {
            left: bytes,
            place: 0,
        }
    }
}

impl<'a> Iterator for Walk<'a> {
    type Item = (usize, Result<Record, Refusal>);

    ghost next_gives = { λ s item t. Stepped s.left.now s.place item t.left.now t.place };

    ghost remaining = { λ s. at_most (length s.left.now) };

    fn next(&mut self) -> Option<(usize, Result<Record, Refusal>)> {
        if self.left.is_empty() {
            return None;
        }
        let place = self.place;
        match first_record(self.left) {
            Ok((record, rest)) => {
                self.place += self.left.len() - rest.len();
                self.left = rest;
                Some((place, Ok(record)))
            }
            Err(cause) => {
                self.left = &[];
                Some((place, Err(cause)))
            }
        }
    }
}

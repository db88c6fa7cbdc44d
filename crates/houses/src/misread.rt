ghost use Rattle.std.specs.Prelude.{◌++◌, Some, codes, decimal};
ghost use Rattle.network.specs.Refusals.{number_of};

use network::refusal::Refusal;
use std::fmt;

/// Why a sheet is refused, and where: the offset of the kind byte of its first bad record.
#[derive(Clone, Copy, PartialEq, Eq, Debug)]
pub struct Misread {
    pub cause: Refusal,
    pub place: u16,
}

/// As `refused 14 at 6`.
impl fmt::Display for Misread {
    ghost output = { λ m. Some ((codes "refused " ++ decimal (number_of m.cause)) ++ (codes " at " ++ decimal m.place)) };

    fn fmt<W: fmt::Write>(&self, f: &mut fmt::Formatter<W>) -> fmt::Result {
        let Misread { cause, place } = *self;
        write!(f, "{cause} at {place}")
    }
}

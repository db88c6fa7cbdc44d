ghost use Rattle.std.specs.Prelude.{◌≡◌, Bool, nat_le};
ghost use Rattle.forest.specs.Order.{Laws, run_over};
ghost use Rattle.forest.specs.Marks.{StrongReaches};
ghost use Rattle.std.proofs.Common.{rules};

use network::cable::{Medium, Run};

/// What tells a good cable from a poor one. A grade reaches another when it is as good or better.
pub trait Grade: Copy {
    ghost over: { Self → Self → Bool };

    /// Whether this grade is as good as the other, or better.
    fn reaches(self, other: Self) -> bool
        ensures { result ≡ over self other };

    ghost order: { Laws over };
}

/// Marks: the higher is the better.
impl Grade for u16 {
    ghost over = { λ a b. nat_le b a };

    ghost order = { Prim.search rules };

    fn reaches(self, other: u16) -> bool {
        self >= other
    }
}

/// Runs: fibre over copper, and of the same medium the shorter.
impl Grade for Run {
    ghost over = { run_over };

    ghost order = { Prim.search rules };

    fn reaches(self, other: Run) -> bool {
        match (self.medium, other.medium) {
            (Medium::Fibre, Medium::Copper) => true,
            (Medium::Copper, Medium::Fibre) => false,
            _ => self.length <= other.length,
        }
    }
}

/// A length alone, in metres.
#[derive(Clone, Copy, PartialEq, Eq, Debug)]
pub struct Metres(pub u16);

/// Lengths: the shorter is the better.
impl Grade for Metres {
    ghost over = { λ a b. nat_le a.0 b.0 };

    ghost order = { Prim.search rules };

    fn reaches(self, other: Metres) -> bool {
        self.0 <= other.0
    }
}

/// Cables whose mark reaches k are the cables of mark k or more.
pub fn strong_reaches()
    ensures { StrongReaches }
{}

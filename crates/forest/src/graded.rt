ghost use Rattle.std.specs.Prelude.{◌≡◌, ℕ, ◌≤◌, List, length};
ghost use Rattle.network.specs.declared.cable.Cable.{Cable};
ghost use Rattle.network.specs.Cables.{Lawful};
ghost use Rattle.forest.specs.Places.{ends_at, grade_at};

use crate::grade::Grade;

/// Lawful cables in order, 512 at most, each with a grade.
pub trait Graded {
    type Grade: Grade;

    ghost cables: { Self → List Cable };

    ghost grade: { Self → ℕ → Self.Grade };

    ghost few: { (s : Self) → length (cables s) ≤ 512 };

    ghost lawful: { (s : Self) → Lawful (cables s) };

    /// How many cables there are.
    fn count(&self) -> u16
        ensures { result ≡ length (cables self.now) };

    /// The two ends of the cable at a place; none past the last.
    fn ends(&self, place: u16) -> Option<(u8, u8)>
        ensures { result ≡ ends_at (cables self.now) place };

    /// The grade of the cable at a place; none past the last.
    fn grade_at(&self, place: u16) -> Option<Self::Grade>
        ensures { result ≡ grade_at (cables self.now) (grade self.now) place };
}

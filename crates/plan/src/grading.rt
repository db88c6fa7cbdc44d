// The cables of a table by grade: by their marks, and by their runs under a yardstick.
ghost use Rattle.std.specs.Prelude.{◌≡◌};
ghost use Rattle.forest.specs.Places.{ends_at};
ghost use Rattle.plan.specs.Tables.{rows_of, table_cables};
ghost use Rattle.plan.specs.Grading.{mark_at, run_at, few_cables};

use crate::table::Table;
use forest::grade::Grade;
use forest::graded::Graded;
use forest::yardstick::Yardstick;

impl Table {
    /// The two ends of the cable at a place; none past the last.
    pub(crate) fn ends_of(&self, place: u16) -> Option<(u8, u8)>
        ensures { result ≡ ends_at (table_cables self.now) place }
    {
        self.row(place).map(|row| (row.cable.a, row.cable.b))
    }
}

// Two implementations that differ in the grade alone: count and ends are one call of the table each.

/// A table by the marks of its cables.
impl Graded for Table {
    type Grade = u16;

    ghost cables = { λ t. table_cables t };

    ghost grade = { λ t. mark_at (rows_of t) };

    ghost few = { few_cables };

    ghost lawful = { λ t. t.lawful };

    fn count(&self) -> u16 {
        self.len()
    }

    fn ends(&self, place: u16) -> Option<(u8, u8)> {
        self.ends_of(place)
    }

    fn grade_at(&self, place: u16) -> Option<u16> {
        Some(self.row(place)?.mark)
    }
}

/// A table whose cables a yardstick grades by their runs.
#[derive(Drop)]
pub(crate) struct Ruled<'a, 'b, Y> {
    pub(crate) table: &'a Table,
    pub(crate) yardstick: &'b Y,
}

/// A table by the runs of its cables.
impl<'a, 'b, Y: Yardstick> Graded for Ruled<'a, 'b, Y> {
    type Grade = Y::Grade;

    ghost cables = { λ s. table_cables s.table.now };

    ghost grade = { λ s i. Y.Yardstick.graded (run_at (table_cables s.table.now) i) };

    ghost few = { λ s. few_cables s.table.now };

    ghost lawful = { λ s. s.table.now.lawful };

    fn count(&self) -> u16 {
        self.table.len()
    }

    fn ends(&self, place: u16) -> Option<(u8, u8)> {
        self.table.ends_of(place)
    }

    fn grade_at(&self, place: u16) -> Option<Y::Grade> {
        Some(self.yardstick.grade(self.table.row(place)?.cable.run))
    }
}

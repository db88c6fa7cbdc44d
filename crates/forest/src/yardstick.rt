ghost use Rattle.std.specs.Prelude.{◌≡◌};
ghost use Rattle.network.specs.declared.cable.Run.{Run};
ghost use Rattle.forest.specs.declared.grade.Metres.{Metres};

use crate::grade::{Grade, Metres};
use network::cable::Run;

/// A way to grade cables by their runs.
pub trait Yardstick {
    type Grade: Grade;

    ghost graded: { Run → Self.Grade };

    /// The grade of a run.
    fn grade(&self, run: Run) -> Self::Grade
        ensures { result ≡ graded run };
}

/// The run itself is the grade.
#[derive(Clone, Copy)]
pub struct Plain;

impl Yardstick for Plain {
    type Grade = Run;

    ghost graded = { λ run. run };

    fn grade(&self, run: Run) -> Run {
        run
    }
}

/// The length alone is the grade.
#[derive(Clone, Copy)]
pub struct Length;

impl Yardstick for Length {
    type Grade = Metres;

    ghost graded = { λ run. record { 0 = run.length } };

    fn grade(&self, run: Run) -> Metres {
        Metres(run.length)
    }
}

ghost use Rattle.std.specs.Prelude.{◌≡◌, ◌+◌};
ghost use Rattle.desk.specs.Scores.{Scored, one, refused_by};

use crate::reply::Reply;

/// How many commands of a script were answered, how many of them refused, and how many lines were mistaken. A line that is
/// mistaken counts as a command.
#[derive(Clone, Copy, Default)]
pub struct Score {
    pub commands: u64,
    pub refused: u64,
    pub errors: u64,
}

impl Reply {
    /// Whether the answer is a refusal.
    pub fn refuses(self) -> bool
        ensures { result ≡ refused_by self }
    {
        matches!(self, Reply::Misread(_) | Reply::Refused(_))
    }
}

impl Score {
    pub fn none() -> Self
        ensures { Scored 0 0 0 result }
    {
        Score::default()
    }

    /// One command more, with its answer.
    pub fn answered(self, reply: Reply) -> Self
        ensures { Scored (self.commands + 1) (self.refused + one (refused_by reply)) self.errors result }
    {
        Score {
            commands: self.commands.saturating_add(1),
            refused: self.refused.saturating_add(u64::from(reply.refuses())),
            ..self
        }
    }

    /// One mistaken line more.
    pub fn mistaken(self) -> Self
        ensures { Scored (self.commands + 1) self.refused (self.errors + 1) result }
    {
        Score {
            commands: self.commands.saturating_add(1),
            errors: self.errors.saturating_add(1),
            ..self
        }
    }
}

// The names of the commands.
ghost use Rattle.std.specs.Prelude.{◌≡◌};
ghost use Rattle.script.specs.Verbs.{verb_named};

use std::str::FromStr;

/// The name of a command.
#[derive(Clone, Copy, PartialEq, Eq, Debug)]
pub enum Verb {
    House,
    Shift,
    Begin,
    Lay,
    Lift,
    Close,
    Reopen,
    Mark,
    Strength,
    Group,
    Run,
    Cut,
    Judge,
}

// A type of its own, as for each kind of word: `FromStr` asks for an error, and its name says what was not known.

/// A word that names no command.
#[derive(Clone, Copy, PartialEq, Eq, Debug)]
pub struct UnknownVerb;

/// The command of that name.
impl FromStr for Verb {
    type Err = UnknownVerb;

    ghost from_str_gives = { λ word r. r ≡ verb_named word };

    fn from_str(word: &str) -> Result<Self, UnknownVerb> {
        match word {
            "house" => Ok(Verb::House),
            "shift" => Ok(Verb::Shift),
            "begin" => Ok(Verb::Begin),
            "lay" => Ok(Verb::Lay),
            "lift" => Ok(Verb::Lift),
            "close" => Ok(Verb::Close),
            "reopen" => Ok(Verb::Reopen),
            "mark" => Ok(Verb::Mark),
            "strength" => Ok(Verb::Strength),
            "group" => Ok(Verb::Group),
            "run" => Ok(Verb::Run),
            "cut" => Ok(Verb::Cut),
            "judge" => Ok(Verb::Judge),
            _ => Err(UnknownVerb),
        }
    }
}

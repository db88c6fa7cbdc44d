// How yardsticks are read.
ghost use Rattle.std.specs.Prelude.{◌≡◌};
ghost use Rattle.script.specs.Yardsticks.{yardstick_named};

use crate::command::Yardstick;
use std::str::FromStr;

// An error of its own, as `UnknownVerb` is: one for all would not tell what was unknown.

/// A word that stands for no yardstick.
#[derive(Clone, Copy, PartialEq, Eq, Debug)]
pub struct UnknownYardstick;

/// The yardstick of that name.
impl FromStr for Yardstick {
    type Err = UnknownYardstick;

    ghost from_str_gives = { λ word r. r ≡ yardstick_named word };

    fn from_str(word: &str) -> Result<Self, UnknownYardstick> {
        match word {
            "plain" => Ok(Yardstick::Plain),
            "length" => Ok(Yardstick::Length),
            _ => Err(UnknownYardstick),
        }
    }
}

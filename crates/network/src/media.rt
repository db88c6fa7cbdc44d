// How media and runs are written and read.
ghost use Rattle.std.specs.Prelude.{◌≡◌, ◌++◌, Some, codes, decimal};
ghost use Rattle.network.specs.Media.{medium_name, medium_named, medium_coded};

use crate::cable::{Medium, Run};
use std::fmt;
use std::str::FromStr;

/// A word or a byte that stands for no medium.
#[derive(Clone, Copy, PartialEq, Eq, Debug)]
pub struct UnknownMedium;

/// `copper` or `fibre`.
impl fmt::Display for Medium {
    ghost output = { λ m. Some (medium_name m) };

    fn fmt<W: fmt::Write>(&self, f: &mut fmt::Formatter<W>) -> fmt::Result {
        f.write_str(match self {
            Medium::Copper => "copper",
            Medium::Fibre => "fibre",
        })
    }
}

/// The medium of that name.
impl FromStr for Medium {
    type Err = UnknownMedium;

    ghost from_str_gives = { λ word r. r ≡ medium_named word };

    fn from_str(word: &str) -> Result<Self, UnknownMedium> {
        match word {
            "copper" => Ok(Medium::Copper),
            "fibre" => Ok(Medium::Fibre),
            _ => Err(UnknownMedium),
        }
    }
}

/// The medium of a byte: 0 for copper, 1 for fibre.
impl TryFrom<u8> for Medium {
    type Error = UnknownMedium;

    ghost try_from_gives = { λ byte r. r ≡ medium_coded byte };

    fn try_from(byte: u8) -> Result<Self, UnknownMedium> {
        match byte {
            0 => Ok(Medium::Copper),
            1 => Ok(Medium::Fibre),
            _ => Err(UnknownMedium),
        }
    }
}

/// As `copper 20`.
impl fmt::Display for Run {
    ghost output = { λ r. Some (medium_name r.medium ++ (codes " " ++ decimal r.length)) };

    fn fmt<W: fmt::Write>(&self, f: &mut fmt::Formatter<W>) -> fmt::Result {
        let medium = self.medium;
        let length = self.length;
        write!(f, "{medium} {length}")
    }
}

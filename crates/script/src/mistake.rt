// What can be wrong with a line of a script.
ghost use Rattle.std.specs.Prelude.{◌≡◌, ◌++◌, Some, codes, decimal};
ghost use Rattle.script.specs.Mistakes.{said};

use std::fmt;

/// What is wrong with a word.
#[derive(Clone, Copy, PartialEq, Eq, Debug)]
pub enum Fault {
    /// The first word is no command's name.
    UnknownCommand,
    /// A word that the command takes is not there.
    MissingWord,
    /// A word past the last one that the command takes.
    ExtraWord,
    /// A number has a byte that is no decimal digit.
    NotANumber,
    /// A number is above its limit.
    NumberTooLarge,
    /// Bytes are neither `-` nor an even number of hexadecimal digits.
    NotHexadecimal,
    /// A medium is neither `copper` nor `fibre`.
    NotAMedium,
    /// A yardstick is neither `plain` nor `length`.
    NotAYardstick,
}

/// The first bad word of a line, counted from 1, and what is wrong with it.
#[derive(Clone, Copy, PartialEq, Eq, Debug)]
pub struct Mistake {
    pub word: usize,
    pub fault: Fault,
}

impl Fault {
    /// What is said of a word with this fault.
    pub fn says(self) -> &'static str
        ensures { result.now ≡ said self }
    {
        match self {
            Fault::UnknownCommand => "is no command",
            Fault::MissingWord => "is missing",
            Fault::ExtraWord => "is one too many",
            Fault::NotANumber => "is not a number",
            Fault::NumberTooLarge => "is too large a number",
            Fault::NotHexadecimal => "is not hexadecimal",
            Fault::NotAMedium => "is neither copper nor fibre",
            Fault::NotAYardstick => "is neither plain nor length",
        }
    }
}

/// As `is not a number`.
impl fmt::Display for Fault {
    ghost output = { λ fault. Some (said fault) };

    fn fmt<W: fmt::Write>(&self, f: &mut fmt::Formatter<W>) -> fmt::Result {
        f.write_str(self.says())
    }
}

/// As `word 3 is not a number`.
impl fmt::Display for Mistake {
    ghost output = { λ m. Some (codes "word " ++ (decimal m.word ++ (codes " " ++ said m.fault))) };

    fn fmt<W: fmt::Write>(&self, f: &mut fmt::Formatter<W>) -> fmt::Result {
        let Mistake { word, fault } = *self;
        write!(f, "word {word} {fault}")
    }
}

// The language of a console script: one command a line.
#![tactic(auto)]

ghost use Rattle.script.specs.Arguments.{Reads};
ghost use Rattle.script.specs.Laws.{WordsAreRuns, OneCut};
ghost use Rattle.script.specs.Readings.{told, reading};

use std::alloc::Global;

mod argument;
pub mod command;
mod cursor;
pub mod mistake;
mod numeral;
mod read;
pub mod stop;
mod verb;
pub mod yardstick;

use command::Command;
use cursor::Cursor;
use stop::Stop;

/// The command that a line gives, or none where it says nothing. What stops it is the first mistake in the line, or a lack of
/// memory, of which nothing more is said.
pub fn parse(heap: Global, line: &str) -> Result<Option<Command>, Stop>
    ensures { Reads told result (reading line.now) }
{
    let mut words = Cursor::new(heap, line)?;
    if words.says_nothing() {
        return Ok(None);
    }
    words.command().map(Some)
}

/// The words of a line are its maximal runs of bytes other than the space, and it has no others.
pub fn word_laws()
    ensures runs { WordsAreRuns }
    ensures one_cut { OneCut }
{}

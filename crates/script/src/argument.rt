// The words of a line, each read as what a command takes there.
ghost use Rattle.std.specs.Prelude.{◌≡◌, List, ℕ, length, nat_le, Result, vec_items};
ghost use Rattle.std.specs.Fn.{FnOnceReturnsAt};
ghost use Rattle.script.specs.declared.mistake.Fault.{Fault};
ghost use Rattle.script.specs.Words.{text};
ghost use Rattle.script.specs.Numerals.{number, hex};
ghost use Rattle.script.specs.Arguments.{Reads, same, word_at, read_at, faulted, verb, medium, yardstick, devices_from, end_at};
ghost use Rattle.script.specs.Cursors.{texts, Takes, TakesRest, Follows};

use crate::command::Yardstick;
use crate::cursor::Cursor;
use crate::mistake::Fault;
use crate::numeral::{bytes_in, number_in};
use crate::stop::{Stop, blame};
use crate::verb::Verb;
use network::cable::Medium;
use std::str::FromStr;

impl<'a> Cursor<'a> {
    /// The next word.
    fn word(&mut self) -> Result<&'a str, Stop>
        ensures { Takes 1 text result self.old self.new word_at }
    {
        let Some(word) = self.words.get(self.place - 1) else {
            return Err(blame(self.place, Fault::MissingWord));
        };
        self.place += 1;
        Ok(*word)
    }

    /// Whether a word is left.
    fn has_word(&self) -> bool
        ensures { result ≡ nat_le self.now.place (length (texts self.now)) }
    {
        self.place <= self.words.len()
    }

    /// The next word, as `parse` reads it.
    fn read<T, F: FnOnce(&str) -> Result<T, Fault>>(&mut self, parse: F) -> Result<T, Stop>
        requires { F.IsAlwaysCallable parse }
        ensures { (says : List ℕ → Result T Fault) → Follows (FnOnceReturnsAt F.FnOnce parse) says → Takes 1 same result self.old self.new (read_at says) }
    {
        let place = self.place;
        let word = self.word()?;
        parse(word).map_err(|fault| blame(place, fault))
    }

    /// The next word, as a number of at most `limit`.
    pub fn number(&mut self, limit: u16) -> Result<u16, Stop>
        ensures { Takes 1 same result self.old self.new (read_at (number limit)) }
    {
        self.read(|word| number_in(word, limit))
    }

    /// The next word, as a number of at most 255.
    pub fn byte(&mut self) -> Result<u8, Stop>
        ensures { Takes 1 same result self.old self.new (read_at (number 255)) }
    {
        // `as`, since the number is at most 255: `try_from` would have a failure that can't be.
        let value = self.number(255)?;
        Ok(value as u8)
    }

    /// The next word, as what it names; where it names nothing, `fault` is wrong with it.
    fn named<T: FromStr>(&mut self, fault: Fault) -> Result<T, Stop>
    where
        T::Err: Drop,
        ensures { (says : List ℕ → Result T T.Err) → Follows T.from_str_gives says → Takes 1 same result self.old self.new (read_at (λ w. faulted fault (says w))) }
    {
        self.read(|word| word.parse().map_err(|_| fault))
    }

    // `named` leaves the rule for the word to its caller, so each kind of word has a method whose clause names the rule.

    /// The next word, as a command's name.
    pub fn verb(&mut self) -> Result<Verb, Stop>
        ensures { Takes 1 same result self.old self.new (read_at verb) }
    {
        self.named(Fault::UnknownCommand)
    }

    /// The next word, as a medium.
    pub fn medium(&mut self) -> Result<Medium, Stop>
        ensures { Takes 1 same result self.old self.new (read_at medium) }
    {
        self.named(Fault::NotAMedium)
    }

    /// The next word, as a yardstick.
    pub fn yardstick(&mut self) -> Result<Yardstick, Stop>
        ensures { Takes 1 same result self.old self.new (read_at yardstick) }
    {
        self.named(Fault::NotAYardstick)
    }

    /// The next word, as bytes in hexadecimal, `-` for none.
    pub fn bytes(&mut self) -> Result<Vec<u8>, Stop>
        ensures { Takes 1 vec_items result self.old self.new (read_at hex) }
    {
        let place = self.place;
        let word = self.word()?;
        if word == "-" {
            return Ok(Vec::new(self.heap));
        }
        let bytes = bytes_in(self.heap, word)?;
        bytes.ok_or(blame(place, Fault::NotHexadecimal))
    }

    /// The words that are left, as numbers of devices.
    pub fn devices(&mut self) -> Result<Vec<u8>, Stop>
        ensures { TakesRest vec_items result self.old self.new devices_from }
    {
        // A loop with `?`: of a `collect` into a `Result` a proof does not know when it fails.
        let mut devices = Vec::new(self.heap);
        while self.has_word() {
            let device = self.byte()?;
            devices.push(device)?;
        }
        Ok(devices)
    }

    /// That no word is left.
    pub fn end(&self) -> Result<(), Stop>
        ensures { Reads same result (end_at (texts self.now) self.now.place) }
    {
        if self.has_word() {
            return Err(blame(self.place, Fault::ExtraWord));
        }
        Ok(())
    }
}

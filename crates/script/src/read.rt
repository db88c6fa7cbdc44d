// The commands, each read from the words of its line.
ghost use Rattle.std.specs.Prelude.{◌≡◌};
ghost use Rattle.script.specs.Arguments.{Reads, same};
ghost use Rattle.script.specs.Orders.{order_of, order, order_on, run_at, cable_at, tour_cable_at, claimed, claim_at, silent};
ghost use Rattle.script.specs.Cursors.{texts, Takes, TakesRest, Leads};

use crate::command::{Claim, Command};
use crate::cursor::Cursor;
use crate::stop::Stop;
use crate::verb::Verb;
use network::cable::{Cable, Run, TourCable};

impl<'a> Cursor<'a> {
    /// The next words, as a run: its medium and its length.
    fn run(&mut self) -> Result<Run, Stop>
        ensures { Takes 2 same result self.old self.new run_at }
    {
        let medium = self.medium()?;
        let length = self.number(u16::MAX)?;
        Ok(Run { medium, length })
    }

    /// The next words, as a cable: its two ends and its run.
    fn cable(&mut self) -> Result<Cable, Stop>
        ensures { Takes 4 same result self.old self.new cable_at }
    {
        let a = self.byte()?;
        let b = self.byte()?;
        let run = self.run()?;
        Ok(Cable { a, b, run })
    }

    /// The next words, as a cable of a tour: the tag of its drum and the cable.
    fn tour_cable(&mut self) -> Result<TourCable, Stop>
        ensures { Takes 5 same result self.old self.new tour_cable_at }
    {
        let tag = self.number(u16::MAX)?;
        let cable = self.cable()?;
        Ok(TourCable { tag, cable })
    }

    /// The words that are left, as a claim: a strength, a cut sheet and devices.
    fn claim(&mut self) -> Result<Claim, Stop>
        ensures { TakesRest claimed result self.old self.new claim_at }
    {
        let k = self.number(u16::MAX)?;
        let sheet = self.bytes()?;
        let list = self.devices()?;
        Ok(Claim { k, sheet, list })
    }

    /// What follows a command's name, all but the end of the line.
    fn arguments(&mut self, verb: Verb) -> Result<Command, Stop>
        requires { self.old.place ≡ 2 }
        ensures { Leads result self.new (order verb (texts self.old)) }
    {
        match verb {
            Verb::House => self.bytes().map(Command::House),
            Verb::Shift => self.byte().map(Command::Shift),
            Verb::Begin => Ok(Command::Begin),
            Verb::Lay => self.tour_cable().map(Command::Lay),
            Verb::Lift => self.number(u16::MAX).map(Command::Lift),
            Verb::Close => Ok(Command::Close),
            Verb::Reopen => Ok(Command::Reopen),
            Verb::Mark => self.number(u16::MAX).map(Command::Mark),
            Verb::Strength => self.devices().map(Command::Strength),
            Verb::Group => self.devices().map(Command::Group),
            Verb::Run => Ok(Command::Run(self.yardstick()?, self.devices()?)),
            Verb::Cut => self.devices().map(Command::Cut),
            Verb::Judge => self.claim().map(Command::Judge),
        }
    }

    /// The command that the words of a line give.
    pub fn command(&mut self) -> Result<Command, Stop>
        requires { self.old.place ≡ 1 }
        ensures { Reads order_of result (order_on (texts self.old)) }
    {
        let verb = self.verb()?;
        let command = self.arguments(verb)?;
        self.end()?;
        Ok(command)
    }

    /// Whether there is no word, or the first begins a comment.
    pub fn says_nothing(&self) -> bool
        ensures { result ≡ silent (texts self.now) }
    {
        self.words.first().is_none_or(|word| word.starts_with('#'))
    }
}

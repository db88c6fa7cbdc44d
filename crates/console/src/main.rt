// The console: reads a script from standard input, one command a line, and writes one line for each command.
#![tactic(auto)]

use desk::reply::Reply;
use desk::score::Score;
use desk::setup::Setup;
use desk::stage::play;
use houses::house::House;
use plan::plan::Open;
use plan::state::Plan;
use script::command::Command;
use script::stop::Stop;
use std::alloc::AllocError;
use std::io::{BufRead, BufReader, Split};

/// The script so far: how many lines were read, and the score.
#[derive(Drop)]
struct Progress {
    line: u64,
    score: Score,
}

impl Progress {
    // The command that a line gives. A blank line gives none, and a mistaken line none after it is answered.
    fn command_of(&mut self, rt: &HostRuntime, line: &[u8]) -> anyhow::Result<Option<Command>> {
        // Counted here, and no `enumerate`: two loops read on from one count.
        self.line = self.line.saturating_add(1);
        let number = self.line;
        let Ok(text) = std::str::from_utf8(line.strip_suffix(b"\r").unwrap_or(line)) else {
            self.score = self.score.mistaken();
            println!(rt; "error in line {number}: it is not text")?;
            return Ok(None);
        };
        match script::parse(rt.alloc(), text) {
            Ok(command) => Ok(command),
            Err(Stop::Mistake(mistake)) => {
                self.score = self.score.mistaken();
                println!(rt; "error in line {number}: {mistake}")?;
                Ok(None)
            }
            // A lack of memory holds nothing that could be handed on.
            Err(Stop::Memory) => Err(AllocError.into()),
        }
    }

    fn answer(&mut self, rt: &HostRuntime, reply: Reply) -> anyhow::Result<()> {
        self.score = self.score.answered(reply);
        println!(rt; "{reply}")?;
        Ok(())
    }
}

// Commands up to the one that begins the plan; false where the input ends before. A `bool`, since there is nothing to hand on with it.
fn set_up<R: BufRead + Drop>(
    rt: &HostRuntime,
    lines: &mut Split<R>,
    setup: &mut Setup,
    progress: &mut Progress,
) -> anyhow::Result<bool> {
    for line in lines {
        if let Some(command) = progress.command_of(rt, line?.as_slice())? {
            let reply = setup.play(command);
            progress.answer(rt, reply)?;
            if let Reply::Open = reply {
                return Ok(true);
            }
        }
    }
    Ok(false)
}

// The commands to a plan over the house, up to the end of the input. A loop of its own: a plan is moved through its commands, and a
// setup is changed in place until one begins the plan.
fn play_all<R: BufRead + Drop, H: House + Drop>(
    rt: &HostRuntime,
    lines: &mut Split<R>,
    house: H,
    progress: &mut Progress,
) -> anyhow::Result<()> {
    let mut plan = Plan::Open(Open::begin(house));
    for line in lines {
        if let Some(command) = progress.command_of(rt, line?.as_slice())? {
            let (next, reply) = play(plan, &command);
            plan = next;
            progress.answer(rt, reply)?;
        }
    }
    Ok(())
}

fn run(rt: &HostRuntime) -> anyhow::Result<()> {
    let mut lines = BufReader::new(rt.alloc(), rt.stdin())?.split(rt.alloc(), b'\n');
    let mut progress = Progress {
        line: 0,
        score: Score::none(),
    };
    let mut setup = Setup::new(rt.alloc());
    if set_up(rt, &mut lines, &mut setup, &mut progress)? {
        play_all(rt, &mut lines, setup.house(), &mut progress)?;
    }
    // Written once, so here and no `Display` of a score.
    let Score {
        commands,
        refused,
        errors,
    } = progress.score;
    println!(rt; "done: {commands} commands, {refused} refused, {errors} errors")?;
    Ok(())
}

fn main(rt: HostRuntime) -> anyhow::Result<()> {
    run(&rt)
}

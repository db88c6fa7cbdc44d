// What a console says on a closed plan. Asking changes nothing.
ghost use Rattle.std.specs.Prelude.{◌≡◌};
ghost use Rattle.plan.specs.Tables.{closed_cables};
ghost use Rattle.script.specs.declared.command.Yardstick.TheVariants as by;
ghost use Rattle.desk.specs.Questions.{replied, StrengthReply, GroupReply, RunReply, CutReply, JudgeReply, ClosedReply};

use crate::reply::{Cut, Group, Reply};
use crate::stage::told_mark;
use forest::yardstick::{Length, Plain};
use houses::house::House;
use network::refusal::Refusal;
use plan::plan::Closed;
use script::command::{Claim, Command, Yardstick};

// One function for each question, and no common one that is told what to ask: a clause here names the question's rule, and of a
// closure that asks it would say the same again. A closed plan and a list stand in each, since that is what a question is.

fn asked_strength<H: House>(closed: &Closed<H>, list: &[u8]) -> Result<Reply, Refusal>
    ensures { StrengthReply (closed_cables closed.now) list.now (replied result) }
{
    let strength = closed.strength(list)?;
    Ok(strength.map_or(Reply::Apart, Reply::Strength))
}

fn asked_group<H: House>(closed: &Closed<H>, list: &[u8]) -> Result<Reply, Refusal>
    ensures { GroupReply (closed_cables closed.now) list.now (replied result) }
{
    // A buffer of zeros here and below: `group` and `cut` write to their caller's.
    let mut devices = [0u8; 128];
    let Some((strength, count)) = closed.group(list, &mut devices)? else {
        return Ok(Reply::Apart);
    };
    Ok(Reply::Group(Group {
        strength,
        count,
        devices,
    }))
}

fn asked_plain_run<H: House>(closed: &Closed<H>, list: &[u8]) -> Result<Reply, Refusal>
    ensures { RunReply (closed_cables closed.now) by.Plain list.now (replied result) }
{
    let run = closed.run(list, &Plain)?;
    Ok(run.map_or(Reply::Apart, Reply::Run))
}

fn asked_length<H: House>(closed: &Closed<H>, list: &[u8]) -> Result<Reply, Refusal>
    ensures { RunReply (closed_cables closed.now) by.Length list.now (replied result) }
{
    let metres = closed.run(list, &Length)?;
    Ok(metres.map_or(Reply::Apart, |metres| Reply::Metres(metres.0)))
}

fn asked_run<H: House>(
    closed: &Closed<H>,
    yardstick: Yardstick,
    list: &[u8],
) -> Result<Reply, Refusal>
    ensures { RunReply (closed_cables closed.now) yardstick list.now (replied result) }
{
    match yardstick {
        Yardstick::Plain => asked_plain_run(closed, list),
        Yardstick::Length => asked_length(closed, list),
    }
}

fn asked_cut<H: House>(closed: &Closed<H>, list: &[u8]) -> Result<Reply, Refusal>
    ensures { CutReply (closed_cables closed.now) list.now (replied result) }
{
    let mut sheet = [0u8; 128];
    let strength = closed.cut(list, &mut sheet)?;
    Ok(Reply::Cut(Cut { strength, sheet }))
}

fn asked_judge<H: House>(closed: &Closed<H>, claim: &Claim) -> Result<Reply, Refusal>
    ensures { JudgeReply (closed_cables closed.now) claim.now (replied result) }
{
    closed.judge(claim.list.as_slice(), claim.k, claim.sheet.as_slice())?;
    Ok(Reply::Accepted)
}

// What is said to a command on a closed plan, or the refusal of its call.
fn answered<H: House>(closed: &Closed<H>, command: &Command) -> Result<Reply, Refusal>
    ensures { ClosedReply (closed_cables closed.now) command.now (replied result) }
{
    match command {
        Command::Reopen => Ok(Reply::Open),
        Command::Mark(place) => Ok(told_mark(closed.mark(*place))),
        Command::Strength(list) => asked_strength(closed, list.as_slice()),
        Command::Group(list) => asked_group(closed, list.as_slice()),
        Command::Run(yardstick, list) => asked_run(closed, *yardstick, list.as_slice()),
        Command::Cut(list) => asked_cut(closed, list.as_slice()),
        Command::Judge(claim) => asked_judge(closed, claim),
        _ => Ok(Reply::NotNow),
    }
}

/// What is said to a command on a closed plan. To reopen it is the caller's.
pub fn closed_reply<H: House>(closed: &Closed<H>, command: &Command) -> Reply
    ensures { ClosedReply (closed_cables closed.now) command.now result }
{
    answered(closed, command).unwrap_or_else(Reply::Refused)
}

ghost use Rattle.std.specs.Prelude.{IfOk};
ghost use Rattle.plan.specs.Questions.{GroupAnswer};
ghost use Rattle.plan.specs.Tables.{closed_cables};
ghost use Rattle.plan.specs.declared.state.Plan.TheVariants as plans;
ghost use Rattle.life.specs.Lives.{Step};
ghost use Rattle.life.specs.Scripts.{ask_of, reply_of, Replayed};

// Clauses name what the bounds have, `H.House.cables Y.Grade.Grade.over ..`, in full: a definition of specs/ has no bound to take it from.

use crate::call::{Answer, Call};
use forest::grade::Grade;
use forest::yardstick::Yardstick;
use houses::house::House;
use network::refusal::Refusal;
use plan::plan::{Closed, Open};
use plan::state::Plan;
use std::alloc::{AllocError, Global};

// One call of a script on an open plan.
fn on_open<H: House, Y: Yardstick>(mut plan: Open<H>, call: &Call<Y>) -> (Plan<H>, Answer<Y::Grade>)
    ensures { Step H.House.cables Y.Grade.Grade.over (λ (_ : Y). Y.Yardstick.graded) (plans.Open plan) (ask_of call.now) (reply_of result.1) result.0 }
{
    match call {
        Call::Lay(lay) => {
            let answer = plan.lay(lay.tag, lay.cable.a, lay.cable.b, lay.cable.run);
            (Plan::Open(plan), Answer::Tour(answer))
        }
        Call::Lift(tag) => {
            let answer = plan.lift(*tag);
            (Plan::Open(plan), Answer::Tour(answer))
        }
        Call::Close => (Plan::Closed(plan.close()), Answer::Turned),
        _ => (Plan::Open(plan), Answer::NotNow),
    }
}

// The group of a list, written into a buffer.
fn group_into<H: House>(
    plan: &Closed<H>,
    list: &[u8],
    buffer: &mut Vec<u8>,
) -> Result<Option<(u16, u8)>, Refusal>
    ensures { GroupAnswer (closed_cables plan.now) list.now buffer.old.items result buffer.new.items }
{
    plan.group(list, buffer.as_mut_slice())
}

// One call of a script on a closed plan. The group is written into a copy of the buffer.
fn on_closed<H: House + Drop, Y: Yardstick>(
    heap: Global,
    plan: Closed<H>,
    call: &Call<Y>,
) -> Result<(Plan<H>, Answer<Y::Grade>), AllocError>
    ensures { IfOk result (λ x. Step H.House.cables Y.Grade.Grade.over (λ (_ : Y). Y.Yardstick.graded) (plans.Closed plan) (ask_of call.now) (reply_of x.1) x.0) }
{
    match call {
        Call::Reopen => Ok((Plan::Open(plan.reopen()), Answer::Turned)),
        Call::Strength(list) => {
            let answer = plan.strength(list.as_slice());
            Ok((Plan::Closed(plan), Answer::Strength(answer)))
        }
        Call::Group(list, buffer) => {
            let mut written = Vec::from_slice(heap, buffer.as_slice())?;
            let answer = group_into(&plan, list.as_slice(), &mut written);
            Ok((Plan::Closed(plan), Answer::Group(answer, written)))
        }
        Call::Run(list, yardstick) => {
            let answer = plan.run(list.as_slice(), yardstick);
            Ok((Plan::Closed(plan), Answer::Run(answer)))
        }
        _ => Ok((Plan::Closed(plan), Answer::NotNow)),
    }
}

// One call of a script: the plan as it then is, with the answer.
fn perform<H: House + Drop, Y: Yardstick>(
    heap: Global,
    plan: Plan<H>,
    call: &Call<Y>,
) -> Result<(Plan<H>, Answer<Y::Grade>), AllocError>
    ensures { IfOk result (λ x. Step H.House.cables Y.Grade.Grade.over (λ (_ : Y). Y.Yardstick.graded) plan (ask_of call.now) (reply_of x.1) x.0) }
{
    match plan {
        Plan::Open(plan) => Ok(on_open(plan, call)),
        Plan::Closed(plan) => on_closed(heap, plan, call),
    }
}

/// Performs a life: begins a plan over the house, does the calls of the script in turn, each on the plan that the one before
/// left, and gives the answer to each. A call that the plan's state does not allow is answered so and changes nothing. Fails
/// only for want of memory.
pub fn replay<H: House + Drop, Y: Yardstick>(
    heap: Global,
    house: H,
    script: &[Call<Y>],
) -> Result<Vec<Answer<Y::Grade>>, AllocError>
    ensures { IfOk result (λ answers. Replayed H.House.cables Y.Grade.Grade.over (λ (_ : Y). Y.Yardstick.graded) house script.now answers.items) }
{
    let mut plan = Plan::Open(Open::begin(house));
    let mut answers = Vec::new(heap);
    for call in script {
        let (after, answer) = perform(heap, plan, call)?;
        plan = after;
        answers.push(answer)?;
    }
    Ok(answers)
}

ghost use Rattle.std.specs.Prelude.{◌≡◌, ◌++◌};
ghost use Rattle.plan.specs.Tally.{tour_cables};
ghost use Rattle.plan.specs.Plans.{home, is_open, tour_of, stored};
ghost use Rattle.desk.specs.Replies.{told, marked_reply, reply, open_after, tour_after, stored_after};

use crate::reply::Reply;
use houses::house::House;
use network::cable::MarkedCable;
use network::refusal::Refusal;
use plan::state::Plan;
use script::command::Command;

fn told_of(answer: Result<u16, Refusal>) -> Reply
    ensures { result ≡ told answer }
{
    answer.map_or_else(Reply::Refused, Reply::Tour)
}

pub(crate) fn told_mark(answer: Option<MarkedCable>) -> Reply
    ensures { result ≡ marked_reply answer }
{
    answer.map_or(Reply::Absent, Reply::Marked)
}

/// Does what a command says on a plan, and gives the plan as it then is, with the answer. A command that the state does not
/// allow changes nothing.
pub fn play<H: House>(plan: Plan<H>, command: &Command) -> (Plan<H>, Reply)
    ensures reply { result.1 ≡ reply (is_open plan) (stored plan) (tour_of plan) command.now }
    ensures state { is_open result.0 ≡ open_after (is_open plan) command.now }
    ensures tour { tour_of result.0 ≡ tour_after (is_open plan) (tour_of plan) command.now }
    ensures stored { stored result.0 ≡ stored_after (H.House.cables (home plan) ++ tour_cables (tour_of plan)) (is_open plan) (stored plan) command.now }
    ensures house { home result.0 ≡ home plan }
{
    match plan {
        Plan::Open(mut open) => match command {
            Command::Lay(lay) => {
                let answer = open.lay(lay.tag, lay.cable.a, lay.cable.b, lay.cable.run);
                (Plan::Open(open), told_of(answer))
            }
            Command::Lift(tag) => {
                let answer = open.lift(*tag);
                (Plan::Open(open), told_of(answer))
            }
            Command::Close => (Plan::Closed(open.close()), Reply::Closed),
            _ => (Plan::Open(open), Reply::NotNow),
        },
        Plan::Closed(closed) => match command {
            Command::Reopen => (Plan::Open(closed.reopen()), Reply::Open),
            Command::Mark(place) => {
                let answer = closed.mark(*place);
                (Plan::Closed(closed), told_mark(answer))
            }
            // `not yet`, though `closed_reply` has the answers: a console was promised to say so.
            Command::Strength(_)
            | Command::Group(_)
            | Command::Run(_, _)
            | Command::Cut(_)
            | Command::Judge(_) => (Plan::Closed(closed), Reply::NotYet),
            _ => (Plan::Closed(closed), Reply::NotNow),
        },
    }
}

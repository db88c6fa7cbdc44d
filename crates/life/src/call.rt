use network::cable::TourCable;
use network::refusal::Refusal;

// Calls and answers of their own beside the commands and replies of a console: a law over lives speaks of any type of yardsticks, and
// of what the calls answer, not of what a console says.

/// One call of a script, with its arguments.
#[derive(Drop)]
pub enum Call<Y> {
    /// The cable to lay, with its tag.
    Lay(TourCable),
    /// The tag.
    Lift(u16),
    Close,
    Reopen,
    /// The list of devices.
    Strength(Vec<u8>),
    /// The list of devices, and what the buffer for the group holds before.
    Group(Vec<u8>, Vec<u8>),
    /// The list of devices, and the yardstick.
    Run(Vec<u8>, Y),
}

/// What a call is answered. `G` is the grade of the yardsticks.
#[derive(Drop)]
pub enum Answer<G> {
    /// To a lay or a lift: the tour's new count.
    Tour(Result<u16, Refusal>),
    /// To a close or a reopen.
    Turned,
    /// The strength, absent for apart.
    Strength(Result<Option<u16>, Refusal>),
    /// The strength with the size of the group, absent for apart, and what the buffer then holds.
    Group(Result<Option<(u16, u8)>, Refusal>, Vec<u8>),
    /// The grade, absent where the cables do not join the list.
    Run(Result<Option<G>, Refusal>),
    /// The plan's state does not allow the call, and nothing is done.
    NotNow,
}

use houses::misread::Misread;
use network::cable::{Cable, MarkedCable, Run};
use network::refusal::Refusal;
use std::fmt;

// A struct with a length beside bytes, a strength of 0, and one flat enum of all answers: the types that a console's callers match on.

/// The group of a list: the list's strength, how many devices the group has, and a byte for each device, 1 where it is in.
#[derive(Clone, Copy)]
pub struct Group {
    pub strength: u16,
    pub count: u8,
    pub devices: [u8; 128],
}

/// A cut sheet of a list, and the list's strength, 0 for apart.
#[derive(Clone, Copy)]
pub struct Cut {
    pub strength: u16,
    pub sheet: [u8; 128],
}

/// What a console answers to a command.
#[derive(Clone, Copy)]
pub enum Reply {
    /// The sheet is taken, with so many cables.
    House(u16),
    /// The sheet is refused.
    Misread(Misread),
    /// The shift is taken.
    Shift(u8),
    /// The plan is open.
    Open,
    /// The plan is closed.
    Closed,
    /// The tour has so many cables.
    Tour(u16),
    /// The cable at the place that was asked for, with its mark.
    Marked(MarkedCable),
    /// There is no cable at the place.
    Absent,
    /// The strength of the list.
    Strength(u16),
    /// The list is apart.
    Apart,
    /// The group of the list.
    Group(Group),
    /// The poorest run that the list needs.
    Run(Run),
    /// The poorest length that the list needs, in metres.
    Metres(u16),
    /// A cut sheet of the list.
    Cut(Cut),
    /// The cut sheet is good for the list at the claimed strength.
    Accepted,
    /// The call is refused.
    Refused(Refusal),
    /// The state does not allow the command.
    NotNow,
    /// The console cannot do this yet.
    NotYet,
}

// The strength, the count and the group's devices, rising. A function: a group is shown within a reply alone, and of what a `write!` in a
// loop has written a proof knows nothing that a `Display` of its own could promise.
fn show_group<W: fmt::Write>(group: &Group, f: &mut fmt::Formatter<W>) -> fmt::Result {
    let strength = group.strength;
    let count = group.count;
    write!(f, "group {strength} {count}")?;
    for (device, byte) in group.devices.iter().enumerate() {
        // The bytes that a plan writes, which are its format: 1 is in.
        if *byte == 1 {
            write!(f, " {device}")?;
        }
    }
    Ok(())
}

// The strength and the sheet's bytes, two digits to a byte; a function for the same reason.
fn show_cut<W: fmt::Write>(cut: &Cut, f: &mut fmt::Formatter<W>) -> fmt::Result {
    let strength = cut.strength;
    write!(f, "cut {strength} ")?;
    for part in cut.sheet {
        write!(f, "{part:02x}")?;
    }
    Ok(())
}

/// The line that a console writes.
impl fmt::Display for Reply {
    fn fmt<W: fmt::Write>(&self, f: &mut fmt::Formatter<W>) -> fmt::Result {
        match self {
            Reply::House(count) => write!(f, "house {count}"),
            Reply::Misread(misread) => write!(f, "{misread}"),
            Reply::Shift(by) => write!(f, "shift {by}"),
            Reply::Open => f.write_str("open"),
            Reply::Closed => f.write_str("closed"),
            Reply::Tour(count) => write!(f, "tour {count}"),
            Reply::Marked(marked) => {
                // Here, and no `Display` of a marked cable: the mark list writes one in other words.
                let Cable { a, b, run } = marked.cable;
                let mark = marked.mark;
                write!(f, "mark {a} {b} {run} {mark}")
            }
            Reply::Absent => f.write_str("absent"),
            Reply::Strength(strength) => write!(f, "strength {strength}"),
            Reply::Apart => f.write_str("apart"),
            Reply::Group(group) => show_group(group, f),
            Reply::Run(run) => write!(f, "run {run}"),
            Reply::Metres(length) => write!(f, "run {length}"),
            Reply::Cut(cut) => show_cut(cut, f),
            Reply::Accepted => f.write_str("accepted"),
            Reply::Refused(refusal) => write!(f, "{refusal}"),
            Reply::NotNow => f.write_str("not now"),
            Reply::NotYet => f.write_str("not yet"),
        }
    }
}

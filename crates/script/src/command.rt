// The commands of a script.
use network::cable::TourCable;

/// The yardstick of a run: plain, or by length.
#[derive(Clone, Copy, PartialEq, Eq, Debug)]
pub enum Yardstick {
    Plain,
    Length,
}

/// A claim to judge: the strength, the cut sheet and the list of devices.
#[derive(PartialEq, Eq, Debug, Drop)]
pub struct Claim {
    pub k: u16,
    pub sheet: Vec<u8>,
    pub list: Vec<u8>,
}

/// One command of a script. A list of devices, `D ..`, may be empty, and `HEX` is `-` for no bytes.
#[derive(PartialEq, Eq, Debug, Drop)]
pub enum Command {
    /// `house HEX`
    House(Vec<u8>),
    /// `shift S`
    Shift(u8),
    /// `begin`
    Begin,
    /// `lay TAG A B copper LENGTH`, or with `fibre`
    Lay(TourCable),
    /// `lift TAG`
    Lift(u16),
    /// `close`
    Close,
    /// `reopen`
    Reopen,
    /// `mark PLACE`
    Mark(u16),
    /// `strength D ..`
    Strength(Vec<u8>),
    /// `group D ..`
    Group(Vec<u8>),
    /// `run plain D ..`, or with `length`
    Run(Yardstick, Vec<u8>),
    /// `cut D ..`
    Cut(Vec<u8>),
    /// `judge K HEX D ..`
    Judge(Claim),
}

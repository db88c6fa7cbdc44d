// What a stage network is made of.

/// What a cable is made of.
#[derive(Clone, Copy, PartialEq, Eq, Debug, Default)]
pub enum Medium {
    #[default]
    Copper,
    Fibre,
}

/// The medium of a cable, and its length in whole metres. The default, like that of each struct below, is no lawful one: it
/// is what an unused place of a fixed table holds.
#[derive(Clone, Copy, PartialEq, Eq, Debug, Default)]
pub struct Run {
    pub medium: Medium,
    pub length: u16,
}

/// A cable: the numbers of the two devices that it joins, and its run.
#[derive(Clone, Copy, PartialEq, Eq, Debug, Default)]
pub struct Cable {
    pub a: u8,
    pub b: u8,
    pub run: Run,
}

/// A cable with its mark.
#[derive(Clone, Copy, PartialEq, Eq, Debug, Default)]
pub struct MarkedCable {
    pub cable: Cable,
    pub mark: u16,
}

/// A cable of a tour, laid or to be laid, with the tag of its drum.
#[derive(Clone, Copy, PartialEq, Eq, Debug, Default)]
pub struct TourCable {
    pub tag: u16,
    pub cable: Cable,
}

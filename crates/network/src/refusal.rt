/// Why a call is refused: one variant for each rule that a call can break, with the number by which it is known.
#[derive(Clone, Copy, PartialEq, Eq, Debug)]
pub enum Refusal {
    /// A device above 127.
    DeviceOutOfRange = 1,
    /// Both ends of a cable are the same device.
    SameEnds = 2,
    /// A medium that is neither copper nor fibre, or a length outside the medium's range.
    RunOutOfRange = 3,
    /// The drum tag is already in the tour.
    TagTaken = 4,
    /// The tour has 256 cables.
    TourFull = 5,
    /// The drum tag is not in the tour.
    TagMissing = 6,
    /// The list of devices is empty.
    ListEmpty = 7,
    /// The list of devices has more than 128 entries.
    ListTooLong = 8,
    /// The buffer has fewer than 128 bytes.
    BufferTooShort = 9,
    /// The list names fewer than two different devices.
    TooFewDevices = 10,
    /// A record of a sheet has an unknown kind.
    UnknownKind = 11,
    /// A sheet ends within a record's body.
    BodyCutShort = 12,
    /// A sheet has more than 256 cables.
    TooManyCables = 13,
    /// A chain or a star of a sheet breaks its rule.
    BadChainOrStar = 14,
    /// A ring's count is outside 3 to 128.
    RingCount = 15,
    /// A cut sheet that is not 128 bytes, or has a byte above 127.
    BadCutSheet = 16,
    /// A part of a cut sheet leads out with more cables than claimed.
    PartLeadsOut = 17,
    /// A part of several devices holds the whole list.
    PartHoldsList = 18,
}

ghost use Rattle.std.specs.Prelude.{◌<◌};

// The finder's `Link` is a cable of the set at hand; these are those of any cable, and the crate does not show its links.

/// The two ends of a cable: devices.
#[derive(Clone, Copy)]
pub(crate) struct Ends {
    pub(crate) a: u8,
    pub(crate) b: u8,
    ghost devices: { (a < 128) × (b < 128) },
}

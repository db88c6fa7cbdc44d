ghost use Rattle.std.specs.Prelude.{◌<◌};

/// A cable that belongs to the set at hand: the devices that it joins.
#[derive(Clone, Copy)]
pub struct Link {
    pub a: u8,
    pub b: u8,
    ghost low: { a < 128 },
    ghost high: { b < 128 },
}

// By hand: the kit derives no `Default` for a struct with ghost fields.

/// What an unused place of a fixed table holds.
impl Default for Link {
    fn default() -> Link {
        Link { a: 0, b: 0 }
    }
}

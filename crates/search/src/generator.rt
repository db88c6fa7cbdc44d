ghost use Rattle.std.specs.Prelude.{◌<◌};

/// Numbers that a seed determines, by a linear congruence. Its own, and no library's: the stored output is of the rigs that it
/// gives.
#[derive(Drop)]
pub struct Generator {
    state: u64,
}

impl Generator {
    pub fn new(seed: u64) -> Self {
        Generator { state: seed }
    }

    /// The next number, below the limit.
    pub fn below(&mut self, limit: u8) -> u8
        requires { 0 < limit }
        ensures { result < limit }
    {
        let next = self.state.wrapping_mul(6364136223846793005);
        self.state = next.wrapping_add(1442695040888963407);
        ((self.state >> 33) % u64::from(limit)) as u8
    }
}

// Small rigs: at most six devices, so that a set of them is a byte.
ghost use Rattle.std.specs.Prelude.{◌<◌, ◌≤◌, All, ℕ};

use crate::generator::Generator;
use std::alloc::{AllocError, Global};

/// A cable of a small rig: its two devices, and the set of the two, with a bit for each device.
#[derive(Clone, Copy)]
pub struct Small {
    pub a: u8,
    pub b: u8,
    pub ends: u8,
}

/// The devices of the fixed rigs.
pub const FIRST: [u8; 6] = [0, 1, 2, 3, 4, 5];

/// The devices of the random rigs. The first three are those of a ring of 3 from device 126 on.
pub const SPREAD: [u8; 6] = [126, 127, 0, 17, 64, 99];

fn joined(devices: &[u8; 6], i: u8, j: u8) -> Small
    requires first { i < 6 }
    requires second { j < 6 }
{
    Small {
        a: devices[usize::from(i)],
        b: devices[usize::from(j)],
        ends: 1 << i | 1 << j,
    }
}

/// The rig of the cables that join these devices, told by their indices in the table.
pub fn rig_of(heap: Global, devices: &[u8; 6], pairs: &[(u8, u8)]) -> Result<Vec<Small>, AllocError>
    requires { All (λ (p : ℕ × ℕ). (p.0 < 6) × (p.1 < 6)) pairs.now }
{
    let mut rig = Vec::new(heap);
    for (i, j) in pairs {
        rig.push(joined(devices, *i, *j))?;
    }
    Ok(rig)
}

fn random_cable(generator: &mut Generator, devices: u8) -> Small
    requires least { 2 ≤ devices }
    requires most { devices ≤ 6 }
{
    let i = generator.below(devices);
    let j = (i + 1 + generator.below(devices - 1)) % devices;
    joined(&SPREAD, i, j)
}

/// Puts 1 to 12 cables between 2 to 6 devices behind those of the rig.
pub fn add_random(generator: &mut Generator, rig: &mut Vec<Small>) -> Result<(), AllocError> {
    let devices = 2 + generator.below(5);
    let cables = 1 + generator.below(12);
    for _ in 0..cables {
        rig.push(random_cable(generator, devices))?;
    }
    Ok(())
}

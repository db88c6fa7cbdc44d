// Whether a set has two devices or more, and whether they have one label.
ghost use Rattle.std.specs.Prelude.{◌≡◌, ℕ, ◌<◌, true, false, MatchOption, ◌≢◌};
ghost use Rattle.network.specs.Sets.{DeviceSet};
ghost use Rattle.cuts.specs.Members.{set_of};
ghost use Rattle.forest.specs.Labels.{OneLabel, Tells};

use cuts::devices::Devices;

/// The lowest device of a set.
pub fn lowest(devices: &Devices) -> Option<u8>
    ensures { MatchOption result ((d : ℕ) → d < 128 → set_of devices.now d ≡ false) (λ d. (d < 128) × (set_of devices.now d ≡ true) × ((e : ℕ) → e < d → set_of devices.now e ≡ false)) }
{
    devices
        .flags()
        .iter()
        .position(|flag| *flag)
        .map(|d| d as u8)
}

/// Whether a set has a device other than this one.
fn has_other(devices: &Devices, than: u8) -> bool
    ensures { Tells result ((d : ℕ) × (d < 128) × (set_of devices.now d ≡ true) × (d ≢ than)) }
{
    devices
        .flags()
        .iter()
        .enumerate()
        .any(|(d, flag)| *flag && d != than as usize)
}

/// A device of a set of two or more; none where there are fewer.
pub fn one_of_several(devices: &Devices) -> Option<u8>
    ensures { MatchOption result (DeviceSet (set_of devices.now) → ⊥) (λ d. DeviceSet (set_of devices.now) × (set_of devices.now d ≡ true)) }
{
    lowest(devices).filter(|one| has_other(devices, *one))
}

/// Whether the devices of the set have one label, of which `one` is one.
pub(crate) fn one_label(labels: &[u8; 128], devices: &Devices, one: u8) -> bool
    requires { set_of devices.now one ≡ true }
    ensures { Tells result (OneLabel labels.now (set_of devices.now)) }
{
    let shared = labels[one as usize];
    devices
        .flags()
        .iter()
        .zip(labels)
        .all(|(flag, label)| !*flag || *label == shared)
}

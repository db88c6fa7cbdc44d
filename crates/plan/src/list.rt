// Lists of devices, as they are asked about.
ghost use Rattle.std.specs.Prelude.{◌≡◌};
ghost use Rattle.plan.specs.Tests.{outside, list_check, Gives};
ghost use Rattle.cuts.specs.Members.{set_of};
ghost use Rattle.cutsheets.specs.Listing.{Names};

use cuts::devices::Devices;
use network::out_of_range;
use network::refusal::Refusal;

/// Whether one of the bytes is above 127.
pub(crate) fn any_out_of_range(bytes: &[u8]) -> bool
    ensures { result ≡ outside bytes.now }
{
    bytes.iter().any(|byte| out_of_range(*byte))
}

/// The devices that a list names. Refused where it is empty, has more than 128 entries, or names a number above 127.
pub(crate) fn listed(list: &[u8]) -> Result<Devices, Refusal>
    ensures { Gives (list_check list.now) (λ s. Names list.now (set_of s)) result }
{
    if list.is_empty() {
        return Err(Refusal::ListEmpty);
    }
    if list.len() > 128 {
        return Err(Refusal::ListTooLong);
    }
    if any_out_of_range(list) {
        return Err(Refusal::DeviceOutOfRange);
    }
    let mut devices = Devices::none();
    for device in list {
        devices.add(*device);
    }
    Ok(devices)
}

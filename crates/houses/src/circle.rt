ghost use Rattle.std.specs.Prelude.{◌≡◌, ◌+◌, ◌%◌, ◌<◌};

// A number of a circle of `size` numbers, counted up by `by`.
pub(crate) fn counted_up(from: u8, by: u8, size: u8) -> u8
    requires { 0 < size }
    ensures { result ≡ (from + by) % size }
{
    ((u16::from(from) + u16::from(by)) % u16::from(size)) as u8
}

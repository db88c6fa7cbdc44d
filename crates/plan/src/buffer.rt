// Writing to a caller's buffer.
ghost use Rattle.std.specs.Prelude.{◌≡◌, ◌≤◌, length, take, drop, Ok, nat_lt};
ghost use Rattle.network.specs.Refusals.{refuse};
ghost use Rattle.network.specs.declared.refusal.Refusal.TheVariants.{BufferTooShort};

use network::refusal::Refusal;

/// Refused where a buffer has fewer than 128 bytes.
pub(crate) fn has_room(buffer: &[u8]) -> Result<(), Refusal>
    ensures { result ≡ refuse BufferTooShort (nat_lt (length buffer.now) 128) (Ok tt) }
{
    if buffer.len() < 128 {
        return Err(Refusal::BufferTooShort);
    }
    Ok(())
}

/// Writes 128 bytes from byte 0 of a buffer and leaves later bytes.
pub(crate) fn write_first(buffer: &mut [u8], bytes: &[u8; 128])
    requires { 128 ≤ length buffer.old }
    ensures first { take 128 buffer.new ≡ bytes.now }
    ensures later { drop 128 buffer.new ≡ drop 128 buffer.old }
{
    buffer[0..128].copy_from_slice(bytes);
}

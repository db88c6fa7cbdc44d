// Lines of text, written into a caller's buffer.
#![tactic(auto)]

ghost use Rattle.std.specs.Prelude.{◌≡◌, ◌+◌, ◌<◌, ◌≤◌, ◌++◌, length, drop, if◌then◌else◌, Ok, decimal, nat_lt};
ghost use Rattle.arrayvec.specs.ArrayString.{array_string_len};
ghost use Rattle.network.specs.Refusals.{refuse};
ghost use Rattle.network.specs.declared.refusal.Refusal.TheVariants.{BufferTooShort};
ghost use Rattle.lines.specs.Lines.{mark_text, refusal_text};

use arrayvec::ArrayString;
use itoa::Buffer;
use network::cable::{Cable, MarkedCable};
use network::refusal::Refusal;

/// How many bytes a buffer for a line has at least. Every line is shorter.
pub const ROOM: usize = 128;

/// Writes the line of a place and a marked cable at the front of the buffer: the place, the two ends and the mark in
/// decimal, one space between, and a newline. Answers how many bytes it wrote, and leaves those behind them.
/// Refused, with the buffer unchanged, where the buffer has fewer than 128 bytes. Allocates nothing.
pub fn mark_line(place: u16, marked: MarkedCable, buffer: &mut [u8]) -> Result<usize, Refusal>
    ensures answer { result ≡ refuse BufferTooShort (nat_lt (length buffer.old) 128) (Ok (length (mark_text place marked))) }
    ensures after { buffer.new ≡ (if nat_lt (length buffer.old) 128 then buffer.old else mark_text place marked ++ drop (length (mark_text place marked)) buffer.old) }
{
    let Cable { a, b, run: _ } = marked.cable;
    let mut line = ArrayString::<ROOM>::new();
    add_number(&mut line, place, " ");
    add_number(&mut line, u16::from(a), " ");
    add_number(&mut line, u16::from(b), " ");
    add_number(&mut line, marked.mark, "\n");
    put(&line, buffer)
}

// A number, and no `Refusal`: a narrower parameter would ask more of callers.

/// Writes `refused N at P` and a newline at the front of the buffer, with the number of a refusal for N and a place for P.
/// Answers how many bytes it wrote, and leaves those behind them.
/// Refused, with the buffer unchanged, where the buffer has fewer than 128 bytes. Allocates nothing.
pub fn refusal_line(number: u16, place: u16, buffer: &mut [u8]) -> Result<usize, Refusal>
    ensures answer { result ≡ refuse BufferTooShort (nat_lt (length buffer.old) 128) (Ok (length (refusal_text number place))) }
    ensures after { buffer.new ≡ (if nat_lt (length buffer.old) 128 then buffer.old else refusal_text number place ++ drop (length (refusal_text number place)) buffer.old) }
{
    let mut line = ArrayString::<ROOM>::new();
    line.push_str("refused ");
    add_number(&mut line, number, " at ");
    add_number(&mut line, place, "\n");
    put(&line, buffer)
}

// Adds a number in decimal, at most five digits, and a text behind it. By `push_str`, which asks for room: `write!` says nothing where
// it fails.
fn add_number(line: &mut ArrayString<ROOM>, n: u16, behind: &str)
    requires { array_string_len line.old + 5 + length behind.now ≤ ROOM }
    ensures bytes { line.new.bytes ≡ line.old.bytes ++ decimal n ++ behind.now }
    ensures short { array_string_len line.new ≤ array_string_len line.old + 5 + length behind.now }
{
    line.push_str(Buffer::new().format(n));
    line.push_str(behind);
}

// Writes a line at the front of a buffer, and answers how long it is.
fn put(line: &ArrayString<ROOM>, buffer: &mut [u8]) -> Result<usize, Refusal>
    ensures answer { result ≡ refuse BufferTooShort (nat_lt (length buffer.old) 128) (Ok (length line.now.bytes)) }
    ensures after { buffer.new ≡ (if nat_lt (length buffer.old) 128 then buffer.old else line.now.bytes ++ drop (length line.now.bytes) buffer.old) }
{
    if buffer.len() < ROOM {
        return Err(Refusal::BufferTooShort);
    }
    buffer[..line.len()].copy_from_slice(line.as_bytes());
    Ok(line.len())
}

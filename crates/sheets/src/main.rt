//! Reads many tapes from standard input, each after its length as a u32, little-endian, and writes the sheet of each,
//! followed by a line with a single `.`. For comparisons of many tapes in one run.
#![tactic(auto)]

ghost use Rattle.std.specs.Prelude.{◌+◌, ◌*◌, ◌≤◌, ◌<◌, length, IfOk, IfSome};

use reading::{read_full, write_or_say};
use std::io;
use std::io::Read;

// What standard error says of sheets that were not written whole.
const NOT_WRITTEN: &str = "sheets not written";

fn main(rt: HostRuntime) -> io::Result<()> {
    let mut bytes = [0u8; 65536];
    let mut out = [0u8; 65536];
    sheets(&rt, &mut bytes, &mut out)
}

// Sheets are gathered in the buffer and written when there may be no room for another. A proved loop has to end, so
// this one has a number of turns that no run uses up.
fn sheets(rt: &HostRuntime, bytes: &mut [u8], out: &mut [u8]) -> io::Result<()> {
    let mut at = 0;
    for _ in 0..u64::MAX {
        match next_tape(rt, bytes) {
            Ok(Some(n)) => {
                let due = due_at(at, out.len());
                write_or_say(&mut io::writer(rt), &out[..due], rt, NOT_WRITTEN)?;
                at = put_sheet(&bytes[..n], out, at - due);
            }
            Ok(None) => break,
            Err(e) => {
                write_or_say(&mut io::writer(rt), &out[..at], rt, NOT_WRITTEN)?;
                return Err(e);
            }
        }
    }
    write_or_say(&mut io::writer(rt), &out[..at], rt, NOT_WRITTEN)
}

// How many bytes have to be written now: all of them where a sheet and its last line may not fit after them.
fn due_at(at: usize, room: usize) -> usize
    requires { at ≤ room }
    ensures { result ≤ at }
{
    if room - at < 49252 { at } else { 0 }
}

// The sheet of a tape and the line with a single `.`, at a place; nothing where there is no room.
fn put_sheet(tape: &[u8], out: &mut [u8], at: usize) -> usize
    requires { at ≤ length out.old }
    ensures { result ≤ length out.new }
{
    let room = out.len() - at;
    let Ok(n) = tape::sheet_of(tape, &mut out[at..]) else {
        return at;
    };
    if room - n < 2 {
        return at;
    }
    let end = at + n;
    out[end..end + 2].copy_from_slice(b".\n");
    end + 2
}

// The next tape is read to the front of the buffer. The answer is its length, or that the stream has ended. A tape that
// is longer than the buffer is longer than every tape: its front is refused, and the rest is passed over.
fn next_tape(rt: &HostRuntime, bytes: &mut [u8]) -> io::Result<Option<usize>>
    ensures { IfOk result (λ read. IfSome read (λ n. n ≤ length bytes.new)) }
{
    let mut head = [0u8; 4];
    if read_full(&mut rt.stdin(), &mut head)? < 4 {
        return Ok(None);
    }
    // `as`, since a u32 has no From to usize, nor a usize to u64. A usize has 64 bits here, so both keep the number.
    let n = u32::from_le_bytes(head) as usize;
    let m = n.min(bytes.len());
    let read = read_full(&mut rt.stdin(), &mut bytes[..m])?;
    io::copy(&mut rt.stdin().take((n - m) as u64), &mut io::sink())?;
    Ok(Some(read))
}

//! Reads a tape from standard input and writes its answer sheet to standard output.
#![tactic(auto)]

use reading::{read_full, write_or_say};
use std::io;
use tape::TooShort;

// The buffers hold 65,536 bytes. The longest tape has 57,411, so input that does not end in the buffer is refused; and
// no sheet has more than 49,250, so there is always room.
fn main(rt: HostRuntime) -> io::Result<()> {
    let mut bytes = [0u8; 65536];
    let read = read_full(&mut rt.stdin(), &mut bytes)?;
    let mut out = [0u8; 65536];
    match tape::sheet_of(&bytes[..read], &mut out) {
        Ok(n) => write_or_say(&mut io::writer(&rt), &out[..n], &rt, "sheet not written"),
        Err(TooShort) => Ok(()),
    }
}

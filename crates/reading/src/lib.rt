//! For the programs: reads to the end of a buffer or of the input, and writes all bytes or says that it could not.
#![tactic(auto)]

ghost use Rattle.std.specs.Prelude.{◌<◌, length, take, IfOk, OnOk};
ghost use Rattle.std.specs.Io.{ReadsAtMost};
ghost use Rattle.std.specs.Io.KnownBytes.{Appends, Consumes, IsAtEnd};

use std::io;
use std::io::{Read, Write};

/// Reads until `buf` is full or the input ends, and answers how many bytes it put at the start of `buf`. The first read
/// that fails ends it.
pub fn read_full<R: Read>(input: &mut R, buf: &mut [u8]) -> io::Result<usize>
    ensures bound { ReadsAtMost result buf.new }
    ensures bytes { IfOk result (λ n. Consumes (R.remaining input.old) (R.remaining input.new) (take n buf.new)) }
    ensures end { IfOk result (λ n. n < length buf.new → IsAtEnd (R.remaining input.new)) }
{
    let mut done = 0;
    // No range or iterator is plainer: a turn adds as many as the read gave.
    while done < buf.len() {
        let got = input.read(&mut buf[done..])?;
        if got == 0 {
            break;
        }
        done += got;
    }
    Ok(done)
}

/// Writes all of `bytes`. Where that fails, it says `message` on standard error and answers the error of the write.
pub fn write_or_say<W: Write, E: Eprint>(
    out: &mut W,
    bytes: &[u8],
    err: &E,
    message: &str,
) -> io::Result<()>
    ensures bytes { OnOk result (Appends (W.contents out.old) (W.contents out.new) bytes.now) }
{
    let result = out.write_all(bytes);
    if result.is_err() {
        let _ = err.eprintln(message);
    }
    result
}

#![tactic(auto)]

// Reads manifests from standard input, each after its u16 length, and writes a line for each: `0` for a good
// manifest, `3` for any other bytes. Where the input ends inside a manifest, or a read fails, the last line is `cut`.
ghost use Rattle.std.specs.Prelude.{◌≡◌, ◌+◌, ◌*◌, ◌≤◌, length, slice_index};

use reading::{read_full, write_or_say};
use std::io;

// What standard error says of a line that was not written whole. No further line is written.
const NOT_WRITTEN: &str = "verdicts: a write failed";

// What the input has next: a manifest, whose answer is this digit; its end; or less than was announced.
#[derive(Clone, Copy)]
enum Next {
    Answer(u8),
    End,
    Cut,
}

// A proved loop has to end, and nothing says that the input does. So the loop has a number of turns that no run uses
// up.
fn main(rt: HostRuntime) -> io::Result<()> {
    for _ in 0..u64::MAX {
        if !answer_some(&rt)? {
            break;
        }
    }
    Ok(())
}

// Answers the next 2,048 manifests, or those that are left, and says whether to go on. Their lines are written
// together, since a write takes longer than a check.
fn answer_some(rt: &HostRuntime) -> io::Result<bool> {
    let mut bytes = [0u8; 65536];
    let mut lines = [[b'\n'; 2]; 2048];
    for (i, line) in lines.iter_mut().enumerate() {
        match answer_next(rt, &mut bytes) {
            Ok(Next::Answer(digit)) => line[0] = digit,
            last => return end(rt, lines[..i].as_flattened(), last),
        }
    }
    write_or_say(&mut io::writer(rt), lines.as_flattened(), rt, NOT_WRITTEN)?;
    Ok(true)
}

// Writes the last lines. No manifest comes after them, so the answer is to stop, or the error of the read that failed.
fn end(rt: &HostRuntime, lines: &[u8], last: io::Result<Next>) -> io::Result<bool> {
    write_or_say(&mut io::writer(rt), lines, rt, NOT_WRITTEN)?;
    match last {
        Ok(Next::End) => {}
        _ => write_or_say(&mut io::writer(rt), b"cut\n", rt, NOT_WRITTEN)?,
    }
    last?;
    Ok(false)
}

fn answer_next(rt: &HostRuntime, bytes: &mut [u8]) -> io::Result<Next>
    requires { 65535 ≤ length bytes.old }
{
    let mut head = [0u8; 2];
    match read_full(&mut rt.stdin(), &mut head)? {
        0 => nothing_came(rt),
        1 => Ok(Next::Cut),
        _ => answer_manifest(rt, &mut bytes[..length_of(head)]),
    }
}

// An input that has ended gives nothing when it is asked again. One that gives more then had come to an end in between.
fn nothing_came(rt: &HostRuntime) -> io::Result<Next> {
    let mut more = [0u8; 1];
    match read_full(&mut rt.stdin(), &mut more)? {
        0 => Ok(Next::End),
        _ => Ok(Next::Cut),
    }
}

// Fills `bytes`, which is as long as the manifest, and answers it.
fn answer_manifest(rt: &HostRuntime, bytes: &mut [u8]) -> io::Result<Next> {
    let got = read_full(&mut rt.stdin(), bytes)?;
    if got < bytes.len() {
        return Ok(Next::Cut);
    }
    Ok(Next::Answer(digit_of(manifest::manifest_check(bytes))))
}

// A function of its own, since its contract bounds the slice that is read.
fn length_of(head: [u8; 2]) -> usize
    ensures value { result ≡ slice_index head 0 + 256 * slice_index head 1 }
    ensures upper_bound { result ≤ 65535 }
{
    usize::from(u16::from_le_bytes(head))
}

// The numbers are those of the C interface. The reader answers 0 or 3; a `?` on a line would say that the compiled one
// does not.
fn digit_of(answer: u32) -> u8
    ensures good { answer ≡ 0 → result ≡ 48 }
    ensures malformed { answer ≡ 3 → result ≡ 51 }
{
    match answer {
        0 => b'0',
        3 => b'3',
        _ => b'?',
    }
}

// Reading and writing for the programs, over std's readers and writers. A call that a signal interrupts (EINTR), or
// that a descriptor in non-blocking mode cannot serve at once (EAGAIN), is tried again.
//
// Which bytes a reader gives and what a writer holds is stated where the reader or writer says it, as one over
// memory does. Of the bytes that the system reads and writes no contract can speak.
#![tactic(auto)]

ghost use Rattle.std.specs.Prelude.{◌≡◌, ◌<◌, ◌≤◌, length, take, IfOk, OnErr, IsSome};
ghost use Rattle.std.specs.Io.KnownBytes.{Appends, Consumes, IsAtEnd, ReadConsumes};
ghost use Rattle.stdio.specs.Reading.{ReadAtMost, FewerConsumed};
ghost use Rattle.stdio.specs.Writing.{LineBegun};

use std::io::{ErrorKind, Read, Write};
use std::{io, thread};

// The result of writing.
#[derive(Clone, Copy)]
pub struct Writing {
    // The number of bytes written.
    pub count: usize,
    // Why the rest was not written.
    pub failure: Option<io::Error>,
}

// Returns whether the call that failed is to be tried again; the processor is given up first.
fn is_retry(error: &io::Error) -> bool {
    match error.kind() {
        ErrorKind::Interrupted => true,
        ErrorKind::WouldBlock => {
            thread::yield_now();
            true
        }
        _ => false,
    }
}

// Reads once to the beginning of the buffer, and returns the number of bytes read; 0 at the end of the input.
pub fn read<R: Read>(from: &mut R, buf: &mut [u8]) -> io::Result<usize>
    ensures bound { ReadAtMost (length buf.old) result }
    ensures bytes { ReadConsumes (R.remaining from.old) (R.remaining from.new) result buf.new }
{
    for _attempt in 0..u64::MAX {
        match from.read(buf) {
            Err(e) if is_retry(&e) => {}
            reply => return reply,
        }
    }
    Err(io::Error::from(ErrorKind::TimedOut))
}

// Reads until the buffer is full or the input ends, and returns the number of bytes read.
pub fn read_full<R: Read>(from: &mut R, buf: &mut [u8]) -> io::Result<usize>
    ensures bound { ReadAtMost (length buf.old) result }
    ensures bytes { IfOk result (λ n. Consumes (R.remaining from.old) (R.remaining from.new) (take n buf.new)) }
    ensures end { IfOk result (λ n. n < length buf.old → IsAtEnd (R.remaining from.new)) }
    ensures failed { OnErr result (FewerConsumed (R.remaining from.old) (R.remaining from.new) (length buf.old)) }
{
    let mut done = 0;
    // A `while`: each turn fills as many bytes as the reader gives.
    while done < buf.len() {
        let n = read(from, &mut buf[done..])?;
        if n == 0 {
            return Ok(done);
        }
        done += n;
    }
    Ok(done)
}

// Writes all of the bytes, and returns how many were written: fewer only if a call failed.
pub fn write_all<W: Write>(to: &mut W, buf: &[u8]) -> Writing
    ensures bound { result.count ≤ length buf.now }
    ensures all { result.failure ≡ None → result.count ≡ length buf.now }
    ensures bytes { Appends (W.contents to.old) (W.contents to.new) (take result.count buf.now) }
{
    let mut done = 0;
    for _write in 0..u64::MAX {
        if done == buf.len() {
            break;
        }
        let rest = &buf[done..];
        match to.write(rest) {
            Ok(0) => return stopped(done, io::Error::from(ErrorKind::WriteZero)),
            Ok(n) => done += n,
            Err(e) => {
                if !is_retry(&e) {
                    return stopped(done, e);
                }
            }
        }
    }
    if done < buf.len() {
        return stopped(done, io::Error::from(ErrorKind::TimedOut));
    }
    Writing {
        count: done,
        failure: None,
    }
}

// The result of writing that stopped after some bytes.
fn stopped(count: usize, error: io::Error) -> Writing
    ensures count { result.count ≡ count }
    ensures failure { IsSome result.failure }
{
    Writing {
        count,
        failure: Some(error),
    }
}

// Writes a line: what failed, and the system's text. If that fails too, there is nothing more to be done.
pub fn report<W: Write>(to: &mut W, what: &[u8], error: &io::Error)
    ensures { LineBegun (W.contents to.old) (W.contents to.new) what.now }
{
    let mut line = [0u8; 128];
    let n = describe(error, &mut line);
    if write_all(to, what).failure.is_some() {
        return;
    }
    write_all(to, &line[..n]);
}

// Puts the system's text and a newline at the beginning of the line, and returns their length.
fn describe(error: &io::Error, line: &mut [u8; 128]) -> usize
    ensures { result ≤ 128 }
{
    let mut memory = [0u8; 128];
    let mut room = &mut memory[..];
    let _ = write!(room, "{error}");
    let count = 128usize.saturating_sub(room.len());
    let text = system_text(&memory[..count]);
    let mut rest = &mut line[..];
    let _ = writeln!(rest, "{text}");
    128usize.saturating_sub(rest.len())
}

// std writes an error of the system as its text and, in parentheses, its number. The text alone is returned.
fn system_text(written: &[u8]) -> &str {
    let Ok(text) = std::str::from_utf8(written) else {
        return "";
    };
    match text.split_once(" (os error ") {
        Some((front, _)) => front,
        None => text,
    }
}

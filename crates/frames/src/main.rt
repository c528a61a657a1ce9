// The program `frames`: reads standard input, one frame of hexadecimal digits a line, and writes the reply to
// each line to standard output before it reads on. Its memory is fixed: the input block, the line buffer, the
// open list, the leg store, and the output buffer. It ends at the end of its input, or with a line on standard
// error if reading or writing fails.
//
// Proved: the texts handed to the writes, one after another, are the protocol's output for the blocks that the
// reads deliver (crates/frame_stream/specs/Progress.antt). So from any reader whose bytes are known to any writer
// whose bytes are known, the program writes the protocol's output for the whole input, or the beginning of it if
// reading or writing fails (specs/Moves.antt). Only which bytes the system delivers and what it does with those
// that it is handed is open: the contracts of std's standard streams say nothing of them.
#![tactic(auto)]

ghost use Rattle.std.specs.Prelude.{◌≡◌, ◌≢◌, None, [], ◌≤◌, length};
ghost use Rattle.std.specs.Io.KnownBytes.{Appends};
ghost use Rattle.frames_memory.specs.Represents.{initial_counters};
ghost use Rattle.frame_stream.specs.Stream.{stream_state, process_block};
ghost use Rattle.frame_stream.specs.StreamTheorems.{answers_in};
ghost use Rattle.frame_stream.specs.Progress.{state_between, StartState, unconsumed, Reached, NextReplies, NextStep, LastStep, after_input, last_replies, Finished};
ghost use Rattle.frames.specs.declared.LoopState.TheVariants.{Running, Done};
ghost use Rattle.frames.specs.LoopState.{unless_failed};
ghost use Rattle.frames.specs.Moves.{BeginningWritten, NextMove, LastMove, FailedMove, OutputWritten, OutputBegun};

use std::env::FillError;
use std::io;
use std::io::{Read, Write};
use std::rt::Env;

// Why the program ends before the end of its input.
#[derive(Clone, Copy)]
enum Failure {
    Input(io::Error),
    Output(io::Error),
}

// The result of processing some bytes, and why the replies were not written, if so.
#[derive(Clone, Copy)]
struct AnswerPart {
    reply: frame_stream::StreamReply,
    failure: Option<Failure>,
}

// Whether the main loop goes on.
#[derive(Clone, Copy)]
enum LoopState {
    // There may be more input.
    Running,
    // The whole input was processed and the replies written.
    Done,
    // Reading or writing failed.
    Failed(Failure),
}

// What the main loop has between two steps: the range of the input block that is not consumed, the length of the
// line so far, the counters, and whether it goes on.
#[derive(Clone, Copy)]
struct StreamNow {
    at: usize,
    end: usize,
    len: usize,
    kept: frames_memory::Counters,
    state: LoopState,
}

// The state after replies were to be written: `next`, unless that failed.
fn unless_failed(failure: Option<Failure>, next: LoopState) -> LoopState
    ensures { result ≡ unless_failed failure next }
{
    match failure {
        None => next,
        Some(e) => LoopState::Failed(e),
    }
}

// The counters before the first line.
fn initial_counters() -> frames_memory::Counters
    ensures { result ≡ initial_counters }
{
    frames_memory::Counters {
        opened: open_list::OpenList { pairs: 0, bytes: 0 },
        legs: close_leg::LegTotals { count: 0, bytes: 0 },
        outs: 0,
    }
}

// Writes replies, and returns why not all of them were written, if so.
fn write_replies<W: Write>(to: &mut W, replies: &[u8]) -> Option<Failure>
    requires { NextReplies replies.now }
    ensures all { result ≡ None → Appends (W.contents to.old) (W.contents to.new) replies.now }
    ensures begun { BeginningWritten (W.contents to.old) (W.contents to.new) replies.now }
{
    match stdio::write_all(to, replies).failure {
        None => None,
        Some(e) => Some(Failure::Output(e)),
    }
}

// Processes as many of the bytes as the output buffer allows, and writes the replies.
fn answer<W: Write>(
    to: &mut W,
    part: &[u8],
    line: &mut [u8; 4096],
    len: usize,
    k: frames_memory::Counters,
    bytes: &mut [u8; 32640],
    places: &mut [usize; 256],
    store: &mut [u8; 32768],
    slots: &mut [usize; 4096],
    table: &mut [usize; 48],
    out: &mut [u8; 65536],
) -> AnswerPart
    requires { Reached part.now (state_between len k line.old bytes.old places.old store.old slots.old
        table.old out.old) }
    ensures called { let a = state_between len k line.old bytes.old places.old store.old slots.old table.old out.old in
        let b = stream_state result.reply line.new bytes.new places.new store.new slots.new table.new out.new in
        b ≡ process_block part.now a }
    ensures all { let a = state_between len k line.old bytes.old places.old store.old slots.old table.old out.old in
        result.failure ≡ None → Appends (W.contents to.old) (W.contents to.new) (answers_in (process_block part.now a)) }
    ensures begun { let a = state_between len k line.old bytes.old places.old store.old slots.old table.old out.old in
        BeginningWritten (W.contents to.old) (W.contents to.new) (answers_in (process_block part.now a)) }
{
    let reply = frame_stream::process_block(
        part, line, len, k, bytes, places, store, slots, table, out,
    );
    let end = reply.end;
    let all = &out[..];
    let failure = write_replies(to, &all[..end]);
    AnswerPart { reply, failure }
}

// Processes a last line without a newline at the end of the input.
fn finish<W: Write>(
    to: &mut W,
    line: &mut [u8; 4096],
    len: usize,
    k: frames_memory::Counters,
    bytes: &mut [u8; 32640],
    places: &mut [usize; 256],
    store: &mut [u8; 32768],
    slots: &mut [usize; 4096],
    table: &mut [usize; 48],
    out: &mut [u8; 65536],
) -> StreamNow
    requires { Reached [] (state_between len k line.old bytes.old places.old store.old slots.old table.old
        out.old) }
    ensures b_after { let a = state_between len k line.old bytes.old places.old store.old slots.old table.old out.old in
        let b = state_between result.len result.kept line.new bytes.new places.new store.new slots.new table.new out.new in
        b ≡ after_input a }
    ensures more_value { result.state ≢ Running }
    ensures end_value { result.end ≡ 0 }
    ensures all { let a = state_between len k line.old bytes.old places.old store.old slots.old table.old out.old in
        result.state ≡ Done → Appends (W.contents to.old) (W.contents to.new) (last_replies a) }
    ensures begun { let a = state_between len k line.old bytes.old places.old store.old slots.old table.old out.old in
        BeginningWritten (W.contents to.old) (W.contents to.new) (last_replies a) }
{
    let ended = len == 0;
    if ended {
        return StreamNow {
            at: 0,
            end: 0,
            len,
            kept: k,
            state: LoopState::Done,
        };
    }
    let p = answer(
        to, b"\n", line, len, k, bytes, places, store, slots, table, out,
    );
    let reply = p.reply;
    let kept = reply.kept;
    StreamNow {
        at: 0,
        end: 0,
        len: reply.len,
        kept,
        state: unless_failed(p.failure, LoopState::Done),
    }
}

// Performs one step: processes the remainder of the input block, or reads the next one. At the end of the
// input, a last line without a newline is processed.
fn step<R: Read, W: Write>(
    from: &mut R,
    to: &mut W,
    block: &mut [u8; 65536],
    at: usize,
    end: usize,
    line: &mut [u8; 4096],
    len: usize,
    k: frames_memory::Counters,
    bytes: &mut [u8; 32640],
    places: &mut [usize; 256],
    store: &mut [u8; 32768],
    slots: &mut [usize; 4096],
    table: &mut [usize; 48],
    out: &mut [u8; 65536],
) -> StreamNow
    requires end_bound { end ≤ 65536 }
    requires reached { Reached (unconsumed block.old at end)
        (state_between len k line.old bytes.old places.old store.old slots.old table.old out.old) }
    ensures end_bound_2 { result.end ≤ 65536 }
    ensures fact { let a = state_between len k line.old bytes.old places.old store.old slots.old table.old out.old in
        let b = state_between result.len result.kept line.new bytes.new places.new store.new slots.new table.new out.new in
        let rest = unconsumed block.old at end in
        (result.state ≡ Running → NextStep rest a (unconsumed block.new result.at result.end) b) × (result.state ≡ Done → LastStep rest a b) }
    ensures next { let a = state_between len k line.old bytes.old places.old store.old slots.old table.old out.old in
        let b = state_between result.len result.kept line.new bytes.new places.new store.new slots.new table.new out.new in
        result.state ≡ Running → NextMove (unconsumed block.old at end) a (R.remaining from.old) (W.contents to.old)
        (unconsumed block.new result.at result.end) b (R.remaining from.new) (W.contents to.new) }
    ensures last { let a = state_between len k line.old bytes.old places.old store.old slots.old table.old out.old in
        result.state ≡ Done → LastMove (unconsumed block.old at end) a (R.remaining from.old) (W.contents to.old)
        (R.remaining from.new) (W.contents to.new) }
    ensures failed { let a = state_between len k line.old bytes.old places.old store.old slots.old table.old out.old in
        result.state ≢ Running → FailedMove (unconsumed block.old at end) a (R.remaining from.old) (W.contents to.old)
        (R.remaining from.new) (W.contents to.new) }
{
    if at < end {
        let whole = &block[..];
        let part = &whole[at..end];
        let p = answer(
            to, part, line, len, k, bytes, places, store, slots, table, out,
        );
        let reply = p.reply;
        let after = reply.kept;
        return StreamNow {
            at: at + reply.used,
            end,
            len: reply.len,
            kept: after,
            state: unless_failed(p.failure, LoopState::Running),
        };
    }
    let n = match stdio::read(from, block) {
        Ok(n) => n,
        Err(e) => {
            return StreamNow {
                at: 0,
                end: 0,
                len,
                kept: k,
                state: LoopState::Failed(Failure::Input(e)),
            };
        }
    };
    if n == 0 {
        return finish(to, line, len, k, bytes, places, store, slots, table, out);
    }
    StreamNow {
        at: 0,
        end: n,
        len,
        kept: k,
        state: LoopState::Running,
    }
}

// Runs the main loop until the input ends, or reading or writing fails; the range bounds it so that it provably
// ends.
fn run<R: Read, W: Write>(
    from: &mut R,
    to: &mut W,
    block: &mut [u8; 65536],
    line: &mut [u8; 4096],
    bytes: &mut [u8; 32640],
    places: &mut [usize; 256],
    store: &mut [u8; 32768],
    slots: &mut [usize; 4096],
    table: &mut [usize; 48],
    out: &mut [u8; 65536],
) -> StreamNow
    requires { StartState (state_between 0 initial_counters line.old bytes.old places.old store.old slots.old
        table.old out.old) }
    ensures finished { result.state ≡ Done → Finished
        (state_between result.len result.kept line.new bytes.new places.new store.new
        slots.new table.new out.new) }
    ensures all { result.state ≡ Done → OutputWritten (R.remaining from.old) (W.contents to.old) (W.contents to.new) }
    ensures begun { OutputBegun (R.remaining from.old) (W.contents to.old) (W.contents to.new) }
{
    let mut now = StreamNow {
        at: 0,
        end: 0,
        len: 0,
        kept: initial_counters(),
        state: LoopState::Running,
    };
    for _step in 0..u64::MAX {
        let LoopState::Running = now.state else {
            return now;
        };
        let kept = now.kept;
        now = step(
            from, to, block, now.at, now.end, line, now.len, kept, bytes, places, store, slots,
            table, out,
        );
    }
    now
}

// Returns whether there is an argument at this index; 0 is the program's name.
fn has_argument(env: &impl Env, i: usize) -> bool {
    let mut word = [0u8; 16];
    match env.arg(i, &mut word) {
        Ok(_) | Err(FillError::TooLong) => true,
        Err(FillError::NotPresent) => false,
    }
}

// Returns whether the only argument is `--help`.
fn is_help(env: &impl Env) -> bool {
    if has_argument(env, 2) {
        return false;
    }
    let mut word = [0u8; 16];
    match env.arg(1, &mut word) {
        Ok(n) => text::is_equal(&word[..n], b"--help"),
        Err(_) => false,
    }
}

// Reports why the program ended before the end of its input.
fn report<E: Write>(errors: &mut E, failure: Failure) {
    match failure {
        Failure::Input(e) => stdio::report(errors, b"frames: standard input: ", &e),
        Failure::Output(e) => stdio::report(errors, b"frames: standard output: ", &e),
    }
}

// Prints what the program is and how it is used.
fn print_help<W: Write, E: Write>(to: &mut W, errors: &mut E) {
    let help = b"usage: frames < INPUT > OUTPUT\n\
Reads frames from standard input, one of hexadecimal digits on each line, and\n\
writes the reply to each to standard output before it reads on. README.md of the\n\
library lists the kinds of frames. There are no options but --help. A read or\n\
write that fails is reported on standard error; the exit status is 0 all the same.\n";
    if let Some(e) = stdio::write_all(to, help).failure {
        report(errors, Failure::Output(e));
    }
}

// Prints the help, or reports arguments that the program does not have.
fn answer_arguments<W: Write, E: Write>(env: &impl Env, to: &mut W, errors: &mut E) {
    if is_help(env) {
        print_help(to, errors);
    } else {
        stdio::write_all(errors, b"frames: there are no arguments but --help\n");
    }
}

// Runs the program with fixed buffers, unless it has arguments.
fn main(rt: HostRuntime) {
    if has_argument(&rt, 1) {
        answer_arguments(&rt, &mut rt.stdout(), &mut rt.stderr());
        return;
    }
    let mut block = [0u8; 65536];
    let mut line = [0u8; 4096];
    let mut bytes = [0u8; 32640];
    let mut places = [0usize; 256];
    let mut store = [0u8; 32768];
    let mut slots = [0usize; 4096];
    let mut table = [0usize; 48];
    let mut out = [0u8; 65536];
    let now = run(
        &mut rt.stdin(),
        &mut rt.stdout(),
        &mut block,
        &mut line,
        &mut bytes,
        &mut places,
        &mut store,
        &mut slots,
        &mut table,
        &mut out,
    );
    if let LoopState::Failed(failure) = now.state {
        report(&mut rt.stderr(), failure);
    }
}

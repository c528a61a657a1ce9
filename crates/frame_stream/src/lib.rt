// Processes input blocks of any size for the program `frames`. The lent buffers may hold anything.
#![tactic(auto)]

ghost use Rattle.std.specs.Prelude.{◌≡◌, ◌+◌, ◌≤◌, length};
ghost use Rattle.frames_spec.specs.Input.{max_answer_line};
ghost use Rattle.frame_stream.specs.Stream.{stream_state, stream_start, stream_step, process_block};

// The result of processing a block.
#[derive(Clone, Copy)]
pub struct StreamReply {
    // The number of bytes of the block consumed.
    pub used: usize,
    // The length of the line so far; a length over the limit marks an overlong line.
    pub len: usize,
    // The counters kept between two lines.
    pub kept: frames_memory::Counters,
    // The end of the replies in the output buffer.
    pub end: usize,
}

// Consumes the bytes of a block up to the end of one line, or all of them if the line does not end. If it
// ends, processes it and writes its reply at offset `end` of `out`.
fn stream_step(
    block: &[u8],
    line: &mut [u8],
    len: usize,
    k: frames_memory::Counters,
    bytes: &mut [u8],
    places: &mut [usize],
    store: &mut [u8],
    slots: &mut [usize],
    table: &mut [usize],
    end: usize,
    out: &mut [u8],
) -> StreamReply
    requires { end + max_answer_line ≤ length out.old }
    ensures { stream_state result line.new bytes.new places.new store.new
        slots.new table.new out.new ≡ stream_step block.now
        (stream_state (stream_start len k end) line.old bytes.old places.old
        store.old slots.old table.old out.old) }
{
    let t = line_reader::take_line(block, line, len);
    if !t.done {
        return StreamReply {
            used: t.used,
            len: t.len,
            kept: k,
            end,
        };
    }
    let a = frame_answer::answer_line(line, t.len, k, bytes, places, store, slots, table, end, out);
    let kept = a.kept;
    StreamReply {
        used: t.used,
        len: 0,
        kept,
        end: a.end,
    }
}

// Processes the lines of a block and writes their replies to the beginning of `out`, until the block is
// consumed or there is no space for the longest reply. `len` is the length of the line so far: 0 at first,
// then the value that the last call returned. The caller passes the remainder of the block to the next call.
pub fn process_block(
    block: &[u8],
    line: &mut [u8],
    len: usize,
    k: frames_memory::Counters,
    bytes: &mut [u8],
    places: &mut [usize],
    store: &mut [u8],
    slots: &mut [usize],
    table: &mut [usize],
    out: &mut [u8],
) -> StreamReply
    ensures { stream_state result line.new bytes.new places.new store.new
        slots.new table.new out.new ≡ process_block block.now
        (stream_state (stream_start len k 0) line.old bytes.old places.old
        store.old slots.old table.old out.old) }
{
    let mut used = 0;
    let mut n = len;
    let mut kept = k;
    let mut end = 0;
    // A `while`: each turn consumes as many bytes as a line has.
    while used < block.len() && frame_answer::MAX_ANSWER_LINE <= out.len() - end {
        let t = stream_step(
            &block[used..],
            line,
            n,
            kept,
            bytes,
            places,
            store,
            slots,
            table,
            end,
            out,
        );
        used += t.used;
        n = t.len;
        let after = t.kept;
        kept = after;
        end = t.end;
    }
    StreamReply {
        used,
        len: n,
        kept,
        end,
    }
}

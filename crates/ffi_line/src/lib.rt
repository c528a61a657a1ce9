// One line of the program `frames` as a call over plain numbers and bytes. What the line uses of the lent memory
// is validated, since the caller may have altered it between two calls.
#![tactic(auto)]

ghost use Rattle.std.specs.Prelude.{◌≡◌, ◌≤◌, length};
ghost use Rattle.text.specs.Text.{written};
ghost use Rattle.frames_spec.specs.Input.{parse_line, next_line};
ghost use Rattle.frames_memory.specs.Memory.{step_frame_in};
ghost use Rattle.ffi_line.specs.LineCall.{counters_of, counter_numbers, lent_memory, whole_line, has_line_room, line_reply, line_memory, line_out, line_counters, line_check, short_reply, short_out, ProcessesLine};

use refusal::Refusal;

// The result of the questions put before a line is processed. An enum and no `Result`: each of the three cases
// ends in another way, and none is passed on by `?`.
#[derive(Clone, Copy)]
pub enum LineCheck {
    // The reply line has only these two bytes, and nothing else is written.
    Short(u8, u8),
    // There is no space for the reply.
    NoSpace,
    // The line is processed.
    Open,
}

// The counters from five plain numbers.
fn counters_of(kept: &[usize]) -> frames_memory::Counters
    requires { 5 ≤ length kept.now }
    ensures { result ≡ counters_of kept.now }
{
    frames_memory::Counters {
        opened: open_list::OpenList {
            pairs: kept[0],
            bytes: kept[1],
        },
        legs: close_leg::LegTotals {
            count: kept[2],
            bytes: kept[3],
        },
        outs: kept[4],
    }
}

// Writes the counters as five plain numbers.
fn write_counters(k: frames_memory::Counters, kept: &mut [usize])
    requires { 5 ≤ length kept.old }
    ensures { kept.new ≡ written (counter_numbers k) kept.old }
{
    let opened = k.opened;
    let legs = k.legs;
    kept[0] = opened.pairs;
    kept[1] = opened.bytes;
    kept[2] = legs.count;
    kept[3] = legs.bytes;
    kept[4] = k.outs;
}

// Returns whether there is space for five numbers and the longest reply line (question 5).
#[tactic(auto, unfolding(crate::specs::LineCall::has_line_room))]
fn has_line_room(kept: &[usize], room: usize) -> bool
    ensures { result ≡ has_line_room kept.now room }
{
    5 <= kept.len() && frame_answer::MAX_ANSWER_LINE <= room
}

// Puts the questions to a line: 9 to its frame, 5 to the buffers, 1 to 4 to what the frame uses of the memory.
fn check_line(
    line: &[u8],
    kept: &[usize],
    bytes: &[u8],
    places: &[usize],
    store: &[u8],
    slots: &[usize],
    table: &[usize],
    room: usize,
) -> LineCheck
    ensures { result ≡ line_check (parse_line (whole_line line.now)) kept.now
        (lent_memory kept.now bytes.now places.now store.now
        slots.now table.now) room }
{
    let mut frame = [0u8; 2048];
    let n = frame_decode::decode_line(line, line.len(), &mut frame);
    let Some((kind, header)) = frame_decode::decode_frame(&frame[..n]) else {
        return LineCheck::Short(255, 9);
    };
    if !has_line_room(kept, room) {
        return LineCheck::NoSpace;
    }
    let k = counters_of(kept);
    let q = frames_validate::validate_use(
        header,
        &frame[..n],
        k,
        bytes,
        places,
        store,
        slots,
        table,
    );
    if let Err(x) = q {
        return LineCheck::Short(kind + 128, frame_apply::number_byte(x));
    }
    LineCheck::Open
}

// Writes the reply line of two bytes to the beginning of `out`.
fn write_short(head: u8, answer: u8, out: &mut [u8]) -> Result<usize, Refusal>
    ensures value { result ≡ short_reply out.old }
    ensures out_after { out.new ≡ short_out head answer out.old }
{
    if out.len() < 5 {
        return Err(Refusal::NoRoom);
    }
    hex_digits::encode(&[head, answer], 0, out);
    text::write_at(b"\n", 4, out);
    Ok(5)
}

// Processes a line without validating the memory, and returns the length of the reply line.
fn process_line(
    line: &[u8],
    kept: &mut [usize],
    bytes: &mut [u8],
    places: &mut [usize],
    store: &mut [u8],
    slots: &mut [usize],
    table: &mut [usize],
    out: &mut [u8],
) -> usize
    requires { (5 ≤ length kept.old) × (515 ≤ length out.old) }
    ensures processes_line { ProcessesLine (whole_line line.now) kept.old
        (lent_memory kept.old bytes.old places.old store.old
        slots.old table.old) out.old result kept.new out.new }
    ensures table_after { lent_memory kept.new bytes.new places.new store.new
        slots.new table.new ≡ next_line step_frame_in
        (lent_memory kept.old bytes.old places.old store.old
        slots.old table.old) (whole_line line.now) }
{
    let k = counters_of(kept);
    let a = frame_answer::answer_line(
        line,
        line.len(),
        k,
        bytes,
        places,
        store,
        slots,
        table,
        0,
        out,
    );
    let after = a.kept;
    write_counters(after, kept);
    a.end
}

// Processes a line, given whole and without its newline, and writes the reply line to the beginning of `out`.
// `kept` holds five numbers, all 0 at first: the pairs and bytes of the open list, the legs and their bytes
// before redundant pairs are dropped, the 05 frames answered 00. The open list is stored in `bytes` and
// `places`, the leg store in `store`, `slots` and `table`.
pub fn answer_whole(
    line: &[u8],
    kept: &mut [usize],
    bytes: &mut [u8],
    places: &mut [usize],
    store: &mut [u8],
    slots: &mut [usize],
    table: &mut [usize],
    out: &mut [u8],
) -> Result<usize, Refusal>
    ensures value { result ≡ line_reply (whole_line line.now) kept.old
        (lent_memory kept.old bytes.old places.old store.old
        slots.old table.old) out.old }
    ensures kept_after { kept.new ≡ line_counters (whole_line line.now) kept.old
        (lent_memory kept.old bytes.old places.old store.old
        slots.old table.old) out.old }
    ensures table_after { lent_memory kept.new bytes.new places.new store.new
        slots.new table.new ≡ line_memory (whole_line line.now) kept.old
        (lent_memory kept.old bytes.old places.old store.old
        slots.old table.old) out.old }
    ensures out_after { out.new ≡ line_out (whole_line line.now) kept.old
        (lent_memory kept.old bytes.old places.old store.old
        slots.old table.old) out.old }
{
    let c = check_line(line, kept, bytes, places, store, slots, table, out.len());
    match c {
        LineCheck::Short(head, answer) => write_short(head, answer, out),
        LineCheck::NoSpace => Err(Refusal::NoRoom),
        LineCheck::Open => Ok(process_line(line, kept, bytes, places, store, slots, table, out)),
    }
}

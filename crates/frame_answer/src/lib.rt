// Processes one line of the program `frames`: decodes and parses it, performs the frame and writes the reply
// line. The lent buffers may hold anything; crates/frames_memory/specs/Memory.antt defines the effect of each
// frame.
#![tactic(auto)]

ghost use Rattle.std.specs.Prelude.{◌≡◌, [], ◌∷◌, ◌+◌, ◌*◌, ◌≤◌, leb, length, take};
ghost use Rattle.text.specs.Text.{written};
ghost use Rattle.frames_spec.specs.State.{big_endian32};
ghost use Rattle.frames_spec.specs.Run.{saturate32};
ghost use Rattle.line_reader.specs.Lines.{line_in_buffer};
ghost use Rattle.frames_spec.specs.Frame.{decode_frame};
ghost use Rattle.frames_memory.specs.Memory.{frames_memory, statuses_in, route_path_in};
ghost use Rattle.frame_decode.specs.Header.{last_bytes, reach};
ghost use Rattle.frame_apply.specs.Done.{Replies, RepliesPath, FrameDone, PairDone};
ghost use Rattle.frame_answer.specs.Answer.{line_text, reply_line, PayloadFits, WroteAt, AnswersFrame, memory_after_line, out_after_line, end_after_line};
ghost use Rattle.frames_spec.specs.Input.{max_answer_line};

use refusal::Refusal;

// The length of the longest reply line: two bytes and a path of 255, two digits each, and the newline.
pub const MAX_ANSWER_LINE: usize = 515;

// The result of a line: the counters after it, and the offset at which its reply ends.
#[derive(Clone, Copy)]
pub struct AnsweredLine {
    pub kept: frames_memory::Counters,
    pub end: usize,
}

// Writes a line of two bytes and a payload, in capital digits, and returns the offset after it.
fn write_line(head: u8, answer: u8, payload: &[u8], at: usize, out: &mut [u8]) -> usize
    requires { at + 5 + 2 * length payload.now ≤ length out.old }
    ensures { WroteAt (line_text (head ∷ answer ∷ payload.now)) at result out.old
        out.new }
{
    hex_digits::encode(&[head, answer], at, out);
    let payload_at = at + 4;
    hex_digits::encode(payload, payload_at, out);
    let end = payload_at + 2 * payload.len();
    text::write_at(b"\n", end, out);
    end + 1
}

// Writes a count, held at FFFFFFFF, over the first four bytes, the high byte first.
fn write_count(n: usize, payload: &mut [u8])
    requires { 4 ≤ length payload.old }
    ensures { payload.new ≡ written (big_endian32 (saturate32 n)) payload.old }
{
    let count = u32::try_from(n).unwrap_or(u32::MAX);
    text::write_at(&count.to_be_bytes(), 0, payload);
}

// Adds the pair that ends the frame, whose source has n bytes and whose target has m, to the open list.
fn apply_pair_in(
    frame: &[u8],
    n: usize,
    m: usize,
    k: frames_memory::Counters,
    bytes: &mut [u8],
    places: &mut [usize],
) -> frame_apply::Effect
    requires { n + 2 + m ≤ length frame.now }
    ensures { PairDone (take n (last_bytes (n + 2 + m) frame.now)) (last_bytes m frame.now) k
        bytes.old places.old result.kept result.reply bytes.new places.new }
{
    let start = frame.len() - (n + 2 + m);
    let end = start + n;
    let target = frame.len() - m;
    frame_apply::apply_pair(&frame[start..end], &frame[target..], k, bytes, places)
}

// Writes the statuses of the open list.
fn apply_statuses(
    k: frames_memory::Counters,
    bytes: &[u8],
    places: &[usize],
    payload: &mut [u8],
) -> Result<usize, Refusal>
    requires { length payload.old ≡ 255 }
    ensures { Replies (statuses_in (frames_memory k bytes.now places.now [] [] [])) result
        payload.old payload.new }
{
    let opened = k.opened;
    relocates::analyze_relocate_occurrences(bytes, places, opened.pairs, payload)
}

// Maps the path of n bytes that ends the frame over the legs, out or home.
fn apply_route(
    back: bool,
    frame: &[u8],
    n: usize,
    k: frames_memory::Counters,
    store: &[u8],
    slots: &[usize],
    table: &[usize],
    payload: &mut [u8],
) -> Result<usize, Refusal>
    requires { (length payload.old ≡ 255) × (n ≤ length frame.now) }
    ensures { RepliesPath (route_path_in back
        (frames_memory k [] [] store.now slots.now table.now)
        (last_bytes n frame.now)) result payload.old payload.new }
{
    let legs = k.legs;
    let start = frame.len() - n;
    route::route_after(
        Ok(()),
        store,
        slots,
        table,
        legs.count,
        back,
        &frame[start..],
        payload,
    )
}

// Performs what the header of the frame asks for.
fn apply_frame(
    header: frame_decode::FrameHeader,
    frame: &[u8],
    k: frames_memory::Counters,
    bytes: &mut [u8],
    places: &mut [usize],
    store: &mut [u8],
    slots: &mut [usize],
    table: &mut [usize],
    payload: &mut [u8],
) -> frame_apply::Effect
    requires { (length payload.old ≡ 255) × (reach header ≤ length frame.now) }
    ensures { FrameDone frame.now header
        (frames_memory k bytes.old places.old store.old slots.old
        table.old) (frames_memory result.kept bytes.new places.new store.new
        slots.new table.new) result.reply payload.old payload.new }
{
    match header {
        frame_decode::FrameHeader::AddPair(n, m) => apply_pair_in(frame, n, m, k, bytes, places),
        frame_decode::FrameHeader::Statuses => frame_apply::Effect {
            kept: k,
            reply: apply_statuses(k, bytes, places, payload),
        },
        frame_decode::FrameHeader::Close(relocates) => frame_apply::apply_close(
            relocates, k, bytes, places, store, slots, table,
        ),
        frame_decode::FrameHeader::Route(back, n) => {
            let w = apply_route(back, frame, n, k, store, slots, table, payload);
            frame_apply::count_out(back, k, w)
        }
        frame_decode::FrameHeader::Count => {
            write_count(k.outs, payload);
            frame_apply::Effect {
                kept: k,
                reply: Ok(4),
            }
        }
    }
}

// Writes the reply line of a reply whose payload is at the beginning of the payload buffer.
fn write_reply(
    head: u8,
    reply: Result<usize, Refusal>,
    payload: &[u8],
    at: usize,
    out: &mut [u8],
) -> usize
    requires payload_fits { PayloadFits reply (length payload.now) }
    requires payload_len { (length payload.now ≡ 255) × (at + max_answer_line ≤ length out.old) }
    ensures { WroteAt (reply_line head reply payload.now) at result out.old out.new }
{
    match reply {
        Ok(n) => write_line(head, 0, &payload[..n], at, out),
        Err(x) => write_line(head, frame_apply::number_byte(x), &payload[..0], at, out),
    }
}

// Parses and performs a frame, and writes its reply line.
fn answer_frame(
    frame: &[u8],
    k: frames_memory::Counters,
    bytes: &mut [u8],
    places: &mut [usize],
    store: &mut [u8],
    slots: &mut [usize],
    table: &mut [usize],
    at: usize,
    out: &mut [u8],
) -> AnsweredLine
    requires { at + max_answer_line ≤ length out.old }
    ensures { AnswersFrame (decode_frame frame.now)
        (frames_memory k bytes.old places.old store.old slots.old
        table.old) (frames_memory result.kept bytes.new places.new store.new
        slots.new table.new) at result.end out.old out.new }
{
    let Some((kind, header)) = frame_decode::decode_frame(frame) else {
        let end = write_line(255, 9, &frame[..0], at, out);
        return AnsweredLine { kept: k, end };
    };
    let mut payload = [0u8; 255];
    let a = apply_frame(
        header,
        frame,
        k,
        bytes,
        places,
        store,
        slots,
        table,
        &mut payload,
    );
    let kept = a.kept;
    let reply = a.reply;
    let end = write_reply(kind + 128, reply, &payload, at, out);
    AnsweredLine { kept, end }
}

// Returns whether there is space for the longest reply after `at` bytes.
fn has_room(at: usize, len: usize) -> bool
    ensures { result ≡ leb (at + max_answer_line) len }
{
    MAX_ANSWER_LINE <= len && at <= len - MAX_ANSWER_LINE
}

// Processes the line of `len` bytes and writes its reply at offset `at` of `out`. The line is overlong if
// `len` exceeds the line buffer or 4,096. If there is no space for the longest reply, nothing is consumed,
// changed or written.
pub fn answer_line(
    line: &[u8],
    len: usize,
    k: frames_memory::Counters,
    bytes: &mut [u8],
    places: &mut [usize],
    store: &mut [u8],
    slots: &mut [usize],
    table: &mut [usize],
    at: usize,
    out: &mut [u8],
) -> AnsweredLine
    ensures table_after { frames_memory result.kept bytes.new places.new store.new
        slots.new table.new ≡ memory_after_line at out.old
        (frames_memory k bytes.old places.old store.old slots.old
        table.old) (line_in_buffer len line.now) }
    ensures end_value { result.end ≡ end_after_line at out.old
        (frames_memory k bytes.old places.old store.old slots.old
        table.old) (line_in_buffer len line.now) }
    ensures out_after { out.new ≡ out_after_line at out.old
        (frames_memory k bytes.old places.old store.old slots.old
        table.old) (line_in_buffer len line.now) }
{
    if !has_room(at, out.len()) {
        return AnsweredLine { kept: k, end: at };
    }
    let mut frame = [0u8; 2048];
    let n = frame_decode::decode_line(line, len, &mut frame);
    answer_frame(&frame[..n], k, bytes, places, store, slots, table, at, out)
}

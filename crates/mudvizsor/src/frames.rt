// The C interface of one line of the program `frames`. Between two calls the caller keeps five numbers, all 0
// at first, and the buffers of the open list (32,640 bytes, 256 places) and of the leg store (32,768 bytes,
// 4,096 places and a table of 48 numbers). What a line uses of them is validated (questions 1 to 5).
ghost use Rattle.std.specs.Prelude.{◌≡◌};
ghost use Rattle.ffi_values.specs.Code.{reply_code};
ghost use Rattle.ffi_line.specs.LineCall.{lent_memory, whole_line, line_reply, line_memory, line_out, line_counters};

// Processes the line, given without its newline, and writes the reply line, with its newline, to out.
#[unsafe(no_mangle)]
pub extern "C" fn mudvizsor_frames_line(
    line: &[u8],
    kept: &mut [usize],
    bytes: &mut [u8],
    places: &mut [usize],
    store: &mut [u8],
    slots: &mut [usize],
    table: &mut [usize],
    out: &mut [u8],
) -> usize
    ensures value { result ≡ reply_code (line_reply (whole_line line.now) kept.old
        (lent_memory kept.old bytes.old places.old store.old
        slots.old table.old) out.old) }
    ensures kept_after { kept.new ≡ line_counters (whole_line line.now) kept.old
        (lent_memory kept.old bytes.old places.old store.old
        slots.old table.old) out.old }
    ensures table_after { lent_memory kept.new bytes.new places.new store.new
        slots.new table.new ≡ line_memory (whole_line line.now) kept.old
        (lent_memory kept.old bytes.old places.old store.old
        slots.old table.old) out.old }
    ensures out_after { out.new ≡ line_out (whole_line line.now) kept.old
        (lent_memory kept.old bytes.old places.old store.old
        slots.old table.old) out.old }
{
    ffi_values::reply_code(ffi_line::answer_whole(
        line, kept, bytes, places, store, slots, table, out,
    ))
}

// Splits an input that arrives in blocks of any size into lines, using a caller's line buffer. No
// function has a precondition.
#![tactic(auto)]

ghost use Rattle.std.specs.Prelude.{◌≡◌, length};
ghost use Rattle.line_reader.specs.TakeLine.{newline_index, line_length_after, line_buffer_after, take_line_reply, take_line_buffer};
ghost use Rattle.line_reader.specs.Lines.{line_capacity};

// The maximum length of a line in bytes.
const MOST: usize = 4096;

// The part of a block that one call consumed, and the line so far. `used` and `len` say as much whether or not the line
// has ended, so `done` is a flag of its own.
#[derive(Clone, Copy)]
pub struct Taken {
    // Number of bytes of the block that were consumed.
    pub used: usize,
    // Whether the end of the line was reached.
    pub done: bool,
    // Length of the line so far; a value above the maximum line length means that the line is overlong.
    pub len: usize,
}

// Returns the number of bytes before the first newline, or the length of the block if it has none.
fn newline_index(block: &[u8]) -> usize
    ensures { result ≡ newline_index block.now }
{
    block
        .iter()
        .position(|b| *b == b'\n')
        .unwrap_or(block.len())
}

// The maximum line length for a line buffer of capacity `room`.
fn line_capacity(room: usize) -> usize
    ensures { result ≡ line_capacity room }
{
    room.min(MOST)
}

// Appends bytes to the line so far and returns its new length; bytes that make the line overlong are not
// stored.
fn append_to_line(s: &[u8], line: &mut [u8], len: usize) -> usize
    ensures value { result ≡ line_length_after (line_capacity (length line.old)) len (length s.now) }
    ensures line_after { line.new ≡ line_buffer_after (line_capacity (length line.old)) len s.now
        line.old }
{
    let most = line_capacity(line.len());
    if most < len || most - len < s.len() {
        return most + 1;
    }
    text::write_at(s, len, line);
    len + s.len()
}

// Consumes the bytes of a block up to the end of one line, or the whole block if the line does not end
// in it. `len` is the length returned by the previous call, or 0 for a new line.
pub fn take_line(block: &[u8], line: &mut [u8], len: usize) -> Taken
    ensures value { result ≡ take_line_reply block.now len (length line.old) }
    ensures line_after { line.new ≡ take_line_buffer block.now len line.old }
{
    let k = newline_index(block);
    let n = append_to_line(&block[..k], line, len);
    if k < block.len() {
        return Taken {
            used: k + 1,
            done: true,
            len: n,
        };
    }
    Taken {
        used: block.len(),
        done: false,
        len: n,
    }
}

// Decodes the digits of a line, and parses the bytes of a frame in place, without copying them.
#![tactic(auto)]

ghost use Rattle.std.specs.Prelude.{◌≡◌, ◌+◌, ◌*◌, ◌≤◌, length, get_or};
ghost use Rattle.hex_digits.specs.Calls.{decode_buffer};
ghost use Rattle.line_reader.specs.Lines.{line_in_buffer};
ghost use Rattle.frames_spec.specs.Frame.{add_one_pair, pair_payload, kinds, form_of, decode_payload, decode_form, with_kind, decode_frame};
ghost use Rattle.frame_decode.specs.Header.{decoded_of, decoded_alone};
ghost use Rattle.frame_decode.specs.LineBytes.{line_bytes, decoded_count};

// What a frame asks for, with the lengths of the texts that end it; specs/Header.antt defines the action that
// each case denotes.
#[derive(Clone, Copy)]
pub enum FrameHeader {
    // The lengths of the source and the target.
    AddPair(usize, usize),
    Statuses,
    // As a relocate leg if set, otherwise as a map leg.
    Close(bool),
    // Home if set, otherwise out; the length of the path.
    Route(bool, usize),
    Count,
}

// The two-byte number at an offset, high byte first.
fn number_at(bytes: &[u8], at: usize) -> usize
    requires { at + 2 ≤ length bytes.now }
    ensures { result ≡ 256 * get_or bytes.now at 0 + get_or bytes.now (at + 1) 0 }
{
    u16::from_be_bytes([bytes[at], bytes[at + 1]]) as usize
}

// Parses the payload of a pair: two texts with their lengths that fill it exactly.
#[tactic(auto, using(crate::proofs::DecodeBranches::fills))]
fn decode_pair(kind: u8, payload: &[u8]) -> Option<(u8, FrameHeader)>
    ensures { result ≡ decoded_of (with_kind kind (decode_payload (pair_payload add_one_pair) payload.now)) }
{
    if payload.len() < 4 {
        return None;
    }
    let left = payload.len() - 4;
    let n = number_at(payload, 0);
    if left < n {
        return None;
    }
    let m = number_at(payload, 2 + n);
    if left - n != m {
        return None;
    }
    Some((kind, FrameHeader::AddPair(n, m)))
}

// Parses a payload of no bytes.
#[tactic(auto, using(crate::proofs::DecodeBranches::alone))]
fn decode_nothing(kind: u8, payload: &[u8], header: FrameHeader) -> Option<(u8, FrameHeader)>
    ensures { result ≡ decoded_alone kind payload.now header }
{
    if 0 < payload.len() {
        return None;
    }
    Some((kind, header))
}

// Parses the bytes after the kind: an arm for each line of the table of kinds.
fn decode_kind(kind: u8, payload: &[u8]) -> Option<(u8, FrameHeader)>
    ensures { result ≡ decoded_of (with_kind kind (decode_form (form_of kind kinds) payload.now)) }
{
    match kind {
        1 => decode_pair(kind, payload),
        2 => decode_nothing(kind, payload, FrameHeader::Statuses),
        3 => decode_nothing(kind, payload, FrameHeader::Close(false)),
        4 => decode_nothing(kind, payload, FrameHeader::Close(true)),
        5 => Some((kind, FrameHeader::Route(false, payload.len()))),
        6 => Some((kind, FrameHeader::Route(true, payload.len()))),
        7 => decode_nothing(kind, payload, FrameHeader::Count),
        _ => None,
    }
}

// Parses the bytes of a frame.
#[tactic(auto, unfolding(frames_spec::specs::Frame::decode_frame))]
pub fn decode_frame(bytes: &[u8]) -> Option<(u8, FrameHeader)>
    ensures { result ≡ decoded_of (decode_frame bytes.now) }
{
    let [kind, payload @ ..] = bytes else {
        return None;
    };
    decode_kind(*kind, payload)
}

// Decodes the digits of a line of `len` bytes to the beginning of the buffer and returns the number of bytes; 0
// if the line is overlong or not a line of digits, or if the bytes do not fit.
pub fn decode_line(line: &[u8], len: usize, frame: &mut [u8]) -> usize
    ensures value { result ≡ decoded_count (line_bytes (line_in_buffer len line.now))
        (length frame.old) }
    ensures frame_after { frame.new ≡ decode_buffer (line_bytes (line_in_buffer len line.now))
        frame.old }
{
    if 4096 < len {
        return 0;
    }
    if line.len() < len {
        return 0;
    }
    hex_digits::decode(&line[..len], frame).unwrap_or(0)
}

// Hexadecimal encoding and decoding, two digits for each byte. No public function has a precondition.
#![tactic(auto)]

ghost use Rattle.std.specs.Prelude.{◌≡◌, ◌+◌, ◌*◌, ◌/◌, ◌%◌, ◌<◌, length, set};
ghost use Rattle.text.specs.Text.{written_if_fits};
ghost use Rattle.hex_digits.specs.Hex.{hex_value, decode_hex, hex_digit, encode_hex};
ghost use Rattle.hex_digits.specs.Calls.{value_or_zero, all_digits, decode_reply, decode_buffer};

// Why `decode` wrote nothing.
#[derive(Clone, Copy)]
pub enum DecodeError {
    // The text has an odd number of characters, or a character that is not a digit.
    Malformed,
    // The buffer is too short.
    BufferTooShort,
}

// The value of a digit; 0 for any other byte. Not `to_digit`, whose tests LLVM does not vectorize in `decode`: that takes 2.2
// times as long on 250 digits.
#[tactic(auto, unfolding(crate::specs::Hex::hex_value))]
fn hex_value(b: u8) -> u8
    ensures { result ≡ value_or_zero (hex_value b) }
{
    match b {
        b'0'..=b'9' => b - b'0',
        b'A'..=b'F' => b - b'A' + 10,
        b'a'..=b'f' => b - b'a' + 10,
        _ => 0,
    }
}

// Returns whether every byte of the text is a digit.
fn all_digits(text: &[u8]) -> bool
    ensures { result ≡ all_digits text.now }
{
    text.iter().all(|b| b.is_ascii_hexdigit())
}

// The byte that two digits encode.
fn byte_from(high: u8, low: u8) -> u8
    ensures { result ≡ 16 * value_or_zero (hex_value high) + value_or_zero (hex_value low) }
{
    16 * hex_value(high) + hex_value(low)
}

// Decodes a text of digits into the start of the buffer if the text is well formed and its bytes fit;
// otherwise writes nothing.
pub fn decode(text: &[u8], out: &mut [u8]) -> Result<usize, DecodeError>
    ensures value { result ≡ decode_reply (decode_hex text.now) (length out.old) }
    ensures out_after { out.new ≡ decode_buffer (decode_hex text.now) out.old }
{
    let n = text.len() / 2;
    if text.len() != 2 * n || !all_digits(text) {
        return Err(DecodeError::Malformed);
    }
    if out.len() < n {
        return Err(DecodeError::BufferTooShort);
    }
    for i in 0..n {
        out[i] = byte_from(text[2 * i], text[2 * i + 1]);
    }
    Ok(n)
}

// The digit of a value below 16, in upper case.
fn hex_digit(v: u8) -> u8
    requires { v < 16 }
    ensures { result ≡ hex_digit v }
{
    if v < 10 { b'0' + v } else { b'A' - 10 + v }
}

// Writes the two digits of a byte, the high one first.
fn write_byte(b: u8, at: usize, out: &mut [u8])
    requires { at + 1 < length out.old }
    ensures { out.new ≡ set (set out.old at (hex_digit (b / 16))) (at + 1)
        (hex_digit (b % 16)) }
{
    out[at] = hex_digit(b / 16);
    out[at + 1] = hex_digit(b % 16);
}

// Writes the digits of the bytes into the buffer from index `at` if they fit; otherwise writes nothing.
pub fn encode(bytes: &[u8], at: usize, out: &mut [u8])
    ensures { out.new ≡ written_if_fits at (encode_hex bytes.now) out.old }
{
    if out.len() < at || (out.len() - at) / 2 < bytes.len() {
        return;
    }
    for (i, b) in bytes.iter().enumerate() {
        write_byte(*b, at + 2 * i, out);
    }
}

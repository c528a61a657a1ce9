// Byte-string primitives: comparison, search for a byte, and copying into a caller's buffer. Every
// function is total: none has a precondition.
#![tactic(auto)]

ghost use Rattle.std.specs.Prelude.{◌≡◌, length};
ghost use Rattle.text.specs.Text.{equal, starts_with, ends_with_byte, lacks_byte, take_until, written_if_fits};

// Returns whether the text begins with the prefix. The last byte is compared first, as a cheap
// rejection; the loop has no early exit, so that it compiles to comparisons of many bytes at once (the library's
// `starts_with` takes 1.4 to 2 times as long on 200 to 250 bytes).
pub fn starts_with(text: &[u8], prefix: &[u8]) -> bool
    ensures { result ≡ starts_with prefix.now text.now }
{
    let n = prefix.len();
    if text.len() < n {
        return false;
    }
    if n == 0 {
        return true;
    }
    if text[n - 1] != prefix[n - 1] {
        return false;
    }
    let mut same = true;
    for (a, b) in prefix.iter().zip(text) {
        same = same & (a == b);
    }
    same
}

// Returns whether the two texts are equal. Not `a == b`, which takes 1.4 to 2 times as long on 200 to 250 bytes, and does
// not compare the last byte first.
pub fn is_equal(a: &[u8], b: &[u8]) -> bool
    ensures { result ≡ equal a.now b.now }
{
    a.len() == b.len() && starts_with(b, a)
}

// Returns whether the last byte is `b`; false for an empty text.
pub fn last_is(text: &[u8], b: u8) -> bool
    ensures { result ≡ ends_with_byte b text.now }
{
    text.last() == Some(&b)
}

// Returns whether no byte of the text is `b`.
pub fn lacks_byte(text: &[u8], b: u8) -> bool
    ensures { result ≡ lacks_byte b text.now }
{
    !text.contains(&b)
}

// Returns the index of the first byte `b`, or the length of the text if there is none. Most texts that are
// asked have none, and `lacks_byte` finds that out faster than `position`.
pub fn find_byte(text: &[u8], b: u8) -> usize
    ensures { result ≡ length (take_until b text.now) }
{
    if lacks_byte(text, b) {
        return text.len();
    }
    text.iter().position(|a| *a == b).unwrap_or(text.len())
}

// Copies the text into the buffer from index `at` if it fits; otherwise writes nothing. Not `copy_from_slice`, which
// calls memmove: a program in C that links the library would have to supply it, besides memcpy and memset.
pub fn write_at(text: &[u8], at: usize, out: &mut [u8])
    ensures { out.new ≡ written_if_fits at text.now out.old }
{
    if at <= out.len() && text.len() <= out.len() - at {
        for i in 0..text.len() {
            out[at + i] = text[i];
        }
    }
}

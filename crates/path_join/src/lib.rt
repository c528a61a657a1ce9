// Prefix replacement on path texts: appends the remainder of a path after its old prefix to a new
// prefix. Ports the joining step of replace_prefix in the Rust sdf/path.rs. Every function is defined
// for any bytes; none has a precondition.
#![tactic(auto)]

ghost use Rattle.std.specs.Prelude.{◌≡◌, ◌||◌, eqb, ◌≤◌, [], ◌∷◌, take, drop};
ghost use Rattle.text.specs.Text.{equal, starts_with, fit_of, written_if_fits};
ghost use Rattle.text.specs.Bytes.{dot, open_brace, slash};
ghost use Rattle.path_join.specs.Join.{join, join_illegal};
ghost use Rattle.path_join.specs.Layout.{as_number, first_byte, last_byte, separator_by, LaysOut};

// Where the parts of a join are; each number is 0 or 1.
#[derive(Clone, Copy)]
struct Layout {
    // The length of the separator.
    separator: usize,
    // The index at which the remainder begins without its own leading slash.
    start: usize,
}

// 1 if the test holds, otherwise 0.
fn as_number(test: bool) -> usize
    ensures { result ≡ as_number test }
{
    test as usize
}

// The first byte of the text, or 0 if the text is empty.
fn first_byte(text: &[u8]) -> u8
    ensures { result ≡ first_byte text.now }
{
    if text.len() == 0 {
        return 0;
    }
    text[0]
}

// The last byte of the text, or 0 if the text is empty.
fn last_byte(text: &[u8]) -> u8
    ensures { result ≡ last_byte text.now }
{
    let n = text.len();
    if n == 0 {
        return 0;
    }
    text[n - 1]
}

// The length, 0 or 1, of the separator, by five tests: there is a remainder, the old prefix is `/`, the new
// one is `/`, the remainder is a child, and a child follows the new prefix directly. The tests become
// numbers, so that no branch depends on them.
fn separator_len(
    follows: bool,
    old_is_root: bool,
    new_is_root: bool,
    child: bool,
    direct: bool,
) -> usize
    ensures { result ≡ separator_by follows old_is_root new_is_root child direct }
{
    let root = as_number(old_is_root);
    let after_root = root * (1 - as_number(new_is_root));
    let after_prim = (1 - root) * as_number(child) * (1 - as_number(direct));
    as_number(follows) * (after_root + after_prim)
}

// The layout of a join, from the lengths of its texts and the bytes at their ends, each of which is read once.
fn layout_of(old: &[u8], new: &[u8], remainder: &[u8]) -> Layout
    ensures { LaysOut old.now new.now remainder.now result.separator result.start }
{
    let first = first_byte(remainder);
    let old_last = last_byte(old);
    let new_last = last_byte(new);
    let old_is_root = (old.len() == 1) & (old_last == b'/');
    let new_is_root = (new.len() == 1) & (new_last == b'/');
    let child = (first == b'/') | ((old_last == b'}') & path_grammar::is_name_byte(first));
    let direct = new_is_root | (new_last == b'}');
    Layout {
        separator: separator_len(
            remainder.len() != 0,
            old_is_root,
            new_is_root,
            child,
            direct,
        ),
        start: as_number(!old_is_root & (first == b'/')),
    }
}

// Writes `k` bytes of a slash at index `at`, if the index is in the buffer. The byte stored there is the
// slash or the old byte, by the number `k`, so that no branch depends on it.
fn write_separator(k: usize, at: usize, out: &mut [u8])
    requires { k ≤ 1 }
    ensures { out.new ≡ written_if_fits at (take k (slash ∷ [])) out.old }
{
    if out.len() <= at {
        return;
    }
    let choice = [out[at], b'/'];
    out[at] = choice[k];
}

// Returns whether the text has `k` bytes of a slash at index `at`.
fn has_separator(k: usize, at: usize, text: &[u8]) -> bool
    ensures { result ≡ starts_with (take k (slash ∷ [])) (drop at text.now) }
{
    if text.len() <= at {
        return k == 0;
    }
    (k == 0) | (text[at] == b'/')
}

// Writes the new prefix followed by the remainder after the old prefix if it fits; otherwise writes
// nothing.
pub fn join(old: &[u8], new: &[u8], remainder: &[u8], out: &mut [u8]) -> Option<usize>
    ensures value { result ≡ fit_of (join old.now new.now remainder.now) out.old }
    ensures out_after { out.new ≡ written_if_fits 0 (join old.now new.now remainder.now)
        out.old }
{
    let n = new.len();
    let layout = layout_of(old, new, remainder);
    let start = layout.start;
    let body = &remainder[start..];
    let at = n + layout.separator;
    let len = at + body.len();
    if out.len() < len {
        return None;
    }
    text::write_at(new, 0, out);
    write_separator(layout.separator, n, out);
    text::write_at(body, at, out);
    Some(len)
}

// Returns whether the text is what `join` would write, without writing it.
pub fn is_join(old: &[u8], new: &[u8], remainder: &[u8], text: &[u8]) -> bool
    ensures { result ≡ equal (join old.now new.now remainder.now) text.now }
{
    let n = new.len();
    let layout = layout_of(old, new, remainder);
    let start = layout.start;
    let body = &remainder[start..];
    let at = n + layout.separator;
    if text.len() != at + body.len() {
        return false;
    }
    if !text::starts_with(text, new) {
        return false;
    }
    if !has_separator(layout.separator, n, text) {
        return false;
    }
    text::is_equal(body, &text[at..])
}

// Returns whether the joined path would be illegal: the new prefix is `/` or empty, and the remainder
// begins with `.` or `{`, which cannot follow it.
pub fn is_join_illegal(new: &[u8], remainder: &[u8]) -> bool
    ensures { result ≡ join_illegal new.now remainder.now }
{
    if remainder.len() == 0 {
        return false;
    }
    if !starts_suffix(remainder[0]) {
        return false;
    }
    if new.len() == 0 {
        return true;
    }
    path_grammar::is_root(new)
}

// Returns whether the byte is `.` or `{`, which begins a suffix that attaches without a slash.
fn starts_suffix(a: u8) -> bool
    ensures { result ≡ (eqb a dot || eqb a open_brace) }
{
    if a == b'{' {
        return true;
    }
    a == b'.'
}

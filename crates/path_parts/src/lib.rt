// Parents, prim paths, ancestors and the removal of variant selections, on path texts. Ports parent,
// prim_path, ancestors and strip_variant_selections of the Rust sdf/path.rs. Every public function is
// defined for any bytes and has no precondition.
#![tactic(auto)]

ghost use Rattle.std.specs.Prelude.{◌≡◌, false, ◌+◌, ◌<◌, ◌≤◌, length, get_or, drop};
ghost use Rattle.text.specs.Text.{written, written_at, fit_of, written_if_fits};
ghost use Rattle.path_grammar.specs.Legal.{starts_name};
ghost use Rattle.path_parts.specs.Parent.{starts_part, starts_name_after, own_parent_len, parent_len, has_parent, is_property, prim_len, ancestors, ancestor_lens};
ghost use Rattle.path_parts.specs.Strip.{stripped_byte, inside_after, strip_from, strip_fit, strip_buffer};

// Returns whether there is a byte at index `i` and it may occur in a name.
fn starts_name(path: &[u8], i: usize) -> bool
    ensures { result ≡ starts_name (drop i path.now) }
{
    i < path.len() && path_grammar::is_name_byte(path[i])
}

// Returns whether a part (an element or the property) begins at byte `i`.
#[tactic(auto, using(crate::proofs::PartLaws::more_after), unfolding(crate::specs::Parent::starts_part))]
fn starts_part(path: &[u8], i: usize) -> bool
    requires { i < length path.now }
    ensures { result ≡ starts_part (get_or path.now i 0) (drop (i + 1) path.now) }
{
    match path[i] {
        b'/' => i + 1 < path.len(),
        b'{' | b'.' => true,
        _ => false,
    }
}

// Returns whether a part begins directly after byte `i`: a name after a selection.
#[tactic(auto, unfolding(crate::specs::Parent::starts_name_after))]
fn starts_name_after(path: &[u8], i: usize) -> bool
    requires { i < length path.now }
    ensures { result ≡ starts_name_after (get_or path.now i 0) (drop (i + 1) path.now) }
{
    path[i] == b'}' && starts_name(path, i + 1)
}

// The length of the parent of a path without brackets. Scans backwards to the beginning of the last part.
fn own_parent_len(path: &[u8]) -> usize
    ensures { result ≡ own_parent_len path.now }
{
    for i in (0..path.len()).rev() {
        if starts_part(path, i) {
            return i.max(1);
        }
        if starts_name_after(path, i) {
            return i + 1;
        }
    }
    0
}

// The length of the path's parent.
pub fn parent_len(path: &[u8]) -> usize
    ensures { result ≡ parent_len path.now }
{
    if text::last_is(path, b']') {
        return path_own::own_part(path).len();
    }
    own_parent_len(path)
}

// Returns whether the path ends in its property.
pub fn is_property(path: &[u8]) -> bool
    ensures { result ≡ is_property path.now }
{
    text::lacks_byte(path, b'[') && !text::lacks_byte(path, b'.')
}

// The length of the path's own part without its property, or without the last selection if it ends in one.
pub fn prim_len(path: &[u8]) -> usize
    ensures { result ≡ prim_len path.now }
{
    let own = path_own::own_part(path);
    if !text::lacks_byte(own, b'.') || text::last_is(own, b'}') {
        return own_parent_len(own);
    }
    own.len()
}

// Returns whether the path is neither empty nor `/`.
fn has_parent(path: &[u8]) -> bool
    ensures { result ≡ has_parent path.now }
{
    !path.is_empty() && !path_grammar::is_root(path)
}

// The number of ancestors of the path, including the path itself.
pub fn ancestor_count(path: &[u8]) -> usize
    ensures { result ≡ length (ancestors path.now) }
{
    let mut n = path.len();
    let mut count = 1;
    // A `while`: `count` is the result and no index, and the text gets shorter by another length each turn.
    while count < path.len() && has_parent(&path[..n]) {
        n = parent_len(&path[..n]);
        count += 1;
    }
    count
}

// Writes the lengths of the path and its ancestors if the lent slice is long enough; otherwise writes
// nothing.
pub fn write_ancestors(path: &[u8], out: &mut [usize]) -> Option<usize>
    ensures value { result ≡ fit_of (ancestor_lens path.now) out.old }
    ensures out_after { out.new ≡ written_if_fits 0 (ancestor_lens path.now) out.old }
{
    let count = ancestor_count(path);
    if out.len() < count {
        return None;
    }
    let mut n = path.len();
    for i in 0..count {
        out[i] = n;
        n = parent_len(&path[..n]);
    }
    Some(count)
}

// Returns whether the scan is inside a selection after byte `a`.
fn inside_changes(inside: bool, a: u8) -> bool
    ensures { result ≡ inside_after inside a }
{
    if inside { a != b'}' } else { a == b'{' }
}

// Writes the output for byte `i` of the path at index `j`, and returns the index after it.
fn emit(path: &[u8], i: usize, inside: bool, out: &mut [u8], j: usize) -> usize
    requires i_in_bounds { i < length path.now }
    requires j_in_bounds { j < length out.old }
    ensures value { result ≡ j + length (stripped_byte inside (get_or path.now i 0)
        (drop (i + 1) path.now)) }
    ensures out_after { out.new ≡ written_at j
        (stripped_byte inside (get_or path.now i 0) (drop (i + 1) path.now)) out.old }
{
    if inside {
        if starts_name_after(path, i) {
            out[j] = b'/';
            return j + 1;
        }
        return j;
    }
    if path[i] == b'{' {
        return j;
    }
    out[j] = path[i];
    j + 1
}

// Writes the text, which has no brackets, without its selections, and returns the length written.
fn strip_own(own: &[u8], out: &mut [u8]) -> usize
    requires { length own.now ≤ length out.old }
    ensures value { result ≡ length (strip_from false own.now) }
    ensures out_after { out.new ≡ written (strip_from false own.now) out.old }
{
    let mut inside = false;
    let mut j = 0;
    for (i, b) in own.iter().enumerate() {
        j = emit(own, i, inside, out, j);
        inside = inside_changes(inside, *b);
    }
    j
}

// Writes the path without its selections if the buffer has capacity for the original path; otherwise
// writes nothing. The text from the first `[` on is copied.
pub fn strip_into(path: &[u8], out: &mut [u8]) -> Option<usize>
    ensures value { result ≡ strip_fit path.now out.old }
    ensures out_after { out.new ≡ strip_buffer path.now out.old }
{
    if out.len() < path.len() {
        return None;
    }
    let n = path_own::own_part(path).len();
    let j = strip_own(&path[..n], out);
    text::write_at(&path[n..], j, out);
    Some(path.len() - (n - j))
}

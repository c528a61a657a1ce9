// Path prefixes and element counts. Ports has_prefix, element_count and prim_element_count of the Rust
// sdf/path.rs. Every public function is defined for any bytes and has no precondition.
#![tactic(auto)]

ghost use Rattle.std.specs.Prelude.{◌≡◌, cond, ◌+◌, ◌<◌, length, get_or, drop};
ghost use Rattle.path_prefix.specs.Elements.{starts_element, count_elements, element_count, prim_element_count};
ghost use Rattle.path_prefix.specs.Prefix.{is_boundary, can_follow, has_prefix};

// A number of elements, in which maps measure the length of a key. It is a type of its own so that it
// cannot be mixed with a length in bytes.
#[derive(Clone, Copy)]
pub struct Elements(pub usize);

// Returns whether an element boundary lies between the prefix and a remainder that begins with byte `a`.
#[tactic(auto, unfolding(crate::specs::Prefix::is_boundary))]
fn is_boundary(prefix: &[u8], a: u8) -> bool
    ensures { result ≡ is_boundary prefix.now a }
{
    match a {
        b'/' | b'.' | b'{' => true,
        _ => path_grammar::is_root(prefix) || text::last_is(prefix, b'}'),
    }
}

// Returns whether the path, after as many bytes as the prefix has, is at its end or at an element
// boundary.
fn ends_at_boundary(path: &[u8], prefix: &[u8]) -> bool
    ensures { result ≡ can_follow prefix.now (drop (length prefix.now) path.now) }
{
    let n = prefix.len();
    path.len() <= n || is_boundary(prefix, path[n])
}

// Returns whether the path begins with the prefix and the prefix ends at an element boundary. The
// boundary is checked first, since it takes only one byte.
pub fn has_prefix(path: &[u8], prefix: &[u8]) -> bool
    ensures { result ≡ has_prefix path.now prefix.now }
{
    ends_at_boundary(path, prefix) && text::starts_with(path, prefix)
}

// Returns whether an element begins at index `i`; selections count only if `selections` is set.
fn starts_element(text: &[u8], i: usize, selections: bool) -> bool
    requires { i < length text.now }
    ensures { result ≡ starts_element selections (get_or text.now i 0) (drop (i + 1) text.now) }
{
    match text[i] {
        b'/' => i + 1 < text.len(),
        b'{' => selections,
        b'}' => i + 1 < text.len() && path_grammar::is_name_byte(text[i + 1]),
        _ => false,
    }
}

// Counts the elements of the text; selections count only if `selections` is set.
fn count_elements(text: &[u8], selections: bool) -> usize
    ensures { result ≡ count_elements selections text.now }
{
    let mut n = 0;
    for i in 0..text.len() {
        n += usize::from(starts_element(text, i, selections));
    }
    n
}

// Returns the number of names and selections in the text.
pub fn element_count(text: &[u8]) -> Elements
    ensures { result.0 ≡ element_count text.now }
{
    Elements(count_elements(text, true))
}

// Returns the number of names in the text.
pub fn prim_element_count(text: &[u8]) -> Elements
    ensures { result.0 ≡ prim_element_count text.now }
{
    Elements(count_elements(text, false))
}

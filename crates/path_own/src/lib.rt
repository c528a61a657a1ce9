// What belongs to a path itself: its own part, which ends before its brackets, and whether that has a
// variant selection. Ports has_variant_selection of the Rust sdf/path.rs. Every function is defined for any
// bytes and has no precondition.
#![tactic(auto)]

ghost use Rattle.std.specs.Prelude.{◌≡◌};
ghost use Rattle.path_grammar.specs.Own.{own_part, has_variant_selection};

// Returns the text before the first `[`.
pub fn own_part(path: &[u8]) -> &[u8]
    ensures { result.now ≡ own_part path.now }
{
    let n = text::find_byte(path, b'[');
    &path[..n]
}

// Returns whether the path has a variant selection of its own. Most paths have no `{` at all.
pub fn has_variant_selection(path: &[u8]) -> bool
    ensures { result ≡ has_variant_selection path.now }
{
    if text::lacks_byte(path, b'{') {
        return false;
    }
    !text::lacks_byte(own_part(path), b'{')
}

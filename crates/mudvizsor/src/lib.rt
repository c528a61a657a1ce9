// The C interface: extern "C" functions over plain numbers and byte strings. A reply is one number: the low
// byte is the refusal number (0 if accepted), the remainder is 256 times the value. A slice passes as a
// pointer followed by a length.
#![tactic(auto)]

ghost use Rattle.std.specs.Prelude.{◌≡◌, length};
ghost use Rattle.path_parts.specs.Parent.{ancestor_lens};
ghost use Rattle.refusal.specs.Outcome.{written_if_accepted};
ghost use Rattle.path.specs.Calls.{path_new_call, is_end_call, has_variant_selection_call, element_count_call, prim_element_count_call, has_prefix_call, rest_start_call};
ghost use Rattle.path_derive.specs.Calls.{replace_prefix_call, parent_call, prim_path_call, split_property_call, strip_call, ancestors_reply};
ghost use Rattle.path_target.specs.Calls.{embedded_target_call, replace_embedded_target_call};
ghost use Rattle.mapping.specs.Calls.{map_source_to_target_call, map_target_to_source_call, translate_to_target_call};
ghost use Rattle.batch.specs.Batch.{mapped_at, validate_map_all, ReturnsBatchCode};
ghost use Rattle.ffi_rest.specs.RestCode.{rest_test_code};
ghost use Rattle.ffi_values.specs.Map.{untimed_map, direction_of};
ghost use Rattle.ffi_values.specs.Code.{validation_code, test_code, count_code, reply_code, ReturnsPathCode};

mod carried;
mod frames;
mod map_build;
mod map_info;
mod relocate_calls;
mod routes;
mod time;

// Validates that the text is a legal path of at most 255 bytes.
#[unsafe(no_mangle)]
pub extern "C" fn mudvizsor_path_new(path: &[u8]) -> usize
    ensures { result ≡ validation_code (path_new_call path.now) }
{
    ffi_values::validation_code(path::new(path))
}

// Returns whether the path is a prim path, `/` or empty.
#[unsafe(no_mangle)]
pub extern "C" fn mudvizsor_path_is_end(path: &[u8]) -> usize
    ensures { result ≡ test_code (is_end_call path.now) }
{
    ffi_values::test_code(path::is_end(path))
}

// Returns whether the path has a variant selection.
#[unsafe(no_mangle)]
pub extern "C" fn mudvizsor_path_has_variant_selection(path: &[u8]) -> usize
    ensures { result ≡ test_code (has_variant_selection_call path.now) }
{
    ffi_values::test_code(path::has_variant_selection(path))
}

// Returns the number of names and selections of the path.
#[unsafe(no_mangle)]
pub extern "C" fn mudvizsor_path_element_count(path: &[u8]) -> usize
    ensures { result ≡ count_code (element_count_call path.now) }
{
    ffi_values::count_code(path::element_count(path))
}

// Returns the number of names of the path.
#[unsafe(no_mangle)]
pub extern "C" fn mudvizsor_path_prim_element_count(path: &[u8]) -> usize
    ensures { result ≡ count_code (prim_element_count_call path.now) }
{
    ffi_values::count_code(path::prim_element_count(path))
}

// Returns whether the prefix is a prefix of the path.
#[unsafe(no_mangle)]
pub extern "C" fn mudvizsor_path_has_prefix(path: &[u8], prefix: &[u8]) -> usize
    ensures { result ≡ test_code (has_prefix_call path.now prefix.now) }
{
    ffi_values::test_code(path::has_prefix(path, prefix))
}

// Returns whether the prefix is a prefix of the path and, if it is, the index at which the rest begins: the
// value is 0, or 1 plus 256 times the index. A separating slash belongs to the rest.
#[unsafe(no_mangle)]
pub extern "C" fn mudvizsor_path_rest_start(path: &[u8], prefix: &[u8]) -> usize
    ensures { result ≡ rest_test_code (rest_start_call path.now prefix.now) }
{
    ffi_rest::rest_test_code(path::rest_start(path, prefix))
}

// Writes the path with its old prefix replaced by the new one to out.
#[unsafe(no_mangle)]
pub extern "C" fn mudvizsor_path_replace_prefix(
    path: &[u8],
    old: &[u8],
    new: &[u8],
    out: &mut [u8],
) -> usize
    ensures { ReturnsPathCode (replace_prefix_call path.now old.now new.now
        (length out.old)) result out.old out.new }
{
    ffi_values::reply_code(path_derive::replace_prefix(path, old, new, out))
}

// Writes the parent to out: the path without the target in its brackets, its property or its last element.
#[unsafe(no_mangle)]
pub extern "C" fn mudvizsor_path_parent(path: &[u8], out: &mut [u8]) -> usize
    ensures { ReturnsPathCode (parent_call path.now (length out.old)) result out.old
        out.new }
{
    ffi_values::reply_code(path_derive::parent(path, out))
}

// Writes the path without its property, or without the last selection if it ends in one, to out.
#[unsafe(no_mangle)]
pub extern "C" fn mudvizsor_path_prim_path(path: &[u8], out: &mut [u8]) -> usize
    ensures { ReturnsPathCode (prim_path_call path.now (length out.old)) result out.old
        out.new }
{
    ffi_values::reply_code(path_derive::prim_path(path, out))
}

// Writes the prim path of a property to out; the name is the text after the dot that follows it.
#[unsafe(no_mangle)]
pub extern "C" fn mudvizsor_path_split_property(path: &[u8], out: &mut [u8]) -> usize
    ensures { ReturnsPathCode (split_property_call path.now (length out.old)) result
        out.old out.new }
{
    ffi_values::reply_code(path_derive::split_property(path, out))
}

// Writes the path without its selections to out.
#[unsafe(no_mangle)]
pub extern "C" fn mudvizsor_path_strip_variant_selections(path: &[u8], out: &mut [u8]) -> usize
    ensures { ReturnsPathCode (strip_call path.now (length out.old)) result out.old
        out.new }
{
    ffi_values::reply_code(path_derive::strip_variant_selections(path, out))
}

// Writes the lengths of the path and its ancestors to lengths.
#[unsafe(no_mangle)]
pub extern "C" fn mudvizsor_path_ancestors(path: &[u8], lengths: &mut [usize]) -> usize
    ensures value { result ≡ reply_code (ancestors_reply path.now (length lengths.old)) }
    ensures lengths_after { lengths.new ≡ written_if_accepted
        (ancestors_reply path.now (length lengths.old)) (ancestor_lens path.now)
        lengths.old }
{
    ffi_values::reply_code(path_derive::ancestors(path, lengths))
}

// Writes the path in the path's brackets to out.
#[unsafe(no_mangle)]
pub extern "C" fn mudvizsor_path_embedded_target(path: &[u8], out: &mut [u8]) -> usize
    ensures { ReturnsPathCode (embedded_target_call path.now (length out.old)) result
        out.old out.new }
{
    ffi_values::reply_code(path_target::embedded_target(path, out))
}

// Writes the path with the path in its brackets replaced by the target to out.
#[unsafe(no_mangle)]
pub extern "C" fn mudvizsor_path_replace_embedded_target(
    path: &[u8],
    target: &[u8],
    out: &mut [u8],
) -> usize
    ensures { ReturnsPathCode (replace_embedded_target_call path.now target.now
        (length out.old)) result out.old out.new }
{
    ffi_values::reply_code(path_target::replace_embedded_target(path, target, out))
}

// Maps the path from source to target and writes the result to out.
#[unsafe(no_mangle)]
pub extern "C" fn mudvizsor_map_source_to_target(
    store: &[u8],
    places: &[usize],
    count: usize,
    mark: bool,
    path: &[u8],
    out: &mut [u8],
) -> usize
    ensures { ReturnsPathCode (map_source_to_target_call store.now places.now
        (untimed_map count mark) path.now (length out.old)) result out.old
        out.new }
{
    let map = ffi_values::untimed_map(count, mark);
    ffi_values::reply_code(mapping::map_source_to_target(store, places, map, path, out))
}

// Maps the path from target to source and writes the result to out.
#[unsafe(no_mangle)]
pub extern "C" fn mudvizsor_map_target_to_source(
    store: &[u8],
    places: &[usize],
    count: usize,
    mark: bool,
    path: &[u8],
    out: &mut [u8],
) -> usize
    ensures { ReturnsPathCode (map_target_to_source_call store.now places.now
        (untimed_map count mark) path.now (length out.old)) result out.old
        out.new }
{
    let map = ffi_values::untimed_map(count, mark);
    ffi_values::reply_code(mapping::map_target_to_source(store, places, map, path, out))
}

// Translates the path: maps it without its selections and writes the result to out; refused with 6 if plain
// mapping back would select another pair.
#[unsafe(no_mangle)]
pub extern "C" fn mudvizsor_translate_to_target(
    store: &[u8],
    places: &[usize],
    count: usize,
    mark: bool,
    path: &[u8],
    out: &mut [u8],
) -> usize
    ensures { ReturnsPathCode (translate_to_target_call store.now places.now
        (untimed_map count mark) path.now (length out.old)) result out.old
        out.new }
{
    let map = ffi_values::untimed_map(count, mark);
    ffi_values::reply_code(mapping::translate_to_target(store, places, map, path, out))
}

// Maps n paths, validating the list once. `direction` is 0 for source to target, 1 for target to source, any other
// number for translation. Path i is the text at entry i of spots; its reply is entry i of replies, and its
// result is written to the 255 bytes of out from offset 255 i. A bad list (1 to 4), more paths than spots (4) or
// a short buffer (5) refuses the whole call.
#[unsafe(no_mangle)]
pub extern "C" fn mudvizsor_map_all(
    store: &[u8],
    places: &[usize],
    count: usize,
    mark: bool,
    direction: usize,
    texts: &[u8],
    spots: &[usize],
    n: usize,
    out: &mut [u8],
    replies: &mut [usize],
) -> usize
    ensures { let map = untimed_map count mark in ReturnsBatchCode
        (validate_map_all store.now places.now map n spots.now out.old
        replies.old) (mapped_at (direction_of direction) store.now places.now map
        texts.now spots.now) n result out.old out.new replies.old
        replies.new }
{
    let map = ffi_values::untimed_map(count, mark);
    let direction = ffi_values::direction_of(direction);
    ffi_values::validation_code(batch::map_all(
        store, places, map, direction, texts, spots, n, out, replies,
    ))
}

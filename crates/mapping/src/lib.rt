// Calls that map a path through a map in lent memory. Ports map_source_to_target, map_target_to_source
// and translate_to_target of MapFunction in the Rust pcp/mapping.rs; each has a form that also tells the rest
// of the path, the part that was carried over unaltered. Each call validates in the order of the questions; a
// refused call writes nothing.
#![tactic(auto)]

ghost use Rattle.std.specs.Prelude.{◌≡◌, ◌≤◌, length};
ghost use Rattle.path_parts.specs.Strip.{strip};
ghost use Rattle.refusal.specs.Outcome.{ReturnsPath};
ghost use Rattle.path_rest.specs.Carried.{ReturnsCarried};
ghost use Rattle.map_spec.specs.Map.{lent_map};
ghost use Rattle.map_rest.specs.MapRest.{source_rest, target_rest, translated_rest};
ghost use Rattle.map_apply.specs.Fast.{map_fast, plain_rest, translate_fast};
ghost use Rattle.map_function.specs.MapFunction.{map_of};
ghost use Rattle.mapping.specs.CopyOut.{reply_within, copied_out};
ghost use Rattle.mapping.specs.Calls.{map_source_to_target_call, map_target_to_source_call, translate_to_target_call, direction_call, direction_rest};
ghost use Rattle.mapping.specs.Direction.{map_fast_in, after_list_validated};

use refusal::Refusal;

// How a path is mapped.
#[derive(Clone, Copy)]
pub enum Direction {
    // Plain mapping: `map_source_to_target`.
    Out,
    // Plain mapping backwards: `map_target_to_source`.
    Home,
    // Translation: `translate_to_target`.
    Translated,
}

// Copies a path from the scratch buffer to the lent buffer; a refusal writes nothing.
fn copy_out(reply: Result<usize, Refusal>, made: &[u8; 255], out: &mut [u8])
    requires { reply_within reply (length made.now) }
    ensures { out.new ≡ copied_out reply made.now out.old }
{
    if let Ok(n) = reply {
        text::write_at(&made[..n], 0, out);
    }
}

// Plain mapping into the lent buffer.
fn map_into(
    store: &[u8],
    places: &[usize],
    n: usize,
    mark: bool,
    invert: bool,
    path: &[u8],
    out: &mut [u8],
) -> Result<(usize, Option<usize>), Refusal>
    requires { 255 ≤ length out.old }
    ensures { let m = lent_map store.now places.now n mark in
        ReturnsCarried (map_fast invert m path.now) (plain_rest invert m path.now) result
        out.old out.new }
{
    let mut made = [0u8; 255];
    let c = map_apply::map_text_carried(store, places, n, mark, invert, path, &mut made);
    copy_out(path_rest::reply_of(c), &made, out);
    c
}

// Translation of a path without selections into the lent buffer.
fn translate_into(
    store: &[u8],
    places: &[usize],
    n: usize,
    mark: bool,
    path: &[u8],
    out: &mut [u8],
) -> Result<(usize, Option<usize>), Refusal>
    requires { 255 ≤ length out.old }
    ensures { let m = lent_map store.now places.now n mark in
        ReturnsCarried (translate_fast m path.now) (source_rest m path.now) result
        out.old out.new }
{
    let mut made = [0u8; 255];
    let c = map_apply::translate_text_carried(store, places, n, mark, path, &mut made);
    copy_out(path_rest::reply_of(c), &made, out);
    c
}

// Translation into the lent buffer; the path's selections are stripped first, if it has any, and then there is
// no rest.
fn translate_stripped(
    store: &[u8],
    places: &[usize],
    n: usize,
    mark: bool,
    path: &[u8],
    out: &mut [u8],
) -> Result<(usize, Option<usize>), Refusal>
    requires { (length path.now ≤ 255) × (255 ≤ length out.old) }
    ensures { let m = lent_map store.now places.now n mark in
        ReturnsCarried (translate_fast m (strip path.now)) (translated_rest m path.now) result
        out.old out.new }
{
    if !path_own::has_variant_selection(path) {
        return translate_into(store, places, n, mark, path, out);
    }
    let mut plain = [0u8; 255];
    let k = path_parts::strip_into(path, &mut plain).ok_or(Refusal::MadeTooLong)?;
    let c = translate_into(store, places, n, mark, &plain[..k], out);
    path_rest::with_rest(path_rest::reply_of(c), None)
}

// Maps the path into the lent buffer in one of the three ways.
#[tactic(auto, unfolding(crate::specs::Direction::map_fast_in, crate::specs::Calls::direction_rest, map_apply::specs::Fast::plain_rest))]
fn map_in_direction(
    store: &[u8],
    places: &[usize],
    n: usize,
    mark: bool,
    direction: Direction,
    path: &[u8],
    out: &mut [u8],
) -> Result<(usize, Option<usize>), Refusal>
    requires { (length path.now ≤ 255) × (255 ≤ length out.old) }
    ensures { let m = lent_map store.now places.now n mark in
        ReturnsCarried (map_fast_in direction m path.now) (direction_rest direction m path.now) result
        out.old out.new }
{
    match direction {
        Direction::Out => map_into(store, places, n, mark, false, path, out),
        Direction::Home => map_into(store, places, n, mark, true, path, out),
        Direction::Translated => translate_stripped(store, places, n, mark, path, out),
    }
}

// One of the three calls with the rest, given the result `list` of validating the list; only the path is
// validated here. So a list can be validated once for many paths.
fn map_after_list_carried(
    list: Result<(), Refusal>,
    store: &[u8],
    places: &[usize],
    map: map_function::MapFunction,
    direction: Direction,
    path: &[u8],
    out: &mut [u8],
) -> Result<(usize, Option<usize>), Refusal>
    ensures { ReturnsCarried (after_list_validated list direction store.now places.now map
        path.now (length out.old)) (direction_rest direction
        (map_of store.now places.now map) path.now) result out.old
        out.new }
{
    let count = map.count;
    let mark = map.has_root_identity;
    validate::first_refusal(list, path::new(path))?;
    if out.len() < 255 {
        return Err(Refusal::NoRoom);
    }
    map_in_direction(store, places, count, mark, direction, path, out)
}

// One of the three calls, given the result `list` of validating the list.
#[tactic(auto, using(path_rest::proofs::CarriedLaws::reply_with))]
pub fn map_after_list(
    list: Result<(), Refusal>,
    store: &[u8],
    places: &[usize],
    map: map_function::MapFunction,
    direction: Direction,
    path: &[u8],
    out: &mut [u8],
) -> Result<usize, Refusal>
    ensures { ReturnsPath (after_list_validated list direction store.now places.now map
        path.now (length out.old)) result out.old out.new }
{
    path_rest::reply_of(map_after_list_carried(list, store, places, map, direction, path, out))
}

// One of the three calls with the rest: validates the list, then the path.
fn call(
    store: &[u8],
    places: &[usize],
    map: map_function::MapFunction,
    direction: Direction,
    path: &[u8],
    out: &mut [u8],
) -> Result<(usize, Option<usize>), Refusal>
    ensures { ReturnsCarried (direction_call direction store.now places.now map
        path.now (length out.old)) (direction_rest direction
        (map_of store.now places.now map) path.now) result out.old
        out.new }
{
    let list = validate::validate_list_and_path(store, places, map.count, &path[..0]);
    map_after_list_carried(list, store, places, map, direction, path, out)
}

// Maps the path from the source to the target namespace by plain mapping.
#[tactic(auto, using(path_rest::proofs::CarriedLaws::reply_with), unfolding(crate::specs::Calls::direction_call))]
pub fn map_source_to_target(
    store: &[u8],
    places: &[usize],
    map: map_function::MapFunction,
    path: &[u8],
    out: &mut [u8],
) -> Result<usize, Refusal>
    ensures { ReturnsPath (map_source_to_target_call store.now places.now map
        path.now (length out.old)) result out.old out.new }
{
    path_rest::reply_of(call(store, places, map, Direction::Out, path, out))
}

// Maps the path from the target back to the source namespace by plain mapping.
#[tactic(auto, using(path_rest::proofs::CarriedLaws::reply_with), unfolding(crate::specs::Calls::direction_call))]
pub fn map_target_to_source(
    store: &[u8],
    places: &[usize],
    map: map_function::MapFunction,
    path: &[u8],
    out: &mut [u8],
) -> Result<usize, Refusal>
    ensures { ReturnsPath (map_target_to_source_call store.now places.now map
        path.now (length out.old)) result out.old out.new }
{
    path_rest::reply_of(call(store, places, map, Direction::Home, path, out))
}

// Translates the path, without its selections, to the target namespace; no path if mapping the result
// backwards would select another pair.
#[tactic(auto, using(path_rest::proofs::CarriedLaws::reply_with), unfolding(crate::specs::Calls::direction_call))]
pub fn translate_to_target(
    store: &[u8],
    places: &[usize],
    map: map_function::MapFunction,
    path: &[u8],
    out: &mut [u8],
) -> Result<usize, Refusal>
    ensures { ReturnsPath (translate_to_target_call store.now places.now map
        path.now (length out.old)) result out.old out.new }
{
    path_rest::reply_of(call(store, places, map, Direction::Translated, path, out))
}

// Like `map_source_to_target`, with the rest of the path.
#[tactic(auto, unfolding(crate::specs::Calls::direction_call, crate::specs::Calls::direction_rest))]
pub fn map_source_to_target_carried(
    store: &[u8],
    places: &[usize],
    map: map_function::MapFunction,
    path: &[u8],
    out: &mut [u8],
) -> Result<(usize, Option<usize>), Refusal>
    ensures { ReturnsCarried (map_source_to_target_call store.now places.now map
        path.now (length out.old)) (source_rest (map_of store.now places.now map)
        path.now) result out.old out.new }
{
    call(store, places, map, Direction::Out, path, out)
}

// Like `map_target_to_source`, with the rest of the path.
#[tactic(auto, unfolding(crate::specs::Calls::direction_call, crate::specs::Calls::direction_rest))]
pub fn map_target_to_source_carried(
    store: &[u8],
    places: &[usize],
    map: map_function::MapFunction,
    path: &[u8],
    out: &mut [u8],
) -> Result<(usize, Option<usize>), Refusal>
    ensures { ReturnsCarried (map_target_to_source_call store.now places.now map
        path.now (length out.old)) (target_rest (map_of store.now places.now map)
        path.now) result out.old out.new }
{
    call(store, places, map, Direction::Home, path, out)
}

// Like `translate_to_target`, with the rest of the path; there is none if selections were stripped.
#[tactic(auto, unfolding(crate::specs::Calls::direction_call, crate::specs::Calls::direction_rest))]
pub fn translate_to_target_carried(
    store: &[u8],
    places: &[usize],
    map: map_function::MapFunction,
    path: &[u8],
    out: &mut [u8],
) -> Result<(usize, Option<usize>), Refusal>
    ensures { ReturnsCarried (translate_to_target_call store.now places.now map
        path.now (length out.old)) (translated_rest (map_of store.now places.now map)
        path.now) result out.old out.new }
{
    call(store, places, map, Direction::Translated, path, out)
}

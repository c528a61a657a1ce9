// Deepens the class of a map to a path, after validation: the class pair is replaced by the node and its
// image. Ports `MapFunction::deepen_to` of pcp/mapping.rs.
#![tactic(auto)]

ghost use Rattle.std.specs.Prelude.{◌≡◌, true, false, ◌+◌, ◌*◌, ◌≤◌, ◌<◌, length, take};
ghost use Rattle.path_prefix.specs.Prefix.{has_prefix};
ghost use Rattle.path_prefix.specs.Elements.{element_count};
ghost use Rattle.path_parts.specs.Strip.{strip};
ghost use Rattle.pair_list.specs.Pair.{pair, all_short};
ghost use Rattle.pair_list.specs.Places.{key_at, pairs_in};
ghost use Rattle.pair_list.specs.BestStep.{consider_index};
ghost use Rattle.pair_list.specs.LongestMatch.{longest_by};
ghost use Rattle.map_spec.specs.Derive.{deepened_pair};
ghost use Rattle.validate.specs.Validate.{ValidList};
ghost use Rattle.map_function.specs.MapFunction.{list_of, map_of};
ghost use Rattle.map_function.specs.MapOutcome.{ReturnsMap};
ghost use Rattle.pair_list_write.specs.Packed.{HoldsList, AppendedPair, ScratchRoom};
ghost use Rattle.map_deepen.specs.FindClass.{class_kept, class_index};
ghost use Rattle.map_deepen.specs.Calls.{deepened_pairs, deepened_map, deepened_at, deepen_to_call};

use refusal::Refusal;

// Appends a pair and returns the offset after it: the pair itself, or, if its source is the class's, the pair
// `node`→`below`.
fn deepen_pair(
    s: &[u8],
    t: &[u8],
    node: &[u8],
    above: &[u8],
    below: &[u8],
    n: usize,
    at: usize,
    bytes: &mut [u8],
    slots: &mut [usize],
) -> usize
    requires s_len_bound { length s.now ≤ 255 }
    requires t_len_bound { length t.now ≤ 255 }
    requires node_len_bound { length node.now ≤ 255 }
    requires below_len_bound { length below.now ≤ 511 }
    requires at_in_bounds { at + 766 ≤ length bytes.old }
    requires n_in_bounds { 4 * n + 4 ≤ length slots.old }
    ensures appended_pair { AppendedPair (deepened_pair node.now above.now below.now
        (pair s.now t.now)) n at bytes.old slots.old result bytes.new
        slots.new }
    ensures upper_bound { result ≤ at + 766 }
{
    if text::is_equal(s, above) {
        return pair_list_write::push_pair(node, below, n, at, bytes, slots);
    }
    pair_list_write::push_pair(s, t, n, at, bytes, slots)
}

// Writes the first n pairs with the class moved to the node and returns the offset after them.
fn deepen_all(
    store: &[u8],
    places: &[usize],
    n: usize,
    node: &[u8],
    above: &[u8],
    below: &[u8],
    bytes: &mut [u8],
    slots: &mut [usize],
) -> usize
    requires n_value { all_short (pairs_in store.now places.now n) ≡ true }
    requires node_len_bound { length node.now ≤ 255 }
    requires below_len_bound { length below.now ≤ 511 }
    requires scratch_room { ScratchRoom 766 n bytes.old slots.old }
    ensures { HoldsList (deepened_pairs node.now above.now below.now
        (pairs_in store.now places.now n)) n result bytes.new slots.new }
{
    let mut at = 0;
    for i in 0..n {
        let s = pair_list::key_at(store, places, i, false);
        let t = pair_list::key_at(store, places, i, true);
        at = deepen_pair(s, t, node, above, below, i, at, bytes, slots);
    }
    at
}

// Deepens a validated map in the given scratch buffers.
fn deepen_in(
    store: &[u8],
    places: &[usize],
    map: map_function::MapFunction,
    node: &[u8],
    above: &[u8],
    below: &[u8],
    bytes: &mut [u8],
    own: &mut [usize],
    out: &mut [u8],
    slots: &mut [usize],
) -> Result<map_function::MapFunction, Refusal>
    requires valid_list { ValidList (list_of store.now places.now map) }
    requires node_len_bound { length node.now ≤ 255 }
    requires below_len_bound { length below.now ≤ 511 }
    requires scratch_room { ScratchRoom 766 map.count bytes.old own.old }
    ensures { ReturnsMap (deepened_map (map_of store.now places.now map) node.now
        above.now below.now map.time_offset out.old slots.old) result
        out.old out.new slots.old slots.new }
{
    let n = map.count;
    let mark = map.has_root_identity;
    let time = map.time_offset;
    deepen_all(store, places, n, node, above, below, bytes, own);
    pair_buffer::from_ends(bytes, own, n, mark, time, out, slots)
}

// Deepens a validated map in scratch buffers; those for at most four pairs are small, so that they are quickly
// cleared.
fn deepen_pairs(
    store: &[u8],
    places: &[usize],
    map: map_function::MapFunction,
    node: &[u8],
    above: &[u8],
    below: &[u8],
    out: &mut [u8],
    slots: &mut [usize],
) -> Result<map_function::MapFunction, Refusal>
    requires valid_list { ValidList (list_of store.now places.now map) }
    requires node_len_bound { length node.now ≤ 255 }
    requires below_len_bound { length below.now ≤ 511 }
    ensures { ReturnsMap (deepened_map (map_of store.now places.now map) node.now
        above.now below.now map.time_offset out.old slots.old) result
        out.old out.new slots.old slots.new }
{
    if map.count <= 4 {
        let mut bytes = [0u8; 3064];
        let mut own = [0usize; 16];
        return deepen_in(
            store, places, map, node, above, below, &mut bytes, &mut own, out, slots,
        );
    }
    let mut bytes = [0u8; 49024];
    let mut own = [0usize; 256];
    deepen_in(
        store, places, map, node, above, below, &mut bytes, &mut own, out, slots,
    )
}

// Deepens the map at the class with index i.
fn deepen_by(
    store: &[u8],
    places: &[usize],
    map: map_function::MapFunction,
    node: &[u8],
    i: usize,
    out: &mut [u8],
    slots: &mut [usize],
) -> Result<map_function::MapFunction, Refusal>
    requires valid_list { ValidList (list_of store.now places.now map) }
    requires node_len_bound { length node.now ≤ 255 }
    requires i_lt_count { i < map.count }
    ensures { ReturnsMap (deepened_at store.now places.now map node.now i
        out.old slots.old) result out.old out.new slots.old
        slots.new }
{
    let above = pair_list::key_at(store, places, i, false);
    let new = pair_list::key_at(store, places, i, true);
    let mut made = [0u8; 511];
    let k = pair_buffer::replace_into(node, above, new, &mut made);
    deepen_pairs(store, places, map, node, above, &made[..k], out, slots)
}

// The class so far: the index of the pair and the number of elements of its source.
#[derive(Clone, Copy)]
struct ClassSoFar {
    at: usize,
    elements: path_prefix::Elements,
}

// The search result after the source at i: that source if it is a prefix of the node with at least as many
// elements as the one found so far. An empty source is a prefix like any other.
#[tactic(auto, unfolding(pair_list::specs::BestStep::consider_index))]
fn consider_class(f: Option<ClassSoFar>, node: &[u8], source: &[u8], i: usize) -> Option<ClassSoFar>
    ensures { class_kept result ≡ consider_index (class_kept f) (has_prefix node.now source.now) i
        (element_count source.now) }
{
    if !path_prefix::has_prefix(node, source) {
        return f;
    }
    let elements = path_prefix::element_count(source);
    if f.is_some_and(|best| elements.0 < best.elements.0) {
        return f;
    }
    Some(ClassSoFar { at: i, elements })
}

// The class: the pair whose source is a prefix of the node with most elements, the later on a tie.
fn find_class(store: &[u8], places: &[usize], n: usize, node: &[u8]) -> Option<ClassSoFar>
    ensures { class_index result ≡ longest_by (has_prefix node.now)
        (key_at store.now places.now false) n }
{
    let mut f = None;
    for i in 0..n {
        f = consider_class(f, node, pair_list::key_at(store, places, i, false), i);
    }
    f
}

// Deepens to the node, which is the path without its selections.
fn deepen_node(
    store: &[u8],
    places: &[usize],
    map: map_function::MapFunction,
    path: &[u8],
    node: &[u8],
    out: &mut [u8],
    slots: &mut [usize],
) -> Result<map_function::MapFunction, Refusal>
    requires { node.now ≡ strip path.now }
    ensures { ReturnsMap (deepen_to_call store.now places.now map path.now
        out.old slots.old) result out.old out.new slots.old
        slots.new }
{
    let n = map.count;
    let mark = map.has_root_identity;
    let none = &path[..0];
    validate::validate_call(store, places, n, path, none, node, none)?;
    if pair_buffer::has_source(store, places, n, node) {
        return map_function::without_dropping(store, places, n, mark, map.time_offset, out, slots);
    }
    let Some(f) = find_class(store, places, n, node) else {
        return map_function::without_dropping(store, places, n, mark, map.time_offset, out, slots);
    };
    deepen_by(store, places, map, node, f.at, out, slots)
}

// Writes the path without its selections and returns its length.
fn strip_node(path: &[u8], out: &mut [u8]) -> usize
    requires { length path.now ≤ length out.old }
    ensures value { result ≡ length (strip path.now) }
    ensures out_after { take result out.new ≡ strip path.now }
    ensures upper_bound { result ≤ length out.old }
{
    path_parts::strip_into(path, out).unwrap_or(0)
}

// Returns the map with its class deepened to the path without its selections.
pub fn deepen_to(
    store: &[u8],
    places: &[usize],
    map: map_function::MapFunction,
    path: &[u8],
    out: &mut [u8],
    slots: &mut [usize],
) -> Result<map_function::MapFunction, Refusal>
    ensures { ReturnsMap (deepen_to_call store.now places.now map path.now
        out.old slots.old) result out.old out.new slots.old
        slots.new }
{
    if 255 < path.len() {
        return Err(Refusal::TooLong);
    }
    let mut plain = [0u8; 255];
    let k = strip_node(path, &mut plain);
    deepen_node(store, places, map, path, &plain[..k], out, slots)
}

// Calls that build a map from one map, and the call that tests whether a map changes anything. Ports
// with_root_identity, inverse, dropping_source and is_noop of MapFunction in the Rust pcp/mapping.rs.
#![tactic(auto)]

ghost use Rattle.std.specs.Prelude.{◌≡◌, [], ◌∷◌, ◌++◌, ◌+◌, ◌*◌, ◌≤◌, length};
ghost use Rattle.pair_list.specs.Places.{pair_in, pairs_in};
ghost use Rattle.map_spec.specs.Derive.{without_source};
ghost use Rattle.map_function.specs.MapOutcome.{ReturnsMap};
ghost use Rattle.map_derive.specs.SwapEnds.{swap_ends};
ghost use Rattle.map_derive.specs.Calls.{inverse_call, with_root_identity_call, dropping_source_call, all_ends_equal, is_noop_call};

use refusal::Refusal;

// Builds the map with its mark set.
#[tactic(auto, unfolding(crate::specs::Calls::with_root_identity_call, map_function::specs::MapOutcome::map_reply, map_function::specs::MapOutcome::map_bytes, map_function::specs::MapOutcome::map_slots))]
pub fn with_root_identity(
    store: &[u8],
    places: &[usize],
    map: map_function::MapFunction,
    out: &mut [u8],
    slots: &mut [usize],
) -> Result<map_function::MapFunction, Refusal>
    ensures { ReturnsMap (with_root_identity_call store.now places.now map out.old
        slots.old) result out.old out.new slots.old slots.new }
{
    let n = map.count;
    validate::validate_list(store, places, n)?;
    map_function::without_dropping(store, places, n, true, map.time_offset, out, slots)
}

// Writes the four numbers of each of the first n pairs with source and target exchanged; writes nothing
// if one of the slices is too short.
pub fn swap_ends(places: &[usize], n: usize, other: &mut [usize])
    ensures { other.new ≡ swap_ends places.now n other.old }
{
    if places.len() / 4 < n || other.len() / 4 < n {
        return;
    }
    for i in 0..n {
        let j = 4 * i;
        pair_list_write::write_entry(
            i,
            places[j + 2],
            places[j + 3],
            places[j],
            places[j + 1],
            other,
        );
    }
}

// Builds the map with source and target exchanged, and with the time offset (0, 1).
#[tactic(auto, unfolding(crate::specs::Calls::inverse_call, map_function::specs::MapOutcome::map_reply, map_function::specs::MapOutcome::map_bytes, map_function::specs::MapOutcome::map_slots))]
pub fn inverse(
    store: &[u8],
    places: &[usize],
    map: map_function::MapFunction,
    out: &mut [u8],
    slots: &mut [usize],
) -> Result<map_function::MapFunction, Refusal>
    ensures { ReturnsMap (inverse_call store.now places.now map out.old
        slots.old) result out.old out.new slots.old slots.new }
{
    let n = map.count;
    let mark = map.has_root_identity;
    validate::validate_list(store, places, n)?;
    let mut other = [0usize; 256];
    swap_ends(places, n, &mut other);
    let time = layer_offset::LayerOffset::IDENTITY;
    map_function::from_parts(store, &other, n, mark, time, out, slots)
}

// Appends pair `i` to the `w` kept pairs unless it has the source; returns the new number of kept pairs.
fn keep_other(
    store: &[u8],
    places: &[usize],
    i: usize,
    source: &[u8],
    kept: &mut [usize],
    w: usize,
) -> usize
    requires i_in_bounds { 4 * i + 4 ≤ length places.now }
    requires w_in_bounds { 4 * w + 4 ≤ length kept.old }
    ensures { pairs_in store.now kept.new result ≡ pairs_in store.now
        kept.old w ++ without_source source.now
        (pair_in store.now places.now i ∷ []) }
{
    if text::is_equal(pair_list::key_at(store, places, i, false), source) {
        return w;
    }
    pair_list_write::copy_entry(places, i, w, kept);
    w + 1
}

// Selects those of the first n pairs that do not have the source, and returns their number.
fn without_source(
    store: &[u8],
    places: &[usize],
    n: usize,
    source: &[u8],
    kept: &mut [usize],
) -> usize
    requires n_in_bounds { 4 * n ≤ length places.now }
    requires n_in_bounds_2 { 4 * n ≤ length kept.old }
    ensures { pairs_in store.now kept.new result ≡ without_source source.now
        (pairs_in store.now places.now n) }
{
    let mut w = 0;
    for i in 0..n {
        w = keep_other(store, places, i, source, kept, w);
    }
    w
}

// Builds the map without the pairs that have the source.
#[tactic(auto, using(crate::proofs::DeriveBranches::end_validated), unfolding(crate::specs::Calls::dropping_source_call, map_function::specs::MapOutcome::map_reply, map_function::specs::MapOutcome::map_bytes, map_function::specs::MapOutcome::map_slots))]
pub fn dropping_source(
    store: &[u8],
    places: &[usize],
    map: map_function::MapFunction,
    source: &[u8],
    out: &mut [u8],
    slots: &mut [usize],
) -> Result<map_function::MapFunction, Refusal>
    ensures { ReturnsMap (dropping_source_call store.now places.now map source.now
        out.old slots.old) result out.old out.new slots.old
        slots.new }
{
    let n = map.count;
    let mark = map.has_root_identity;
    let time = map.time_offset;
    let e = &source[..0];
    validate::validate_call(store, places, n, source, e, source, e)?;
    let mut kept = [0usize; 256];
    let w = without_source(store, places, n, source, &mut kept);
    if w == n {
        return map_function::without_dropping(store, places, n, mark, time, out, slots);
    }
    map_function::from_parts(store, &kept, w, mark, time, out, slots)
}

// Returns whether each of the first n pairs has equal ends.
#[tactic(auto, using(crate::proofs::ListBranches::same_none, crate::proofs::ListBranches::same_not, crate::proofs::ListBranches::same_on, crate::proofs::ListBranches::same_end))]
fn all_ends_equal(store: &[u8], places: &[usize], n: usize) -> bool
    ensures { result ≡ all_ends_equal (pairs_in store.now places.now n) }
{
    for i in 0..n {
        let s = pair_list::key_at(store, places, i, false);
        if !text::is_equal(s, pair_list::key_at(store, places, i, true)) {
            return false;
        }
    }
    true
}

// Returns whether the map is not null and changes neither paths nor times.
#[tactic(auto, unfolding(crate::specs::Calls::is_noop_call))]
pub fn is_noop(
    store: &[u8],
    places: &[usize],
    map: map_function::MapFunction,
) -> Result<bool, Refusal>
    ensures { result ≡ is_noop_call store.now places.now map }
{
    let n = map.count;
    validate::validate_list(store, places, n)?;
    Ok(!map.is_null() && all_ends_equal(store, places, n) && map.time_offset.is_identity())
}

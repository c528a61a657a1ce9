// Re-anchors the targets of a map from one path to another, after validation. Ports
// `MapFunction::rebase_target` of pcp/mapping.rs.
#![tactic(auto)]

ghost use Rattle.std.specs.Prelude.{◌≡◌, true, [], ◌∷◌, ◌+◌, ◌*◌, ◌≤◌, length};
ghost use Rattle.pair_list.specs.Pair.{pair, all_short};
ghost use Rattle.pair_list.specs.Places.{pairs_in};
ghost use Rattle.map_spec.specs.New.{from_pair_identity};
ghost use Rattle.map_spec.specs.Derive.{any_target_below};
ghost use Rattle.validate.specs.Validate.{ValidList};
ghost use Rattle.map_function.specs.MapFunction.{list_of, map_of};
ghost use Rattle.map_function.specs.MapOutcome.{ReturnsMap, within_limits};
ghost use Rattle.pair_list_write.specs.Packed.{HoldsList, AppendedPair, ScratchRoom};
ghost use Rattle.pair_buffer.specs.Ends.{replaced_or_same};
ghost use Rattle.map_rebase.specs.Calls.{rebased_pairs, rebased_map, rebase_target_call};

use refusal::Refusal;

// Appends a pair with its target re-anchored and returns the offset after it.
fn rebase_pair(
    s: &[u8],
    t: &[u8],
    from: &[u8],
    to: &[u8],
    n: usize,
    at: usize,
    bytes: &mut [u8],
    slots: &mut [usize],
) -> usize
    requires s_len_bound { length s.now ≤ 255 }
    requires t_len_bound { length t.now ≤ 255 }
    requires to_len_bound { length to.now ≤ 255 }
    requires at_in_bounds { at + 766 ≤ length bytes.old }
    requires n_in_bounds { 4 * n + 4 ≤ length slots.old }
    ensures appended_pair { AppendedPair (pair s.now
        (replaced_or_same t.now from.now to.now)) n at bytes.old
        slots.old result bytes.new slots.new }
    ensures upper_bound { result ≤ at + 766 }
{
    let mut made = [0u8; 511];
    let k = pair_buffer::replace_into(t, from, to, &mut made);
    pair_list_write::push_pair(s, &made[..k], n, at, bytes, slots)
}

// Returns whether one of the first n pairs has a target at or below `from`.
fn any_target(store: &[u8], places: &[usize], n: usize, from: &[u8]) -> bool
    ensures { result ≡ any_target_below from.now (pairs_in store.now places.now n) }
{
    (0..n).any(|i| path_prefix::has_prefix(pair_list::key_at(store, places, i, true), from))
}

// Writes the first n pairs with their targets re-anchored and returns the offset after them.
fn rebase_all(
    store: &[u8],
    places: &[usize],
    n: usize,
    from: &[u8],
    to: &[u8],
    bytes: &mut [u8],
    slots: &mut [usize],
) -> usize
    requires n_value { all_short (pairs_in store.now places.now n) ≡ true }
    requires to_len_bound { length to.now ≤ 255 }
    requires scratch_room { ScratchRoom 766 n bytes.old slots.old }
    ensures { HoldsList (rebased_pairs from.now to.now
        (pairs_in store.now places.now n)) n result bytes.new slots.new }
{
    let mut at = 0;
    for i in 0..n {
        let s = pair_list::key_at(store, places, i, false);
        let t = pair_list::key_at(store, places, i, true);
        at = rebase_pair(s, t, from, to, i, at, bytes, slots);
    }
    at
}

// Rebases a validated map in the given scratch buffers.
fn rebase_in(
    store: &[u8],
    places: &[usize],
    map: map_function::MapFunction,
    from: &[u8],
    to: &[u8],
    bytes: &mut [u8],
    own: &mut [usize],
    out: &mut [u8],
    slots: &mut [usize],
) -> Result<map_function::MapFunction, Refusal>
    requires valid_list { ValidList (list_of store.now places.now map) }
    requires to_len_bound { length to.now ≤ 255 }
    requires scratch_room { ScratchRoom 766 map.count bytes.old own.old }
    ensures { ReturnsMap (rebased_map (map_of store.now places.now map) from.now
        to.now map.time_offset out.old slots.old) result out.old
        out.new slots.old slots.new }
{
    let n = map.count;
    let mark = map.has_root_identity;
    let time = map.time_offset;
    rebase_all(store, places, n, from, to, bytes, own);
    pair_buffer::from_ends(bytes, own, n, mark, time, out, slots)
}

// Rebases a validated map in scratch buffers; those for at most four pairs are small, so that they are quickly
// cleared.
fn rebase_pairs(
    store: &[u8],
    places: &[usize],
    map: map_function::MapFunction,
    from: &[u8],
    to: &[u8],
    out: &mut [u8],
    slots: &mut [usize],
) -> Result<map_function::MapFunction, Refusal>
    requires valid_list { ValidList (list_of store.now places.now map) }
    requires to_len_bound { length to.now ≤ 255 }
    ensures { ReturnsMap (rebased_map (map_of store.now places.now map) from.now
        to.now map.time_offset out.old slots.old) result out.old
        out.new slots.old slots.new }
{
    if map.count <= 4 {
        let mut bytes = [0u8; 3064];
        let mut own = [0usize; 16];
        return rebase_in(
            store, places, map, from, to, &mut bytes, &mut own, out, slots,
        );
    }
    let mut bytes = [0u8; 49024];
    let mut own = [0usize; 256];
    rebase_in(
        store, places, map, from, to, &mut bytes, &mut own, out, slots,
    )
}

// Builds the map of one pair and the mark.
fn from_pair_identity(
    s: &[u8],
    t: &[u8],
    time: layer_offset::LayerOffset,
    out: &mut [u8],
    slots: &mut [usize],
) -> Result<map_function::MapFunction, Refusal>
    requires s_len_bound { length s.now ≤ 255 }
    requires t_len_bound { length t.now ≤ 255 }
    ensures { ReturnsMap (within_limits (pair s.now t.now ∷ [])
        (from_pair_identity (pair s.now t.now)) time out.old slots.old) result
        out.old out.new slots.old slots.new }
{
    let mut bytes = [0u8; 510];
    let mut own = [0usize; 4];
    pair_list_write::push_pair(s, t, 0, 0, &mut bytes, &mut own);
    map_function::from_parts(&bytes, &own, 1, true, time, out, slots)
}

// Returns the map with every target at or below `from` moved to `to`; the identity on paths becomes the pair
// `from`→`to` beside the mark.
pub fn rebase_target(
    store: &[u8],
    places: &[usize],
    map: map_function::MapFunction,
    from: &[u8],
    to: &[u8],
    out: &mut [u8],
    slots: &mut [usize],
) -> Result<map_function::MapFunction, Refusal>
    ensures { ReturnsMap (rebase_target_call store.now places.now map from.now
        to.now out.old slots.old) result out.old out.new
        slots.old slots.new }
{
    let n = map.count;
    let mark = map.has_root_identity;
    validate::validate_call(store, places, n, from, to, from, to)?;
    if n == 0 && mark {
        return from_pair_identity(from, to, map.time_offset, out, slots);
    }
    if !any_target(store, places, n, from) {
        return map_function::without_dropping(store, places, n, mark, map.time_offset, out, slots);
    }
    rebase_pairs(store, places, map, from, to, out, slots)
}

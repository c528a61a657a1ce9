// Computes a class's map across a transfer: transfer ∘ class ∘ transfer⁻¹, with the root identity added.
// Ports `MapFunction::implied_class` of pcp/mapping.rs. Each list is built in a scratch buffer.
#![tactic(auto)]

ghost use Rattle.std.specs.Prelude.{◌≡◌, true, ◌||◌, ◌+◌, ◌*◌, ◌≤◌, length};
ghost use Rattle.layer_offset.specs.Offset.{identity_offset};
ghost use Rattle.pair_list.specs.Pair.{all_short};
ghost use Rattle.pair_list.specs.Places.{pairs_in};
ghost use Rattle.pair_list_write.specs.Lists.{list_fits_buffers};
ghost use Rattle.validate.specs.Validate.{ValidList};
ghost use Rattle.map_spec.specs.Map.{lent_map};
ghost use Rattle.map_spec.specs.Derive.{inverse};
ghost use Rattle.map_function.specs.MapFunction.{path_is_identity, list_of, map_of};
ghost use Rattle.map_function.specs.MapOutcome.{map, map_bytes, map_slots, ReturnsMap, map_function};
ghost use Rattle.pair_list_write.specs.Packed.{HoldsList};
ghost use Rattle.compose_pairs.specs.ComposePairs.{CanCompose};
ghost use Rattle.map_implied_class.specs.Implied.{composed_from, implied_outcome, implied_time, implied_class_call};
ghost use Rattle.map_implied_class.specs.Finish.{map_of_reply, finished_map, composed_map, room_beside_transfer, implied_after_class};

use refusal::Refusal;

// The map in a reply; the null map if the reply is a refusal.
fn map_of_reply(reply: Result<map_function::MapFunction, Refusal>) -> map_function::MapFunction
    ensures { result ≡ map_of_reply reply }
{
    reply.unwrap_or(map_function::MapFunction::null())
}

// Builds a map from the first n pairs, unchanged if `whole` is set, otherwise by dropping redundant pairs.
// The buffers must be large enough.
fn finish_map(
    store: &[u8],
    places: &[usize],
    n: usize,
    whole: bool,
    mark: bool,
    out: &mut [u8],
    slots: &mut [usize],
) -> map_function::MapFunction
    requires n_bound { (n ≤ 64) × (4 * n ≤ length places.now) }
    requires slots_value { list_fits_buffers (pairs_in store.now places.now n) out.old slots.old ≡ true }
    ensures value { result ≡ map_function (finished_map whole (pairs_in store.now places.now n) mark)
        identity_offset }
    ensures out_after { out.new ≡ map_bytes
        (map (finished_map whole (pairs_in store.now places.now n) mark) identity_offset)
        out.old }
    ensures slots_after { slots.new ≡ map_slots
        (map (finished_map whole (pairs_in store.now places.now n) mark) identity_offset)
        slots.old }
{
    let time = layer_offset::LayerOffset::IDENTITY;
    if whole {
        return map_of_reply(map_function::without_dropping(
            store, places, n, mark, time, out, slots,
        ));
    }
    map_of_reply(map_function::from_parts(store, places, n, mark, time, out, slots))
}

// Builds the inverse of a map in a scratch buffer.
fn invert(
    store: &[u8],
    places: &[usize],
    n: usize,
    mark: bool,
    out: &mut [u8],
    slots: &mut [usize],
) -> map_function::MapFunction
    requires n_bound { (n ≤ 64) × (4 * n ≤ length places.now) }
    requires n_value { all_short (pairs_in store.now places.now n) ≡ true }
    requires in_bounds { 65408 ≤ length out.old }
    requires in_bounds_2 { 256 ≤ length slots.old }
    ensures { map_of out.new slots.new result ≡ inverse
        (lent_map store.now places.now n mark) }
{
    let mut own = [0usize; 256];
    map_derive::swap_ends(places, n, &mut own);
    finish_map(store, &own, n, false, mark, out, slots)
}

// Writes the list that composing two maps starts from. If one map is the identity on paths, that is the other
// map's own list, which composing with the identity as the outer map yields.
fn compose_list(
    store: &[u8],
    places: &[usize],
    outer: map_function::MapFunction,
    istore: &[u8],
    iplaces: &[usize],
    inner: map_function::MapFunction,
    bytes: &mut [u8],
    own: &mut [usize],
) -> compose_pairs::Built
    requires { CanCompose (pairs_in store.now places.now outer.count)
        (pairs_in istore.now iplaces.now inner.count) (inner.count + outer.count) bytes.old own.old }
    ensures { HoldsList (composed_from (map_of store.now places.now outer)
        (map_of istore.now iplaces.now inner)) result.n result.at bytes.new
        own.new }
{
    let n = outer.count;
    let mark = outer.has_root_identity;
    let k = inner.count;
    let imark = inner.has_root_identity;
    if inner.path_is_identity() {
        return compose_pairs::compose_into(
            istore, iplaces, k, imark, store, places, n, mark, bytes, own,
        );
    }
    compose_pairs::compose_into(
        store, places, n, mark, istore, iplaces, k, imark, bytes, own,
    )
}

// Builds the composed map from the list that composing starts from.
fn finish_composed(
    store: &[u8],
    places: &[usize],
    n: usize,
    outer: map_function::MapFunction,
    inner: map_function::MapFunction,
    out: &mut [u8],
    slots: &mut [usize],
) -> map_function::MapFunction
    requires n_bound { (n ≤ 64) × (4 * n ≤ length places.now) }
    requires slots_value { list_fits_buffers (pairs_in store.now places.now n) out.old slots.old ≡ true }
    ensures value { result ≡ map_function (composed_map outer inner (pairs_in store.now places.now n))
        identity_offset }
    ensures out_after { out.new ≡ map_bytes
        (map (composed_map outer inner (pairs_in store.now places.now n)) identity_offset)
        out.old }
    ensures slots_after { slots.new ≡ map_slots
        (map (composed_map outer inner (pairs_in store.now places.now n)) identity_offset)
        slots.old }
{
    let whole = outer.path_is_identity() || inner.path_is_identity();
    let mark = outer.has_root_identity && inner.has_root_identity;
    finish_map(store, places, n, whole, mark, out, slots)
}

// Returns whether the lists b and d fit in the capacity after the first n pairs.
fn has_room_beside(
    store: &[u8],
    places: &[usize],
    n: usize,
    b: compose_pairs::Built,
    d: compose_pairs::Built,
    room: usize,
    slots: usize,
) -> bool
    requires { (n ≤ 64) × ((b.n ≤ 64) × (d.n ≤ 64)) }
    ensures { result ≡ room_beside_transfer (pairs_in store.now places.now n) (b.n + d.n)
        (b.at + d.at) room slots }
{
    if slots / 4 < n + (b.n + d.n) {
        return false;
    }
    if room < b.at {
        return false;
    }
    let left = room - b.at;
    if left < d.at {
        return false;
    }
    pair_list_write::list_fits(store, places, n, left - d.at)
}

// Composes the transfer with the class's part; b is the size of that part's list, and `short` tells whether
// it passed question 7.
fn finish(
    store: &[u8],
    places: &[usize],
    transfer: map_function::MapFunction,
    mid: &[u8],
    mids: &[usize],
    class: map_function::MapFunction,
    b: compose_pairs::Built,
    short: bool,
    time: layer_offset::LayerOffset,
    bytes: &mut [u8],
    own: &mut [usize],
    out: &mut [u8],
    slots: &mut [usize],
) -> Result<map_function::MapFunction, Refusal>
    requires count_bound { (transfer.count ≤ 64) × (b.n ≤ 64) }
    requires can_compose { CanCompose (pairs_in store.now places.now transfer.count)
        (pairs_in mid.now mids.now class.count) (class.count + transfer.count) bytes.old own.old }
    ensures { ReturnsMap (implied_after_class (map_of store.now places.now transfer)
        (map_of mid.now mids.now class) b.n b.at short time out.old
        slots.old) result out.old out.new slots.old slots.new }
{
    let n = transfer.count;
    let d = compose_list(store, places, transfer, mid, mids, class, bytes, own);
    if 64 < d.n {
        return Err(Refusal::TooMany);
    }
    if !has_room_beside(store, places, n, b, d, out.len(), slots.len()) {
        return Err(Refusal::NoRoom);
    }
    if !short || !pair_buffer::all_short(bytes, own, d.n) {
        return Err(Refusal::MadeTooLong);
    }
    let f = finish_composed(bytes, own, d.n, transfer, class, out, slots);
    Ok(map_function::MapFunction {
        count: f.count,
        has_root_identity: true,
        time_offset: time,
    })
}

// Computes the implied class of validated maps in scratch buffers: `mid` holds first the inverse and then the
// class's part. Ends made from legal ends are legal, so question 8 needs no check.
fn implied_in(
    store: &[u8],
    places: &[usize],
    transfer: map_function::MapFunction,
    cstore: &[u8],
    cplaces: &[usize],
    class: map_function::MapFunction,
    out: &mut [u8],
    slots: &mut [usize],
) -> Result<map_function::MapFunction, Refusal>
    requires valid_list { ValidList (list_of store.now places.now transfer) }
    requires valid_list_2 { ValidList (list_of cstore.now cplaces.now class) }
    ensures { ReturnsMap (implied_outcome (map_of store.now places.now transfer)
        (map_of cstore.now cplaces.now class) (implied_time transfer class) out.old
        slots.old) result out.old out.new slots.old slots.new }
{
    let mut bytes = [0u8; 196352];
    let mut own = [0usize; 512];
    let mut mid = [0u8; 65408];
    let mut mids = [0usize; 256];
    let mark = transfer.has_root_identity;
    let back = invert(store, places, transfer.count, mark, &mut mid, &mut mids);
    let b = compose_list(
        cstore, cplaces, class, &mid, &mids, back, &mut bytes, &mut own,
    );
    if 64 < b.n {
        return Err(Refusal::TooMany);
    }
    let short = pair_buffer::all_short(&bytes, &own, b.n);
    let part = finish_composed(&bytes, &own, b.n, class, back, &mut mid, &mut mids);
    let none = layer_offset::LayerOffset::IDENTITY;
    let time = map_compose::composed_time(class.time_offset, none);
    let whole = map_compose::composed_time(transfer.time_offset, time);
    finish(
        store, places, transfer, &mid, &mids, part, b, short, whole, &mut bytes, &mut own, out,
        slots,
    )
}

// Computes the class's map across the transfer: transfer ∘ class ∘ transfer⁻¹, with the root identity added so
// that a class outside the transfer's domain still maps. A transfer that is the identity returns the class's
// map unchanged.
pub fn implied_class(
    store: &[u8],
    places: &[usize],
    transfer: map_function::MapFunction,
    cstore: &[u8],
    cplaces: &[usize],
    class: map_function::MapFunction,
    out: &mut [u8],
    slots: &mut [usize],
) -> Result<map_function::MapFunction, Refusal>
    ensures { ReturnsMap (implied_class_call store.now places.now transfer
        cstore.now cplaces.now class out.old slots.old) result out.old
        out.new slots.old slots.new }
{
    let n = class.count;
    let mark = class.has_root_identity;
    validate::validate_lists(store, places, transfer.count, cstore, cplaces, n)?;
    if transfer.is_identity() {
        let time = class.time_offset;
        return map_function::without_dropping(cstore, cplaces, n, mark, time, out, slots);
    }
    implied_in(store, places, transfer, cstore, cplaces, class, out, slots)
}

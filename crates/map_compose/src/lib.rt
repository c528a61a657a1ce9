// Composes two maps into one, after validating both. Ports `MapFunction::compose` of pcp/mapping.rs.
#![tactic(auto)]

ghost use Rattle.std.specs.Prelude.{◌≡◌, ◌+◌};
ghost use Rattle.validate.specs.Validate.{ValidList};
ghost use Rattle.map_function.specs.MapFunction.{list_of, map_of};
ghost use Rattle.map_function.specs.MapOutcome.{ReturnsMap};
ghost use Rattle.pair_list_write.specs.Packed.{ScratchRoom};
ghost use Rattle.map_compose.specs.Calls.{composed_time, compose_lists, compose_call};

use refusal::Refusal;

// The time offset of the composed map.
pub fn composed_time(
    outer: layer_offset::LayerOffset,
    inner: layer_offset::LayerOffset,
) -> layer_offset::LayerOffset
    ensures { result ≡ composed_time outer inner }
{
    if outer.is_identity() && inner.is_identity() {
        return layer_offset::LayerOffset::IDENTITY;
    }
    outer.concatenate(inner)
}

// Composes two validated maps, neither of them the identity on paths, in the given scratch buffers. Every end
// of the composed list is a prim path, `/` or empty, so question 8 needs no check.
fn compose_in(
    store: &[u8],
    places: &[usize],
    outer: map_function::MapFunction,
    istore: &[u8],
    iplaces: &[usize],
    inner: map_function::MapFunction,
    time: layer_offset::LayerOffset,
    bytes: &mut [u8],
    own: &mut [usize],
    out: &mut [u8],
    slots: &mut [usize],
) -> Result<map_function::MapFunction, Refusal>
    requires valid_list { ValidList (list_of store.now places.now outer) }
    requires valid_list_2 { ValidList (list_of istore.now iplaces.now inner) }
    requires scratch_room { ScratchRoom 1534 (inner.count + outer.count) bytes.old own.old }
    ensures { ReturnsMap (compose_lists (map_of store.now places.now outer)
        (map_of istore.now iplaces.now inner) time out.old slots.old) result
        out.old out.new slots.old slots.new }
{
    let mark = outer.has_root_identity;
    let imark = inner.has_root_identity;
    let b = compose_pairs::compose_into(
        store,
        places,
        outer.count,
        mark,
        istore,
        iplaces,
        inner.count,
        imark,
        bytes,
        own,
    );
    let both = mark && imark;
    pair_buffer::from_ends_given(bytes, own, b.n, true, both, time, out, slots)
}

// Composes two validated maps in scratch buffers; those for at most four pairs together are small, so that they
// are quickly cleared.
fn compose_lists(
    store: &[u8],
    places: &[usize],
    outer: map_function::MapFunction,
    istore: &[u8],
    iplaces: &[usize],
    inner: map_function::MapFunction,
    time: layer_offset::LayerOffset,
    out: &mut [u8],
    slots: &mut [usize],
) -> Result<map_function::MapFunction, Refusal>
    requires valid_list { ValidList (list_of store.now places.now outer) }
    requires valid_list_2 { ValidList (list_of istore.now iplaces.now inner) }
    ensures { ReturnsMap (compose_lists (map_of store.now places.now outer)
        (map_of istore.now iplaces.now inner) time out.old slots.old) result
        out.old out.new slots.old slots.new }
{
    if inner.count + outer.count <= 4 {
        let mut bytes = [0u8; 6136];
        let mut own = [0usize; 16];
        return compose_in(
            store, places, outer, istore, iplaces, inner, time, &mut bytes, &mut own, out, slots,
        );
    }
    let mut bytes = [0u8; 196352];
    let mut own = [0usize; 512];
    compose_in(
        store, places, outer, istore, iplaces, inner, time, &mut bytes, &mut own, out, slots,
    )
}

// Composes two maps: the result applies the inner map first, then the outer one.
pub fn compose(
    store: &[u8],
    places: &[usize],
    outer: map_function::MapFunction,
    istore: &[u8],
    iplaces: &[usize],
    inner: map_function::MapFunction,
    out: &mut [u8],
    slots: &mut [usize],
) -> Result<map_function::MapFunction, Refusal>
    ensures { ReturnsMap (compose_call store.now places.now outer istore.now
        iplaces.now inner out.old slots.old) result out.old out.new
        slots.old slots.new }
{
    let n = outer.count;
    let mark = outer.has_root_identity;
    let k = inner.count;
    let imark = inner.has_root_identity;
    validate::validate_lists(store, places, n, istore, iplaces, k)?;
    let time = composed_time(outer.time_offset, inner.time_offset);
    if n == 0 && mark {
        return map_function::without_dropping(istore, iplaces, k, imark, time, out, slots);
    }
    if k == 0 && imark {
        return map_function::without_dropping(store, places, n, mark, time, out, slots);
    }
    compose_lists(
        store, places, outer, istore, iplaces, inner, time, out, slots,
    )
}

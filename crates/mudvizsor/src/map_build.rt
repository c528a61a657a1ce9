// The C interface of the functions that build a map. A list passes as its bytes, its places and its number of
// pairs; a map as that, its mark and the two floats of its time offset. The bytes of a new map are written to
// out, its places to slots and its time offset to two lent floats; the reply's value is twice the number of
// its pairs, plus one if it has the mark.
ghost use Rattle.std.specs.Prelude.{◌≡◌};
ghost use Rattle.map_new.specs.Calls.{map_new_call, from_pair_call, from_pair_identity_call};
ghost use Rattle.map_derive.specs.Calls.{inverse_call, with_root_identity_call, dropping_source_call, is_noop_call};
ghost use Rattle.map_compose.specs.Calls.{compose_call};
ghost use Rattle.map_implied_class.specs.Implied.{implied_class_call};
ghost use Rattle.map_rebase.specs.Calls.{rebase_target_call};
ghost use Rattle.map_deepen.specs.Calls.{deepen_to_call};
ghost use Rattle.ffi_values.specs.Code.{test_code};
ghost use Rattle.ffi_values.specs.MapCode.{map_from_numbers, ReturnsMapCode};

// Builds the map of the pairs, dropping redundant ones.
#[unsafe(no_mangle)]
pub extern "C" fn mudvizsor_map_new(
    store: &[u8],
    places: &[usize],
    count: usize,
    out: &mut [u8],
    slots: &mut [usize],
    time: &mut [f64; 2],
) -> usize
    ensures { ReturnsMapCode (map_new_call store.now places.now count out.old
        slots.old) result out.old out.new slots.old slots.new
        time.old time.new }
{
    ffi_values::map_code(map_new::new(store, places, count, out, slots), time)
}

// Adds the mark to the map.
#[unsafe(no_mangle)]
pub extern "C" fn mudvizsor_map_with_root_identity(
    store: &[u8],
    places: &[usize],
    count: usize,
    mark: bool,
    offset: f64,
    scale: f64,
    out: &mut [u8],
    slots: &mut [usize],
    time: &mut [f64; 2],
) -> usize
    ensures { ReturnsMapCode (with_root_identity_call store.now places.now
        (map_from_numbers count mark offset scale) out.old slots.old) result out.old
        out.new slots.old slots.new time.old time.new }
{
    let map = ffi_values::map_from_numbers(count, mark, offset, scale);
    ffi_values::map_code(
        map_derive::with_root_identity(store, places, map, out, slots),
        time,
    )
}

// Composes two maps: the result applies the inner map first, then the outer one.
#[unsafe(no_mangle)]
pub extern "C" fn mudvizsor_map_compose(
    store: &[u8],
    places: &[usize],
    count: usize,
    mark: bool,
    offset: f64,
    scale: f64,
    istore: &[u8],
    iplaces: &[usize],
    icount: usize,
    imark: bool,
    ioffset: f64,
    iscale: f64,
    out: &mut [u8],
    slots: &mut [usize],
    time: &mut [f64; 2],
) -> usize
    ensures { ReturnsMapCode (compose_call store.now places.now
        (map_from_numbers count mark offset scale) istore.now iplaces.now
        (map_from_numbers icount imark ioffset iscale) out.old slots.old) result out.old
        out.new slots.old slots.new time.old time.new }
{
    let map = ffi_values::map_from_numbers(count, mark, offset, scale);
    let inner = ffi_values::map_from_numbers(icount, imark, ioffset, iscale);
    ffi_values::map_code(
        map_compose::compose(store, places, map, istore, iplaces, inner, out, slots),
        time,
    )
}

// Builds the map of one pair, which is kept unchanged.
#[unsafe(no_mangle)]
pub extern "C" fn mudvizsor_map_from_pair(
    source: &[u8],
    target: &[u8],
    out: &mut [u8],
    slots: &mut [usize],
    time: &mut [f64; 2],
) -> usize
    ensures { ReturnsMapCode (from_pair_call source.now target.now out.old
        slots.old) result out.old out.new slots.old slots.new
        time.old time.new }
{
    ffi_values::map_code(map_new::from_pair(source, target, out, slots), time)
}

// Builds the map of one pair and the mark.
#[unsafe(no_mangle)]
pub extern "C" fn mudvizsor_map_from_pair_identity(
    source: &[u8],
    target: &[u8],
    out: &mut [u8],
    slots: &mut [usize],
    time: &mut [f64; 2],
) -> usize
    ensures { ReturnsMapCode (from_pair_identity_call source.now target.now out.old
        slots.old) result out.old out.new slots.old slots.new
        time.old time.new }
{
    ffi_values::map_code(
        map_new::from_pair_identity(source, target, out, slots),
        time,
    )
}

// Builds the inverse: the map with the ends of each pair exchanged.
#[unsafe(no_mangle)]
pub extern "C" fn mudvizsor_map_inverse(
    store: &[u8],
    places: &[usize],
    count: usize,
    mark: bool,
    offset: f64,
    scale: f64,
    out: &mut [u8],
    slots: &mut [usize],
    time: &mut [f64; 2],
) -> usize
    ensures { ReturnsMapCode (inverse_call store.now places.now
        (map_from_numbers count mark offset scale) out.old slots.old) result out.old
        out.new slots.old slots.new time.old time.new }
{
    let map = ffi_values::map_from_numbers(count, mark, offset, scale);
    ffi_values::map_code(map_derive::inverse(store, places, map, out, slots), time)
}

// Removes the pairs with this source.
#[unsafe(no_mangle)]
pub extern "C" fn mudvizsor_map_dropping_source(
    store: &[u8],
    places: &[usize],
    count: usize,
    mark: bool,
    offset: f64,
    scale: f64,
    source: &[u8],
    out: &mut [u8],
    slots: &mut [usize],
    time: &mut [f64; 2],
) -> usize
    ensures { ReturnsMapCode (dropping_source_call store.now places.now
        (map_from_numbers count mark offset scale) source.now out.old slots.old) result
        out.old out.new slots.old slots.new time.old
        time.new }
{
    let map = ffi_values::map_from_numbers(count, mark, offset, scale);
    ffi_values::map_code(
        map_derive::dropping_source(store, places, map, source, out, slots),
        time,
    )
}

// Moves every target at or below `from` to `to`.
#[unsafe(no_mangle)]
pub extern "C" fn mudvizsor_map_rebase_target(
    store: &[u8],
    places: &[usize],
    count: usize,
    mark: bool,
    offset: f64,
    scale: f64,
    from: &[u8],
    to: &[u8],
    out: &mut [u8],
    slots: &mut [usize],
    time: &mut [f64; 2],
) -> usize
    ensures { ReturnsMapCode (rebase_target_call store.now places.now
        (map_from_numbers count mark offset scale) from.now to.now out.old
        slots.old) result out.old out.new slots.old slots.new
        time.old time.new }
{
    let map = ffi_values::map_from_numbers(count, mark, offset, scale);
    ffi_values::map_code(
        map_rebase::rebase_target(store, places, map, from, to, out, slots),
        time,
    )
}

// Deepens the class of the map to the path.
#[unsafe(no_mangle)]
pub extern "C" fn mudvizsor_map_deepen_to(
    store: &[u8],
    places: &[usize],
    count: usize,
    mark: bool,
    offset: f64,
    scale: f64,
    path: &[u8],
    out: &mut [u8],
    slots: &mut [usize],
    time: &mut [f64; 2],
) -> usize
    ensures { ReturnsMapCode (deepen_to_call store.now places.now
        (map_from_numbers count mark offset scale) path.now out.old slots.old) result
        out.old out.new slots.old slots.new time.old
        time.new }
{
    let map = ffi_values::map_from_numbers(count, mark, offset, scale);
    ffi_values::map_code(
        map_deepen::deepen_to(store, places, map, path, out, slots),
        time,
    )
}

// Computes the class's map across the transfer.
#[unsafe(no_mangle)]
pub extern "C" fn mudvizsor_map_implied_class(
    store: &[u8],
    places: &[usize],
    count: usize,
    mark: bool,
    offset: f64,
    scale: f64,
    istore: &[u8],
    iplaces: &[usize],
    icount: usize,
    imark: bool,
    ioffset: f64,
    iscale: f64,
    out: &mut [u8],
    slots: &mut [usize],
    time: &mut [f64; 2],
) -> usize
    ensures { ReturnsMapCode (implied_class_call store.now places.now
        (map_from_numbers count mark offset scale) istore.now iplaces.now
        (map_from_numbers icount imark ioffset iscale) out.old slots.old) result out.old
        out.new slots.old slots.new time.old time.new }
{
    let map = ffi_values::map_from_numbers(count, mark, offset, scale);
    let inner = ffi_values::map_from_numbers(icount, imark, ioffset, iscale);
    ffi_values::map_code(
        map_implied_class::implied_class(store, places, map, istore, iplaces, inner, out, slots),
        time,
    )
}

// Returns whether the map maps but changes neither path nor time.
#[unsafe(no_mangle)]
pub extern "C" fn mudvizsor_map_is_noop(
    store: &[u8],
    places: &[usize],
    count: usize,
    mark: bool,
    offset: f64,
    scale: f64,
) -> usize
    ensures { result ≡ test_code (is_noop_call store.now places.now
        (map_from_numbers count mark offset scale)) }
{
    let map = ffi_values::map_from_numbers(count, mark, offset, scale);
    ffi_values::test_code(map_derive::is_noop(store, places, map))
}

// The C interface of the functions that map a path and tell its rest: the part that was carried over unaltered.
// The reply's value is the length written, plus 256 times the index at which the rest begins in the path given,
// plus 65,536 times its length. A refusal has no rest.
ghost use Rattle.std.specs.Prelude.{◌≡◌, true, false, length};
ghost use Rattle.map_function.specs.MapFunction.{map_of};
ghost use Rattle.map_rest.specs.MapRest.{source_rest, target_rest, translated_rest};
ghost use Rattle.mapping.specs.Calls.{map_source_to_target_call, map_target_to_source_call, translate_to_target_call};
ghost use Rattle.route_spec.specs.Rest.{route_rest};
ghost use Rattle.route_legs.specs.LentRoute.{lent_route, legs_in};
ghost use Rattle.route.specs.Calls.{route_call};
ghost use Rattle.ffi_rest.specs.RestCode.{ReturnsCarriedCode};
ghost use Rattle.ffi_values.specs.Map.{untimed_map};

// Like `mudvizsor_map_source_to_target`, with the rest.
#[unsafe(no_mangle)]
pub extern "C" fn mudvizsor_map_source_to_target_carried(
    store: &[u8],
    places: &[usize],
    count: usize,
    mark: bool,
    path: &[u8],
    out: &mut [u8],
) -> usize
    ensures { let map = untimed_map count mark in let p = path.now in ReturnsCarriedCode p
        (map_source_to_target_call store.now places.now map p (length out.old))
        (source_rest (map_of store.now places.now map) p) result out.old out.new }
{
    let map = ffi_values::untimed_map(count, mark);
    let carried = mapping::map_source_to_target_carried(store, places, map, path, out);
    ffi_rest::carried_code(path, carried)
}

// Like `mudvizsor_map_target_to_source`, with the rest.
#[unsafe(no_mangle)]
pub extern "C" fn mudvizsor_map_target_to_source_carried(
    store: &[u8],
    places: &[usize],
    count: usize,
    mark: bool,
    path: &[u8],
    out: &mut [u8],
) -> usize
    ensures { let map = untimed_map count mark in let p = path.now in ReturnsCarriedCode p
        (map_target_to_source_call store.now places.now map p (length out.old))
        (target_rest (map_of store.now places.now map) p) result out.old out.new }
{
    let map = ffi_values::untimed_map(count, mark);
    let carried = mapping::map_target_to_source_carried(store, places, map, path, out);
    ffi_rest::carried_code(path, carried)
}

// Like `mudvizsor_translate_to_target`, with the rest; there is none if selections were stripped.
#[unsafe(no_mangle)]
pub extern "C" fn mudvizsor_translate_to_target_carried(
    store: &[u8],
    places: &[usize],
    count: usize,
    mark: bool,
    path: &[u8],
    out: &mut [u8],
) -> usize
    ensures { let map = untimed_map count mark in let p = path.now in ReturnsCarriedCode p
        (translate_to_target_call store.now places.now map p (length out.old))
        (translated_rest (map_of store.now places.now map) p) result out.old out.new }
{
    let map = ffi_values::untimed_map(count, mark);
    let carried = mapping::translate_to_target_carried(store, places, map, path, out);
    ffi_rest::carried_code(path, carried)
}

// Like `mudvizsor_route_out`, with the rest: the part of the path that all legs carried over unaltered.
#[unsafe(no_mangle)]
pub extern "C" fn mudvizsor_route_out_carried(
    store: &[u8],
    places: &[usize],
    legs: &[usize],
    count: usize,
    path: &[u8],
    out: &mut [u8],
) -> usize
    ensures { let s = lent_route store.now places.now legs.now count in
        let p = path.now in ReturnsCarriedCode p (route_call false s p (length out.old))
        (route_rest false (legs_in s count) p) result out.old out.new }
{
    let carried = route::route_out_carried(store, places, legs, count, path, out);
    ffi_rest::carried_code(path, carried)
}

// Like `mudvizsor_route_home`, with the rest: the part of the path that all legs carried over unaltered.
#[unsafe(no_mangle)]
pub extern "C" fn mudvizsor_route_home_carried(
    store: &[u8],
    places: &[usize],
    legs: &[usize],
    count: usize,
    path: &[u8],
    out: &mut [u8],
) -> usize
    ensures { let s = lent_route store.now places.now legs.now count in
        let p = path.now in ReturnsCarriedCode p (route_call true s p (length out.old))
        (route_rest true (legs_in s count) p) result out.old out.new }
{
    let carried = route::route_home_carried(store, places, legs, count, path, out);
    ffi_rest::carried_code(path, carried)
}

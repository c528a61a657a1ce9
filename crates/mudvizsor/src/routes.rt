// The C interface of the route functions. A route is one store and one slice of places for all its legs,
// three
// numbers for each leg (its kind: 0 a map, 1 a map with the mark, any other number a relocate list; the index
// of its first pair in the places; its number of pairs), and the number of legs.
ghost use Rattle.std.specs.Prelude.{◌≡◌, true, false, length};
ghost use Rattle.ffi_values.specs.Code.{ReturnsPathCode};
ghost use Rattle.route_legs.specs.LentRoute.{lent_route};
ghost use Rattle.route.specs.Calls.{route_call};
ghost use Rattle.batch.specs.Batch.{routed_at, validate_route_all, ReturnsBatchCode};

// Maps the path out over the legs and writes the result to out.
#[unsafe(no_mangle)]
pub extern "C" fn mudvizsor_route_out(
    store: &[u8],
    places: &[usize],
    legs: &[usize],
    count: usize,
    path: &[u8],
    out: &mut [u8],
) -> usize
    ensures { ReturnsPathCode (route_call false
        (lent_route store.now places.now legs.now count) path.now
        (length out.old)) result out.old out.new }
{
    ffi_values::reply_code(route::route_out(store, places, legs, count, path, out))
}

// Maps the path home over the legs and writes the result to out.
#[unsafe(no_mangle)]
pub extern "C" fn mudvizsor_route_home(
    store: &[u8],
    places: &[usize],
    legs: &[usize],
    count: usize,
    path: &[u8],
    out: &mut [u8],
) -> usize
    ensures { ReturnsPathCode (route_call true
        (lent_route store.now places.now legs.now count) path.now
        (length out.old)) result out.old out.new }
{
    ffi_values::reply_code(route::route_home(store, places, legs, count, path, out))
}

// Maps n paths out over the legs, or home if `home` is set, each into its 255 bytes of out, with its reply in
// replies. A bad route (1 to 4), more paths than spots (4) or a short buffer (5) refuses the whole call.
#[unsafe(no_mangle)]
pub extern "C" fn mudvizsor_route_all(
    store: &[u8],
    places: &[usize],
    legs: &[usize],
    count: usize,
    home: bool,
    texts: &[u8],
    spots: &[usize],
    n: usize,
    out: &mut [u8],
    replies: &mut [usize],
) -> usize
    ensures { let route = lent_route store.now places.now legs.now count
        in ReturnsBatchCode (validate_route_all route n spots.now out.old replies.old)
        (routed_at home route texts.now spots.now) n result out.old out.new
        replies.old replies.new }
{
    ffi_values::validation_code(batch::route_all(
        store, places, legs, count, home, texts, spots, n, out, replies,
    ))
}

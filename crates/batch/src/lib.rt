// Maps many paths through one map, or over one route, in one call: the lists and the lent buffers are validated
// first and once, then each path by itself.
#![tactic(auto)]

ghost use Rattle.std.specs.Prelude.{◌≡◌, true, ◌+◌, ◌*◌, ◌≤◌, ◌<◌, length, set, []};
ghost use Rattle.text_list.specs.Places.{in_store};
ghost use Rattle.refusal.specs.Outcome.{outcome_reply, ReturnsPath};
ghost use Rattle.ffi_values.specs.Code.{reply_code};
ghost use Rattle.route_legs.specs.LentRoute.{lent_route, validate_route};
ghost use Rattle.batch.specs.Batch.{mapped_at, routed_at, path_buffers, reply_numbers, batch_fits, validate_batch, validate_map_all, validate_route_all, ReturnsBatch};
ghost use Rattle.batch.specs.BatchStep.{map_path_by, map_spot_by, written_block};

use refusal::Refusal;

// Returns whether the lent buffers suffice for n paths (question 5).
#[tactic(auto, using(crate::proofs::BatchLaws::rooms))]
fn batch_fits(n: usize, spots: usize, bytes: usize, replies: usize) -> bool
    ensures { result ≡ batch_fits n spots bytes replies }
{
    n <= spots / 2 && n <= bytes / 255 && n <= replies
}

// Validates a batch of n paths, given the result of validating the list or the route (questions 4 and 5).
fn validate_batch(
    list: Result<(), Refusal>,
    n: usize,
    spots: usize,
    bytes: usize,
    replies: usize,
) -> Result<(), Refusal>
    ensures { result ≡ validate_batch list n spots bytes replies }
{
    list?;
    if spots / 2 < n {
        return Err(Refusal::TooMany);
    }
    if !batch_fits(n, spots, bytes, replies) {
        return Err(Refusal::NoRoom);
    }
    Ok(())
}

// Returns whether the place of text i lies within `texts`.
#[tactic(auto, using(crate::proofs::BatchLaws::insides))]
fn is_inside(texts: &[u8], spots: &[usize], i: usize) -> bool
    requires { 2 * i + 2 ≤ length spots.now }
    ensures { result ≡ in_store texts.now spots.now i }
{
    let start = spots[2 * i];
    let n = spots[2 * i + 1];
    start <= texts.len() && n <= texts.len() - start
}

// What the batch maps the paths through: a map in one of its three directions, or a route of maps with its
// number of legs, home if the flag is set.
#[derive(Clone, Copy)]
enum Mapper {
    Map(map_function::MapFunction, mapping::Direction),
    Route(usize, bool),
}

// Maps one path.
fn map_one(
    list: Result<(), Refusal>,
    by: Mapper,
    store: &[u8],
    places: &[usize],
    legs: &[usize],
    path: &[u8],
    out: &mut [u8],
) -> Result<usize, Refusal>
    ensures { ReturnsPath (map_path_by list by store.now places.now legs.now
        (length out.old) path.now) result out.old out.new }
{
    match by {
        Mapper::Map(map, direction) => mapping::map_after_list(
            list, store, places, map, direction, path, out,
        ),
        Mapper::Route(n, home) => {
            route::route_after(list, store, places, legs, n, home, path, out)
        }
    }
}

// Maps path i.
fn map_spot(
    list: Result<(), Refusal>,
    by: Mapper,
    store: &[u8],
    places: &[usize],
    legs: &[usize],
    texts: &[u8],
    spots: &[usize],
    i: usize,
    out: &mut [u8],
) -> Result<usize, Refusal>
    requires { 2 * i + 2 ≤ length spots.now }
    ensures { ReturnsPath (map_spot_by list by store.now places.now legs.now
        texts.now spots.now (length out.old) i) result out.old
        out.new }
{
    if !is_inside(texts, spots, i) {
        return Err(Refusal::TooLong);
    }
    let path = text_list::text_at(texts, spots, i);
    map_one(list, by, store, places, legs, path, out)
}

// Maps path i into block i and stores its reply.
fn map_block(
    list: Result<(), Refusal>,
    by: Mapper,
    store: &[u8],
    places: &[usize],
    legs: &[usize],
    texts: &[u8],
    spots: &[usize],
    i: usize,
    out: &mut [u8],
    replies: &mut [usize],
)
    requires i_in_bounds { 2 * i + 2 ≤ length spots.now }
    requires i_in_bounds_2 { 255 * i + 255 ≤ length out.old }
    requires i_in_bounds_3 { i < length replies.old }
    ensures out_after { out.new ≡ written_block i
        (map_spot_by list by store.now places.now legs.now texts.now
        spots.now 255 i) out.old }
    ensures replies_after { replies.new ≡ set replies.old i
        (reply_code (outcome_reply (map_spot_by list by store.now places.now legs.now
        texts.now spots.now 255 i))) }
{
    let at = 255 * i;
    let end = at + 255;
    let r = map_spot(
        list,
        by,
        store,
        places,
        legs,
        texts,
        spots,
        i,
        &mut out[at..end],
    );
    replies[i] = ffi_values::reply_code(r);
}

// Maps the n paths, each into its block, and stores their replies.
fn map_each(
    list: Result<(), Refusal>,
    by: Mapper,
    store: &[u8],
    places: &[usize],
    legs: &[usize],
    texts: &[u8],
    spots: &[usize],
    n: usize,
    out: &mut [u8],
    replies: &mut [usize],
)
    requires { batch_fits n (length spots.now) (length out.old) (length replies.old) ≡ true }
    ensures out_after { out.new ≡ path_buffers
        (map_spot_by list by store.now places.now legs.now texts.now
        spots.now 255) 0 n out.old }
    ensures replies_after { replies.new ≡ reply_numbers
        (map_spot_by list by store.now places.now legs.now texts.now
        spots.now 255) 0 n replies.old }
{
    for i in 0..n {
        map_block(list, by, store, places, legs, texts, spots, i, out, replies);
    }
}

// Maps n paths through a map. A bad list, count or buffer refuses the whole call; otherwise each path has the
// reply and the 255 bytes of the single call.
pub fn map_all(
    store: &[u8],
    places: &[usize],
    map: map_function::MapFunction,
    direction: mapping::Direction,
    texts: &[u8],
    spots: &[usize],
    n: usize,
    out: &mut [u8],
    replies: &mut [usize],
) -> Result<(), Refusal>
    ensures { ReturnsBatch (validate_map_all store.now places.now map n spots.now
        out.old replies.old)
        (mapped_at direction store.now places.now map texts.now spots.now) n
        result out.old out.new replies.old replies.new }
{
    let list = validate::validate_list(store, places, map.count);
    validate_batch(list, n, spots.len(), out.len(), replies.len())?;
    let by = Mapper::Map(map, direction);
    map_each(
        list, by, store, places, places, texts, spots, n, out, replies,
    );
    Ok(())
}

// Maps the n paths over a validated route that has a relocate list: prepares the maps of the legs first.
fn route_prepared(
    list: Result<(), Refusal>,
    store: &[u8],
    places: &[usize],
    legs: &[usize],
    count: usize,
    home: bool,
    texts: &[u8],
    spots: &[usize],
    n: usize,
    out: &mut [u8],
    replies: &mut [usize],
)
    requires replies_value { batch_fits n (length spots.now) (length out.old) (length replies.old) ≡ true }
    requires list_value { list ≡ validate_route (lent_route store.now places.now legs.now count) [] }
    ensures out_after { out.new ≡ path_buffers
        (routed_at home (lent_route store.now places.now legs.now count)
        texts.now spots.now) 0 n out.old }
    ensures replies_after { replies.new ≡ reply_numbers
        (routed_at home (lent_route store.now places.now legs.now count)
        texts.now spots.now) 0 n replies.old }
{
    let mut made = [0usize; 4096];
    let mut table = [0usize; 48];
    route_maps::prepare_legs(store, places, legs, count, &mut made, &mut table);
    let by = Mapper::Route(count, home);
    map_each(
        list, by, store, &made, &table, texts, spots, n, out, replies,
    );
}

// Maps the n paths over a route whose validation returned `list`.
fn route_each(
    list: Result<(), Refusal>,
    store: &[u8],
    places: &[usize],
    legs: &[usize],
    count: usize,
    home: bool,
    texts: &[u8],
    spots: &[usize],
    n: usize,
    out: &mut [u8],
    replies: &mut [usize],
)
    requires replies_value { batch_fits n (length spots.now) (length out.old) (length replies.old) ≡ true }
    requires list_value { list ≡ validate_route (lent_route store.now places.now legs.now count) [] }
    ensures out_after { out.new ≡ path_buffers
        (routed_at home (lent_route store.now places.now legs.now count)
        texts.now spots.now) 0 n out.old }
    ensures replies_after { replies.new ≡ reply_numbers
        (routed_at home (lent_route store.now places.now legs.now count)
        texts.now spots.now) 0 n replies.old }
{
    if !route::needs_maps(list, legs, count) {
        let by = Mapper::Route(count, home);
        map_each(list, by, store, places, legs, texts, spots, n, out, replies);
        return;
    }
    route_prepared(
        list, store, places, legs, count, home, texts, spots, n, out, replies,
    );
}

// Maps n paths out over a route, or home. A bad route, count or buffer refuses the whole call; otherwise each
// path has the reply and the 255 bytes of the single call.
pub fn route_all(
    store: &[u8],
    places: &[usize],
    legs: &[usize],
    count: usize,
    home: bool,
    texts: &[u8],
    spots: &[usize],
    n: usize,
    out: &mut [u8],
    replies: &mut [usize],
) -> Result<(), Refusal>
    ensures { let route = lent_route store.now places.now legs.now count
        in ReturnsBatch (validate_route_all route n spots.now out.old replies.old)
        (routed_at home route texts.now spots.now) n result out.old out.new
        replies.old replies.new }
{
    let list = route_legs::validate_legs(store, places, legs, count);
    validate_batch(list, n, spots.len(), out.len(), replies.len())?;
    route_each(
        list, store, places, legs, count, home, texts, spots, n, out, replies,
    );
    Ok(())
}

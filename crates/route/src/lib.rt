// Routes: maps a path out over the legs in lent memory, or home, with the rest of the path beside the reply or
// without it. The maps of relocate legs are prepared once per call, and a validated route is not validated
// again for each path.
#![tactic(auto)]

ghost use Rattle.std.specs.Prelude.{◌≡◌, true, false, cond, ◌≤◌, length, take};
ghost use Rattle.path_parts.specs.Strip.{strip};
ghost use Rattle.refusal.specs.Outcome.{ReturnsPath};
ghost use Rattle.path_rest.specs.Carried.{ReturnsCarried};
ghost use Rattle.map_apply.specs.Fast.{plain_rest};
ghost use Rattle.route_spec.specs.Rest.{is_stripped, route_rest};
ghost use Rattle.route_legs.specs.LentRoute.{lent_route, map_at, legs_in};
ghost use Rattle.route.specs.Calls.{route_call};
ghost use Rattle.route.specs.Fast.{leg_fast, run_route_fast, entering_path, HoldsPath, needs_maps, after_route_validated};
ghost use Rattle.route.specs.Unaltered.{rest_length, unaltered_fast, rest_fast, route_rest_fast, HoldsRun};

use refusal::Refusal;

// The reply of some legs, and how many bytes at the end of the path that reached them they carried over
// unaltered.
#[derive(Clone, Copy)]
struct Run {
    reply: Result<usize, Refusal>,
    unaltered: usize,
}

// Maps a path through the map of leg k: home, or out for a path without selections.
fn map_leg(
    store: &[u8],
    places: &[usize],
    legs: &[usize],
    k: usize,
    home: bool,
    path: &[u8],
    made: &mut [u8; 255],
) -> Result<(usize, Option<usize>), Refusal>
    ensures { let m = map_at (lent_route store.now places.now legs.now k) k in
        ReturnsCarried (leg_fast home m path.now) (plain_rest home m path.now) result
        made.old made.new }
{
    let list = route_legs::leg_places(places, legs, k);
    let n = route_legs::size_at(legs, k);
    let mark = route_legs::kind_at(legs, k) == 1;
    if home {
        return map_apply::map_text_carried(store, list, n, mark, true, path, made);
    }
    map_apply::translate_text_carried(store, list, n, mark, path, made)
}

// Maps the path in the first `len` bytes over leg k in place; a refusal leaves it unchanged.
fn run_legs(
    store: &[u8],
    places: &[usize],
    legs: &[usize],
    k: usize,
    home: bool,
    here: &mut [u8],
    len: usize,
) -> Run
    requires { (len ≤ 255) × (length here.old ≡ 255) }
    ensures { let m = map_at (lent_route store.now places.now legs.now k) k in
        let p = take len here.old in
        HoldsRun (leg_fast home m p) (rest_length home m p) result here.new }
{
    let mut made = [0u8; 255];
    let c = map_leg(store, places, legs, k, home, &here[..len], &mut made);
    let unaltered = path_rest::carried_rest(&here[..len], c).len();
    let reply = path_rest::reply_of(c);
    let Ok(n) = reply else {
        return Run { reply, unaltered };
    };
    text::write_at(&made[..n], 0, here);
    Run { reply, unaltered }
}

// Maps the path out over the first n legs.
fn run_out(
    store: &[u8],
    places: &[usize],
    legs: &[usize],
    n: usize,
    here: &mut [u8],
    len: usize,
) -> Run
    requires { (len ≤ 255) × (length here.old ≡ 255) }
    ensures { let s = lent_route store.now places.now legs.now n in
        let p = take len here.old in
        HoldsRun (run_route_fast false s n p) (unaltered_fast false s n len p) result here.new }
{
    let mut at = len;
    let mut unaltered = len;
    for k in 0..n {
        let run = run_legs(store, places, legs, k, false, here, at);
        let reply = run.reply;
        let Ok(m) = reply else {
            return run;
        };
        at = m;
        unaltered = unaltered.min(run.unaltered);
    }
    Run {
        reply: Ok(at),
        unaltered,
    }
}

// Maps the path home over the first n legs, the last one first.
fn run_home(
    store: &[u8],
    places: &[usize],
    legs: &[usize],
    n: usize,
    here: &mut [u8],
    len: usize,
) -> Run
    requires { (len ≤ 255) × (length here.old ≡ 255) }
    ensures { let s = lent_route store.now places.now legs.now n in
        let p = take len here.old in
        HoldsRun (run_route_fast true s n p) (unaltered_fast true s n len p) result here.new }
{
    let mut at = len;
    let mut unaltered = len;
    for k in (0..n).rev() {
        let run = run_legs(store, places, legs, k, true, here, at);
        let reply = run.reply;
        let Ok(m) = reply else {
            return run;
        };
        at = m;
        unaltered = unaltered.min(run.unaltered);
    }
    Run {
        reply: Ok(at),
        unaltered,
    }
}

// Maps the path over the first n legs, home or out.
fn run_direction(
    store: &[u8],
    places: &[usize],
    legs: &[usize],
    n: usize,
    home: bool,
    here: &mut [u8],
    len: usize,
) -> Run
    requires { (len ≤ 255) × (length here.old ≡ 255) }
    ensures { let s = lent_route store.now places.now legs.now n in
        let p = take len here.old in
        HoldsRun (run_route_fast home s n p) (unaltered_fast home s n len p) result here.new }
{
    if home {
        return run_home(store, places, legs, n, here, len);
    }
    run_out(store, places, legs, n, here, len)
}

// Returns whether the path enters the first leg without its selections: only the first leg of a way out strips
// them.
#[tactic(auto, using(crate::proofs::CallBranches::stripping))]
fn enters_stripped(home: bool, n: usize, path: &[u8]) -> bool
    ensures { result ≡ is_stripped home n path.now }
{
    !home && n != 0 && path_own::has_variant_selection(path)
}

// Writes the path as the first leg receives it, without its selections if `stripped` is set, to the scratch
// buffer and returns its length.
fn enter_route(stripped: bool, path: &[u8], here: &mut [u8]) -> usize
    requires { (length path.now ≤ 255) × (length here.old ≡ 255) }
    ensures { HoldsPath (cond stripped (strip path.now) path.now) result here.new }
{
    if !stripped {
        text::write_at(path, 0, here);
        return path.len();
    }
    path_parts::strip_into(path, here).unwrap_or(0)
}

// Returns where the rest of a path of n bytes begins, of which `unaltered` bytes at its end came over all legs;
// there is none if its selections were stripped.
#[tactic(auto, unfolding(crate::specs::Unaltered::rest_fast))]
fn rest_at_end(stripped: bool, n: usize, unaltered: usize) -> Option<usize>
    requires { stripped ≡ false → unaltered ≤ n }
    ensures { result ≡ rest_fast stripped n unaltered }
{
    if stripped {
        return None;
    }
    Some(n - unaltered)
}

// Maps the path over the whole route and writes the result to the lent buffer.
fn run_path(
    store: &[u8],
    places: &[usize],
    legs: &[usize],
    n: usize,
    home: bool,
    path: &[u8],
    out: &mut [u8],
) -> Result<(usize, Option<usize>), Refusal>
    requires { (length path.now ≤ 255) × (255 ≤ length out.old) }
    ensures { let s = lent_route store.now places.now legs.now n in
        let p = path.now in
        ReturnsCarried (run_route_fast home s n (entering_path home n p)) (route_rest_fast home s n p) result
        out.old out.new }
{
    let stripped = enters_stripped(home, n, path);
    let mut here = [0u8; 255];
    let len = enter_route(stripped, path, &mut here);
    let run = run_direction(store, places, legs, n, home, &mut here, len);
    let reply = run.reply;
    let Ok(m) = reply else {
        return path_rest::with_rest(reply, None);
    };
    text::write_at(&here[..m], 0, out);
    path_rest::with_rest(reply, rest_at_end(stripped, path.len(), run.unaltered))
}

// Maps a path over a route of maps, with the rest. `list` is the result of the route's own validation, so only
// the path is validated here.
fn route_after_carried(
    list: Result<(), Refusal>,
    store: &[u8],
    places: &[usize],
    legs: &[usize],
    n: usize,
    home: bool,
    path: &[u8],
    out: &mut [u8],
) -> Result<(usize, Option<usize>), Refusal>
    ensures { let s = lent_route store.now places.now legs.now n in
        ReturnsCarried (after_route_validated list home s path.now (length out.old))
        (route_rest_fast home s n path.now) result out.old out.new }
{
    validate::first_refusal(list, path::new(path))?;
    if out.len() < 255 {
        return Err(Refusal::NoRoom);
    }
    run_path(store, places, legs, n, home, path, out)
}

// Maps a path over a route of maps. `list` is the result of the route's own validation, so only the path is
// validated here.
pub fn route_after(
    list: Result<(), Refusal>,
    store: &[u8],
    places: &[usize],
    legs: &[usize],
    n: usize,
    home: bool,
    path: &[u8],
    out: &mut [u8],
) -> Result<usize, Refusal>
    ensures { ReturnsPath (after_route_validated list home
        (lent_route store.now places.now legs.now n) path.now
        (length out.old)) result out.old out.new }
{
    path_rest::reply_of(route_after_carried(list, store, places, legs, n, home, path, out))
}

// Returns whether the route passed validation and has a relocate list, so that the legs' maps must be
// prepared first.
#[tactic(auto, unfolding(crate::specs::Fast::needs_maps))]
pub fn needs_maps(list: Result<(), Refusal>, legs: &[usize], n: usize) -> bool
    ensures { result ≡ needs_maps list legs.now n }
{
    list.is_ok() && route_maps::has_relocates(legs, n)
}

// Maps a path over a route, home or out, with the rest.
fn route_call(
    store: &[u8],
    places: &[usize],
    legs: &[usize],
    n: usize,
    home: bool,
    path: &[u8],
    out: &mut [u8],
) -> Result<(usize, Option<usize>), Refusal>
    ensures { let s = lent_route store.now places.now legs.now n in
        ReturnsCarried (route_call home s path.now (length out.old))
        (route_rest home (legs_in s n) path.now) result out.old out.new }
{
    let list = route_legs::validate_legs(store, places, legs, n);
    if !needs_maps(list, legs, n) {
        return route_after_carried(list, store, places, legs, n, home, path, out);
    }
    let mut made = [0usize; 4096];
    let mut table = [0usize; 48];
    route_maps::prepare_legs(store, places, legs, n, &mut made, &mut table);
    route_after_carried(list, store, &made, &table, n, home, path, out)
}

// Maps the path out over the n legs and writes the result to the lent buffer.
pub fn route_out(
    store: &[u8],
    places: &[usize],
    legs: &[usize],
    n: usize,
    path: &[u8],
    out: &mut [u8],
) -> Result<usize, Refusal>
    ensures { ReturnsPath (route_call false
        (lent_route store.now places.now legs.now n) path.now
        (length out.old)) result out.old out.new }
{
    path_rest::reply_of(route_call(store, places, legs, n, false, path, out))
}

// Maps the path home over the n legs and writes the result to the lent buffer.
pub fn route_home(
    store: &[u8],
    places: &[usize],
    legs: &[usize],
    n: usize,
    path: &[u8],
    out: &mut [u8],
) -> Result<usize, Refusal>
    ensures { ReturnsPath (route_call true
        (lent_route store.now places.now legs.now n) path.now
        (length out.old)) result out.old out.new }
{
    path_rest::reply_of(route_call(store, places, legs, n, true, path, out))
}

// Like `route_out`, with the rest: the part of the path that all legs carried over unaltered.
pub fn route_out_carried(
    store: &[u8],
    places: &[usize],
    legs: &[usize],
    n: usize,
    path: &[u8],
    out: &mut [u8],
) -> Result<(usize, Option<usize>), Refusal>
    ensures { let s = lent_route store.now places.now legs.now n in
        ReturnsCarried (route_call false s path.now (length out.old))
        (route_rest false (legs_in s n) path.now) result out.old out.new }
{
    route_call(store, places, legs, n, false, path, out)
}

// Like `route_home`, with the rest: the part of the path that all legs carried over unaltered.
pub fn route_home_carried(
    store: &[u8],
    places: &[usize],
    legs: &[usize],
    n: usize,
    path: &[u8],
    out: &mut [u8],
) -> Result<(usize, Option<usize>), Refusal>
    ensures { let s = lent_route store.now places.now legs.now n in
        ReturnsCarried (route_call true s path.now (length out.old))
        (route_rest true (legs_in s n) path.now) result out.old out.new }
{
    route_call(store, places, legs, n, true, path, out)
}

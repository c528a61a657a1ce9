// The legs of a route in lent memory: reading and writing a leg's kind, pairs and number of pairs, and validating the
// route (questions 1 to 4). Every public function is defined for all byte slices and all numbers.
#![tactic(auto)]

ghost use Rattle.std.specs.Prelude.{◌≡◌, cond, [], ◌∷◌, ◌+◌, ◌*◌, ◌<◌, get_or, drop, Ok, Err};
ghost use Rattle.text.specs.Text.{written_if_fits};
ghost use Rattle.refusal.specs.declared.Refusal.TheVariants.{TooMany};
ghost use Rattle.validate.specs.Validate.{validate_call};
ghost use Rattle.route_legs.specs.LentRoute.{lent_route, kind_at, first_at, size_at, list_at, lists_in, present_legs, leg_count_within_limit, validate_route};

use refusal::Refusal;

// Entry j of the three numbers of leg k; 0 outside the slice.
#[tactic(auto, using(crate::proofs::ValidateBranches::reads))]
fn entry_at(legs: &[usize], k: usize, j: usize) -> usize
    requires { j < 3 }
    ensures { result ≡ get_or legs.now (3 * k + j) 0 }
{
    if legs.len() / 3 < k {
        return 0;
    }
    legs.get(3 * k + j).copied().unwrap_or(0)
}

// The kind of leg k, a number as the C interface lends it: 0, 1 or another (specs/LentRoute.antt).
#[tactic(auto, using(crate::proofs::ValidateBranches::reads))]
pub fn kind_at(legs: &[usize], k: usize) -> usize
    ensures { result ≡ kind_at legs.now k }
{
    entry_at(legs, k, 0)
}

// The number of pairs of leg k.
pub fn size_at(legs: &[usize], k: usize) -> usize
    ensures { result ≡ size_at legs.now k }
{
    entry_at(legs, k, 2)
}

// Writes the three numbers of leg k, its kind, the index of its first pair and its number of pairs, if the slice
// is long enough; otherwise writes nothing.
pub fn write_leg(k: usize, kind: usize, first: usize, size: usize, legs: &mut [usize])
    ensures { legs.new ≡ written_if_fits (3 * k) (kind ∷ first ∷ size ∷ []) legs.old }
{
    if legs.len() / 3 <= k {
        return;
    }
    let j = 3 * k;
    legs[j] = kind;
    legs[j + 1] = first;
    legs[j + 2] = size;
}

// The places from leg k's first pair on.
pub fn leg_places<'a>(places: &'a [usize], legs: &[usize], k: usize) -> &'a [usize]
    ensures { result.now ≡ drop (4 * first_at legs.now k) places.now }
{
    let first = entry_at(legs, k, 1);
    if places.len() / 4 < first {
        return &places[..0];
    }
    let at = 4 * first;
    &places[at..]
}

// The number of the counted legs whose numbers lie within the slice.
#[tactic(auto, unfolding(crate::specs::LentRoute::present_legs))]
fn present_legs(legs: &[usize], count: usize) -> usize
    ensures { result ≡ present_legs (lent_route [] [] legs.now count) }
{
    count.min(legs.len() / 3)
}

// Validates the number of legs (question 4).
fn validate_count(legs: &[usize], count: usize) -> Result<(), Refusal>
    ensures { result ≡ cond (leg_count_within_limit (lent_route [] [] legs.now count)) (Ok tt)
        (Err TooMany) }
{
    if 16 < count {
        return Err(Refusal::TooMany);
    }
    if legs.len() / 3 < count {
        return Err(Refusal::TooMany);
    }
    Ok(())
}

// Validates the list of leg k (questions 1 to 4).
fn validate_leg(store: &[u8], places: &[usize], legs: &[usize], k: usize) -> Result<(), Refusal>
    ensures { result ≡ validate_call (list_at
        (lent_route store.now places.now legs.now k) k ∷ []) [] [] }
{
    validate::validate_list(store, leg_places(places, legs, k), size_at(legs, k))
}

// Validates the lists of the first n legs (questions 1 to 4).
fn validate_leg_lists(
    store: &[u8],
    places: &[usize],
    legs: &[usize],
    n: usize,
) -> Result<(), Refusal>
    ensures { result ≡ validate_call (lists_in
        (lent_route store.now places.now legs.now n) n) [] [] }
{
    let mut q = Ok(());
    for k in 0..n {
        q = validate::first_refusal(q, validate_leg(store, places, legs, k));
    }
    q
}

// Validates a route (questions 1 to 4).
pub fn validate_legs(
    store: &[u8],
    places: &[usize],
    legs: &[usize],
    count: usize,
) -> Result<(), Refusal>
    ensures { result ≡ validate_route (lent_route store.now places.now legs.now count)
        [] }
{
    let q = validate_leg_lists(store, places, legs, present_legs(legs, count));
    validate::first_refusal(q, validate_count(legs, count))
}

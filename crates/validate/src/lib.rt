// Validation of the lists and texts of a call (questions 1 to 4 of docs/REQUIREMENTS.md). Each question
// is checked for the whole call before the next; the first failed question decides. An empty text passes
// every question, so it is passed for a text that a call does not have.
#![tactic(auto)]

ghost use Rattle.std.specs.Prelude.{◌≡◌, true, not, ◌&&◌, ◌||◌, [], ◌∷◌};
ghost use Rattle.path_grammar.specs.Legal.{legal, at_most255, is_end};
ghost use Rattle.validate.specs.Validate.{lent_list, present_places, list_short, list_all, count_within_limit, every, first_failed, validate_call, first_refusal};
ghost use Rattle.validate.specs.Select.{can_select};

use refusal::Refusal;

// The number of places that the slice holds for the first `count` pairs.
#[tactic(auto, unfolding(crate::specs::Validate::present_places))]
fn present_places(places: &[usize], count: usize) -> usize
    ensures { result ≡ present_places (lent_list [] places.now count) }
{
    2 * count.min(places.len() / 4)
}

// Question 1 for a list and two texts: returns whether each text has at most 255 bytes.
#[tactic(auto, unfolding(crate::specs::Validate::every, crate::specs::Validate::list_short, crate::specs::Validate::present_places, path_grammar::specs::Legal::at_most255))]
fn are_short(store: &[u8], places: &[usize], count: usize, p: &[u8], q: &[u8]) -> bool
    ensures { result ≡ (every at_most255 (p.now ∷ q.now ∷ []) && list_short
        (lent_list store.now places.now count)) }
{
    p.len() <= 255
        && q.len() <= 255
        && pair_list::all_short(store, places, present_places(places, count))
}

// Question 2 for a list: returns whether each text is legal. If the list is known to contain only ends, which
// are legal, it is not scanned again.
#[tactic(auto, unfolding(crate::specs::Validate::list_all, crate::specs::Validate::present_places))]
fn list_is_legal(ends: bool, store: &[u8], places: &[usize], count: usize) -> bool
    requires { (not ends || list_all legal (lent_list store.now places.now count)) ≡ true }
    ensures { result ≡ list_all legal (lent_list store.now places.now count) }
{
    ends || pair_list::all_legal(store, places, present_places(places, count))
}

// Question 2 for a list and two texts: returns whether each text is legal.
#[tactic(auto, unfolding(crate::specs::Validate::every))]
fn are_legal(ends: bool, store: &[u8], places: &[usize], count: usize, p: &[u8], q: &[u8]) -> bool
    requires { (not ends || list_all legal (lent_list store.now places.now count)) ≡ true }
    ensures { result ≡ (every legal (p.now ∷ q.now ∷ []) && list_all legal
        (lent_list store.now places.now count)) }
{
    path_grammar::is_legal(p)
        && path_grammar::is_legal(q)
        && list_is_legal(ends, store, places, count)
}

// Question 3 for a list and two texts: returns whether each is a prim path, `/` or empty.
#[tactic(auto, unfolding(crate::specs::Validate::every, crate::specs::Validate::list_all, crate::specs::Validate::present_places))]
fn are_ends(store: &[u8], places: &[usize], count: usize, e: &[u8], f: &[u8]) -> bool
    ensures { result ≡ (every is_end (e.now ∷ f.now ∷ []) && list_all is_end
        (lent_list store.now places.now count)) }
{
    path_grammar::is_end(e)
        && path_grammar::is_end(f)
        && pair_list::all_ends(store, places, present_places(places, count))
}

// Question 4 for a list: returns whether it has at most 64 pairs and the slice holds them.
#[tactic(auto, unfolding(crate::specs::Validate::count_within_limit))]
fn count_within_limit(places: &[usize], count: usize) -> bool
    ensures { result ≡ count_within_limit (lent_list [] places.now count) }
{
    count <= 64 && count <= places.len() / 4
}

// Returns whether the list passes question 4 and a buffer of `room` numbers has capacity for 64 pairs.
#[tactic(auto, unfolding(crate::specs::Select::can_select, crate::specs::Validate::count_within_limit))]
pub fn can_select(places: &[usize], count: usize, room: usize) -> bool
    ensures { result ≡ can_select (lent_list [] places.now count) room }
{
    count_within_limit(places, count) && 256 <= room
}

// The refusal of the first failed question of four, given the results.
#[tactic(auto, unfolding(crate::specs::Validate::first_failed))]
fn first_failed(short: bool, legal: bool, ends: bool, counted: bool) -> Result<(), Refusal>
    ensures { result ≡ first_failed short legal ends counted }
{
    if !short {
        return Err(Refusal::TooLong);
    }
    if !legal {
        return Err(Refusal::Illegal);
    }
    if !ends {
        return Err(Refusal::NotAnEnd);
    }
    if !counted {
        return Err(Refusal::TooMany);
    }
    Ok(())
}

// Returns whether both are true.
pub fn both(a: bool, b: bool) -> bool
    ensures { result ≡ (a && b) }
{
    a && b
}

// Of two results, the refusal whose question is put first.
#[tactic(auto, unfolding(crate::specs::Validate::first_refusal))]
pub fn first_refusal(a: Result<(), Refusal>, b: Result<(), Refusal>) -> Result<(), Refusal>
    ensures { result ≡ first_refusal a b }
{
    let Err(x) = a else {
        return b;
    };
    let Err(y) = b else {
        return a;
    };
    if refusal::rank_of(x) <= refusal::rank_of(y) {
        return a;
    }
    b
}

// Validates a list and the texts `p` and `q` (questions 1 to 4); `e` and `f` count as ends.
#[tactic(auto, using(text::proofs::BoolLaws::and_yes), unfolding(crate::specs::Validate::validate_call, crate::specs::Validate::every, crate::specs::Validate::count_within_limit))]
pub fn validate_call(
    store: &[u8],
    places: &[usize],
    count: usize,
    p: &[u8],
    q: &[u8],
    e: &[u8],
    f: &[u8],
) -> Result<(), Refusal>
    ensures { result ≡ validate_call (lent_list store.now places.now count ∷ [])
        (p.now ∷ q.now ∷ []) (e.now ∷ f.now ∷ []) }
{
    let short = are_short(store, places, count, p, q);
    let ends = are_ends(store, places, count, e, f);
    let legal = are_legal(ends, store, places, count, p, q);
    first_failed(short, legal, ends, count_within_limit(places, count))
}

// Validates a list and a path (questions 1 to 4).
#[tactic(auto, using(crate::proofs::ValidateBranches::validate_one))]
pub fn validate_list_and_path(
    store: &[u8],
    places: &[usize],
    count: usize,
    p: &[u8],
) -> Result<(), Refusal>
    ensures { result ≡ validate_call (lent_list store.now places.now count ∷ [])
        (p.now ∷ []) [] }
{
    let e = &p[..0];
    validate_call(store, places, count, p, e, e, e)
}

// Validates a list (questions 1 to 4).
#[tactic(auto, using(crate::proofs::ValidateBranches::validate_none))]
pub fn validate_list(store: &[u8], places: &[usize], count: usize) -> Result<(), Refusal>
    ensures { result ≡ validate_call (lent_list store.now places.now count ∷ []) [] [] }
{
    let e = &store[..0];
    validate_call(store, places, count, e, e, e, e)
}

// Validates two ends (questions 1 to 3).
#[tactic(auto, using(crate::proofs::ValidateBranches::validate_empty))]
pub fn validate_ends(e: &[u8], f: &[u8]) -> Result<(), Refusal>
    ensures { result ≡ validate_call [] (e.now ∷ f.now ∷ [])
        (e.now ∷ f.now ∷ []) }
{
    let none = [0usize; 1];
    validate_call(e, &none, 0, e, f, e, f)
}

// Validates two lists (questions 1 to 4): each question is checked for both lists before the next.
#[tactic(auto, unfolding(crate::specs::Validate::validate_call, crate::specs::Validate::every, path_grammar::specs::Legal::at_most255))]
pub fn validate_lists(
    store: &[u8],
    places: &[usize],
    count: usize,
    store2: &[u8],
    places2: &[usize],
    count2: usize,
) -> Result<(), Refusal>
    ensures { result ≡ validate_call (lent_list store.now places.now count ∷ lent_list
        store2.now places2.now count2 ∷ []) [] [] }
{
    let e = &store[..0];
    let short = are_short(store, places, count, e, e) && are_short(store2, places2, count2, e, e);
    let one = are_ends(store, places, count, e, e);
    let other = are_ends(store2, places2, count2, e, e);
    let legal = list_is_legal(one, store, places, count)
        && list_is_legal(other, store2, places2, count2);
    let counted = count_within_limit(places, count) && count_within_limit(places2, count2);
    first_failed(short, legal, one && other, counted)
}

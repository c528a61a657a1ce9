// Lists of (source, target) pairs in lent memory: reading them, and validating their ends (questions 1
// to 3). A pair is two places of crates/text_list. Every public function is defined for any bytes and any numbers.
#![tactic(auto)]

ghost use Rattle.std.specs.Prelude.{◌≡◌};
ghost use Rattle.path_grammar.specs.Legal.{legal, is_end};
ghost use Rattle.pair_list.specs.Places.{is_short_at, key_at, places_short, places_all};

// Returns the source of pair `i`, or its target if `invert` is set.
pub fn key_at<'a>(store: &'a [u8], places: &[usize], i: usize, invert: bool) -> &'a [u8]
    ensures { result.now ≡ key_at store.now places.now invert i }
{
    if places.len() / 2 <= i {
        return &store[..0];
    }
    text_list::text_at(store, places, 2 * i + usize::from(invert))
}

// Returns whether place `j` lies in the store and has at most 255 bytes; a place beyond the slice
// passes.
fn is_short_at(store: &[u8], places: &[usize], j: usize) -> bool
    ensures { result ≡ is_short_at store.now places.now j }
{
    if places.len() / 2 <= j {
        return true;
    }
    let start = places[2 * j];
    let n = places[2 * j + 1];
    start <= store.len() && n <= store.len() - start && n <= 255
}

// Question 1 for the first n places: returns whether each text has at most 255 bytes.
pub fn all_short(store: &[u8], places: &[usize], n: usize) -> bool
    ensures { result ≡ places_short store.now places.now n }
{
    (0..n).all(|j| is_short_at(store, places, j))
}

// Question 2 for the first n places: returns whether each text is a legal path.
pub fn all_legal(store: &[u8], places: &[usize], n: usize) -> bool
    ensures { result ≡ places_all legal store.now places.now n }
{
    (0..n).all(|j| path_grammar::is_legal(text_list::text_at(store, places, j)))
}

// Question 3 for the first n places: returns whether each text is a prim path, `/` or empty.
pub fn all_ends(store: &[u8], places: &[usize], n: usize) -> bool
    ensures { result ≡ places_all is_end store.now places.now n }
{
    (0..n).all(|j| path_grammar::is_end(text_list::text_at(store, places, j)))
}

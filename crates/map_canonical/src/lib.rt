// The canonical form of a map's pairs: root pairs become the mark, and redundant pairs are dropped.
// Ports canonicalize and map_via of the Rust pcp/mapping.rs.
#![tactic(auto)]

ghost use Rattle.std.specs.Prelude.{◌≡◌, cond, ◌||◌, List, length, ℕ, ◌+◌, ◌*◌, ◌≤◌};
ghost use Rattle.pair_list.specs.Places.{pair_in, pairs_in};
ghost use Rattle.pair_list_write.specs.Lists.{copy_entry};
ghost use Rattle.pair_list_write.specs.Select.{written_entries, HoldsEntries};
ghost use Rattle.validate.specs.Validate.{lent_list};
ghost use Rattle.map_spec.specs.Map.{lent_map};
ghost use Rattle.map_spec.specs.New.{is_root_pair, any_root_pair, is_redundant};
ghost use Rattle.map_canonical.specs.Canonical.{max_elements, non_root_with_elements, kept_indices, canonical_indices, canonical_selection, HoldsElementCounts, keeps_pair};

// Returns whether pair `i` is `/`→`/`.
#[tactic(auto, using(pair_list_write::proofs::WriteBranches::source_key, pair_list_write::proofs::WriteBranches::target_key))]
fn is_root_pair(store: &[u8], places: &[usize], i: usize) -> bool
    ensures { result ≡ is_root_pair (pair_in store.now places.now i) }
{
    path_grammar::is_root(pair_list::key_at(store, places, i, false))
        && path_grammar::is_root(pair_list::key_at(store, places, i, true))
}

// Returns whether one of the first n pairs is `/`→`/`.
#[tactic(auto, using(crate::proofs::KeepBranches::rooting))]
fn any_root_pair(store: &[u8], places: &[usize], n: usize) -> bool
    ensures { result ≡ any_root_pair (pairs_in store.now places.now n) }
{
    for i in 0..n {
        if is_root_pair(store, places, i) {
            return true;
        }
    }
    false
}

// Returns whether the map of the first n pairs has the mark.
pub fn is_marked(mark: bool, store: &[u8], places: &[usize], n: usize) -> bool
    ensures { result ≡ (mark || any_root_pair (pairs_in store.now places.now n)) }
{
    mark || any_root_pair(store, places, n)
}

// Writes the number of elements of each of the first n sources to `keys`, and returns the maximum.
fn fill_element_counts(
    store: &[u8],
    places: &[usize],
    n: usize,
    keys: &mut [usize],
) -> path_prefix::Elements
    requires { n ≤ length keys.old }
    ensures holds_element_counts { HoldsElementCounts store.now places.now n keys.new }
    ensures result_value { result.0 ≡ max_elements store.now places.now n }
{
    let mut top = path_prefix::Elements(0);
    for i in 0..n {
        let e = path_prefix::element_count(pair_list::key_at(store, places, i, false));
        keys[i] = e.0;
        top = path_prefix::Elements(top.0.max(e.0));
    }
    top
}

// Returns whether the first n kept pairs, or the mark, map the source to the target, so that such a pair
// is redundant.
fn is_redundant(store: &[u8], kept: &[usize], n: usize, mark: bool, s: &[u8], t: &[u8]) -> bool
    ensures { result ≡ is_redundant (lent_map store.now kept.now n mark)
        (record { source = s.now; target = t.now }) }
{
    if let Some(i) = map_lookup::best_prefix(store, kept, n, false, s) {
        let old = pair_list::key_at(store, kept, i, false);
        let new = pair_list::key_at(store, kept, i, true);
        let k = old.len();
        return path_join::is_join(old, new, &s[k..], t);
    }
    mark && text::is_equal(s, t)
}

// Appends pair `i`, whose source has `key` elements, to the `w` kept pairs if `key` is `e`, the pair is
// not `/`→`/`, and the kept pairs do not imply it. Returns the new number of kept pairs.
fn keep_pair(
    store: &[u8],
    places: &[usize],
    i: usize,
    key: path_prefix::Elements,
    e: path_prefix::Elements,
    mark: bool,
    kept: &mut [usize],
    w: usize,
) -> usize
    requires { w ≤ length kept.old }
    ensures value { result ≡ cond (keeps_pair is_redundant store.now places.now i key.0 e.0 mark
        kept.old w) (w + 1) w }
    ensures kept_after { kept.new ≡ cond
        (keeps_pair is_redundant store.now places.now i key.0 e.0 mark kept.old w)
        (copy_entry places.now i w kept.old) kept.old }
{
    if key.0 != e.0 {
        return w;
    }
    if is_root_pair(store, places, i) {
        return w;
    }
    let s = pair_list::key_at(store, places, i, false);
    let t = pair_list::key_at(store, places, i, true);
    if is_redundant(store, kept, w, mark, s, t) {
        return w;
    }
    pair_list_write::copy_entry(places, i, w, kept);
    w + 1
}

// Appends the pairs whose source has `e` elements to the `w` kept pairs, without the redundant ones.
// Returns the new number of kept pairs.
fn keep_level(
    store: &[u8],
    places: &[usize],
    n: usize,
    keys: &[usize],
    e: path_prefix::Elements,
    mark: bool,
    kept: &mut [usize],
    w: usize,
) -> usize
    requires n_in_bounds { (4 * n ≤ length places.now) × (n ≤ length keys.now) }
    requires holds_element_counts { HoldsElementCounts store.now places.now n keys.now }
    requires n_in_bounds_2 { 4 * (w + length (non_root_with_elements store.now places.now e.0 n)) ≤ length kept.old }
    ensures { (picks old : List ℕ) → HoldsEntries places.now picks old kept.old w →
        HoldsEntries places.now
        (kept_indices is_redundant store.now places.now mark picks
        (non_root_with_elements store.now places.now e.0 n)) old kept.new result }
{
    let mut k = w;
    for i in 0..n {
        let key = path_prefix::Elements(keys[i]);
        k = keep_pair(store, places, i, key, e, mark, kept, k);
    }
    k
}

// Selects the pairs of the map: those that are neither `/`→`/` nor implied by the pairs before them,
// sources with fewer elements first. Going through the levels in turn replaces the sort. Rust:
// canonicalize.
fn canonicalize(store: &[u8], places: &[usize], n: usize, mark: bool, kept: &mut [usize]) -> usize
    requires n_bound { (n ≤ 64) × (4 * n ≤ length places.now) }
    requires in_bounds { 256 ≤ length kept.old }
    ensures { HoldsEntries places.now
        (canonical_indices is_redundant store.now places.now n mark) kept.old
        kept.new result }
{
    let mut keys = [0usize; 64];
    let top = fill_element_counts(store, places, n, &mut keys);
    let mut w = 0;
    for e in 0..top.0 {
        let level = path_prefix::Elements(e);
        w = keep_level(store, places, n, &keys, level, mark, kept, w);
    }
    keep_level(store, places, n, &keys, top, mark, kept, w)
}

// Writes the places of those of the first n pairs that `new` keeps to the caller's buffer, and returns
// their number.
pub fn canonical_places(
    store: &[u8],
    places: &[usize],
    n: usize,
    mark: bool,
    kept: &mut [usize],
) -> usize
    ensures value { result ≡ length (canonical_selection (lent_list store.now places.now n) mark
        (length kept.old)) }
    ensures kept_after { kept.new ≡ written_entries places.now
        (canonical_selection (lent_list store.now places.now n) mark (length kept.old))
        kept.old }
{
    if !validate::can_select(places, n, kept.len()) {
        return 0;
    }
    canonicalize(store, places, n, mark, kept)
}

// Longest-match lookup: the pair of a map whose key is the longest prefix of a path. Ports best_prefix
// of the Rust pcp/mapping.rs. Every public function is defined for any bytes and any numbers.
#![tactic(auto)]

ghost use Rattle.std.specs.Prelude.{◌≡◌, cond, length, ◌*◌, ◌≤◌, min};
ghost use Rattle.map_lookup.specs.LookupStep.{substring, key_count, consider_key, is_index, wins, other_wins};
ghost use Rattle.pair_list.specs.Places.{key_at};
ghost use Rattle.pair_list.specs.LongestMatch.{matches, longest_match};

// The longest match so far: the index of the pair, and how many bytes of the path its key covers, which is 0
// before a key has matched. That number is no key length: keys are measured in elements. It says where the key
// ends in the path, and spares counting: of two prefixes of one path, the one that covers more bytes has no fewer
// elements (`CoveredDecidesAlike`). Two numbers stay in registers; a flag or a count would go through memory.
#[derive(Clone, Copy)]
struct BestSoFar {
    at: usize,
    covered: usize,
}

// Returns whether the key matches the path: it is a nonempty prefix of it.
#[tactic(auto, unfolding(pair_list::specs::LongestMatch::matches))]
pub fn matches(path: &[u8], key: &[u8]) -> bool
    ensures { result ≡ matches path.now key.now }
{
    !key.is_empty() && path_prefix::has_prefix(path, key)
}

// Returns the match so far or the key at index `i`, whichever has more elements, the key on a tie. Elements are
// counted only if the key matches and covers fewer bytes of the path than the match so far.
#[tactic(auto, using(crate::proofs::LookupBranches::searching))]
fn better_of(f: BestSoFar, path: &[u8], key: &[u8], i: usize) -> BestSoFar
    requires { f.covered ≤ length path.now }
    ensures { result ≡ consider_key f path.now key.now i }
{
    if !matches(path, key) {
        return f;
    }
    let old = f.covered;
    let n = key.len();
    if n < old {
        if path_prefix::element_count(key).0 < path_prefix::element_count(&path[..old]).0 {
            return f;
        }
    }
    BestSoFar { at: i, covered: n }
}

// Like `better_of`, for the key of n bytes from `start` if it lies in the store. Most keys are rejected by
// their length or their last byte.
#[tactic(auto, using(crate::proofs::LookupBranches::searching))]
fn consider(
    f: BestSoFar,
    store: &[u8],
    start: usize,
    n: usize,
    limit: usize,
    path: &[u8],
    i: usize,
) -> BestSoFar
    requires limit_in_bounds { limit ≤ length store.now }
    requires limit_in_bounds_2 { limit ≤ length path.now }
    requires limit_value { limit ≡ min (length store.now) (length path.now) }
    requires covered_in_bounds { f.covered ≤ length path.now }
    ensures { result ≡ consider_key f path.now (substring store.now start n) i }
{
    if n == 0 {
        return f;
    }
    if limit < n {
        return f;
    }
    if store.len() - n < start {
        return f;
    }
    let end = start + n;
    if store[end - 1] != path[n - 1] {
        return f;
    }
    better_of(f, path, &store[start..end], i)
}

// The number of the first n pairs whose key lies in the slice, which may end after a source.
#[tactic(auto, unfolding(crate::specs::LookupStep::key_count))]
fn key_count(places: &[usize], n: usize, invert: bool) -> usize
    ensures { result ≡ min n (key_count places.now invert) }
{
    let half = places.len() / 2;
    n.min(if invert { half / 2 } else { (half + 1) / 2 })
}

// The offset of a key's start and length among the four numbers of its pair.
fn key_offset(invert: bool) -> usize
    ensures { result ≡ 2 * cond invert 1 0 }
{
    if invert { 2 } else { 0 }
}

// Returns the index of the longest match: the key that is a nonempty prefix of the path and has most
// elements, the later on a tie.
#[tactic(auto, using(crate::proofs::LookupBranches::searching))]
pub fn best_prefix(
    store: &[u8],
    places: &[usize],
    n: usize,
    invert: bool,
    path: &[u8],
) -> Option<usize>
    ensures { result ≡ longest_match path.now (key_at store.now places.now invert) n }
{
    let present = key_count(places, n, invert);
    let offset = key_offset(invert);
    let limit = store.len().min(path.len());
    let mut f = BestSoFar { at: 0, covered: 0 };
    for i in 0..present {
        let j = 4 * i + offset;
        f = consider(f, store, places[j], places[j + 1], limit, path, i);
    }
    if f.covered == 0 {
        return None;
    }
    Some(f.at)
}

// Returns whether the text `t` would be selected instead of the key; `before` states whether it comes
// before the key in the list.
#[tactic(auto, unfolding(crate::specs::LookupStep::wins))]
fn wins(path: &[u8], t: &[u8], before: bool, key: &[u8]) -> bool
    ensures { result ≡ wins path.now t.now before key.now }
{
    if !matches(path, t) {
        return false;
    }
    let n = path_prefix::element_count(key);
    let m = path_prefix::element_count(t);
    if before {
        return n.0 < m.0;
    }
    n.0 <= m.0
}

// Like `wins`, for the text of n bytes from `start`, at index `k`, and the key at index `i`. As in
// `consider`, most texts are rejected by their length or their last byte; the last byte and the key
// itself are tested in one branch.
#[tactic(auto, using(crate::proofs::OtherWinsBranches::rivalling))]
fn other_wins(
    store: &[u8],
    start: usize,
    n: usize,
    limit: usize,
    path: &[u8],
    k: usize,
    i: usize,
    key: &[u8],
) -> bool
    requires limit_in_bounds { limit ≤ length store.now }
    requires limit_in_bounds_2 { limit ≤ length path.now }
    requires limit_value { limit ≡ min (length store.now) (length path.now) }
    ensures { result ≡ other_wins path.now (substring store.now start n) k i
        key.now }
{
    if n == 0 {
        return false;
    }
    if limit < n {
        return false;
    }
    if store.len() - n < start {
        return false;
    }
    let end = start + n;
    if (store[end - 1] != path[n - 1]) | (k == i) {
        return false;
    }
    wins(path, &store[start..end], k < i, key)
}

// Returns whether pair `i` is the longest match, as `best_prefix` would find it.
pub fn is_longest_match(
    store: &[u8],
    places: &[usize],
    n: usize,
    invert: bool,
    path: &[u8],
    i: usize,
) -> bool
    ensures { result ≡ is_index i (longest_match path.now
        (key_at store.now places.now invert) n) }
{
    if n <= i {
        return false;
    }
    let key = pair_list::key_at(store, places, i, invert);
    if !matches(path, key) {
        return false;
    }
    let present = key_count(places, n, invert);
    let offset = key_offset(invert);
    let limit = store.len().min(path.len());
    for k in 0..present {
        let j = 4 * k + offset;
        if other_wins(store, places[j], places[j + 1], limit, path, k, i, key) {
            return false;
        }
    }
    true
}

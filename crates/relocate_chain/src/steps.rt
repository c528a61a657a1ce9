// The single replacement step and the loop over it. Chaining measures a key in bytes, whereas maps measure it
// in elements.
ghost use Rattle.std.specs.Option.{is_some};
ghost use Rattle.std.specs.Prelude.{◌≡◌, cond, ◌≤◌, length};
ghost use Rattle.path_join.specs.Join.{replace_prefix};
ghost use Rattle.pair_list.specs.Places.{pairs_in};
ghost use Rattle.relocate_chain.specs.Chain.{is_skipped, if_altered, replacement, longest_source, longest_replacement, chain};
ghost use Rattle.relocate_chain.specs.ChainStep.{skip_text, source_kept, longest_index, step_reply, step_buffer, chain_in_buffer, chain_within};
ghost use Rattle.pair_list.specs.Pair.{pair};
ghost use Rattle.pair_list.specs.BestStep.{consider_index};

use refusal::Refusal;

// A number of bytes: the measure of a key in chaining.
#[derive(Clone, Copy)]
pub struct Bytes(pub usize);

// The longest source so far: the index of its pair, and its length.
#[derive(Clone, Copy)]
struct Longest {
    at: usize,
    bytes: Bytes,
}

// Returns whether pairs with this source are skipped.
#[tactic(auto, unfolding(crate::specs::Chain::is_skipped))]
fn is_skipped(skip: Option<&[u8]>, source: &[u8]) -> bool
    ensures { result ≡ is_skipped (skip_text skip.entry) source.now }
{
    let Some(skipped) = skip else {
        return false;
    };
    text::is_equal(source, skipped)
}

// Returns whether the path has the old prefix and, if `alters` is set, whether replacing that prefix changes
// the path.
#[tactic(auto, using(crate::proofs::SearchBranches::searching))]
fn replaces(alters: bool, path: &[u8], old: &[u8], new: &[u8]) -> bool
    ensures { result ≡ is_some (cond alters
        (if_altered path.now (replace_prefix path.now old.now new.now))
        (replace_prefix path.now old.now new.now)) }
{
    if !path_prefix::has_prefix(path, old) {
        return false;
    }
    !alters || !path_join::is_join(old, new, &path[old.len()..], path)
}

// Returns whether the pair (old, new) yields a path.
#[tactic(auto, using(crate::proofs::SearchBranches::searching))]
fn is_candidate(alters: bool, skip: Option<&[u8]>, path: &[u8], old: &[u8], new: &[u8]) -> bool
    ensures { result ≡ is_some (replacement alters (skip_text skip.entry) path.now
        (pair old.now new.now)) }
{
    if new.is_empty() || is_skipped(skip, old) {
        return false;
    }
    replaces(alters, path, old, new)
}

// The search result after the key at i: that key if it yields a path and is at least as long as the one found
// so far.
#[tactic(auto, unfolding(pair_list::specs::BestStep::consider_index))]
fn consider_source(f: Option<Longest>, tries: bool, key: &[u8], i: usize) -> Option<Longest>
    ensures { source_kept result ≡ consider_index (source_kept f) tries i (length key.now) }
{
    let bytes = Bytes(key.len());
    if !tries || f.is_some_and(|best| bytes.0 < best.bytes.0) {
        return f;
    }
    Some(Longest { at: i, bytes })
}

// The pair that yields a path and whose source is longest in bytes, the last on a tie.
fn longest_source(
    store: &[u8],
    places: &[usize],
    n: usize,
    alters: bool,
    skip: Option<&[u8]>,
    path: &[u8],
) -> Option<Longest>
    ensures { longest_index result ≡ longest_source
        (replacement alters (skip_text skip.entry) path.now)
        (pairs_in store.now places.now n) n }
{
    let mut f = None;
    for i in 0..n {
        let old = pair_list::key_at(store, places, i, false);
        let new = pair_list::key_at(store, places, i, true);
        f = consider_source(f, is_candidate(alters, skip, path, old, new), old, i);
    }
    f
}

// Replaces one prefix by that pair, writes the path to the caller's scratch buffer and validates it
// (questions 7 and 8).
pub(crate) fn replace_once(
    store: &[u8],
    places: &[usize],
    n: usize,
    alters: bool,
    skip: Option<&[u8]>,
    path: &[u8],
    made: &mut [u8],
) -> Result<Option<usize>, Refusal>
    requires { length made.old ≡ 255 }
    ensures value { result ≡ step_reply (longest_replacement
        (replacement alters (skip_text skip.entry) path.now)
        (pairs_in store.now places.now n)) }
    ensures made_after { made.new ≡ step_buffer
        (longest_replacement (replacement alters (skip_text skip.entry) path.now)
        (pairs_in store.now places.now n)) made.old }
{
    let Some(f) = longest_source(store, places, n, alters, skip, path) else {
        return Ok(None);
    };
    let old = pair_list::key_at(store, places, f.at, false);
    let new = pair_list::key_at(store, places, f.at, true);
    let Some(len) = path_join::join(old, new, &path[old.len()..], made) else {
        return Err(Refusal::MadeTooLong);
    };
    if !path_grammar::is_legal(&made[..len]) {
        return Err(Refusal::MadeIllegal);
    }
    Ok(Some(len))
}

// Runs the chain and writes its last path to the beginning of the caller's scratch buffer.
pub(crate) fn chain_into(
    store: &[u8],
    places: &[usize],
    n: usize,
    skip: Option<&[u8]>,
    path: &[u8],
    current: &mut [u8],
) -> Result<(usize, usize), Refusal>
    requires { (length path.now ≤ 255) × (length current.old ≡ 255) }
    ensures current_after { chain_in_buffer result current.new ≡ chain (skip_text skip.entry)
        (pairs_in store.now places.now n) path.now }
    ensures chain_within { chain_within result 255 }
{
    let mut made = [0u8; 255];
    let mut len = path.len();
    text::write_at(path, 0, current);
    for k in 0..n {
        let step = replace_once(store, places, n, true, skip, &current[..len], &mut made);
        let Some(m) = step? else {
            return Ok((len, k));
        };
        text::write_at(&made[..m], 0, current);
        len = m;
    }
    Ok((len, n))
}

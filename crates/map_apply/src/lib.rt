// Maps a path through a list of pairs: plain mapping (map_source_to_target, map_target_to_source) and
// translation (translate_to_target) of the Rust pcp/mapping.rs, with the rest of the path beside the reply or
// without it. Defined for any bytes and any numbers, so that a caller can validate a list once and then map
// many paths through it.
#![tactic(auto)]

ghost use Rattle.std.specs.Prelude.{◌≡◌, ◌≤◌, length, drop};
ghost use Rattle.refusal.specs.Outcome.{ReturnsPath};
ghost use Rattle.path_rest.specs.Carried.{ReturnsCarried};
ghost use Rattle.map_spec.specs.Map.{lent_map};
ghost use Rattle.map_rest.specs.MapRest.{source_rest};
ghost use Rattle.map_apply.specs.Fast.{join_checked, keep_path, map_fast, plain_rest, translate_by_mark, checked_join, translate_by_pair, translate_fast};

use refusal::Refusal;

// Writes the path with its old prefix replaced by the new one, with questions 7 and 8.
#[tactic(auto, using(crate::proofs::MapBranches::apply_illegal))]
fn apply_pair(old: &[u8], new: &[u8], path: &[u8], out: &mut [u8; 255]) -> Result<usize, Refusal>
    requires { length old.now ≤ length path.now }
    ensures { ReturnsPath (join_checked old.now new.now
        (drop (length old.now) path.now)) result out.old out.new }
{
    let k = old.len();
    if path_join::is_join_illegal(new, &path[k..]) {
        return Err(Refusal::MadeIllegal);
    }
    path_join::join(old, new, &path[k..], out).ok_or(Refusal::MadeTooLong)
}

// Writes the path itself if the map has the mark.
#[tactic(auto, using(text::proofs::WriteLaws::placed_first), unfolding(crate::specs::Fast::keep_path, refusal::specs::Outcome::outcome_reply, refusal::specs::Outcome::outcome_buffer, path_grammar::specs::Legal::at_most255))]
fn keep_path(mark: bool, path: &[u8], out: &mut [u8; 255]) -> Result<usize, Refusal>
    ensures { ReturnsPath (keep_path mark path.now) result out.old out.new }
{
    if !mark {
        return Err(Refusal::NoPath);
    }
    if 255 < path.len() {
        return Err(Refusal::MadeTooLong);
    }
    text::write_at(path, 0, out);
    Ok(path.len())
}

// Plain mapping through the first n pairs, forward, or backwards if `invert` is set, with the rest of the path.
pub fn map_text_carried(
    store: &[u8],
    places: &[usize],
    n: usize,
    mark: bool,
    invert: bool,
    path: &[u8],
    out: &mut [u8; 255],
) -> Result<(usize, Option<usize>), Refusal>
    ensures { let m = lent_map store.now places.now n mark in
        ReturnsCarried (map_fast invert m path.now) (plain_rest invert m path.now) result
        out.old out.new }
{
    let Some(i) = map_lookup::best_prefix(store, places, n, invert, path) else {
        return path_rest::with_rest(keep_path(mark, path, out), Some(0));
    };
    let block = pair_list::key_at(store, places, i, true);
    if block.len() == 0 {
        return Err(Refusal::NoPath);
    }
    let old = pair_list::key_at(store, places, i, invert);
    let new = pair_list::key_at(store, places, i, !invert);
    let reply = apply_pair(old, new, path, out);
    path_rest::with_rest(reply, Some(path_rest::rest_index(path, old)))
}

// Plain mapping through the first n pairs, forward, or backwards if `invert` is set.
pub fn map_text(
    store: &[u8],
    places: &[usize],
    n: usize,
    mark: bool,
    invert: bool,
    path: &[u8],
    out: &mut [u8; 255],
) -> Result<usize, Refusal>
    ensures { ReturnsPath (map_fast invert (lent_map store.now places.now n mark)
        path.now) result out.old out.new }
{
    path_rest::reply_of(map_text_carried(store, places, n, mark, invert, path, out))
}

// Translation of a path that no pair matches: the mark returns the path, unless some target is a prefix
// of it.
#[tactic(auto, using(crate::proofs::TranslateBranches::marked_none, crate::proofs::TranslateBranches::marked_shadowed), unfolding(refusal::specs::Outcome::outcome_reply, refusal::specs::Outcome::outcome_buffer))]
fn translate_by_mark(
    store: &[u8],
    places: &[usize],
    n: usize,
    mark: bool,
    path: &[u8],
    out: &mut [u8; 255],
) -> Result<usize, Refusal>
    ensures { ReturnsPath (translate_by_mark (lent_map store.now places.now n mark)
        path.now) result out.old out.new }
{
    if !mark || map_lookup::best_prefix(store, places, n, true, path).is_some() {
        return Err(Refusal::NoPath);
    }
    keep_path(mark, path, out)
}

// Writes the path that was built, with questions 8 and 7.
#[tactic(auto, unfolding(crate::specs::Fast::keep_path, refusal::specs::Outcome::outcome_reply, refusal::specs::Outcome::outcome_buffer))]
fn finish_join(illegal: bool, made: &[u8], out: &mut [u8; 255]) -> Result<usize, Refusal>
    ensures { ReturnsPath (checked_join illegal made.now) result out.old out.new }
{
    if illegal {
        return Err(Refusal::MadeIllegal);
    }
    keep_path(true, made, out)
}

// Translation by pair `i`: mapping the new path backwards must select the same pair. The path is built
// in a scratch buffer longer than a path, since this is question 6, which comes before question 7.
fn translate_by_pair(
    store: &[u8],
    places: &[usize],
    n: usize,
    mark: bool,
    i: usize,
    old: &[u8],
    new: &[u8],
    remainder: &[u8],
    out: &mut [u8; 255],
) -> Result<usize, Refusal>
    ensures { ReturnsPath (translate_by_pair (lent_map store.now places.now n mark) i
        old.now new.now remainder.now) result out.old out.new }
{
    let mut made = [0u8; 512];
    let len = path_join::join(old, new, remainder, &mut made).ok_or(Refusal::MadeTooLong)?;
    if !map_lookup::is_longest_match(store, places, n, true, &made[..len], i) {
        return Err(Refusal::NoPath);
    }
    let illegal = path_join::is_join_illegal(new, remainder);
    finish_join(illegal, &made[..len], out)
}

// Translation of a path without selections through the first n pairs, with the rest of the path.
pub fn translate_text_carried(
    store: &[u8],
    places: &[usize],
    n: usize,
    mark: bool,
    path: &[u8],
    out: &mut [u8; 255],
) -> Result<(usize, Option<usize>), Refusal>
    ensures { let m = lent_map store.now places.now n mark in
        ReturnsCarried (translate_fast m path.now) (source_rest m path.now) result
        out.old out.new }
{
    let Some(i) = map_lookup::best_prefix(store, places, n, false, path) else {
        let reply = translate_by_mark(store, places, n, mark, path, out);
        return path_rest::with_rest(reply, Some(0));
    };
    let new = pair_list::key_at(store, places, i, true);
    if new.len() == 0 {
        return Err(Refusal::NoPath);
    }
    let old = pair_list::key_at(store, places, i, false);
    let k = old.len();
    let reply = translate_by_pair(store, places, n, mark, i, old, new, &path[k..], out);
    path_rest::with_rest(reply, Some(path_rest::rest_index(path, old)))
}

// Translation of a path without selections through the first n pairs.
pub fn translate_text(
    store: &[u8],
    places: &[usize],
    n: usize,
    mark: bool,
    path: &[u8],
    out: &mut [u8; 255],
) -> Result<usize, Refusal>
    ensures { ReturnsPath (translate_fast (lent_map store.now places.now n mark)
        path.now) result out.old out.new }
{
    path_rest::reply_of(translate_text_carried(store, places, n, mark, path, out))
}

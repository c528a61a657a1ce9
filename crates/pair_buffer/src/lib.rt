// The ends of a list of pairs that is built in a scratch buffer, and the construction of a map from such a list.
#![tactic(auto)]

ghost use Rattle.std.specs.Prelude.{◌≡◌};
ghost use Rattle.text.specs.Text.{fit_of, written_if_fits};
ghost use Rattle.pair_list.specs.Pair.{every_end, all_short};
ghost use Rattle.pair_list.specs.Places.{pairs_in};
ghost use Rattle.validate.specs.Validate.{lent_list};
ghost use Rattle.map_spec.specs.Compose.{has_source};
ghost use Rattle.map_function.specs.MapOutcome.{ReturnsMap, count_in_slice};
ghost use Rattle.pair_buffer.specs.Ends.{at_most, replaced_or_same, written_length, from_ends_given, from_ends};

use refusal::Refusal;

// Writes the path with its prefix replaced, or the path itself if it does not have that prefix, and returns
// its length; writes nothing and returns 0 if it does not fit.
pub fn replace_into(path: &[u8], old: &[u8], new: &[u8], out: &mut [u8]) -> usize
    ensures value { result ≡ written_length (fit_of (replaced_or_same path.now old.now new.now)
        out.old) }
    ensures out_after { out.new ≡ written_if_fits 0
        (replaced_or_same path.now old.now new.now) out.old }
{
    if !path_prefix::has_prefix(path, old) {
        if out.len() < path.len() {
            return 0;
        }
        text::write_at(path, 0, out);
        return path.len();
    }
    let k = old.len();
    path_join::join(old, new, &path[k..], out).unwrap_or(0)
}

// Returns whether one of the first n pairs has this source.
pub fn has_source(store: &[u8], places: &[usize], n: usize, source: &[u8]) -> bool
    ensures { result ≡ has_source (pairs_in store.now places.now n) source.now }
{
    (0..n).any(|i| text::is_equal(pair_list::key_at(store, places, i, false), source))
}

// Returns whether every end of the first n pairs has at most `most` bytes.
pub fn all_at_most(store: &[u8], places: &[usize], n: usize, most: usize) -> bool
    ensures { result ≡ every_end (at_most most) (pairs_in store.now places.now n) }
{
    (0..n).all(|i| {
        pair_list::key_at(store, places, i, false).len() <= most
            && pair_list::key_at(store, places, i, true).len() <= most
    })
}

// Checks question 7 for the first n pairs: every end has at most 255 bytes.
#[tactic(auto, using(crate::proofs::ShortBranches::short_all))]
pub fn all_short(store: &[u8], places: &[usize], n: usize) -> bool
    ensures { result ≡ all_short (pairs_in store.now places.now n) }
{
    all_at_most(store, places, n, 255)
}

// Builds a map from the first n pairs, whose ends were constructed: validates them (questions 4, 5 and 7, and
// question 8 by its answer `legal`), then drops redundant pairs.
pub fn from_ends_given(
    store: &[u8],
    places: &[usize],
    n: usize,
    legal: bool,
    mark: bool,
    time: layer_offset::LayerOffset,
    out: &mut [u8],
    slots: &mut [usize],
) -> Result<map_function::MapFunction, Refusal>
    ensures { ReturnsMap (count_in_slice (lent_list store.now places.now n)
        (from_ends_given legal (pairs_in store.now places.now n) mark time out.old
        slots.old)) result out.old out.new slots.old slots.new }
{
    if 64 < n {
        return Err(Refusal::TooMany);
    }
    if places.len() / 4 < n {
        return Err(Refusal::TooMany);
    }
    let short = all_short(store, places, n);
    if short && legal {
        return map_function::from_parts(store, places, n, mark, time, out, slots);
    }
    if slots.len() / 4 < n {
        return Err(Refusal::NoRoom);
    }
    if !pair_list_write::list_fits(store, places, n, out.len()) {
        return Err(Refusal::NoRoom);
    }
    if short {
        return Err(Refusal::MadeIllegal);
    }
    Err(Refusal::MadeTooLong)
}

// Like `from_ends_given`, with question 8 answered for the pairs.
pub fn from_ends(
    store: &[u8],
    places: &[usize],
    n: usize,
    mark: bool,
    time: layer_offset::LayerOffset,
    out: &mut [u8],
    slots: &mut [usize],
) -> Result<map_function::MapFunction, Refusal>
    ensures { ReturnsMap (count_in_slice (lent_list store.now places.now n)
        (from_ends (pairs_in store.now places.now n) mark time out.old
        slots.old)) result out.old out.new slots.old slots.new }
{
    if 64 < n {
        return Err(Refusal::TooMany);
    }
    let legal = pair_list::all_legal(store, places, 2 * n);
    from_ends_given(store, places, n, legal, mark, time, out, slots)
}

// Builds the list of pairs of a composed map, before redundant pairs are dropped, in the caller's scratch
// buffer (the two loops of Rust's `MapFunction::compose`).
#![tactic(auto)]

ghost use Rattle.std.specs.Prelude.{◌≡◌, true, false, map as mapped, ◌+◌, ◌*◌, ◌≤◌, leb, length, Some};
ghost use Rattle.text.specs.Text.{equal, written, written_if_fits};
ghost use Rattle.path_join.specs.Join.{join};
ghost use Rattle.pair_list.specs.Pair.{pair};
ghost use Rattle.pair_list.specs.Places.{pairs_in, list_text, list_places};
ghost use Rattle.pair_list_write.specs.Packed.{PackedList, IsPacked, AppendedPair};
ghost use Rattle.map_spec.specs.Map.{lent_map};
ghost use Rattle.map_spec.specs.Compose.{composed_pair, has_source, add_if_new_source, pulled_back, composed_pairs};
ghost use Rattle.compose_pairs.specs.ComposePairs.{map_plainly, path_if_marked, image, image_length, image_buffer, composed_target, compose_fits, CanCompose, built_of, composed_or_none};

// Writes the new prefix joined with the remainder at offset `at` and returns its length.
fn join_at(old: &[u8], new: &[u8], remainder: &[u8], at: usize, bytes: &mut [u8]) -> usize
    requires { at + length (join old.now new.now remainder.now) ≤ length bytes.old }
    ensures value { result ≡ length (join old.now new.now remainder.now) }
    ensures bytes_after { bytes.new ≡ written_if_fits at
        (join old.now new.now remainder.now) bytes.old }
{
    path_join::join(old, new, remainder, &mut bytes[at..]).unwrap_or(0)
}

// Writes the path itself at offset `at` if the map has the mark.
fn keep_at(mark: bool, path: &[u8], at: usize, bytes: &mut [u8]) -> Option<usize>
    ensures value { result ≡ image (path_if_marked mark path.now) }
    ensures bytes_after { bytes.new ≡ image_buffer at (path_if_marked mark path.now) bytes.old }
{
    if !mark {
        return None;
    }
    text::write_at(path, at, bytes);
    Some(path.len())
}

// Maps a text plainly from source to target and writes the result at offset `at`.
fn map_at(
    store: &[u8],
    places: &[usize],
    n: usize,
    mark: bool,
    path: &[u8],
    at: usize,
    bytes: &mut [u8],
) -> Option<usize>
    requires { at + image_length (map_plainly false (lent_map store.now places.now n mark) path.now) ≤ length
        bytes.old }
    ensures value { result ≡ image (map_plainly false (lent_map store.now places.now n mark)
        path.now) }
    ensures bytes_after { bytes.new ≡ image_buffer at
        (map_plainly false (lent_map store.now places.now n mark) path.now)
        bytes.old }
{
    let Some(i) = map_lookup::best_prefix(store, places, n, false, path) else {
        return keep_at(mark, path, at, bytes);
    };
    let new = pair_list::key_at(store, places, i, true);
    if new.is_empty() {
        return None;
    }
    let old = pair_list::key_at(store, places, i, false);
    let k = old.len();
    Some(join_at(old, new, &path[k..], at, bytes))
}

// Maps the target of an inner pair through the outer map, writes it at offset `at` and returns its length. No
// path becomes an empty target, a block, so that the inner source does not fall back to a shorter pair.
fn composed_target_at(
    store: &[u8],
    places: &[usize],
    n: usize,
    mark: bool,
    target: &[u8],
    at: usize,
    bytes: &mut [u8],
) -> usize
    requires { at + length (composed_target (lent_map store.now places.now n mark) target.now) ≤ length
        bytes.old }
    ensures value { result ≡ length (composed_target (lent_map store.now places.now n mark)
        target.now) }
    ensures bytes_after { bytes.new ≡ written_if_fits at
        (composed_target (lent_map store.now places.now n mark) target.now)
        bytes.old }
{
    if target.is_empty() {
        return 0;
    }
    map_at(store, places, n, mark, target, at, bytes).unwrap_or(0)
}

// Appends an inner pair with its target mapped through the outer map and returns the offset after it.
fn compose_pair(
    store: &[u8],
    places: &[usize],
    count: usize,
    mark: bool,
    s: &[u8],
    t: &[u8],
    n: usize,
    at: usize,
    bytes: &mut [u8],
    slots: &mut [usize],
) -> usize
    requires t_in_bounds { at + (length s.now + length (composed_target (lent_map store.now places.now count mark) t.now)) ≤
        length bytes.old }
    requires n_in_bounds { 4 * n + 4 ≤ length slots.old }
    ensures { AppendedPair (pair s.now
        (composed_target (lent_map store.now places.now count mark) t.now)) n at
        bytes.old slots.old result bytes.new slots.new }
{
    text::write_at(s, at, bytes);
    let m = at + s.len();
    let k = composed_target_at(store, places, count, mark, t, m, bytes);
    pair_list_write::write_entry(n, at, s.len(), m, k, slots);
    m + k
}

// Returns whether the text is the new prefix joined with the remainder. If the remainder has at least two bytes, so
// that the join ends in its last byte, that byte is compared first.
fn is_joined(old: &[u8], new: &[u8], remainder: &[u8], text: &[u8]) -> bool
    ensures { result ≡ equal (join old.now new.now remainder.now) text.now }
{
    let k = remainder.len();
    if 2 <= k && !text::last_is(text, remainder[k - 1]) {
        return false;
    }
    path_join::is_join(old, new, remainder, text)
}

// Returns whether one of the first n pairs has the new prefix joined with the remainder as its source.
fn has_joined(
    bytes: &[u8],
    slots: &[usize],
    n: usize,
    old: &[u8],
    new: &[u8],
    remainder: &[u8],
) -> bool
    ensures { result ≡ has_source (pairs_in bytes.now slots.now n)
        (join old.now new.now remainder.now) }
{
    (0..n).any(|i| is_joined(
        old,
        new,
        remainder,
        pair_list::key_at(bytes, slots, i, false),
    ))
}

// The number of pairs and bytes of a list in a buffer.
#[derive(Clone, Copy)]
pub struct Built {
    pub n: usize,
    pub at: usize,
}

// Appends a pair with the new prefix joined with the remainder as its source and t as its target, unless a pair
// already has that source.
fn add_joined(
    old: &[u8],
    new: &[u8],
    remainder: &[u8],
    t: &[u8],
    b: Built,
    bytes: &mut [u8],
    slots: &mut [usize],
) -> Built
    requires packed { IsPacked b.n b.at bytes.old slots.old }
    requires t_in_bounds { b.at + (length (join old.now new.now remainder.now) + length t.now) ≤ length bytes.old }
    requires n_in_bounds { 4 * b.n + 4 ≤ length slots.old }
    ensures { PackedList (add_if_new_source (pairs_in bytes.old slots.old b.n)
        t.now (Some (join old.now new.now remainder.now))) result.n result.at
        bytes.old slots.old bytes.new slots.new }
{
    let at = b.at;
    let n = b.n;
    if has_joined(bytes, slots, n, old, new, remainder) {
        return b;
    }
    let k = join_at(old, new, remainder, at, bytes);
    let end = at + k;
    let next = Built {
        n: n + 1,
        at: end + t.len(),
    };
    text::write_at(t, end, bytes);
    pair_list_write::write_entry(n, at, k, end, t.len(), slots);
    next
}

// Appends an outer pair with its source mapped back through the inner map; appends nothing if there is no
// such source or a pair already has it.
fn pull_back_pair(
    store: &[u8],
    places: &[usize],
    count: usize,
    mark: bool,
    s: &[u8],
    t: &[u8],
    b: Built,
    bytes: &mut [u8],
    slots: &mut [usize],
) -> Built
    requires packed { IsPacked b.n b.at bytes.old slots.old }
    requires t_in_bounds { b.at + (image_length (map_plainly true (lent_map store.now places.now count mark) s.now) + length
        t.now) ≤ length bytes.old }
    requires n_in_bounds { 4 * b.n + 4 ≤ length slots.old }
    ensures { PackedList (add_if_new_source (pairs_in bytes.old slots.old b.n)
        t.now (map_plainly true (lent_map store.now places.now count mark)
        s.now)) result.n result.at bytes.old slots.old bytes.new
        slots.new }
{
    let Some(i) = map_lookup::best_prefix(store, places, count, true, s) else {
        if !mark {
            return b;
        }
        return add_joined(b"", s, b"", t, b, bytes, slots);
    };
    let old = pair_list::key_at(store, places, i, true);
    let new = pair_list::key_at(store, places, i, false);
    let k = old.len();
    add_joined(old, new, &s[k..], t, b, bytes, slots)
}

// Writes the first half of the composed list, each inner pair with its target mapped through the outer map,
// and returns the offset after it.
fn compose_all(
    store: &[u8],
    places: &[usize],
    count: usize,
    mark: bool,
    istore: &[u8],
    iplaces: &[usize],
    inner: usize,
    bytes: &mut [u8],
    slots: &mut [usize],
) -> usize
    requires { CanCompose (pairs_in store.now places.now count) (pairs_in istore.now iplaces.now inner)
        (inner + count) bytes.old slots.old }
    ensures packed_list { PackedList (mapped (composed_pair (lent_map store.now places.now count mark))
        (pairs_in istore.now iplaces.now inner)) inner result bytes.old slots.old
        bytes.new slots.new }
    ensures upper_bound { result ≤ 1534 * inner }
{
    let mut at = 0;
    for i in 0..inner {
        let s = pair_list::key_at(istore, iplaces, i, false);
        let t = pair_list::key_at(istore, iplaces, i, true);
        at = compose_pair(store, places, count, mark, s, t, i, at, bytes, slots);
    }
    at
}

// Appends the second half of the composed list: each outer pair whose source maps back through the inner map
// to a source that is not present yet.
fn pull_back_all(
    store: &[u8],
    places: &[usize],
    count: usize,
    istore: &[u8],
    iplaces: &[usize],
    inner: usize,
    mark: bool,
    at: usize,
    bytes: &mut [u8],
    slots: &mut [usize],
) -> Built
    requires can_compose { CanCompose (pairs_in store.now places.now count) (pairs_in istore.now iplaces.now inner)
        (inner + count) bytes.old slots.old }
    requires packed { IsPacked inner at bytes.old slots.old }
    requires at_bound { at ≤ 1534 * inner }
    ensures { PackedList (pulled_back (lent_map istore.now iplaces.now inner mark)
        (pairs_in bytes.old slots.old inner)
        (pairs_in store.now places.now count)) result.n result.at bytes.old
        slots.old bytes.new slots.new }
{
    let mut b = Built { n: inner, at };
    for i in 0..count {
        let s = pair_list::key_at(store, places, i, false);
        let t = pair_list::key_at(store, places, i, true);
        b = pull_back_pair(istore, iplaces, inner, mark, s, t, b, bytes, slots);
    }
    b
}

// Writes both halves of the composed list.
fn compose_both(
    store: &[u8],
    places: &[usize],
    count: usize,
    mark: bool,
    istore: &[u8],
    iplaces: &[usize],
    inner: usize,
    imark: bool,
    bytes: &mut [u8],
    slots: &mut [usize],
) -> Built
    requires { CanCompose (pairs_in store.now places.now count) (pairs_in istore.now iplaces.now inner)
        (inner + count) bytes.old slots.old }
    ensures { PackedList (composed_pairs (lent_map store.now places.now count mark)
        (lent_map istore.now iplaces.now inner imark)) result.n result.at bytes.old
        slots.old bytes.new slots.new }
{
    let at = compose_all(
        store, places, count, mark, istore, iplaces, inner, bytes, slots,
    );
    pull_back_all(
        store, places, count, istore, iplaces, inner, imark, at, bytes, slots,
    )
}

// Returns whether all ends of both lists have at most 511 bytes and the capacities suffice for the composed
// list.
#[tactic(auto, using(crate::proofs::ComposeFitsBranches::fitting))]
fn compose_fits(
    store: &[u8],
    places: &[usize],
    count: usize,
    istore: &[u8],
    iplaces: &[usize],
    inner: usize,
    room: usize,
    slots: usize,
) -> bool
    ensures { result ≡ compose_fits (pairs_in store.now places.now count)
        (pairs_in istore.now iplaces.now inner) room slots }
{
    let Some(n) = inner.checked_add(count) else {
        return false;
    };
    n <= room / 1534
        && n <= slots / 4
        && pair_buffer::all_at_most(store, places, count, 511)
        && pair_buffer::all_at_most(istore, iplaces, inner, 511)
}

// Writes the composed list of an outer and an inner map if the capacity suffices; otherwise writes nothing
// and returns 0 pairs.
pub fn compose_into(
    store: &[u8],
    places: &[usize],
    count: usize,
    mark: bool,
    istore: &[u8],
    iplaces: &[usize],
    inner: usize,
    imark: bool,
    bytes: &mut [u8],
    slots: &mut [usize],
) -> Built
    ensures value { result ≡ built_of (composed_or_none (lent_map store.now places.now count mark)
        (lent_map istore.now iplaces.now inner imark) (length bytes.old)
        (length slots.old)) }
    ensures bytes_after { bytes.new ≡ written
        (list_text (composed_or_none (lent_map store.now places.now count mark)
        (lent_map istore.now iplaces.now inner imark) (length bytes.old)
        (length slots.old))) bytes.old }
    ensures slots_after { slots.new ≡ written
        (list_places 0 (composed_or_none (lent_map store.now places.now count mark)
        (lent_map istore.now iplaces.now inner imark) (length bytes.old)
        (length slots.old))) slots.old }
{
    let room = bytes.len();
    if !compose_fits(
        store,
        places,
        count,
        istore,
        iplaces,
        inner,
        room,
        slots.len(),
    ) {
        return Built { n: 0, at: 0 };
    }
    compose_both(
        store, places, count, mark, istore, iplaces, inner, imark, bytes, slots,
    )
}

// Writes lists of pairs to lent memory: the bytes of all ends consecutively, and the places of each
// pair. Every public function is defined for any bytes and any numbers.
#![tactic(auto)]

ghost use Rattle.std.specs.Prelude.{◌≡◌, [], ◌∷◌, ◌*◌, leb};
ghost use Rattle.text.specs.Text.{written_if_fits};
ghost use Rattle.pair_list.specs.Places.{pairs_in, end_bytes};
ghost use Rattle.pair_list_write.specs.Packed.{pair_end, pair_bytes, pair_slots};
ghost use Rattle.pair_list_write.specs.Lists.{copy_entry, remaining_room, append_list_reply, append_list_bytes, append_list_slots, write_list_reply, write_list_bytes, write_list_slots};

// The part of the capacity `room` that remains after the bytes of the first n pairs.
#[tactic(auto, using(crate::proofs::RoomBranches::room_target))]
pub fn remaining_room(store: &[u8], places: &[usize], n: usize, room: usize) -> Option<usize>
    ensures { result ≡ remaining_room (pairs_in store.now places.now n) room }
{
    let mut left = room;
    for i in 0..n {
        let s = pair_list::key_at(store, places, i, false).len();
        left = left.checked_sub(s)?;
        let t = pair_list::key_at(store, places, i, true).len();
        left = left.checked_sub(t)?;
    }
    Some(left)
}

// Returns whether the capacity `room` is enough for the bytes of the first n pairs.
#[tactic(auto, unfolding(crate::specs::Lists::remaining_room))]
pub fn list_fits(store: &[u8], places: &[usize], n: usize, room: usize) -> bool
    ensures { result ≡ leb (end_bytes (pairs_in store.now places.now n)) room }
{
    remaining_room(store, places, n, room).is_some()
}

// Writes the four numbers of pair `w` if the slice is long enough; otherwise writes nothing.
pub fn write_entry(w: usize, a: usize, b: usize, c: usize, d: usize, slots: &mut [usize])
    ensures { slots.new ≡ written_if_fits (4 * w) (a ∷ b ∷ c ∷ d ∷ []) slots.old }
{
    if slots.len() / 4 <= w {
        return;
    }
    let j = 4 * w;
    slots[j] = a;
    slots[j + 1] = b;
    slots[j + 2] = c;
    slots[j + 3] = d;
}

// Copies the four numbers of pair `i` over those of pair `w` in another slice, if both pairs lie in
// their slices.
#[tactic(auto, unfolding(crate::specs::Lists::copy_entry))]
pub fn copy_entry(places: &[usize], i: usize, w: usize, slots: &mut [usize])
    ensures { slots.new ≡ copy_entry places.now i w slots.old }
{
    if places.len() / 4 <= i {
        return;
    }
    let j = 4 * i;
    write_entry(
        w,
        places[j],
        places[j + 1],
        places[j + 2],
        places[j + 3],
        slots,
    );
}

// Appends a pair to the first n pairs, which have `at` bytes, and returns the offset after it; writes nothing and
// returns `at` if it does not fit.
pub fn push_pair(
    s: &[u8],
    t: &[u8],
    n: usize,
    at: usize,
    bytes: &mut [u8],
    slots: &mut [usize],
) -> usize
    ensures value { result ≡ pair_end s.now t.now n at bytes.old slots.old }
    ensures bytes_after { bytes.new ≡ pair_bytes s.now t.now n at bytes.old
        slots.old }
    ensures slots_after { slots.new ≡ pair_slots s.now t.now n at bytes.old
        slots.old }
{
    if bytes.len() < at {
        return at;
    }
    let room = bytes.len() - at;
    if room < s.len() {
        return at;
    }
    if room - s.len() < t.len() {
        return at;
    }
    if slots.len() / 4 <= n {
        return at;
    }
    let m = text_list::push_text(s, 2 * n, at, bytes, slots);
    text_list::push_text(t, 2 * n + 1, m, bytes, slots)
}

// Writes the bytes of the first n pairs consecutively from index `at` of `out`, and their places to
// `slots`; writes nothing if one of the buffers is too short.
pub fn append_list(
    store: &[u8],
    places: &[usize],
    n: usize,
    at: usize,
    out: &mut [u8],
    slots: &mut [usize],
) -> Option<usize>
    ensures value { result ≡ append_list_reply at (pairs_in store.now places.now n) out.old
        slots.old }
    ensures out_after { out.new ≡ append_list_bytes at (pairs_in store.now places.now n)
        out.old slots.old }
    ensures slots_after { slots.new ≡ append_list_slots at (pairs_in store.now places.now n)
        out.old slots.old }
{
    if slots.len() / 4 < n {
        return None;
    }
    if out.len() < at {
        return None;
    }
    if !list_fits(store, places, n, out.len() - at) {
        return None;
    }
    let mut end = at;
    for i in 0..n {
        let s = pair_list::key_at(store, places, i, false);
        let t = pair_list::key_at(store, places, i, true);
        end = push_pair(s, t, i, end, out, slots);
    }
    Some(n)
}

// Like `append_list`, from the beginning of `out`.
pub fn write_list(
    store: &[u8],
    places: &[usize],
    n: usize,
    out: &mut [u8],
    slots: &mut [usize],
) -> Option<usize>
    ensures value { result ≡ write_list_reply (pairs_in store.now places.now n) out.old
        slots.old }
    ensures out_after { out.new ≡ write_list_bytes (pairs_in store.now places.now n)
        out.old slots.old }
    ensures slots_after { slots.new ≡ write_list_slots (pairs_in store.now places.now n)
        out.old slots.old }
{
    append_list(store, places, n, 0, out, slots)
}

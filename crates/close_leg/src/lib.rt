// Closes the open list of the program `frames` as a leg, in lent memory. The buffers may hold anything.
#![tactic(auto)]

ghost use Rattle.std.specs.Prelude.{◌≡◌, cond, [], ◌∷◌, ◌+◌, ◌*◌, ◌≤◌, ◌<◌, length};
ghost use Rattle.text.specs.Text.{written_at};
ghost use Rattle.pair_list.specs.Places.{pairs_in};
ghost use Rattle.validate.specs.Validate.{lent_list};
ghost use Rattle.close_leg.specs.Close.{leg_store, store_has_leg_room, close_list_reply, close_list_store, close_reply, close_store};

use refusal::Refusal;

// The size of the leg store: the number of legs, and the bytes of their ends before redundant pairs are
// dropped.
#[derive(Clone, Copy)]
pub struct LegTotals {
    pub count: usize,
    pub bytes: usize,
}

// Returns whether there is space for one more leg (question 4).
fn has_leg_room(v: LegTotals, slots: &[usize], table: &[usize]) -> bool
    ensures { result ≡ store_has_leg_room (leg_store v [] slots.now table.now) }
{
    let count = v.count;
    if 16 <= count {
        return false;
    }
    if slots.len() / 256 <= count {
        return false;
    }
    if table.len() / 3 <= count {
        return false;
    }
    true
}

// Validates a leg built from the first n pairs (questions 4 and 5) and returns the new size of the leg store.
fn validate_close(
    bytes: &[u8],
    places: &[usize],
    n: usize,
    v: LegTotals,
    store: &[u8],
    slots: &[usize],
    table: &[usize],
) -> Result<LegTotals, Refusal>
    ensures { result ≡ close_list_reply (pairs_in bytes.now places.now n)
        (leg_store v store.now slots.now table.now) }
{
    if !has_leg_room(v, slots, table) {
        return Err(Refusal::TooMany);
    }
    let at = v.bytes;
    if 32768 < at {
        return Err(Refusal::NoRoom);
    }
    let Some(left) = pair_list_write::remaining_room(bytes, places, n, 32768 - at) else {
        return Err(Refusal::NoRoom);
    };
    let total = 32768 - left;
    if store.len() < total {
        return Err(Refusal::NoRoom);
    }
    Ok(LegTotals {
        count: v.count + 1,
        bytes: total,
    })
}

// Writes the three numbers of leg k, which has w pairs.
fn write_leg_entry(k: usize, mark: bool, w: usize, table: &mut [usize])
    requires { (k < 16) × (3 * k + 3 ≤ length table.old) }
    ensures { table.new ≡ written_at (3 * k) (cond mark 1 0 ∷ 64 * k ∷ w ∷ []) table.old }
{
    route_legs::write_leg(k, usize::from(mark), 64 * k, w, table);
}

// Closes the first n pairs as a leg; its map has the mark if `mark` is set or a pair is `/`→`/`.
fn close_list(
    bytes: &[u8],
    places: &[usize],
    n: usize,
    mark: bool,
    v: LegTotals,
    store: &mut [u8],
    slots: &mut [usize],
    table: &mut [usize],
) -> Result<LegTotals, Refusal>
    requires { (n ≤ 64) × (4 * n ≤ length places.now) }
    ensures value { result ≡ close_list_reply (pairs_in bytes.now places.now n)
        (leg_store v store.old slots.old table.old) }
    ensures store_after { store.new ≡ (close_list_store mark (pairs_in bytes.now places.now n)
        (leg_store v store.old slots.old table.old)).store }
    ensures slots_after { slots.new ≡ (close_list_store mark (pairs_in bytes.now places.now n)
        (leg_store v store.old slots.old table.old)).slots }
    ensures table_after { table.new ≡ (close_list_store mark (pairs_in bytes.now places.now n)
        (leg_store v store.old slots.old table.old)).table }
{
    let totals = validate_close(bytes, places, n, v, store, slots, table)?;
    let marked = map_canonical::is_marked(mark, bytes, places, n);
    let mut kept = [0usize; 256];
    let w = map_canonical::canonical_places(bytes, places, n, marked, &mut kept);
    let at = 256 * v.count;
    let end = at + 256;
    pair_list_write::append_list(bytes, &kept, w, v.bytes, store, &mut slots[at..end]);
    write_leg_entry(v.count, marked, w, table);
    Ok(totals)
}

// Closes the open list of n pairs as a leg: a relocate leg if `relocates` is set, otherwise a map leg.
pub fn close(
    relocates: bool,
    bytes: &[u8],
    places: &[usize],
    n: usize,
    v: LegTotals,
    store: &mut [u8],
    slots: &mut [usize],
    table: &mut [usize],
) -> Result<LegTotals, Refusal>
    ensures value { result ≡ close_reply relocates (lent_list bytes.now places.now n)
        (leg_store v store.old slots.old table.old) }
    ensures store_after { store.new ≡ (close_store relocates (lent_list bytes.now places.now n)
        (leg_store v store.old slots.old table.old)).store }
    ensures slots_after { slots.new ≡ (close_store relocates (lent_list bytes.now places.now n)
        (leg_store v store.old slots.old table.old)).slots }
    ensures table_after { table.new ≡ (close_store relocates (lent_list bytes.now places.now n)
        (leg_store v store.old slots.old table.old)).table }
{
    if !validate::can_select(places, n, 256) {
        return Err(Refusal::TooMany);
    }
    if !relocates {
        return close_list(bytes, places, n, false, v, store, slots, table);
    }
    let mut active = [0usize; 256];
    let w = relocates::status::active_pairs(bytes, places, n, &mut active);
    close_list(bytes, &active, w, true, v, store, slots, table)
}

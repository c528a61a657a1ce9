// Prepares the map of each leg of a route once, before any path is mapped, so that a relocate list is
// analysed once for many paths. Every public function is defined for all byte slices and all numbers.
#![tactic(auto)]

ghost use Rattle.std.specs.Prelude.{◌≡◌, true, ℕ, ◌*◌, ◌≤◌, ◌<◌, length, take, drop};
ghost use Rattle.text.specs.Text.{written_at};
ghost use Rattle.pair_list_write.specs.Select.{indices_where, written_entries};
ghost use Rattle.validate.specs.Validate.{lent_list};
ghost use Rattle.map_canonical.specs.Canonical.{canonical_selection};
ghost use Rattle.route_legs.specs.LentRoute.{lent_route, kind_at, list_at};
ghost use Rattle.route_maps.specs.Prepared.{has_relocates};
ghost use Rattle.route_maps.specs.Prepare.{active_list, leg_selection, leg_block, map_kind, prepared_entry, places_after_prepare, table_after_prepare};

// Returns whether one of the first n legs is a relocate list.
pub fn has_relocates(legs: &[usize], n: usize) -> bool
    ensures { result ≡ has_relocates legs.now n }
{
    (0..n).any(|k| 2 <= route_legs::kind_at(legs, k))
}

// Copies the places of the first n pairs.
fn copy_pairs(places: &[usize], n: usize, block: &mut [usize])
    requires { (4 * n ≤ length places.now) × (4 * n ≤ length block.old) }
    ensures { block.new ≡ written_entries places.now (indices_where (λ (i : ℕ). true) n)
        block.old }
{
    for i in 0..n {
        pair_list_write::copy_entry(places, i, i, block);
    }
}

// Writes the places of the pairs of a relocate list's map and returns their number.
fn prepare_relocates(store: &[u8], places: &[usize], n: usize, block: &mut [usize]) -> usize
    ensures value { result ≡ length (canonical_selection (active_list (lent_list store.now places.now n))
        true (length block.old)) }
    ensures block_after { block.new ≡ written_entries
        (active_list (lent_list store.now places.now n)).places
        (canonical_selection (active_list (lent_list store.now places.now n)) true
        (length block.old)) block.old }
{
    let mut active = [0usize; 256];
    let w = relocates::status::active_pairs(store, places, n, &mut active);
    map_canonical::canonical_places(store, &active, w, true, block)
}

// Writes the places of the pairs of a leg's map and returns their number.
fn prepare_pairs(
    store: &[u8],
    places: &[usize],
    kind: usize,
    n: usize,
    block: &mut [usize],
) -> usize
    ensures value { result ≡ length (leg_selection kind (lent_list store.now places.now n)
        (length block.old)) }
    ensures block_after { block.new ≡ leg_block kind (lent_list store.now places.now n)
        block.old }
{
    if 2 <= kind {
        return prepare_relocates(store, places, n, block);
    }
    if !validate::can_select(places, n, block.len()) {
        return 0;
    }
    copy_pairs(places, n, block);
    n
}

// The kind of the prepared leg: 0 for a map without the mark; 1 otherwise, since a relocate list's map has
// the mark.
fn map_kind(kind: usize) -> usize
    ensures { result ≡ map_kind kind }
{
    kind.min(1)
}

// Writes the map of leg k to its block and its three numbers to the table.
fn prepare_leg(
    store: &[u8],
    places: &[usize],
    legs: &[usize],
    k: usize,
    made: &mut [usize],
    table: &mut [usize],
)
    requires k_bound { k < 16 }
    requires made_len { (length made.old ≡ 4096) × (length table.old ≡ 48) }
    ensures made_after { made.new ≡ written_at (256 * k)
        (leg_block (kind_at legs.now k)
        (list_at (lent_route store.now places.now legs.now 0) k)
        (take 256 (drop (256 * k) made.old))) made.old }
    ensures table_after { table.new ≡ written_at (3 * k)
        (prepared_entry (lent_route store.now places.now legs.now 0) k)
        table.old }
{
    let kind = route_legs::kind_at(legs, k);
    let part = route_legs::leg_places(places, legs, k);
    let at = 256 * k;
    let end = at + 256;
    let w = prepare_pairs(
        store,
        part,
        kind,
        route_legs::size_at(legs, k),
        &mut made[at..end],
    );
    route_legs::write_leg(k, map_kind(kind), 64 * k, w, table);
}

// Prepares the maps of the first n legs: `made`, of 4,096 entries, receives the places of their pairs,
// `table`, of 48, their numbers.
pub fn prepare_legs(
    store: &[u8],
    places: &[usize],
    legs: &[usize],
    n: usize,
    made: &mut [usize],
    table: &mut [usize],
)
    ensures made_after { made.new ≡ places_after_prepare
        (lent_route store.now places.now legs.now n) made.old
        table.old }
    ensures table_after { table.new ≡ table_after_prepare
        (lent_route store.now places.now legs.now n) made.old
        table.old }
{
    if 16 < n {
        return;
    }
    if made.len() != 4096 {
        return;
    }
    if table.len() != 48 {
        return;
    }
    for k in 0..n {
        prepare_leg(store, places, legs, k, made, table);
    }
}

// The analysis of a relocate list. Every public function is defined for all byte slices and all indices.
ghost use Rattle.std.specs.Prelude.{false, true, ◌≡◌, not, cond, ◌&&◌, ◌+◌, ◌≤◌, ◌<◌, eqb, length};
ghost use Rattle.text.specs.Text.{is_nil, equal, written};
ghost use Rattle.path_prefix.specs.Prefix.{has_prefix};
ghost use Rattle.pair_list.specs.Places.{key_at, pair_in, pairs_in};
ghost use Rattle.pair_list_write.specs.Lists.{copy_entry};
ghost use Rattle.pair_list_write.specs.Select.{written_entries};
ghost use Rattle.pair_list.specs.Pair.{pair};
ghost use Rattle.validate.specs.Validate.{lent_list};
ghost use Rattle.relocates.specs.declared.RelocateOccurrence.TheVariants.{Active};
ghost use Rattle.relocates.specs.Status.{is_structural, claims_source, is_duplicate, equal_non_empty, pair_conflicts, conflicts_with, occurrence_or, occurrence, status_byte, status_list};
ghost use Rattle.relocates.specs.Initial.{initial_statuses, HoldsInitialStatuses};
ghost use Rattle.relocates.specs.Select.{active_selection};

use crate::RelocateOccurrence;

// Returns whether the pair is structurally invalid, and so dropped whatever the other pairs are. (Rust:
// relocate_invalid_reason)
#[tactic(auto, using(crate::proofs::StatusBranches::structure))]
pub fn is_structural(source: &[u8], target: &[u8]) -> bool
    ensures { result ≡ is_structural (pair source.now target.now) }
{
    if target.is_empty() {
        return false;
    }
    path_prefix::prim_element_count(source).0 == 1
        || text::is_equal(source, target)
        || path_prefix::has_prefix(source, target)
        || path_prefix::has_prefix(target, source)
}

// Returns whether pair k has this source and is not structural.
#[tactic(auto, using(crate::proofs::StatusBranches::reserving))]
fn claims_source(store: &[u8], places: &[usize], k: usize, source: &[u8]) -> bool
    ensures { result ≡ claims_source (pair_in store.now places.now k) source.now }
{
    let s = pair_list::key_at(store, places, k, false);
    text::is_equal(s, source) && !is_structural(s, pair_list::key_at(store, places, k, true))
}

// Returns whether an earlier non-structural pair has the source of pair i. (Rust: duplicate_source_mask)
pub fn is_duplicate(store: &[u8], places: &[usize], i: usize) -> bool
    ensures { result ≡ is_duplicate (pairs_in store.now places.now (i + 1)) i }
{
    let source = pair_list::key_at(store, places, i, false);
    (0..i).any(|k| claims_source(store, places, k, source))
}

// Returns whether the texts are equal and not empty.
#[tactic(auto, using(crate::proofs::StatusBranches::reasons))]
fn equal_non_empty(a: &[u8], b: &[u8]) -> bool
    ensures { result ≡ equal_non_empty a.now b.now }
{
    !b.is_empty() && text::is_equal(a, b)
}

// Returns whether the target is not empty and is the other source or lies below it.
#[tactic(auto, using(crate::proofs::StatusBranches::reasons))]
fn is_target_below(target: &[u8], other: &[u8]) -> bool
    ensures { result ≡ (not (is_nil target.now) && has_prefix target.now other.now) }
{
    !target.is_empty() && path_prefix::has_prefix(target, other)
}

// Returns whether the source lies strictly below the other source.
#[tactic(auto, using(crate::proofs::StatusBranches::reasons))]
fn is_source_below(source: &[u8], other: &[u8]) -> bool
    ensures { result ≡ (not (equal source.now other.now) && has_prefix source.now
        other.now) }
{
    !text::is_equal(source, other) && path_prefix::has_prefix(source, other)
}

// Returns whether the pair (sa, ta) conflicts with the pair (sb, tb).
#[tactic(auto, using(crate::proofs::StatusBranches::reasons))]
pub fn relocate_pair_conflicts(sa: &[u8], ta: &[u8], sb: &[u8], tb: &[u8]) -> bool
    ensures { result ≡ pair_conflicts (pair sa.now ta.now)
        (pair sb.now tb.now) }
{
    is_target_below(ta, sb) || equal_non_empty(sa, tb) || is_source_below(sa, sb)
}

// Returns whether pair i, with the ends sa and ta, conflicts with another pair j, or has the same non-empty target.
// `first` is the status of pair j before the search for conflicts: 0 if j is neither structural nor a duplicate.
#[tactic(auto, using(crate::proofs::StatusBranches::conflicting))]
fn conflicts_with(
    store: &[u8],
    places: &[usize],
    i: usize,
    sa: &[u8],
    ta: &[u8],
    j: usize,
    first: u8,
) -> bool
    requires source_i { sa.now ≡ key_at store.now places.now false i }
    requires target_i { ta.now ≡ key_at store.now places.now true i }
    ensures { result ≡ (not (eqb i j) && eqb first 0 && conflicts_with
        (pair_in store.now places.now i) (pair_in store.now places.now j)) }
{
    if i == j || first != 0 {
        return false;
    }
    let sb = pair_list::key_at(store, places, j, false);
    let tb = pair_list::key_at(store, places, j, true);
    equal_non_empty(ta, tb) || relocate_pair_conflicts(sa, ta, sb, tb)
}

// The status of pair i before the search for conflicts.
#[tactic(auto, using(crate::proofs::InitialBranches::firsts))]
fn initial_occurrence(store: &[u8], places: &[usize], i: usize) -> RelocateOccurrence
    ensures { result ≡ occurrence_or Active (pairs_in store.now places.now (i + 1)) i }
{
    let s = pair_list::key_at(store, places, i, false);
    let t = pair_list::key_at(store, places, i, true);
    if is_structural(s, t) {
        return RelocateOccurrence::DroppedStructural;
    }
    if is_duplicate(store, places, i) {
        return RelocateOccurrence::DroppedDuplicateSource;
    }
    RelocateOccurrence::Active
}

// The status byte of an occurrence: 0 Active, 1 structural, 2 duplicate source, 3 conflict. Statuses are written as
// bytes, since the C interface and the frames have them so.
impl From<RelocateOccurrence> for u8 {
    fn from(o: RelocateOccurrence) -> u8
        ensures { result ≡ status_byte o }
    {
        match o {
            RelocateOccurrence::Active => 0,
            RelocateOccurrence::DroppedStructural => 1,
            RelocateOccurrence::DroppedDuplicateSource => 2,
            RelocateOccurrence::DroppedConflict => 3,
        }
    }
}

// Writes the status bytes of the first n pairs before the search for conflicts.
#[tactic(auto, using(crate::proofs::InitialBranches::writing_first))]
fn write_initial(store: &[u8], places: &[usize], n: usize, out: &mut [u8])
    requires { n ≤ length out.old }
    ensures { out.new ≡ written
        (initial_statuses (pairs_in store.now places.now n) n) out.old }
{
    for i in 0..n {
        out[i] = u8::from(initial_occurrence(store, places, i));
    }
}

// Writes the final status bytes of the first n pairs. The search over the other pairs stops at the first
// conflict found.
fn write_conflicts(store: &[u8], places: &[usize], n: usize, first: &[u8; 64], out: &mut [u8])
    requires n_bound { (n ≤ 64) × (n ≤ length out.old) }
    requires holds_initial_statuses { HoldsInitialStatuses (pairs_in store.now places.now n) first.now }
    ensures { out.new ≡ written (status_list (pairs_in store.now places.now n) n)
        out.old }
{
    'pairs: for i in 0..n {
        let own = first[i];
        if own != 0 {
            out[i] = own;
            continue 'pairs;
        }
        let source = pair_list::key_at(store, places, i, false);
        let target = pair_list::key_at(store, places, i, true);
        for j in 0..n {
            if conflicts_with(store, places, i, source, target, j, first[j]) {
                out[i] = u8::from(RelocateOccurrence::DroppedConflict);
                continue 'pairs;
            }
        }
        out[i] = u8::from(RelocateOccurrence::Active);
    }
}

// Writes the status bytes of the first n pairs. Requires n ≤ 64.
pub(crate) fn write_statuses(store: &[u8], places: &[usize], n: usize, out: &mut [u8])
    requires { (n ≤ 64) × (n ≤ length out.old) }
    ensures { out.new ≡ written (status_list (pairs_in store.now places.now n) n)
        out.old }
{
    let mut first = [0u8; 64];
    write_initial(store, places, n, &mut first);
    write_conflicts(store, places, n, &first, out);
}

// Appends the places of pair i to the w pairs already kept if its status is Active; returns the new number of
// kept pairs.
fn keep_active(places: &[usize], i: usize, status: u8, kept: &mut [usize], w: usize) -> usize
    requires { w < length kept.old }
    ensures value { result ≡ cond (eqb status 0) (w + 1) w }
    ensures kept_after { kept.new ≡ cond (eqb status 0) (copy_entry places.now i w kept.old)
        kept.old }
{
    if status != 0 {
        return w;
    }
    pair_list_write::copy_entry(places, i, w, kept);
    w + 1
}

// Writes the places of the Active pairs among the first n and returns their number; 0, with nothing written,
// if question 4 refuses the list or `kept` cannot hold 64 pairs.
pub fn active_pairs(store: &[u8], places: &[usize], n: usize, kept: &mut [usize]) -> usize
    ensures value { result ≡ length (active_selection (lent_list store.now places.now n)
        (length kept.old)) }
    ensures kept_after { kept.new ≡ written_entries places.now
        (active_selection (lent_list store.now places.now n) (length kept.old))
        kept.old }
{
    if !validate::can_select(places, n, kept.len()) {
        return 0;
    }
    let mut status = [0u8; 64];
    write_statuses(store, places, n, &mut status);
    let mut w = 0;
    for i in 0..n {
        w = keep_active(places, i, status[i], kept, w);
    }
    w
}

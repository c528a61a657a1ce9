// The map type (MapFunction of the Rust pcp/mapping.rs), and building a map in canonical form in lent
// memory. The pairs of a map are in buffers that the caller lends; the struct holds the rest.
#![tactic(auto)]

ghost use Rattle.std.specs.Prelude.{◌≡◌};
ghost use Rattle.pair_list.specs.Places.{pairs_in};
ghost use Rattle.validate.specs.Validate.{lent_list};
ghost use Rattle.map_spec.specs.New.{identity_map, null_map};
ghost use Rattle.layer_offset.specs.Offset.{identity_offset};
ghost use Rattle.map_function.specs.MapFunction.{is_null, path_is_identity, is_identity_map, with_time_offset};
ghost use Rattle.map_function.specs.MapOutcome.{map_function, ReturnsMap, count_in_slice, without_dropping, from_parts_outcome};

use refusal::Refusal;

// A map without its pairs.
#[derive(Clone, Copy)]
pub struct MapFunction {
    // Number of pairs of the lent list that belong to the map.
    pub count: usize,
    // The root-identity mark: paths that no pair matches map to themselves.
    pub has_root_identity: bool,
    // The time offset between source and target.
    pub time_offset: layer_offset::LayerOffset,
}

impl MapFunction {
    // Returns the identity map: every path maps to itself.
    pub fn identity() -> Self
        ensures { result ≡ map_function identity_map identity_offset }
    {
        Self {
            count: 0,
            has_root_identity: true,
            time_offset: layer_offset::LayerOffset::IDENTITY,
        }
    }

    // Returns the null map: no path is mapped.
    pub fn null() -> Self
        ensures { result ≡ map_function null_map identity_offset }
    {
        Self {
            count: 0,
            has_root_identity: false,
            time_offset: layer_offset::LayerOffset::IDENTITY,
        }
    }

    // Returns whether this is the null map.
    #[tactic(auto, unfolding(crate::specs::MapFunction::is_null))]
    pub fn is_null(self) -> bool
        ensures { result ≡ is_null self }
    {
        self.count == 0 && !self.has_root_identity
    }

    // Returns whether this is the identity on paths, whatever its time offset.
    #[tactic(auto, unfolding(crate::specs::MapFunction::path_is_identity))]
    pub fn path_is_identity(self) -> bool
        ensures { result ≡ path_is_identity self }
    {
        self.count == 0 && self.has_root_identity
    }

    // Returns whether this is the identity on both paths and times.
    #[tactic(auto, unfolding(crate::specs::MapFunction::is_identity_map))]
    pub fn is_identity(self) -> bool
        ensures { result ≡ is_identity_map self }
    {
        self.path_is_identity() && self.time_offset.is_identity()
    }

    // Returns the root-identity mark.
    pub fn has_root_identity(self) -> bool
        ensures { result ≡ self.has_root_identity }
    {
        self.has_root_identity
    }

    // Returns the time offset.
    pub fn time_offset(self) -> layer_offset::LayerOffset
        ensures { result ≡ self.time_offset }
    {
        self.time_offset
    }

    // Returns the map with its time offset replaced; its pairs are unchanged.
    pub fn with_time_offset(self, offset: layer_offset::LayerOffset) -> Self
        ensures { result ≡ with_time_offset self offset }
    {
        Self {
            count: self.count,
            has_root_identity: self.has_root_identity,
            time_offset: offset,
        }
    }
}

// Builds the map of the first n pairs in canonical form, and writes its pairs to `out` and `slots`.
// Questions 4 and 5 apply to the list before redundant pairs are dropped. Rust: from_parts.
pub fn from_parts(
    store: &[u8],
    places: &[usize],
    n: usize,
    mark: bool,
    time: layer_offset::LayerOffset,
    out: &mut [u8],
    slots: &mut [usize],
) -> Result<MapFunction, Refusal>
    ensures { ReturnsMap (count_in_slice (lent_list store.now places.now n)
        (from_parts_outcome (pairs_in store.now places.now n) mark time out.old
        slots.old)) result out.old out.new slots.old slots.new }
{
    if 64 < n || places.len() / 4 < n {
        return Err(Refusal::TooMany);
    }
    if slots.len() / 4 < n || !pair_list_write::list_fits(store, places, n, out.len()) {
        return Err(Refusal::NoRoom);
    }
    let marked = map_canonical::is_marked(mark, store, places, n);
    let mut kept = [0usize; 256];
    let w = map_canonical::canonical_places(store, places, n, marked, &mut kept);
    pair_list_write::write_list(store, &kept, w, out, slots);
    Ok(MapFunction {
        count: w,
        has_root_identity: marked,
        time_offset: time,
    })
}

// Builds the map of the first n pairs unchanged, and writes them to `out` and `slots`.
pub fn without_dropping(
    store: &[u8],
    places: &[usize],
    n: usize,
    mark: bool,
    time: layer_offset::LayerOffset,
    out: &mut [u8],
    slots: &mut [usize],
) -> Result<MapFunction, Refusal>
    ensures { ReturnsMap (count_in_slice (lent_list store.now places.now n)
        (without_dropping (pairs_in store.now places.now n) mark time out.old
        slots.old)) result out.old out.new slots.old slots.new }
{
    if 64 < n || places.len() / 4 < n {
        return Err(Refusal::TooMany);
    }
    let w = pair_list_write::write_list(store, places, n, out, slots).ok_or(Refusal::NoRoom)?;
    Ok(MapFunction {
        count: w,
        has_root_identity: mark,
        time_offset: time,
    })
}

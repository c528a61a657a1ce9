// Calls that build a map from pairs. Ports new, from_pair and from_pair_identity of MapFunction in the
// Rust pcp/mapping.rs. Each call validates its arguments in the order of the questions; a refused call
// writes nothing.
#![tactic(auto)]

ghost use Rattle.std.specs.Prelude.{◌≡◌, [], ◌∷◌, ◌+◌, ◌≤◌, length};
ghost use Rattle.pair_list.specs.Pair.{pair};
ghost use Rattle.pair_list.specs.Places.{pairs_in};
ghost use Rattle.map_function.specs.MapOutcome.{ReturnsMap};
ghost use Rattle.map_new.specs.Calls.{map_new_call, from_pair_call, from_pair_identity_call};

use refusal::Refusal;

// Builds the map of the pairs in canonical form.
#[tactic(auto, unfolding(crate::specs::Calls::map_new_call, map_function::specs::MapOutcome::map_reply, map_function::specs::MapOutcome::map_bytes, map_function::specs::MapOutcome::map_slots))]
pub fn new(
    store: &[u8],
    places: &[usize],
    count: usize,
    out: &mut [u8],
    slots: &mut [usize],
) -> Result<map_function::MapFunction, Refusal>
    ensures { ReturnsMap (map_new_call store.now places.now count out.old
        slots.old) result out.old out.new slots.old slots.new }
{
    validate::validate_list(store, places, count)?;
    let time = layer_offset::LayerOffset::IDENTITY;
    map_function::from_parts(store, places, count, false, time, out, slots)
}

// Writes one pair as a list into scratch buffers.
fn store_pair(s: &[u8], t: &[u8], store: &mut [u8], places: &mut [usize])
    requires t_in_bounds { length s.now + length t.now ≤ length store.old }
    requires in_bounds { 4 ≤ length places.old }
    ensures { pairs_in store.new places.new 1 ≡ pair s.now t.now ∷
        [] }
{
    pair_list_write::push_pair(s, t, 0, 0, store, places);
}

// Builds the map of one pair, unchanged and without the mark.
#[tactic(auto, unfolding(crate::specs::Calls::from_pair_call, map_function::specs::MapOutcome::map_reply, map_function::specs::MapOutcome::map_bytes, map_function::specs::MapOutcome::map_slots))]
pub fn from_pair(
    source: &[u8],
    target: &[u8],
    out: &mut [u8],
    slots: &mut [usize],
) -> Result<map_function::MapFunction, Refusal>
    ensures { ReturnsMap (from_pair_call source.now target.now out.old
        slots.old) result out.old out.new slots.old slots.new }
{
    validate::validate_ends(source, target)?;
    let mut store = [0u8; 512];
    let mut places = [0usize; 4];
    store_pair(source, target, &mut store, &mut places);
    let time = layer_offset::LayerOffset::IDENTITY;
    map_function::without_dropping(&store, &places, 1, false, time, out, slots)
}

// Builds the map of one pair and the mark.
#[tactic(auto, unfolding(crate::specs::Calls::from_pair_identity_call, map_function::specs::MapOutcome::map_reply, map_function::specs::MapOutcome::map_bytes, map_function::specs::MapOutcome::map_slots))]
pub fn from_pair_identity(
    source: &[u8],
    target: &[u8],
    out: &mut [u8],
    slots: &mut [usize],
) -> Result<map_function::MapFunction, Refusal>
    ensures { ReturnsMap (from_pair_identity_call source.now target.now out.old
        slots.old) result out.old out.new slots.old slots.new }
{
    validate::validate_ends(source, target)?;
    let mut store = [0u8; 512];
    let mut places = [0usize; 4];
    store_pair(source, target, &mut store, &mut places);
    let time = layer_offset::LayerOffset::IDENTITY;
    map_function::from_parts(&store, &places, 1, true, time, out, slots)
}

// Relocates: analyses which (source, target) pairs of a relocate list take part in composition. Ports
// `analyze_relocate_occurrences`, `relocate_pair_conflicts` and `relocate_invalid_reason` of
// pcp/relocates.rs. The call validates its input first (questions 1 to 5); a refused call writes nothing.
#![tactic(auto)]

pub mod status;

ghost use Rattle.std.specs.Prelude.{◌≡◌, length};
ghost use Rattle.validate.specs.Validate.{lent_list};
ghost use Rattle.relocates.specs.Calls.{analyze_reply, analyze_buffer};

use refusal::Refusal;

// Whether a pair of a relocate list takes part, or why it is dropped; specs/Status.antt defines the status
// byte of each case.
#[derive(Clone, Copy)]
pub enum RelocateOccurrence {
    Active,
    DroppedStructural,
    DroppedDuplicateSource,
    DroppedConflict,
}

// Writes the status byte of each pair; the reply holds their number.
pub fn analyze_relocate_occurrences(
    store: &[u8],
    places: &[usize],
    count: usize,
    out: &mut [u8],
) -> Result<usize, Refusal>
    ensures value { result ≡ analyze_reply (lent_list store.now places.now count)
        (length out.old) }
    ensures out_after { out.new ≡ analyze_buffer result (lent_list store.now places.now count)
        out.old }
{
    validate::validate_list_and_path(store, places, count, b"")?;
    if out.len() < count {
        return Err(Refusal::NoRoom);
    }
    status::write_statuses(store, places, count, out);
    Ok(count)
}

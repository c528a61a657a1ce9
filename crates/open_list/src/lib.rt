// The open list of the program `frames` in lent memory: adding a pair. The buffers may hold anything; their
// invariant is specs/OpenList.antt.
#![tactic(auto)]

ghost use Rattle.std.specs.Prelude.{◌≡◌, length};
ghost use Rattle.open_list.specs.Add.{validate_add, add_reply, add_bytes, add_places, AddFits};

use refusal::Refusal;

// The size of the open list: its number of pairs, and the bytes of their ends.
#[derive(Clone, Copy)]
pub struct OpenList {
    pub pairs: usize,
    pub bytes: usize,
}

// Validates a pair to be added (questions 1 to 5).
fn validate_add(k: OpenList, s: &[u8], t: &[u8], room: usize, slots: usize) -> Result<(), Refusal>
    ensures value { result ≡ validate_add k s.now t.now room slots }
    ensures add_fits { AddFits result k (length s.now) (length t.now) room slots }
{
    let pairs = k.pairs;
    let bytes = k.bytes;
    validate::validate_ends(s, t)?;
    if 64 <= pairs {
        return Err(Refusal::TooMany);
    }
    if slots / 4 <= pairs {
        return Err(Refusal::TooMany);
    }
    if room < bytes {
        return Err(Refusal::NoRoom);
    }
    let left = room - bytes;
    if left < s.len() {
        return Err(Refusal::NoRoom);
    }
    if left - s.len() < t.len() {
        return Err(Refusal::NoRoom);
    }
    Ok(())
}

// Appends a pair to the open list.
pub fn add_pair(
    k: OpenList,
    source: &[u8],
    target: &[u8],
    bytes: &mut [u8],
    places: &mut [usize],
) -> Result<OpenList, Refusal>
    ensures value { result ≡ add_reply (validate_add k source.now target.now
        (length bytes.old) (length places.old)) k source.now target.now }
    ensures bytes_after { bytes.new ≡ add_bytes
        (validate_add k source.now target.now (length bytes.old)
        (length places.old)) k source.now target.now bytes.old }
    ensures places_after { places.new ≡ add_places
        (validate_add k source.now target.now (length bytes.old)
        (length places.old)) k source.now target.now places.old }
{
    validate_add(k, source, target, bytes.len(), places.len())?;
    let end = pair_list_write::push_pair(source, target, k.pairs, k.bytes, bytes, places);
    Ok(OpenList {
        pairs: k.pairs + 1,
        bytes: end,
    })
}

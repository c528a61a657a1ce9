// Chaining: follows a path through a relocate list by prefix replacement. Ports `chain_through_relocates`
// and `shift_through_nearest_ancestor` of pcp/relocates.rs, and adds the number of replacements made. The
// calls validate their input first (questions 1 to 5); a refused call writes nothing.
#![tactic(auto)]

mod steps;

ghost use Rattle.std.specs.Prelude.{◌≡◌, cond, [], ◌≤◌, length};
ghost use Rattle.pair_list.specs.Places.{pairs_in};
ghost use Rattle.refusal.specs.Outcome.{path, checked, ReturnsPath};
ghost use Rattle.validate.specs.Validate.{lent_list};
ghost use Rattle.relocate_chain.specs.Chain.{chain, shift_through_nearest_ancestor};
ghost use Rattle.relocate_chain.specs.ChainStep.{skip_text};
ghost use Rattle.relocate_chain.specs.Calls.{skipped_source, shift_call, chain_call, chain_reply, chain_buffer};

use refusal::Refusal;

// Writes the endpoint, moved by the nearest rename above it, to the lent buffer. The input is already
// validated.
fn shift_and_copy(
    store: &[u8],
    places: &[usize],
    n: usize,
    endpoint: &[u8],
    out: &mut [u8],
) -> Result<usize, Refusal>
    requires { (checked endpoint.now ≡ path endpoint.now) × (255 ≤ length out.old) }
    ensures { ReturnsPath (checked
        (shift_through_nearest_ancestor (pairs_in store.now places.now n) endpoint.now)) result
        out.old out.new }
{
    let mut made = [0u8; 255];
    let s = steps::replace_once(store, places, n, false, Some(endpoint), endpoint, &mut made);
    let Some(len) = s? else {
        text::write_at(endpoint, 0, out);
        return Ok(endpoint.len());
    };
    text::write_at(&made[..len], 0, out);
    Ok(len)
}

// Moves the endpoint by the single nearest rename above it, if there is one, and writes it to the lent
// buffer.
pub fn shift_through_nearest_ancestor(
    store: &[u8],
    places: &[usize],
    count: usize,
    endpoint: &[u8],
    out: &mut [u8],
) -> Result<usize, Refusal>
    ensures { ReturnsPath (shift_call (lent_list store.now places.now count)
        endpoint.now (length out.old)) result out.old out.new }
{
    validate::validate_list_and_path(store, places, count, endpoint)?;
    if out.len() < 255 {
        return Err(Refusal::NoRoom);
    }
    shift_and_copy(store, places, count, endpoint, out)
}

// Writes the last path of the chain to the lent buffer. The input is already validated.
fn chain_and_copy(
    store: &[u8],
    places: &[usize],
    n: usize,
    skip: Option<&[u8]>,
    path: &[u8],
    out: &mut [u8],
) -> Result<(usize, usize), Refusal>
    requires { (length path.now ≤ 255) × (255 ≤ length out.old) }
    ensures value { result ≡ chain_reply (chain (skip_text skip.entry)
        (pairs_in store.now places.now n) path.now) }
    ensures out_after { out.new ≡ chain_buffer
        (chain (skip_text skip.entry) (pairs_in store.now places.now n)
        path.now) out.old }
{
    let mut current = [0u8; 255];
    let (len, steps) = steps::chain_into(store, places, n, skip, path, &mut current)?;
    text::write_at(&current[..len], 0, out);
    Ok((len, steps))
}

// Follows the path through the relocate list, replacing the longest matching source at each step; writes the
// last path and returns its length and the number of replacements. If `skips` is set, pairs with the source
// `skipped` are ignored: a flag with a text, as the C interface has them.
pub fn chain_through_relocates(
    store: &[u8],
    places: &[usize],
    count: usize,
    skips: bool,
    skipped: &[u8],
    path: &[u8],
    out: &mut [u8],
) -> Result<(usize, usize), Refusal>
    ensures value { result ≡ chain_reply (chain_call (lent_list store.now places.now count)
        (skipped_source skips skipped.now) path.now (length out.old)) }
    ensures out_after { out.new ≡ chain_buffer
        (chain_call (lent_list store.now places.now count)
        (skipped_source skips skipped.now) path.now (length out.old))
        out.old }
{
    let skip = skips.then_some(skipped);
    // The empty text, which passes every question, stands for no skipped source.
    let k = skip.unwrap_or(b"");
    validate::validate_call(store, places, count, path, k, b"", b"")?;
    let room = out.len();
    if room < 255 {
        return Err(Refusal::NoRoom);
    }
    chain_and_copy(store, places, count, skip, path, out)
}

// The C interface of the functions on relocate lists. A list passes as its bytes, its places and its number
// of pairs.
ghost use Rattle.std.specs.Prelude.{◌≡◌, length};
ghost use Rattle.validate.specs.Validate.{lent_list};
ghost use Rattle.relocate_chain.specs.Calls.{skipped_source, shift_call, chain_call, chain_reply, chain_buffer};
ghost use Rattle.relocates.specs.Calls.{analyze_reply, analyze_buffer};
ghost use Rattle.ffi_values.specs.Code.{reply_code, ReturnsPathCode};
ghost use Rattle.ffi_values.specs.MapCode.{chain_code};

// Writes the status byte of each pair to out.
#[unsafe(no_mangle)]
pub extern "C" fn mudvizsor_analyze_relocate_occurrences(
    store: &[u8],
    places: &[usize],
    count: usize,
    out: &mut [u8],
) -> usize
    ensures value { result ≡ reply_code (analyze_reply (lent_list store.now places.now count)
        (length out.old)) }
    ensures out_after { out.new ≡ analyze_buffer
        (analyze_reply (lent_list store.now places.now count) (length out.old))
        (lent_list store.now places.now count) out.old }
{
    ffi_values::reply_code(relocates::analyze_relocate_occurrences(store, places, count, out))
}

// Follows the path through the relocate list and writes the last path to out. Pairs with the skipped source
// are ignored if `skips` is set. The reply's value is 256 times the number of replacements made, plus the
// length.
#[unsafe(no_mangle)]
pub extern "C" fn mudvizsor_chain_through_relocates(
    store: &[u8],
    places: &[usize],
    count: usize,
    skips: bool,
    skipped: &[u8],
    path: &[u8],
    out: &mut [u8],
) -> usize
    ensures value { result ≡ chain_code (chain_reply
        (chain_call (lent_list store.now places.now count)
        (skipped_source skips skipped.now) path.now (length out.old))) }
    ensures out_after { out.new ≡ chain_buffer
        (chain_call (lent_list store.now places.now count)
        (skipped_source skips skipped.now) path.now (length out.old))
        out.old }
{
    ffi_values::chain_code(relocate_chain::chain_through_relocates(
        store, places, count, skips, skipped, path, out,
    ))
}

// Moves the endpoint by the nearest rename above it, if there is one, and writes it to out.
#[unsafe(no_mangle)]
pub extern "C" fn mudvizsor_shift_through_nearest_ancestor(
    store: &[u8],
    places: &[usize],
    count: usize,
    endpoint: &[u8],
    out: &mut [u8],
) -> usize
    ensures { ReturnsPathCode (shift_call (lent_list store.now places.now count)
        endpoint.now (length out.old)) result out.old out.new }
{
    ffi_values::reply_code(relocate_chain::shift_through_nearest_ancestor(
        store, places, count, endpoint, out,
    ))
}

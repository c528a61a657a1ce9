// Conversions of replies that tell where the rest of a path begins to the plain numbers that pass across the C
// interface.
#![tactic(auto)]

ghost use Rattle.std.specs.Prelude.{◌≡◌};
ghost use Rattle.ffi_rest.specs.RestCode.{rest_code, rest_test_code, carried_value, carried_code};

use refusal::Refusal;

// Encodes where the rest begins.
#[tactic(auto, unfolding(crate::specs::RestCode::rest_code))]
fn rest_code(rest: Option<usize>) -> usize
    ensures { result ≡ rest_code rest }
{
    match rest {
        Some(n) => 65536 * (n % 1099511627776) + 256,
        None => 0,
    }
}

// Encodes the reply of the prefix test.
#[tactic(auto, unfolding(crate::specs::RestCode::rest_test_code))]
pub fn rest_test_code(t: Result<Option<usize>, Refusal>) -> usize
    ensures { result ≡ rest_test_code t }
{
    match t {
        Ok(rest) => rest_code(rest),
        Err(x) => refusal::number_of(x),
    }
}

// Encodes the length of a path that was written, and the start and the length of the rest.
#[tactic(auto, unfolding(crate::specs::RestCode::carried_value))]
fn carried_value(len: usize, start: usize, rest: usize) -> usize
    ensures { result ≡ carried_value len start rest }
{
    256 * (len % 256) + 65536 * (start % 256) + 16777216 * (rest % 256)
}

// Encodes a reply with the rest of the path.
#[tactic(auto, unfolding(crate::specs::RestCode::carried_code, crate::specs::RestCode::rest_first))]
pub fn carried_code(path: &[u8], carried: Result<(usize, Option<usize>), Refusal>) -> usize
    ensures { result ≡ carried_code path.now carried }
{
    match carried {
        Ok((n, rest)) => {
            let part = path_rest::rest_of(path, rest);
            carried_value(n, rest.unwrap_or(0), part.len())
        }
        Err(x) => refusal::number_of(x),
    }
}

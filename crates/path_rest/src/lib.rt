// The rest of a path: the part at its end that follows a prefix and is carried over unaltered when the prefix
// is replaced. The Rust has no counterpart. Every public function is defined for any bytes and any numbers.
#![tactic(auto)]

ghost use Rattle.std.specs.Prelude.{◌≡◌};
ghost use Rattle.path_rest.specs.Rest.{rest_index, rest_start, rest_text};
ghost use Rattle.path_rest.specs.Carried.{with_rest, reply_of, carried_rest};

use refusal::Refusal;

// Returns the index at which the rest of the path begins, if `prefix` is a prefix of it.
#[tactic(auto, unfolding(crate::specs::Rest::rest_index))]
pub fn rest_index(path: &[u8], prefix: &[u8]) -> usize
    ensures { result ≡ rest_index path.now prefix.now }
{
    if path_grammar::is_root(prefix) && !path_grammar::is_root(path) {
        return 0;
    }
    prefix.len()
}

// Returns where the rest of the path after the prefix begins; nothing if it is no prefix of the path.
#[tactic(auto, unfolding(crate::specs::Rest::rest_start))]
pub fn rest_start(path: &[u8], prefix: &[u8]) -> Option<usize>
    ensures { result ≡ rest_start path.now prefix.now }
{
    if !path_prefix::has_prefix(path, prefix) {
        return None;
    }
    Some(rest_index(path, prefix))
}

// Returns the rest as a part of the path; empty if there is none.
#[tactic(auto, unfolding(crate::specs::Rest::rest_text))]
pub fn rest_of(path: &[u8], rest: Option<usize>) -> &[u8]
    ensures { result.now ≡ rest_text path.now rest }
{
    let Some(n) = rest else {
        return &path[..0];
    };
    if path.len() < n {
        return &path[..0];
    }
    &path[n..]
}

// Returns the reply with the rest beside it.
#[tactic(auto, unfolding(crate::specs::Carried::with_rest))]
pub fn with_rest(
    reply: Result<usize, Refusal>,
    rest: Option<usize>,
) -> Result<(usize, Option<usize>), Refusal>
    ensures { result ≡ with_rest reply rest }
{
    reply.map(|n| (n, rest))
}

// Returns the reply without the rest.
#[tactic(auto, unfolding(crate::specs::Carried::reply_of))]
pub fn reply_of(carried: Result<(usize, Option<usize>), Refusal>) -> Result<usize, Refusal>
    ensures { result ≡ reply_of carried }
{
    carried.map(|(n, _)| n)
}

// Returns the rest of a reply: the part of the path given that was carried over unaltered.
#[tactic(auto, unfolding(crate::specs::Carried::carried_rest, crate::specs::Rest::rest_text))]
pub fn carried_rest(path: &[u8], carried: Result<(usize, Option<usize>), Refusal>) -> &[u8]
    ensures { result.now ≡ rest_text path.now (carried_rest carried) }
{
    match carried {
        Ok((n, rest)) => rest_of(path, rest),
        Err(x) => &path[..0],
    }
}

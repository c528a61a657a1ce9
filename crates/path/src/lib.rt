// Calls that test a path or count its elements. Ports new, has_prefix, element_count and prim_element_count
// of the Rust sdf/path.rs; rest_start is has_prefix with the place where the rest begins. Each call validates
// its texts first (questions 1 and 2); the first failed question decides the refusal.
#![tactic(auto)]

ghost use Rattle.std.specs.Prelude.{◌≡◌};
ghost use Rattle.path.specs.Calls.{path_new_call, is_end_call, has_variant_selection_call, element_count_call, prim_element_count_call, has_prefix_call, rest_start_call};

use refusal::Refusal;

// Validates a path: a legal text of at most 255 bytes.
#[tactic(auto, unfolding(crate::specs::Calls::path_new_call))]
pub fn new(path: &[u8]) -> Result<(), Refusal>
    ensures { result ≡ path_new_call path.now }
{
    refusal::validate_texts(&[path])
}

// Returns whether the path is a prim path, `/` or empty.
#[tactic(auto, unfolding(crate::specs::Calls::is_end_call, crate::specs::Calls::test_call))]
pub fn is_end(path: &[u8]) -> Result<bool, Refusal>
    ensures { result ≡ is_end_call path.now }
{
    refusal::validate_texts(&[path])?;
    Ok(path_grammar::is_end(path))
}

// Returns whether the path has a variant selection of its own, outside its brackets.
#[tactic(auto, unfolding(crate::specs::Calls::has_variant_selection_call, crate::specs::Calls::test_call))]
pub fn has_variant_selection(path: &[u8]) -> Result<bool, Refusal>
    ensures { result ≡ has_variant_selection_call path.now }
{
    refusal::validate_texts(&[path])?;
    Ok(path_own::has_variant_selection(path))
}

// Returns whether the path has the prefix.
#[tactic(auto, unfolding(crate::specs::Calls::has_prefix_call, crate::specs::Calls::test_call))]
pub fn has_prefix(path: &[u8], prefix: &[u8]) -> Result<bool, Refusal>
    ensures { result ≡ has_prefix_call path.now prefix.now }
{
    refusal::validate_texts(&[path, prefix])?;
    Ok(path_prefix::has_prefix(path, prefix))
}

// Returns where the rest of the path after the prefix begins; nothing if it is no prefix of the path.
#[tactic(auto, unfolding(crate::specs::Calls::rest_start_call))]
pub fn rest_start(path: &[u8], prefix: &[u8]) -> Result<Option<usize>, Refusal>
    ensures { result ≡ rest_start_call path.now prefix.now }
{
    refusal::validate_texts(&[path, prefix])?;
    Ok(path_rest::rest_start(path, prefix))
}

// Returns the number of names and selections in the path, outside its brackets.
#[tactic(auto, unfolding(crate::specs::Calls::element_count_call, crate::specs::Calls::count_call))]
pub fn element_count(path: &[u8]) -> Result<path_prefix::Elements, Refusal>
    ensures { result ≡ element_count_call path.now }
{
    refusal::validate_texts(&[path])?;
    let own = path_own::own_part(path);
    Ok(path_prefix::element_count(own))
}

// Returns the number of names in the path, outside its brackets.
#[tactic(auto, unfolding(crate::specs::Calls::prim_element_count_call, crate::specs::Calls::count_call))]
pub fn prim_element_count(path: &[u8]) -> Result<path_prefix::Elements, Refusal>
    ensures { result ≡ prim_element_count_call path.now }
{
    refusal::validate_texts(&[path])?;
    let own = path_own::own_part(path);
    Ok(path_prefix::prim_element_count(own))
}

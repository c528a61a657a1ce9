// Calls that derive a path from a path. Ports replace_prefix, parent, prim_path, split_property,
// strip_variant_selections and ancestors of the Rust sdf/path.rs. Each call validates in the order of
// the questions; the first failed question decides the refusal, and a refused call writes nothing.
#![tactic(auto)]

ghost use Rattle.std.specs.Prelude.{◌≡◌, ◌≤◌, length};
ghost use Rattle.path_join.specs.Join.{join};
ghost use Rattle.path_parts.specs.Parent.{ancestor_lens};
ghost use Rattle.refusal.specs.Outcome.{checked, ReturnsPath, written_if_accepted};
ghost use Rattle.path_derive.specs.Calls.{replace_prefix_call, WrittenInParts, parent_call, prim_path_call, split_property_call, strip_call, ancestors_reply};

use refusal::Refusal;

// Writes the new prefix followed by the remainder after the old prefix, with questions 7 and 8. The path
// is built in a scratch buffer, so that a refused call writes nothing.
#[tactic(auto, using(text::proofs::WriteLaws::fit_over, text::proofs::WriteLaws::fit_inside, text::proofs::WriteLaws::fit_part), unfolding(refusal::specs::Outcome::checked, refusal::specs::Outcome::outcome_reply, refusal::specs::Outcome::outcome_buffer, path_grammar::specs::Legal::at_most255))]
fn write_joined(old: &[u8], new: &[u8], remainder: &[u8], out: &mut [u8]) -> Result<usize, Refusal>
    requires { 255 ≤ length out.old }
    ensures { ReturnsPath (checked (join old.now new.now remainder.now)) result
        out.old out.new }
{
    let mut made = [0u8; 255];
    let n = path_join::join(old, new, remainder, &mut made).ok_or(Refusal::MadeTooLong)?;
    if !path_grammar::is_legal(&made[..n]) {
        return Err(Refusal::MadeIllegal);
    }
    text::write_at(&made[..n], 0, out);
    Ok(n)
}

// Writes the path with its old prefix replaced by the new one.
#[tactic(auto, using(path_join::proofs::ReplaceLaws::replace_other), unfolding(crate::specs::Calls::replace_prefix_call, refusal::specs::Outcome::checked_option, refusal::specs::Outcome::after_checks, refusal::specs::Outcome::require_room, refusal::specs::Outcome::outcome_reply, refusal::specs::Outcome::outcome_buffer))]
pub fn replace_prefix(path: &[u8], old: &[u8], new: &[u8], out: &mut [u8]) -> Result<usize, Refusal>
    ensures returns_path { ReturnsPath (replace_prefix_call path.now old.now new.now
        (length out.old)) result out.old out.new }
    ensures written_in_parts { WrittenInParts path.now old.now new.now result out.new }
{
    refusal::validate_texts(&[path, old, new])?;
    if out.len() < 255 {
        return Err(Refusal::NoRoom);
    }
    if !path_prefix::has_prefix(path, old) {
        return Err(Refusal::NoPath);
    }
    let k = old.len();
    write_joined(old, new, &path[k..], out)
}

// Writes the path without its last part: the target in its brackets, its property or its last element.
#[tactic(auto, using(crate::proofs::PartBranches::parent_empty, crate::proofs::PartBranches::parent_root), unfolding(crate::specs::Calls::parent_call, refusal::specs::Outcome::checked_option, refusal::specs::Outcome::after_checks, refusal::specs::Outcome::require_room, refusal::specs::Outcome::outcome_reply, refusal::specs::Outcome::outcome_buffer))]
pub fn parent(path: &[u8], out: &mut [u8]) -> Result<usize, Refusal>
    ensures { ReturnsPath (parent_call path.now (length out.old)) result out.old
        out.new }
{
    refusal::validate_texts(&[path])?;
    if out.len() < 255 {
        return Err(Refusal::NoRoom);
    }
    if path.is_empty() || path_grammar::is_root(path) {
        return Err(Refusal::NoPath);
    }
    let n = path_parts::parent_len(path);
    text::write_at(&path[..n], 0, out);
    Ok(n)
}

// Writes the own part of the path without its property, or without the last selection if it ends in one.
#[tactic(auto, unfolding(crate::specs::Calls::prim_path_call, refusal::specs::Outcome::after_checks, refusal::specs::Outcome::require_room, refusal::specs::Outcome::outcome_reply, refusal::specs::Outcome::outcome_buffer))]
pub fn prim_path(path: &[u8], out: &mut [u8]) -> Result<usize, Refusal>
    ensures { ReturnsPath (prim_path_call path.now (length out.old)) result out.old
        out.new }
{
    refusal::validate_texts(&[path])?;
    if out.len() < 255 {
        return Err(Refusal::NoRoom);
    }
    let n = path_parts::prim_len(path);
    text::write_at(&path[..n], 0, out);
    Ok(n)
}

// Writes the prim path of a property path; the property's name is the text after the dot that follows
// it. A path with a target in brackets is no property path.
#[tactic(auto, unfolding(crate::specs::Calls::split_property_call, path_parts::specs::Parent::split_property, refusal::specs::Outcome::checked_option, refusal::specs::Outcome::after_checks, refusal::specs::Outcome::require_room, refusal::specs::Outcome::outcome_reply, refusal::specs::Outcome::outcome_buffer))]
pub fn split_property(path: &[u8], out: &mut [u8]) -> Result<usize, Refusal>
    ensures { ReturnsPath (split_property_call path.now (length out.old)) result
        out.old out.new }
{
    refusal::validate_texts(&[path])?;
    if out.len() < 255 {
        return Err(Refusal::NoRoom);
    }
    if !path_parts::is_property(path) {
        return Err(Refusal::NoPath);
    }
    let n = path_parts::prim_len(path);
    text::write_at(&path[..n], 0, out);
    Ok(n)
}

// Writes the path without its variant selections; those in its brackets are left.
#[tactic(auto, unfolding(crate::specs::Calls::strip_call, refusal::specs::Outcome::after_checks, refusal::specs::Outcome::require_room, refusal::specs::Outcome::outcome_reply, refusal::specs::Outcome::outcome_buffer))]
pub fn strip_variant_selections(path: &[u8], out: &mut [u8]) -> Result<usize, Refusal>
    ensures { ReturnsPath (strip_call path.now (length out.old)) result out.old
        out.new }
{
    refusal::validate_texts(&[path])?;
    if out.len() < 255 {
        return Err(Refusal::NoRoom);
    }
    path_parts::strip_into(path, out).ok_or(Refusal::NoRoom)
}

// Writes the lengths of the path and its ancestors; each of them is a prefix of the path.
#[tactic(auto, using(crate::proofs::PartBranches::listed_written, crate::proofs::PartBranches::listed_over), unfolding(crate::specs::Calls::ancestors_reply))]
pub fn ancestors(path: &[u8], lengths: &mut [usize]) -> Result<usize, Refusal>
    ensures value { result ≡ ancestors_reply path.now (length lengths.old) }
    ensures lengths_after { lengths.new ≡ written_if_accepted result (ancestor_lens path.now)
        lengths.old }
{
    refusal::validate_texts(&[path])?;
    path_parts::write_ancestors(path, lengths).ok_or(Refusal::NoRoom)
}

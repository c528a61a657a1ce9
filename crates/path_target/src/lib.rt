// The target of a path, which is the path in its brackets. Ports embedded_target, replace_embedded_target
// and target_brackets of the Rust sdf/path.rs. First the functions on any bytes, then the calls, each of
// which validates in the order of the questions; a refused call writes nothing.
#![tactic(auto)]

ghost use Rattle.std.specs.Prelude.{◌≡◌, ◌≤◌, ◌<◌, length};
ghost use Rattle.refusal.specs.Outcome.{checked, checked_option, ReturnsPath};
ghost use Rattle.path_target.specs.Target.{bracket_depth, close_len, target_brackets, embedded_target, or_empty, replace_embedded_target, replaced_reply, replaced_buffer};
ghost use Rattle.path_target.specs.Calls.{embedded_target_call, replace_embedded_target_call};

use refusal::Refusal;

// The number of brackets that are open after the byte `a`, if `depth` are open before it.
#[tactic(auto, unfolding(crate::specs::Target::bracket_depth))]
fn depth_after(depth: usize, a: u8) -> usize
    requires { depth < 18446744073709551615 }
    ensures { result ≡ bracket_depth depth a }
{
    match a {
        b'[' => depth + 1,
        b']' => depth.saturating_sub(1),
        _ => depth,
    }
}

// Returns the index of the first byte after which no bracket is open, or the length of the text if there is
// none.
#[tactic(auto, using(crate::proofs::TargetBranches::closing))]
fn close_len(text: &[u8]) -> usize
    ensures { result ≡ close_len 0 text.now }
{
    let mut depth = 0;
    for (i, a) in text.iter().enumerate() {
        depth = depth_after(depth, *a);
        if depth == 0 {
            return i;
        }
    }
    text.len()
}

// Returns the indices of the first `[` and of the `]` that is balanced with it.
#[tactic(auto, using(crate::proofs::TargetBranches::brackets))]
pub fn target_brackets(path: &[u8]) -> Option<(usize, usize)>
    ensures { result ≡ target_brackets path.now }
{
    let open = text::find_byte(path, b'[');
    let n = close_len(&path[open..]);
    if path.len() - open <= n {
        return None;
    }
    Some((open, open + n))
}

// Returns the target as a part of the path; empty if there is none.
#[tactic(auto, using(crate::proofs::TargetBranches::text_absent, crate::proofs::TargetBranches::between_start, crate::proofs::TargetBranches::between_end, crate::proofs::TargetBranches::open_fits, crate::proofs::TargetBranches::text_between))]
pub fn target_text(path: &[u8]) -> &[u8]
    ensures { result.now ≡ or_empty (embedded_target path.now) }
{
    let Some((open, close)) = target_brackets(path) else {
        return &path[..0];
    };
    &path[open + 1..close]
}

// Writes the path with its target replaced by `target` if it has one and the path that results fits;
// otherwise writes nothing.
pub fn replace_target_into(path: &[u8], target: &[u8], out: &mut [u8]) -> Result<usize, Refusal>
    ensures value { result ≡ replaced_reply (replace_embedded_target path.now target.now)
        out.old }
    ensures out_after { out.new ≡ replaced_buffer (replace_embedded_target path.now target.now)
        out.old }
{
    let (open, close) = target_brackets(path).ok_or(Refusal::NoPath)?;
    let head = open + 1;
    let at = head + target.len();
    let len = at + (path.len() - close);
    if out.len() < len {
        return Err(Refusal::MadeTooLong);
    }
    text::write_at(&path[..head], 0, out);
    text::write_at(target, head, out);
    text::write_at(&path[close..], at, out);
    Ok(len)
}

// Writes the target of the path. The target of a legal path is a shorter legal path, so it is not scanned.
#[tactic(auto, using(crate::proofs::CallLaws::embedded_absent), unfolding(crate::specs::Calls::embedded_target_call, refusal::specs::Outcome::after_checks, refusal::specs::Outcome::require_room, refusal::specs::Outcome::checked_option, refusal::specs::Outcome::outcome_reply, refusal::specs::Outcome::outcome_buffer))]
pub fn embedded_target(path: &[u8], out: &mut [u8]) -> Result<usize, Refusal>
    ensures { ReturnsPath (embedded_target_call path.now (length out.old)) result
        out.old out.new }
{
    refusal::validate_texts(&[path])?;
    if out.len() < 255 {
        return Err(Refusal::NoRoom);
    }
    let target = target_text(path);
    if target.len() == 0 {
        return Err(Refusal::NoPath);
    }
    text::write_at(target, 0, out);
    Ok(target.len())
}

// Writes a path that was built if it is legal (question 8).
#[tactic(auto, using(text::proofs::WriteLaws::placed_first), unfolding(refusal::specs::Outcome::checked, refusal::specs::Outcome::outcome_reply, refusal::specs::Outcome::outcome_buffer, path_grammar::specs::Legal::at_most255))]
fn write_if_legal(made: &[u8], out: &mut [u8]) -> Result<usize, Refusal>
    requires made_len_bound { length made.now ≤ 255 }
    requires in_bounds { 255 ≤ length out.old }
    ensures { ReturnsPath (checked made.now) result out.old out.new }
{
    if !path_grammar::is_legal(made) {
        return Err(Refusal::MadeIllegal);
    }
    text::write_at(made, 0, out);
    Ok(made.len())
}

// Writes the path with its target replaced, with questions 6, 7 and 8. The path is built in a scratch buffer,
// so that a refused call writes nothing.
fn write_replaced(path: &[u8], target: &[u8], out: &mut [u8]) -> Result<usize, Refusal>
    requires { 255 ≤ length out.old }
    ensures { ReturnsPath (checked_option (replace_embedded_target path.now target.now)) result
        out.old out.new }
{
    let mut made = [0u8; 255];
    let n = replace_target_into(path, target, &mut made)?;
    write_if_legal(&made[..n], out)
}

// Writes the path with its target replaced by another one.
#[tactic(auto, unfolding(crate::specs::Calls::replace_embedded_target_call, refusal::specs::Outcome::after_checks, refusal::specs::Outcome::require_room, refusal::specs::Outcome::outcome_reply, refusal::specs::Outcome::outcome_buffer))]
pub fn replace_embedded_target(path: &[u8], target: &[u8], out: &mut [u8]) -> Result<usize, Refusal>
    ensures { ReturnsPath (replace_embedded_target_call path.now target.now
        (length out.old)) result out.old out.new }
{
    refusal::validate_texts(&[path, target])?;
    if out.len() < 255 {
        return Err(Refusal::NoRoom);
    }
    write_replaced(path, target, out)
}

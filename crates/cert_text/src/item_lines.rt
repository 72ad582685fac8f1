//! Lines of a proof.
//!
//! The checks of a line run one after the other over the whole line, and each is a line of the
//! definition: not a number, too big, the shape, the id, the variables, the hints. What stands
//! before a line is a state of its format: the next id, and which ids may be deleted.

ghost use Rattle.std.specs.Prelude.{◌≡◌, ◌<◌, ◌^◌, nat_abs, map};
ghost use Rattle.std.specs.Option.{option_map};
ghost use Rattle.dq_text.specs.Line.{line_tokens};
ghost use Rattle.cert_text.specs.ItemLine.{as_item, checked_ids, deletion_of, deleted_ids, item_line, marked_line};
ghost use Rattle.cert_text.specs.LineIds.{numbering};
ghost use Rattle.cert_text.specs.LineStop.{IsMadeOf, and_then};
ghost use Rattle.cert_text.specs.ReadItem.{GoesOn, IsItemOf};
ghost use Rattle.cert_text.specs.StepLine.{step_line};
ghost use Rattle.cert_text.specs.Variables.{is_variable};

use crate::faults::{CertFault, LineStop};
use crate::line_ids::LineIds;
use crate::numbers::take_integers;
use crate::plain_steps::{behind_letter, take_plain_ids, take_plain_step};
use crate::step_lines::{StepBuffers, are_positive, before_zero, keep_hints, read_step};
use crate::variables::Variables;
use crate::versions::Version;
use dq_text::{LineTokens, is_word};

/// What was read of a line. A step's literals and hints stand in the buffers, or else the ids that
/// are deleted, in the place of hints.
#[derive(Clone, Copy)]
pub enum ItemRead {
    /// A step with this id.
    Line(u64),
    /// Ids that are deleted.
    Gone,
}

/// What the lines of a proof may be.
#[derive(Clone, Copy)]
pub struct ProofLines<'a> {
    pub version: Version,
    /// The variables that literals may stand on.
    pub variables: Variables<'a>,
}

/// Reads the next line of a proof.
#[inline(always)]
pub fn read_item(
    kind: ProofLines,
    line: &[u8],
    ids: &mut LineIds,
    buffers: &mut StepBuffers,
) -> Result<ItemRead, LineStop>
    requires { ids.old.first < 2 ^ 127 }
    ensures item { IsItemOf (item_line kind.entry.version (is_variable kind.entry.variables)
        (numbering ids.old) (line_tokens line.now)) result buffers.new.literals.items
        buffers.new.hints.items }
    ensures numbering { GoesOn (numbering ids.old) (numbering ids.new) result
        buffers.new.literals.items buffers.new.hints.items }
    ensures first { ids.new.first ≡ ids.old.first }
{
    match kind.version {
        Version::One => read_line(kind.variables, line, ids, buffers),
        Version::Two => read_marked(kind.variables, line, ids, buffers),
    }
}

// The same in version 2.
#[inline(never)]
fn read_marked(
    variables: Variables,
    line: &[u8],
    ids: &mut LineIds,
    buffers: &mut StepBuffers,
) -> Result<ItemRead, LineStop>
    requires { ids.old.first < 2 ^ 127 }
    ensures item { IsItemOf (marked_line (is_variable variables.entry) (numbering ids.old)
        (line_tokens line.now)) result buffers.new.literals.items buffers.new.hints.items }
    ensures numbering { GoesOn (numbering ids.old) (numbering ids.new) result
        buffers.new.literals.items buffers.new.hints.items }
    ensures first { ids.new.first ≡ ids.old.first }
{
    match behind_letter(line) {
        Some(behind) => read_deletion(behind, ids, buffers),
        None => read_other(variables, line, ids, buffers),
    }
}

// The same of a line that most likely isn't a deletion: a plain step isn't one.
#[inline(always)]
fn read_other(
    variables: Variables,
    line: &[u8],
    ids: &mut LineIds,
    buffers: &mut StepBuffers,
) -> Result<ItemRead, LineStop>
    requires { ids.old.first < 2 ^ 127 }
    ensures item { IsItemOf (marked_line (is_variable variables.entry) (numbering ids.old)
        (line_tokens line.now)) result buffers.new.literals.items buffers.new.hints.items }
    ensures numbering { GoesOn (numbering ids.old) (numbering ids.new) result
        buffers.new.literals.items buffers.new.hints.items }
    ensures first { ids.new.first ≡ ids.old.first }
{
    let plain = take_plain_step(
        variables,
        ids.next(),
        line,
        &mut buffers.literals,
        &mut buffers.hints,
    )?;
    match plain {
        Some(id) => {
            ids.push()?;
            Ok(ItemRead::Line(id))
        }
        None => take_marked(variables, line, ids, buffers),
    }
}

// The same of any line.
#[inline(never)]
fn take_marked(
    variables: Variables,
    line: &[u8],
    ids: &mut LineIds,
    buffers: &mut StepBuffers,
) -> Result<ItemRead, LineStop>
    requires { ids.old.first < 2 ^ 127 }
    ensures item { IsItemOf (marked_line (is_variable variables.entry) (numbering ids.old)
        (line_tokens line.now)) result buffers.new.literals.items buffers.new.hints.items }
    ensures numbering { GoesOn (numbering ids.old) (numbering ids.new) result
        buffers.new.literals.items buffers.new.hints.items }
    ensures first { ids.new.first ≡ ids.old.first }
{
    let mut tokens = LineTokens::new(line);
    match tokens.next() {
        Some(letter) if is_word(letter, b"d") => take_deletion(&mut tokens, ids, buffers),
        _ => read_line(variables, line, ids, buffers),
    }
}

// Reads a step's line.
#[inline(always)]
fn read_line(
    variables: Variables,
    line: &[u8],
    ids: &mut LineIds,
    buffers: &mut StepBuffers,
) -> Result<ItemRead, LineStop>
    requires { ids.old.first < 2 ^ 127 }
    ensures item { IsItemOf (as_item (step_line (is_variable variables.entry)
        (numbering ids.old).next (line_tokens line.now))) result buffers.new.literals.items
        buffers.new.hints.items }
    ensures numbering { GoesOn (numbering ids.old) (numbering ids.new) result
        buffers.new.literals.items buffers.new.hints.items }
    ensures first { ids.new.first ≡ ids.old.first }
{
    let id = read_step(variables, ids.next(), line, buffers)?;
    ids.push()?;
    Ok(ItemRead::Line(id))
}

// Reads what stands behind the `d` of a deletion.
#[inline(always)]
fn read_deletion(
    line: &[u8],
    ids: &mut LineIds,
    buffers: &mut StepBuffers,
) -> Result<ItemRead, LineStop>
    ensures item { IsItemOf (and_then (checked_ids (numbering ids.old))
        (deleted_ids (line_tokens line.now))) result buffers.new.literals.items
        buffers.new.hints.items }
    ensures numbering { GoesOn (numbering ids.old) (numbering ids.new) result
        buffers.new.literals.items buffers.new.hints.items }
    ensures first { ids.new.first ≡ ids.old.first }
{
    let is_plain = take_plain_ids(line, &mut buffers.hints)?;
    if is_plain {
        return delete(ids, buffers);
    }
    take_deletion(&mut LineTokens::new(line), ids, buffers)
}

// Deletes the ids that stand in place of hints.
#[inline(always)]
fn delete(ids: &mut LineIds, buffers: &StepBuffers) -> Result<ItemRead, LineStop>
    ensures item { IsItemOf (checked_ids (numbering ids.old) buffers.now.hints.items) result
        buffers.now.literals.items buffers.now.hints.items }
    ensures numbering { GoesOn (numbering ids.old) (numbering ids.new) result
        buffers.now.literals.items buffers.now.hints.items }
    ensures first { ids.new.first ≡ ids.old.first }
{
    if !ids.delete_all(&buffers.hints) {
        return Err(LineStop::Fault(CertFault::NotLive));
    }
    Ok(ItemRead::Gone)
}

// The same of any tokens.
#[inline(never)]
fn take_deletion(
    tokens: &mut LineTokens,
    ids: &mut LineIds,
    buffers: &mut StepBuffers,
) -> Result<ItemRead, LineStop>
    ensures item { IsItemOf (and_then (checked_ids (numbering ids.old)) (deleted_ids tokens.old))
        result buffers.new.literals.items buffers.new.hints.items }
    ensures numbering { GoesOn (numbering ids.old) (numbering ids.new) result
        buffers.new.literals.items buffers.new.hints.items }
    ensures first { ids.new.first ≡ ids.old.first }
{
    take_ids(tokens, buffers)?;
    delete(ids, buffers)
}

// Puts the ids of a deletion in place of the hints in the buffer.
fn take_ids(tokens: &mut LineTokens, buffers: &mut StepBuffers) -> Result<(), LineStop>
    ensures { IsMadeOf (deleted_ids tokens.old) result buffers.new.hints.items }
{
    take_integers(tokens, &mut buffers.integers)?;
    let Some(ids) = deletion_numbers(&buffers.integers) else {
        return Err(LineStop::Fault(CertFault::BadLine));
    };
    keep_hints(ids, &mut buffers.hints)?;
    Ok(())
}

// At least one id, each positive, 0, and nothing more.
fn deletion_numbers(integers: &[i64]) -> Option<&[i64]>
    ensures { option_map (λ ids. map nat_abs ids.now) result ≡ deletion_of integers.now }
{
    let (ids, more) = before_zero(integers)?;
    if ids.is_empty() || !are_positive(ids) || !more.is_empty() {
        return None;
    }
    Some(ids)
}

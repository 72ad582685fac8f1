//! Steps and deletions that are as they should be, read in one pass.
//!
//! Where the quick pass gives up, the exact reader says what the line is, so that no refusal has a
//! second way.

ghost use Rattle.std.specs.Prelude.{◌≡◌, ◌≤◌, ◌<◌, ◌^◌, ◌∷◌, [], ◌++◌, true, false, nat_abs, pos, map, codes, Ok, IfSome, IfOk, OnOk};
ghost use Rattle.std.specs.List.{All};
ghost use Rattle.dq_lits.specs.Literal.{dimacs_literal, dimacs_number, variable_of};
ghost use Rattle.dq_text.specs.Line.{line_tokens};
ghost use Rattle.dq_text.specs.Number.{number_of};
ghost use Rattle.dq_text.specs.Token.{goes_on};
ghost use Rattle.dq_text.specs.declared.numbers.Number.TheVariants.{Int};
ghost use Rattle.cert_text.specs.Grammar.{integers, SpellsStep, IsStep};
ghost use Rattle.cert_text.specs.ItemLine.{deleted_ids};
ghost use Rattle.cert_text.specs.PlainStep.{read_step, HintsTaken, LiteralsTaken};
ghost use Rattle.cert_text.specs.StepNumbers.{IsLiteralNumber};
ghost use Rattle.cert_text.specs.Variables.{is_variable};

use crate::variables::Variables;
use dq_lits::{Lit, Memory};
use dq_text::{LineTokens, short_number};

/// Reads a step with the next id, over these variables, and answers its id; its literals and hints
/// stand in the buffers then. It answers nothing where the line isn't such a one, and maybe where
/// it is.
#[inline(always)]
pub fn take_plain_step(
    variables: Variables,
    next: u128,
    line: &[u8],
    literals: &mut Vec<Lit>,
    hints: &mut Vec<u64>,
) -> Result<Option<u64>, Memory>
    ensures spelled { IfOk result
        (λ found.
        IfSome found
        (λ id. SpellsStep (line_tokens line.now)
        (read_step id literals.new.items hints.new.items))) }
    ensures lawful { IfOk result
        (λ found.
        IfSome found
        (λ id. IsStep (is_variable variables.entry) next
        (read_step id literals.new.items hints.new.items))) }
    ensures some { IfOk result (λ found. IfSome found (λ id. 1 ≤ id)) }
{
    let Some((id, line)) = take_id(next, line) else {
        return Ok(None);
    };
    let Some(line) = take_literals(variables, line, literals)? else {
        return Ok(None);
    };
    let Some(line) = take_hints(id, line, hints)? else {
        return Ok(None);
    };
    Ok(if ends(line) { Some(id) } else { None })
}

/// What stands behind a `d` and a space that the line begins with.
#[inline(always)]
pub fn behind_letter(line: &[u8]) -> Option<&[u8]>
    ensures { IfSome result
        (λ rest. line_tokens line.now ≡ codes "d" ∷ line_tokens rest.now) }
{
    match line.split_first() {
        Some((b'd', behind)) => behind_space(behind),
        _ => None,
    }
}

#[inline(always)]
fn behind_space(bytes: &[u8]) -> Option<&[u8]>
    ensures ends { IfSome result (λ _. goes_on bytes.now ≡ false) }
    ensures same { IfSome result (λ rest. line_tokens bytes.now ≡ line_tokens rest.now) }
{
    match bytes.split_first() {
        Some((b' ', rest)) => Some(rest),
        _ => None,
    }
}

/// Puts the ids that stand behind the `d` of a deletion in place of the hints in a buffer. It answers
/// false where the line isn't such a one, and maybe where it is.
#[inline(always)]
#[tactic(auto, using(crate::proofs::PlainItems::plain_ids))]
pub fn take_plain_ids(line: &[u8], ids: &mut Vec<u64>) -> Result<bool, Memory>
    ensures { IfOk result
        (λ is_plain. is_plain ≡ true → deleted_ids (line_tokens line.now) ≡ Ok ids.new.items) }
{
    let Some(behind) = take_hints(u64::MAX, line, ids)? else {
        return Ok(false);
    };
    if ids.is_empty() {
        return Ok(false);
    }
    Ok(ends(behind))
}

// Whether no token is left.
#[inline(always)]
fn ends(line: &[u8]) -> bool
    ensures { result ≡ true → line_tokens line.now ≡ [] }
{
    if line.is_empty() {
        return true;
    }
    LineTokens::new(line).next().is_none()
}

// Takes the next id; behind it stands what is left of the line.
#[inline(always)]
fn take_id(next: u128, line: &[u8]) -> Option<(u64, &[u8])>
    ensures taken { IfSome result
        (λ taken. map number_of (line_tokens line.now)
        ≡ Int (pos taken.0) ∷ map number_of (line_tokens taken.1.now)) }
    ensures next { IfSome result (λ taken. taken.0 ≡ next) }
    ensures some { IfSome result (λ taken. 1 ≤ taken.0) }
{
    match short_number(line) {
        Some((n, rest)) if n > 0 && n as u128 == next => Some((n as u64, rest)),
        _ => None,
    }
}

// Takes literals on these variables, and the 0 behind them.
#[inline(always)]
fn take_literals<'a>(
    variables: Variables,
    line: &'a [u8],
    literals: &mut Vec<Lit>,
) -> Result<Option<&'a [u8]>, Memory>
    ensures { IfOk result
        (λ left.
        IfSome left
        (λ rest. LiteralsTaken (is_variable variables.entry) (line_tokens line.now)
        (line_tokens rest.now) literals.new.items)) }
{
    literals.clear();
    let mut rest = line;
    while let Some((n, behind)) = short_number(rest) {
        if n == 0 {
            return Ok(Some(behind));
        }
        if !variables.has_literal(n) {
            return Ok(None);
        }
        push_literal(literals, n)?;
        rest = behind;
    }
    Ok(None)
}

#[inline(always)]
fn push_literal(literals: &mut Vec<Lit>, number: i64) -> Result<(), Memory>
    requires { IsLiteralNumber number }
    ensures { OnOk result (literals.new.items ≡ literals.old.items ++ dimacs_literal number ∷ []) }
{
    literals.push(literal(number))?;
    Ok(())
}

/// The literal that DIMACS writes as a number.
pub fn literal(number: i64) -> Lit
    requires { IsLiteralNumber number }
    ensures { result ≡ dimacs_literal number }
{
    if number < 0 {
        Lit::neg(number.unsigned_abs())
    } else {
        Lit::pos(number.unsigned_abs())
    }
}

// Takes ids below this one, and the 0 behind them. By itself its loop stays in registers.
#[inline(never)]
fn take_hints<'a>(id: u64, line: &'a [u8], hints: &mut Vec<u64>) -> Result<Option<&'a [u8]>, Memory>
    ensures { IfOk result
        (λ left.
        IfSome left
        (λ rest. HintsTaken id (line_tokens line.now) (line_tokens rest.now) hints.new.items)) }
{
    hints.clear();
    let mut rest = line;
    while let Some((n, behind)) = short_number(rest) {
        if n == 0 {
            return Ok(Some(behind));
        }
        if n < 0 || n as u64 >= id {
            return Ok(None);
        }
        push_hint(hints, n as u64)?;
        rest = behind;
    }
    Ok(None)
}

#[inline(always)]
fn push_hint(hints: &mut Vec<u64>, hint: u64) -> Result<(), Memory>
    ensures { OnOk result (hints.new.items ≡ hints.old.items ++ hint ∷ []) }
{
    hints.push(hint)?;
    Ok(())
}

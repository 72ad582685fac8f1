//! What a log has more than before, as text.

ghost use Rattle.std.specs.Prelude.{◌≤◌, ℕ};
ghost use Rattle.hint_log.specs.Conditions.{IsId};
ghost use Rattle.hint_log.specs.Entries.{last_id};

use anyhow::Result;
use dq_lits::Lit;
use hint_log::{Leaf, Log, Name, Origin};
use std::alloc::Global;

/// How much of a log was shown.
#[derive(Clone, Copy)]
pub struct Shown {
    pub names: usize,
    pub id: u64,
}

/// Shows the names and the given clauses that a log has more.
pub fn show_more(alloc: Global, log: &Log, shown: Shown, printed: &mut String) -> Result<Shown> {
    show_names(alloc, log, shown.names, printed)?;
    show_givens(alloc, log, shown.id, printed)?;
    Ok(Shown {
        names: log.names(),
        id: log.last_id(),
    })
}

fn show_names(alloc: Global, log: &Log, from: usize, printed: &mut String) -> Result<()> {
    for place in from..log.names() {
        let (v, name) = log.name_at(place);
        printed.push_str("\n  ")?;
        printed.push_str(&name_text(alloc, v, name)?)?;
    }
    Ok(())
}

fn name_text(alloc: Global, v: u64, name: Name) -> Result<String> {
    match name {
        Name::Selector { group } => Ok(format!(in alloc; "{v} is selector {group}")?),
        Name::Pair { round, existential } => {
            Ok(format!(in alloc; "{v} is pair {round} {existential}")?)
        }
        Name::Input { universal } => Ok(format!(in alloc; "{v} is input {universal}")?),
        Name::And { left, right } => gate_text(alloc, v, "and", left, right),
        Name::Bad { group, clause } => Ok(format!(in alloc; "{v} is bad {group} {clause}")?),
        Name::Copy { side, variable } => { Ok(format!(in alloc; "{v} is copy {side} {variable}")?) }
        Name::Term { left, right } => gate_text(alloc, v, "term", left, right),
    }
}

fn gate_text(alloc: Global, v: u64, kind: &str, left: Lit, right: Lit) -> Result<String> {
    let mut text = format!(in alloc; "{v} is {kind}")?;
    push_clause(alloc, &[left, right], &mut text)?;
    Ok(text)
}

fn show_givens(alloc: Global, log: &Log, from: u64, printed: &mut String) -> Result<()> {
    for before in from..log.last_id() {
        show_given(alloc, log, before + 1, printed)?;
    }
    Ok(())
}

fn show_given(alloc: Global, log: &Log, id: u64, printed: &mut String) -> Result<()>
    requires { IsId log.now.entries id }
{
    if let Some(origin) = log.origin(id) {
        printed.push_str("\n  ")?;
        printed.push_str(&origin_text(alloc, origin)?)?;
        printed.push_str(":")?;
        push_clause(alloc, log.clause(id), printed)?;
    }
    Ok(())
}

fn origin_text(alloc: Global, origin: Origin) -> Result<String> {
    match origin {
        Origin::Instance { round, clause } => {
            Ok(format!(in alloc; "instance {round} {clause}")?)
        }
        Origin::Gate { variable, part } => Ok(format!(in alloc; "gate {variable} {part}")?),
        Origin::Fault {
            clause,
            place,
            output,
        } => leaf_text(alloc, format!(in alloc; "fault {clause} {place}")?, output),
        Origin::Copy { side, clause } => Ok(format!(in alloc; "copy {side} {clause}")?),
        Origin::Link { variable, part } => Ok(format!(in alloc; "link {variable} {part}")?),
        Origin::TermGate { variable, part } => Ok(format!(in alloc; "term {variable} {part}")?),
        Origin::Differ {
            existential,
            output,
            part,
        } => leaf_text(
            alloc,
            format!(in alloc; "differ {existential} {part}")?,
            output,
        ),
    }
}

// A text, and behind it a leaf.
fn leaf_text(alloc: Global, mut text: String, leaf: Leaf) -> Result<String> {
    match leaf {
        Leaf::Constant(b) => text.push_str(&format!(in alloc; " {b}")?)?,
        Leaf::Literal(l) => push_signed(alloc, l.var(), l.is_neg(), &mut text)?,
    }
    Ok(text)
}

/// Writes literals as numbers.
pub fn push_clause(alloc: Global, literals: &[Lit], printed: &mut String) -> Result<()> {
    for l in literals {
        push_signed(alloc, l.var(), l.is_neg(), printed)?;
    }
    Ok(())
}

/// Writes a blank and a number with its sign.
pub fn push_signed(alloc: Global, number: u64, negative: bool, printed: &mut String) -> Result<()> {
    let sign = if negative { "-" } else { "" };
    printed.push_str(&format!(in alloc; " {sign}{number}")?)?;
    Ok(())
}

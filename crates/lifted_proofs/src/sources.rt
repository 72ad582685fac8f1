//! Where the clauses of the simpler formula come from.

ghost use Rattle.std.specs.Prelude.{◌≡◌, ◌<◌, None, length, replicate, reverse, slice_index_or, IfOk};
ghost use Rattle.dq_lits.specs.Derivation.{holds};
ghost use Rattle.dq_prep.specs.Units.{is_satisfied};
ghost use Rattle.dq_prep.specs.Simplified.{kept_clauses};
ghost use Rattle.lifted_proofs.specs.UnitTables.{first_literals, IsUnitTable};
ghost use Rattle.lifted_proofs.specs.Goals.{clause_at};
ghost use Rattle.lifted_proofs.specs.Carried.{AreSources};
ghost use Rattle.lifted_proofs.specs.Sources.{TellTaken, IsSourceAt};

use crate::goals::Source;
use crate::units::UnitTable;
use dq_lits::{Lit, Memory};
use std::alloc::Global;

/// For each clause of the simpler formula, where it comes from.
pub(crate) fn sources(table: &UnitTable) -> Result<Vec<Source>, Memory>
    requires { IsUnitTable table.now }
    ensures { IfOk result (λ sources. AreSources table.now.formula.now table.now.units.now
        (kept_clauses table.now.formula.now (reverse table.now.units.now) 0 table.now.formula.now.matrix)
        sources.items) }
{
    let taken = taken_places(table)?;
    let mut sources = Vec::new(table.alloc);
    for place in 0..table.formula.clauses() {
        if let Some(source) = source_at(table, &taken, place) {
            sources.push(source)?;
        }
    }
    Ok(sources)
}

fn no_units(alloc: Global, n: usize) -> Result<Vec<Option<usize>>, Memory>
    ensures { IfOk result (λ taken. taken.items ≡ replicate n None) }
{
    Ok(vec![in alloc; None; n]?)
}

/// By clause, the place of the unit that was taken of it.
pub(crate) fn taken_places(table: &UnitTable) -> Result<Vec<Option<usize>>, Memory>
    ensures many { IfOk result (λ taken. length taken.items ≡ length table.now.formula.now.matrix) }
    ensures tell { IfOk result (λ taken.
        TellTaken table.now.units.now (length table.now.units.now) taken.items) }
{
    let mut taken = no_units(table.alloc, table.formula.clauses())?;
    for j in 0..table.units.len() {
        let place = table.units[j].place;
        if place < taken.len() {
            taken[place] = Some(j);
        }
    }
    Ok(taken)
}

/// Where what is kept of the clause at a place comes from, if something is.
pub(crate) fn source_at(table: &UnitTable, taken: &[Option<usize>], place: usize) -> Option<Source>
    requires right { IsUnitTable table.now }
    requires many { length taken.now ≡ length table.now.formula.now.matrix }
    requires tell { TellTaken table.now.units.now (length table.now.units.now) taken.now }
    requires within { place < length table.now.formula.now.matrix }
    ensures { IsSourceAt table.now.formula.now table.now.units.now place result }
{
    if !is_satisfied(table, place) {
        return Some(Source {
            taken: table.units.len(),
            place,
        });
    }
    let Some(j) = unit_of(taken, place) else {
        return None;
    };
    Some(Source { taken: j, place })
}

fn unit_of(taken: &[Option<usize>], place: usize) -> Option<usize>
    requires { place < length taken.now }
    ensures { result ≡ slice_index_or taken.now place None }
{
    taken[place]
}

// Whether a literal of the clause at a place was taken.
fn is_satisfied(table: &UnitTable, place: usize) -> bool
    requires right { IsUnitTable table.now }
    requires within { place < length table.now.formula.now.matrix }
    ensures { result ≡ is_satisfied
        (first_literals table.now.units.now (length table.now.units.now))
        (clause_at table.now.formula.now place) }
{
    table
        .formula
        .clause(place)
        .iter()
        .any(|l| is_taken(table, *l))
}

/// Whether a literal was taken.
pub(crate) fn is_taken(table: &UnitTable, l: Lit) -> bool
    requires { IsUnitTable table.now }
    ensures { result ≡ holds (first_literals table.now.units.now (length table.now.units.now)) l }
{
    match table.false_by(l.not(), table.units.len()) {
        Some(_) => true,
        None => false,
    }
}

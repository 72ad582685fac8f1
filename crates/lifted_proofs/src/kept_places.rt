//! Which clauses of a formula are kept where units were taken.

ghost use Rattle.std.specs.Prelude.{◌≡◌, length, reverse, IfOk};
ghost use Rattle.lifted_proofs.specs.KeptPlaces.{places_of};
ghost use Rattle.lifted_proofs.specs.UnitTables.{IsUnitTable};

use crate::sources::{source_at, taken_places};
use crate::units::UnitTable;
use dq_lits::Memory;

/// The places of the clauses of which something is kept, or of the others.
pub(crate) fn places(table: &UnitTable, kept: bool) -> Result<Vec<usize>, Memory>
    requires { IsUnitTable table.now }
    ensures { IfOk result (λ places. places.items ≡ places_of table.now.formula.now
        (reverse table.now.units.now) kept (length table.now.formula.now.matrix)) }
{
    let taken = taken_places(table)?;
    let mut places = Vec::new(table.alloc);
    for place in 0..table.formula.clauses() {
        if source_at(table, &taken, place).is_some() == kept {
            places.push(place)?;
        }
    }
    Ok(places)
}

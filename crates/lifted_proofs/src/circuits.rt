//! A circuit and its proof over the simpler formula, lifted to the formula.

ghost use Rattle.std.specs.Prelude.{◌≡◌, ◌≤◌, None, length, reverse, IfOk, Ok};
ghost use Rattle.dq_lits.specs.Formula.{IsWellFormed};
ghost use Rattle.cert_text.specs.Header.{max_count};
ghost use Rattle.cert_text.specs.ProofGrammar.{IsDqpOf};
ghost use Rattle.dq_prep.specs.Units.{AreUnits};
ghost use Rattle.dq_prep.specs.Simplified.{simplified_formula};
ghost use Rattle.proof_checker.specs.CircuitProof.{circuit_proof_fault};
ghost use Rattle.proof_checker.specs.ProvedCircuit.{IsProvedCircuit};
ghost use Rattle.skolem_checker.specs.Checks.{candidate_of};
ghost use Rattle.skolem_checker.specs.SkolemCircuit.{IsComplete, IsSkolemCircuit};
ghost use Rattle.lifted_proofs.specs.Liftables.{IsLiftable};
ghost use Rattle.lifted_proofs.specs.LiftedCircuits.{IsLiftedProof, IsLeftProof, AreLiftedLines, IsLifted};
ghost use Rattle.lifted_proofs.specs.Liftings.{IsLifting, formula_of, units_of};
ghost use Rattle.lifted_proofs.specs.SettledCircuits.{IsSettledFile};
ghost use Rattle.lifted_proofs.specs.UnitTables.{IsUnitTable};

use crate::carrying::Carrying;
use crate::liftings::Lifting;
use crate::names::Named;
use crate::settled::settled;
use crate::units::UnitTable;
use aiger_text::AagFile;
use cert_text::{Dqp, ItemList, StepList};
use circuit_plain::Circuit;
use dq_formula::Formula;
use dq_lits::Memory;
use dq_prep::Trace;
use dq_prep::laws::simplified_formulas_are_well_formed;
use proof_checker::laws::refuted_negation_solves;
use proof_deletions::laws::allowed_lines_are_numbered;
use skolem_checker::{Bench, BenchStop};
use std::alloc::Global;

/// The most lines of a proof's text.
const MOST_LINES: usize = 1_000_000_000;

/// A circuit for a formula with a proof that it has its Skolem functions, from those for what is left
/// of it where these units were taken, `g`. The circuit's output for each unit's existential becomes
/// the constant that makes the unit true. In front of the proof's lines come one for each unit whose
/// output wasn't constant, and one that some clause which was kept is false; its own lines get other
/// ids and variables.
///
/// It answers `Memory` also past 1,000,000,000 lines, as many as a text can hold, and past 10^16 gates,
/// variables or literals.
pub fn lift_true(
    alloc: Global,
    mut file: AagFile,
    p: &Dqp,
    trace: &Trace,
    f: &Formula,
    g: &Formula,
) -> Result<(AagFile, Dqp), Memory>
    requires well { IsWellFormed f.now }
    requires units { AreUnits f.now trace.now }
    requires left { g.now ≡ simplified_formula f.now trace.now }
    requires proved { IsProvedCircuit g.now file p.now }
    requires allowed { length p.now.items ≤ max_count → IsDqpOf g.now file.circuit p.now }
    ensures settled { IfOk result (λ lifted. IsSettledFile f.now trace.now file lifted.0) }
    ensures lifted { IfOk result (λ lifted. IsLiftedProof f.now lifted.0 lifted.1) }
{
    let (circuit, proof) = lifted_parts(alloc, &file, p, trace, f, g)?;
    file.circuit = circuit;
    Ok((file, proof))
}

// The circuit and the proof, over the formula.
fn lifted_parts(
    alloc: Global,
    file: &AagFile,
    p: &Dqp,
    trace: &Trace,
    f: &Formula,
    g: &Formula,
) -> Result<(Circuit, Dqp), Memory>
    requires well { IsWellFormed f.now }
    requires units { AreUnits f.now trace.now }
    requires left { g.now ≡ simplified_formula f.now trace.now }
    requires proved { IsProvedCircuit g.now file.now p.now }
    requires allowed { length p.now.items ≤ max_count → IsDqpOf g.now file.now.circuit p.now }
    ensures settled { IfOk result (λ parts. IsSettledFile f.now trace.now file.now
        (record file.now { circuit = parts.0 })) }
    ensures lifted { IfOk result
        (λ parts. IsLiftedProof f.now (record file.now { circuit = parts.0 }) parts.1) }
{
    simplified_formulas_are_well_formed();
    allowed_lines_are_numbered();
    refuted_negation_solves();
    if p.items.len() > MOST_LINES {
        return Err(Memory);
    }
    let table = UnitTable::new(alloc, f, trace)?;
    let (circuit, proof) = lifted(&table, file, p, g)?;
    Ok((circuit, proof))
}

// The circuit and the proof.
fn lifted(table: &UnitTable, file: &AagFile, p: &Dqp, g: &Formula) -> Result<(Circuit, Dqp), Memory>
    requires right { IsUnitTable table.now }
    requires well { IsWellFormed g.now }
    requires left { IsLeftProof table.now file.now g.now p.now }
    ensures { IfOk result (λ lifted. IsLifted table.now file.now lifted.0 lifted.1) }
{
    let bench = bench_of(table.alloc, g, file)?;
    lifted_on(table, file, g, &bench, p)
}

// The same, on the circuit with what its inputs and outputs stand for, which is lent, so that it is
// dropped at one place.
fn lifted_on(
    table: &UnitTable,
    file: &AagFile,
    g: &Formula,
    bench: &Bench,
    p: &Dqp,
) -> Result<(Circuit, Dqp), Memory>
    requires right { IsUnitTable table.now }
    requires well { IsWellFormed g.now }
    requires left { IsLeftProof table.now file.now g.now p.now }
    requires bench { candidate_of g.now file.now.circuit file.now.symbols ≡ Ok bench.now }
    ensures { IfOk result (λ lifted. IsLifted table.now file.now lifted.0 lifted.1) }
{
    // Only the contract speaks of them.
    let _ = file;
    let _ = g;
    let circuit = settled(table, bench)?;
    let steps = lifted_lines(table, bench, p)?;
    let proof = Dqp {
        items: ItemList::of_lines(steps),
    };
    Ok((circuit, proof))
}

// The circuit with what its inputs and outputs stand for.
fn bench_of<'a>(alloc: Global, g: &'a Formula, file: &'a AagFile) -> Result<Bench<'a>, Memory>
    requires well { IsWellFormed g.now }
    requires complete { IsComplete file.now.circuit }
    requires skolem { IsSkolemCircuit g.now file.now.circuit file.now.symbols }
    ensures { IfOk result
        (λ bench. candidate_of g.now file.now.circuit file.now.symbols ≡ Ok bench) }
{
    match Bench::new(alloc, g, file) {
        Ok(bench) => Ok(bench),
        Err(BenchStop::Map(_)) => unreachable!(),
        Err(BenchStop::Memory) => Err(Memory),
    }
}

// The lines over the formula.
fn lifted_lines(table: &UnitTable, bench: &Bench, p: &Dqp) -> Result<StepList, Memory>
    requires right { IsUnitTable table.now }
    requires can { IsLiftable table.now.formula.now (reverse table.now.units.now) bench.now }
    requires allowed { IsDqpOf bench.now.formula bench.now.circuit.netlist p.now }
    requires derives { circuit_proof_fault bench.now p.now.items ≡ None }
    ensures { IfOk result
        (AreLiftedLines table.now.formula.now (reverse table.now.units.now) bench.now) }
{
    let lifting = Lifting::of(table, bench)?;
    lines_by(&lifting, p)
}

// The same, by the tables that are read in each step. They are lent, so that they are dropped at one
// place.
fn lines_by(lifting: &Lifting, p: &Dqp) -> Result<StepList, Memory>
    requires lifting { IsLifting lifting.now }
    requires allowed { IsDqpOf lifting.now.bench.now.formula lifting.now.bench.now.circuit.netlist
        p.now }
    requires derives { circuit_proof_fault lifting.now.bench.now p.now.items ≡ None }
    ensures { IfOk result
        (AreLiftedLines (formula_of lifting.now) (units_of lifting.now) lifting.now.bench.now) }
{
    let Named { ids, mut steps } = lifting.names()?;
    let some_false = lifting.base.first + steps.len() as u64;
    lifting.add_some_false(&mut steps)?;
    let carrying = Carrying {
        gates: lifting.base.gates,
        largest: lifting.base.largest,
        places: &lifting.kept,
        clauses: lifting.table.formula.clauses(),
        ids: &ids,
        some_false,
    };
    carrying.carry(lifting.table.alloc, &p.items, &mut steps)?;
    if steps.len() > MOST_LINES {
        return Err(Memory);
    }
    Ok(steps)
}

//! The formula of a design.
//!
//! Only the count of variables is tested: a gate has three clauses, a copy four over two variables,
//! a pair of outputs five over one, so that a formula of 1,000,000 variables has 5,000,000 clauses
//! at most. Room that grows as a product is asked for at once: that of all demands, and of what
//! driven inputs see.

ghost use Rattle.std.specs.Prelude.{◌≡◌, IfOk};
ghost use Rattle.pec_front.specs.Encoder.{IsEncoder};
ghost use Rattle.pec_front.specs.Encoding.{design_formula};
ghost use Rattle.pec_front.specs.Formulas.{IsFormulaOf, IsFormulaReading};
ghost use Rattle.pec_front.specs.Reading.{CanNumber};
ghost use Rattle.skolem_checker.specs.SkolemCircuit.{IsComplete};

use crate::designs::{Design, read_design};
use crate::encoders::Encoder;
use crate::faults::{PecFault, PecStop, refused};
use crate::layouts::{layout_of, signals};
use crate::prefixes::declare;
use aiger_text::{AagFile, ReadCircuit};
use dq_formula::Formula;
use dq_lits::Memory;
use std::alloc::Global;

/// The formula of the design that an implementation makes with its specification, or the first
/// refusal. The implementation's header has the line `first`.
pub fn formula(
    alloc: Global,
    spec: &AagFile,
    imp: &ReadCircuit,
    first: u64,
) -> Result<Formula, PecStop>
    requires specification { IsComplete spec.now.circuit }
    requires implementation { IsComplete imp.now.file.circuit }
    requires lines { CanNumber imp.now first }
    ensures { IsFormulaReading spec.now.circuit imp.now first result }
{
    let design = read_design(alloc, spec, imp, first)?;
    design.every_design_is_lawful();
    formula_of(alloc, &design, first)
}

/// The formula of a design; `Limit`, at the line `first`, where it has more variables or clauses
/// than a formula may have.
pub fn formula_of(alloc: Global, design: &Design, first: u64) -> Result<Formula, PecStop>
    ensures { IsFormulaOf design.now first result }
{
    let signals = signals(alloc, design.boxes())?;
    let Some(layout) = layout_of(design, signals.len()) else {
        return Err(refused(first, PecFault::Limit));
    };
    let encoder = Encoder::of(alloc, design, layout, signals)?;
    let f = encoded(alloc, &encoder)?;
    f.every_formula_is_lawful();
    Ok(f)
}

fn encoded(alloc: Global, encoder: &Encoder) -> Result<Formula, Memory>
    requires { IsEncoder encoder.now encoder.now.design.now }
    ensures { IfOk result (λ f. f ≡ design_formula encoder.now.design.now) }
{
    let mut f = Formula::new(alloc, encoder.layout.end - 1);
    declare(alloc, &mut f, encoder.design, &encoder.layout)?;
    encoder.add_matrix(alloc, &mut f)?;
    Ok(f)
}

//! The prefix of a design's formula.

ghost use Rattle.std.specs.Prelude.{◌≡◌, ◌+◌, ◌-◌, ◌≤◌, ◌++◌, [], map, OnOk};
ghost use Rattle.std.specs.List.{range_with_len};
ghost use Rattle.dq_lits.specs.Formula.{declared};
ghost use Rattle.dqdimacs_reader.specs.Building.{empty_formula};
ghost use Rattle.pec_front.specs.Boxes.{inputs_of};
ghost use Rattle.pec_front.specs.Copies.{span_in, AreCopies};
ghost use Rattle.pec_front.specs.Encoding.{driven_of, first_copy, first_driven, end_of, driven_existential, design_universals, design_formula};
ghost use Rattle.pec_front.specs.Layout.{IsLayout};
ghost use Rattle.pec_front.specs.Prefixes.{seeing};

use crate::copies::{Copies, try_room, write_numbers};
use crate::designs::Design;
use crate::layouts::Layout;
use crate::wires::further_inputs;
use dq_formula::Formula;
use dq_lits::Memory;
use std::alloc::Global;

/// Declares the variables of a design's formula.
pub(crate) fn declare(
    alloc: Global,
    f: &mut Formula,
    design: &Design,
    layout: &Layout,
) -> Result<(), Memory>
    requires layout { IsLayout design.now layout.now }
    requires empty { f.old ≡ empty_formula (end_of design.now - 1) }
    ensures { OnOk result (f.new ≡ record (design_formula design.now) { matrix = [] }) }
{
    declare_universals(f, layout.first_driven - 1)?;
    declare_further(alloc, f, design, layout)?;
    let behind = layout.end - layout.first_specified;
    declare_seeing_all(f, layout.first_specified - 1, behind)
}

// Declares the driven inputs.
fn declare_further(
    alloc: Global,
    f: &mut Formula,
    design: &Design,
    layout: &Layout,
) -> Result<(), Memory>
    requires layout { IsLayout design.now layout.now }
    requires universals { f.old.universals ≡ design_universals design.now }
    requires none { f.old.existentials ≡ [] }
    requires variables { f.old.variables ≡ end_of design.now - 1 }
    ensures { let d = design.now in OnOk result (f.new ≡ record f.old {
      existentials = map (driven_existential d) (range_with_len (inputs_of d) (driven_of d));
    }) }
{
    design.every_design_is_lawful();
    try_room(alloc, design.boxes())?;
    let circuit = design.implementation();
    let further = further_inputs(alloc, circuit, design.specification().inputs().len())?;
    let copies = Copies::of(alloc, &further, design.boxes(), layout.first_driven)?;
    declare_driven(alloc, f, design, &copies, layout.first_driven)
}

// Declares the driven inputs, each with the copies that it sees.
fn declare_driven(
    alloc: Global,
    f: &mut Formula,
    design: &Design,
    copies: &Copies,
    first: u64,
) -> Result<(), Memory>
    requires first { first ≡ first_driven design.now }
    requires copies { AreCopies (first_copy design.now) design.now.boxes (span_in copies.now) }
    requires universals { f.old.universals ≡ design_universals design.now }
    requires none { f.old.existentials ≡ [] }
    requires variables { f.old.variables ≡ end_of design.now - 1 }
    ensures { let d = design.now in OnOk result (f.new ≡ record f.old {
      existentials = map (driven_existential d) (range_with_len (inputs_of d) (driven_of d));
    }) }
{
    // The call shows the formula's invariant.
    let _ = f.vars();
    design.every_design_is_lawful();
    let inputs = design.implementation().inputs();
    let shared = design.specification().inputs().len();
    let mut seen = Vec::new(alloc);
    for i in shared..inputs.len() {
        write_numbers(copies.span(inputs[i]), &mut seen)?;
        f.add_listed(first + (i - shared) as u64, &seen)?;
    }
    Ok(())
}

// Declares the first variables, so many, as universals.
fn declare_universals(f: &mut Formula, count: u64) -> Result<(), Memory>
    requires nothing { declared f.old ≡ [] }
    requires universals { f.old.universals ≡ [] }
    requires in_range { count ≤ f.old.variables }
    ensures { OnOk result (f.new ≡ record f.old { universals = range_with_len 1 count }) }
{
    // The call shows the formula's invariant.
    let _ = f.vars();
    for x in 0..count {
        f.add_universal(1 + x)?;
    }
    Ok(())
}

// Declares variables, so many, the first of which is behind all that are declared, as existentials
// that see all universals.
fn declare_seeing_all(f: &mut Formula, first: u64, count: u64) -> Result<(), Memory>
    requires declared { declared f.old ≡ range_with_len 1 first }
    requires in_range { first + count ≤ f.old.variables }
    ensures { OnOk result (f.new ≡ record f.old {
      existentials = f.old.existentials
          ++ map (seeing f.old.universals) (range_with_len (first + 1) count);
    }) }
{
    // The call shows the formula's invariant.
    let _ = f.vars();
    for y in 0..count {
        f.add_first(first + 1 + y)?;
    }
    Ok(())
}

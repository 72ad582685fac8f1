//! A partial design: an implementation with its boxes, and its specification.
//!
//! A design's reading carries what was read as its invariant, so that no law on designs asks for a
//! premise.

ghost use Rattle.std.specs.Prelude.{◌≡◌, ◌≤◌, ◌<◌, ◌+◌, ◌^◌, not, length, Some};
ghost use Rattle.std.specs.List.{position};
ghost use Rattle.number_tables.specs.Numbers.{has_number};
ghost use Rattle.pec_front.specs.BoxLine.{variables_of};
ghost use Rattle.pec_front.specs.Boxes.{IsLawfulDesign};
ghost use Rattle.pec_front.specs.Reading.{IsNumbered, CanNumber, comment_of, comment_boxes, all_driven, read_comment, IsReadingOf, IsDesignReading};
ghost use Rattle.pec_front.specs.Steps.{AreReadBoxes, IsListReading, IsOrderReading};
ghost use Rattle.skolem_checker.specs.SkolemCircuit.{IsComplete};

use crate::box_lines::read_comment;
use crate::boxes::BlackBox;
use crate::faults::{PecFault, PecStop, refused};
use crate::levels::first_out_of_order;
use crate::wires::Wires;
use aiger_text::{AagFile, ReadCircuit};
use circuit_plain::Circuit;
use dq_text::Lines;
use number_tables::NumberSet;
use std::alloc::Global;
use std::marker::Model;

/// An implementation with its boxes, and its specification.
#[derive(Drop)]
pub struct Design<'c> {
    specification: &'c Circuit,
    implementation: &'c Circuit,
    boxes: Vec<BlackBox>,
}

impl<'c> Model for Design<'c> {
    ghost use Rattle.pec_front.specs.Boxes.{PartialDesign, IsLawfulDesign};

    ghost Value = { PartialDesign };

    ghost view = { λ d.
        record {
          specification = d.specification.now;
          implementation = d.implementation.now;
          boxes = d.boxes.items;
        } };

    ghost invariant = { λ d. IsLawfulDesign (
        record {
          specification = d.specification.now;
          implementation = d.implementation.now;
          boxes = d.boxes.items;
        }) };
}

impl<'c> Design<'c> {
    /// What holds of every design. The call does nothing: its contract is for callers' proofs.
    pub fn every_design_is_lawful(&self)
        ensures { IsLawfulDesign self.now }
    {
        // A look at a field shows the invariant.
        let _ = &self.boxes;
    }

    /// The specification.
    pub fn specification(&self) -> &Circuit
        ensures { result.now ≡ self.now.specification }
    {
        self.specification
    }

    /// The implementation; its inputs are those of the specification and, behind them, those that
    /// boxes drive.
    pub fn implementation(&self) -> &Circuit
        ensures { result.now ≡ self.now.implementation }
    {
        self.implementation
    }

    /// The boxes, in order of their lines.
    pub fn boxes(&self) -> &[BlackBox]
        ensures { result.now ≡ self.now.boxes }
    {
        &self.boxes
    }
}

/// Reads the boxes of an implementation from its comment: the design that it makes with its
/// specification, or the first refusal. The implementation's header has the line `first`.
pub fn read_design<'c>(
    alloc: Global,
    spec: &'c AagFile,
    imp: &'c ReadCircuit,
    first: u64,
) -> Result<Design<'c>, PecStop>
    requires specification { IsComplete spec.now.circuit }
    requires implementation { IsComplete imp.now.file.circuit }
    requires lines { CanNumber imp.now first }
    ensures { IsDesignReading spec.now.circuit imp.now first result }
{
    let implementation = &imp.file.circuit;
    if implementation.inputs().len() < spec.circuit.inputs().len() {
        return Err(refused(first, PecFault::InputShort));
    }
    if spec.circuit.outputs().len() != implementation.outputs().len() {
        return Err(refused(first, PecFault::OutputCount));
    }
    let Some(comment) = comment_of(imp) else {
        return Err(refused(first, PecFault::NoPec));
    };
    let first_input = first + 1;
    with_comment(alloc, &spec.circuit, implementation, comment, first_input)
}

// The comment's lines.
fn comment_of(imp: &ReadCircuit) -> Option<Lines>
    requires { IsNumbered imp.now.file.comment imp.now.comment_line }
    ensures { result ≡ comment_of imp.now.file.comment imp.now.comment_line }
{
    let text = imp.file.comment.as_ref()?;
    let line = imp.comment_line?;
    Some(Lines::new(text.items(), line))
}

// The design of the boxes that a comment states.
fn with_comment<'c>(
    alloc: Global,
    specification: &'c Circuit,
    implementation: &'c Circuit,
    comment: Lines,
    first_input: u64,
) -> Result<Design<'c>, PecStop>
    requires specification { IsComplete specification.now }
    requires implementation { IsComplete implementation.now }
    requires inputs { length specification.now.inputs ≤ length implementation.now.inputs }
    requires outputs { length specification.now.outputs ≡ length implementation.now.outputs }
    requires line { comment.number < 2 ^ 62 }
    requires first_input { first_input ≤ 2 ^ 62 }
    ensures { IsReadingOf specification.now implementation.now (Some comment.entry)
        (comment_boxes specification.now implementation.now comment.entry first_input) result }
{
    let line = comment.number();
    let wires = Wires::of(alloc, specification, implementation)?;
    let further_line = first_input + specification.inputs().len() as u64;
    let boxes = read_boxes(alloc, &wires, comment, further_line)?;
    in_order(
        alloc,
        specification,
        implementation,
        &wires.variables,
        boxes,
        line,
    )
}

// The boxes that a comment states, if they drive all further inputs.
fn read_boxes(
    alloc: Global,
    wires: &Wires,
    comment: Lines,
    further_line: u64,
) -> Result<Vec<BlackBox>, PecStop>
    requires lines { further_line + length wires.now.further < 2 ^ 64 }
    ensures { IsListReading
        (all_driven wires.now further_line (read_comment wires.now comment.entry)) result }
{
    let read = read_comment(alloc, wires, comment)?;
    if let Some(place) = first_undriven(wires, &read.driven) {
        return Err(refused(further_line + place as u64, PecFault::BoxMissing));
    }
    Ok(read.boxes)
}

// The place among the further inputs of the first that isn't driven.
fn first_undriven(wires: &Wires, driven: &NumberSet) -> Option<usize>
    ensures place { result ≡ position (λ v. not (has_number driven.now v)) wires.now.further }
{
    wires
        .further
        .items()
        .iter()
        .position(|variable| !driven.contains(*variable))
}

// The design of these boxes, if they stand in order.
fn in_order<'c>(
    alloc: Global,
    specification: &'c Circuit,
    implementation: &'c Circuit,
    variables: &NumberSet,
    boxes: Vec<BlackBox>,
    line: u64,
) -> Result<Design<'c>, PecStop>
    requires specification { IsComplete specification.now }
    requires implementation { IsComplete implementation.now }
    requires inputs { length specification.now.inputs ≤ length implementation.now.inputs }
    requires outputs { length specification.now.outputs ≡ length implementation.now.outputs }
    requires variables { variables.now ≡ variables_of implementation.now }
    requires boxes { AreReadBoxes specification.now implementation.now boxes.items }
    requires line { line < 2 ^ 62 }
    ensures { IsOrderReading specification.now implementation.now line boxes.items result }
{
    specification.every_circuit_is_a_netlist();
    implementation.every_circuit_is_a_netlist();
    match first_out_of_order(alloc, implementation, variables, &boxes)? {
        Some(place) => Err(refused(line + 1 + place as u64, PecFault::BoxOrder)),
        None => Ok(Design {
            specification,
            implementation,
            boxes,
        }),
    }
}

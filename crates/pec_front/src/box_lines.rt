//! The lines of a comment that state boxes.

ghost use Rattle.std.specs.Prelude.{◌≡◌, ◌++◌, ◌∷◌, [], not, map, Some, None, IfOk, OnOk, IsTrue, if◌then◌else◌};
ghost use Rattle.circuit_plain.specs.Netlist.{literal_variable};
ghost use Rattle.dq_text.specs.Line.{line_tokens, lines_from};
ghost use Rattle.pec_front.specs.BoxLine.{small_number, small_numbers, counts_fit, box_of, admitted, box_line};
ghost use Rattle.pec_front.specs.Reading.{box_count, repeats, with_box, read_boxes, read_comment};
ghost use Rattle.pec_front.specs.Steps.{AreBoxesOf, KnowsDriven, IsBoxReading};

use crate::boxes::BlackBox;
use crate::faults::{LineStop, PecFault, PecStop, at_line, refused};
use crate::wires::Wires;
use dq_lits::Memory;
use dq_text::{LineTokens, Lines, TOO_BIG, is_word, natural};
use number_tables::NumberSet;
use std::alloc::Global;

/// The most boxes that an implementation may have.
pub const MAX_BOXES: u64 = 1_000_000;

/// The boxes of the lines so far.
#[derive(Drop)]
pub(crate) struct ReadBoxes {
    pub boxes: Vec<BlackBox>,
    /// The inputs that they drive.
    pub driven: NumberSet,
}

fn small_number(token: &[u8]) -> Option<u64>
    ensures number { result ≡ small_number token.now }
{
    match natural(token) {
        Some(n) if n < TOO_BIG => Some(n),
        _ => None,
    }
}

// Puts the numbers of a line in place of those in the buffer, and says whether all of its tokens are
// numbers as a box's line has them.
fn take_numbers(line: &[u8], numbers: &mut Vec<u64>) -> Result<bool, Memory>
    ensures { IfOk result (λ all. small_numbers (line_tokens line.now)
        ≡ (if all then Some numbers.new.items else None)) }
{
    numbers.clear();
    let mut tokens = LineTokens::new(line);
    while let Some(token) = tokens.next() {
        let Some(n) = small_number(token) else {
            return Ok(false);
        };
        numbers.push(n)?;
    }
    Ok(true)
}

// Whether the first two numbers count the others.
fn counts_fit(numbers: &[u64]) -> bool
    ensures { result ≡ counts_fit numbers.now }
{
    if numbers.len() < 2 {
        return false;
    }
    let literals = (numbers.len() - 2) as u64;
    numbers[0] <= literals && numbers[1] == literals - numbers[0]
}

fn box_from(alloc: Global, numbers: &[u64]) -> Result<Option<BlackBox>, Memory>
    ensures { IfOk result (λ found. found ≡ box_of numbers.now) }
{
    if !counts_fit(numbers) {
        return Ok(None);
    }
    let (counts, literals) = numbers.split_at(2);
    let (ins, outs) = literals.split_at(counts[0] as usize);
    let ins = Vec::from_slice(alloc, ins)?;
    let outs = Vec::from_slice(alloc, outs)?;
    Ok(Some(BlackBox::new(ins, outs)))
}

// The box that a line states.
fn box_line(
    alloc: Global,
    wires: &Wires,
    line: &[u8],
    numbers: &mut Vec<u64>,
) -> Result<Option<BlackBox>, Memory>
    ensures { IfOk result (λ found. found ≡ box_line wires.now (line_tokens line.now)) }
{
    if !take_numbers(line, numbers)? {
        return Ok(None);
    }
    admitted(wires, box_from(alloc, numbers)?)
}

fn admitted(wires: &Wires, found: Option<BlackBox>) -> Result<Option<BlackBox>, Memory>
    ensures { IfOk result (λ black_box. black_box ≡ admitted wires.now found) }
{
    let Some(black_box) = found else {
        return Ok(None);
    };
    if !wires.admit(&black_box) {
        return Ok(None);
    }
    Ok(Some(black_box))
}

// Adds the inputs that literals drive to those driven so far, and says whether all of them are new.
fn add_driven(driven: &mut NumberSet, outs: &[u64]) -> Result<bool, Memory>
    ensures new { IfOk result (λ all_new. all_new ≡ not (repeats driven.old outs.now)) }
    ensures driven { IfOk result (λ all_new. IsTrue all_new
        → driven.new ≡ driven.old ++ map literal_variable outs.now) }
{
    for out in outs {
        if !driven.insert(*out / 2)? {
            return Ok(false);
        }
    }
    Ok(true)
}

// Reads the line of a box.
fn take_line(
    alloc: Global,
    wires: &Wires,
    read: &mut ReadBoxes,
    numbers: &mut Vec<u64>,
    line: &[u8],
) -> Result<(), LineStop>
    requires { KnowsDriven read.old }
    ensures line { AreBoxesOf
        (with_box read.old.boxes.items (box_line wires.now (line_tokens line.now))) result
        read.new.boxes.items }
    ensures driven { OnOk result (KnowsDriven read.new) }
{
    let Some(black_box) = box_line(alloc, wires, line, numbers)? else {
        return Err(LineStop::Fault(PecFault::BadBox));
    };
    if !add_driven(&mut read.driven, black_box.outs())? {
        return Err(LineStop::Fault(PecFault::BoxTwice));
    }
    push(&mut read.boxes, black_box)?;
    Ok(())
}

fn push(boxes: &mut Vec<BlackBox>, black_box: BlackBox) -> Result<(), Memory>
    ensures { OnOk result (boxes.new.items ≡ boxes.old.items ++ black_box ∷ []) }
{
    boxes.push(black_box)?;
    Ok(())
}

// Reads so many lines of boxes.
fn read_boxes(
    alloc: Global,
    wires: &Wires,
    count: u64,
    lines: &mut Lines,
) -> Result<ReadBoxes, PecStop>
    ensures { IsBoxReading
        (read_boxes wires.now count [] (lines_from lines.old.number lines.old.rest)
        lines.old.number) result }
{
    let mut read = ReadBoxes {
        boxes: Vec::new(alloc),
        driven: NumberSet::new(alloc),
    };
    let mut numbers = Vec::new(alloc);
    let mut left = count;
    while left > 0 {
        let Some(line) = lines.next() else {
            return Err(refused(lines.number(), PecFault::Truncated));
        };
        if let Err(stop) = take_line(alloc, wires, &mut read, &mut numbers, line.text) {
            return Err(at_line(line.number, stop));
        }
        left -= 1;
    }
    Ok(read)
}

// The number in a line `pec B`.
fn box_count(line: &[u8]) -> Option<u64>
    ensures { result ≡ box_count (line_tokens line.now) }
{
    let mut tokens = LineTokens::new(line);
    let word = tokens.next()?;
    let number = tokens.next()?;
    if tokens.next().is_some() || !is_word(word, b"pec") {
        return None;
    }
    natural(number)
}

/// Reads the lines of a comment.
pub(crate) fn read_comment(
    alloc: Global,
    wires: &Wires,
    comment: Lines,
) -> Result<ReadBoxes, PecStop>
    ensures { IsBoxReading (read_comment wires.now comment.entry) result }
{
    let mut lines = comment;
    let first = lines.number();
    let Some(line) = lines.next() else {
        return Err(refused(first, PecFault::NoPec));
    };
    let Some(count) = box_count(line.text) else {
        return Err(refused(first, PecFault::NoPec));
    };
    if count > MAX_BOXES {
        return Err(refused(first, PecFault::Limit));
    }
    read_boxes(alloc, wires, count, &mut lines)
}

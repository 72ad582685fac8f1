//! The copies that driven inputs see: those of what their boxes read.

ghost use Rattle.std.specs.Prelude.{◌≡◌, ◌≤◌, ◌<◌, ◌+◌, ◌-◌, ◌*◌, ◌^◌, true, length, replicate, All, IfOk, OnOk};
ghost use Rattle.number_tables.specs.Numbers.{has_number};
ghost use Rattle.pec_front.specs.Boxes.{driven, signals};
ghost use Rattle.pec_front.specs.Copies.{no_span, span_in, numbers_in, IsSized, IsSpanSet, AreSpansSet, IsKnownOut, AreCopies};

use crate::boxes::BlackBox;
use dq_lits::Memory;
use number_tables::NumberSet;
use std::alloc::Global;

/// Numbers from a first one on, so many.
#[derive(Clone, Copy)]
pub(crate) struct Span {
    pub start: u64,
    pub count: u64,
}

/// For each driven input, the copies that it sees.
#[derive(Drop)]
pub(crate) struct Copies<'w> {
    pub further: &'w NumberSet,
    /// By the input's place.
    pub spans: Vec<Span>,
}

fn no_spans(alloc: Global, n: usize) -> Result<Vec<Span>, Memory>
    ensures { IfOk result (λ spans. spans.items ≡ replicate n no_span) }
{
    Ok(vec![in alloc; Span { start: 0, count: 0 }; n]?)
}

/// Asks for the memory that the copies of all driven inputs take, and gives it back: a box of many
/// inputs and outputs asks for their product, so that a short text can ask for more than there is.
pub(crate) fn try_room(alloc: Global, boxes: &[BlackBox]) -> Result<(), Memory> {
    let mut count: usize = 0;
    for black_box in boxes {
        let copies = black_box.ins().len().saturating_mul(black_box.outs().len());
        count = count.saturating_add(copies);
    }
    let mut room: Vec<u64> = Vec::new(alloc);
    room.reserve(count)?;
    Ok(())
}

/// Writes the numbers into the buffer, in place of what it holds.
pub(crate) fn write_numbers(span: Span, buffer: &mut Vec<u64>) -> Result<(), Memory>
    requires { All (λ n. n < 2 ^ 32) (numbers_in span) }
    ensures { OnOk result (buffer.new.items ≡ numbers_in span) }
{
    buffer.clear();
    for i in 0..span.count {
        buffer.push(span.start + i)?;
    }
    Ok(())
}

impl<'w> Copies<'w> {
    /// The copies for boxes, which end before a number.
    pub(crate) fn of(
        alloc: Global,
        further: &'w NumberSet,
        boxes: &[BlackBox],
        end: u64,
    ) -> Result<Copies<'w>, Memory>
        requires known { All (IsKnownOut further.now) (driven boxes.now) }
        requires room { length (signals boxes.now) ≤ end }
        requires small { end < 2 ^ 32 }
        ensures further { IfOk result (λ c. c.further.now ≡ further.now) }
        ensures copies { IfOk result
            (λ c. AreCopies (end - length (signals boxes.now)) boxes.now (span_in c)) }
    {
        let mut copies = Copies {
            further,
            spans: no_spans(alloc, further.len())?,
        };
        copies.mark_all(boxes, end);
        Ok(copies)
    }

    /// The copies that a driven input sees.
    pub(crate) fn span(&self, variable: u64) -> Span
        ensures { result ≡ span_in self.now variable }
    {
        let Some(place) = self.further.place(variable) else {
            return Span { start: 0, count: 0 };
        };
        match self.spans.get(place) {
            Some(span) => *span,
            None => Span { start: 0, count: 0 },
        }
    }

    fn set(&mut self, variable: u64, span: Span)
        requires known { has_number self.old.further.now variable ≡ true }
        requires sized { IsSized self.old }
        ensures span { IsSpanSet (span_in self.old) (span_in self.new) variable span }
        ensures sized { IsSized self.new }
        ensures further { self.new.further.now ≡ self.old.further.now }
    {
        let Some(place) = self.further.place(variable) else {
            unreachable!()
        };
        self.spans[place] = span;
    }

    // Gives the inputs that literals drive the same copies.
    fn mark(&mut self, outs: &[u64], span: Span)
        requires known { All (IsKnownOut self.old.further.now) outs.now }
        requires sized { IsSized self.old }
        ensures spans { AreSpansSet (span_in self.old) (span_in self.new) outs.now span }
        ensures sized { IsSized self.new }
        ensures further { self.new.further.now ≡ self.old.further.now }
    {
        for out in outs {
            self.set(*out / 2, span);
        }
    }

    // Gives the inputs that boxes drive their copies, from the last box to the first.
    fn mark_all(&mut self, boxes: &[BlackBox], end: u64)
        requires known { All (IsKnownOut self.old.further.now) (driven boxes.now) }
        requires start { self.old.spans.items ≡ replicate (length self.old.further.now) no_span }
        requires room { length (signals boxes.now) ≤ end }
        requires small { end < 2 ^ 32 }
        ensures copies { AreCopies (end - length (signals boxes.now)) boxes.now (span_in self.new) }
        ensures further { self.new.further.now ≡ self.old.further.now }
    {
        let mut next = end;
        let mut left = boxes.len();
        while left > 0 {
            left -= 1;
            let count = boxes[left].ins().len() as u64;
            next -= count;
            self.mark(boxes[left].outs(), Span { start: next, count });
        }
    }
}

//! A walk over gates, depth first and without recursion.

ghost use Rattle.std.specs.Prelude.{◌≡◌, ◌+◌, ◌*◌, ◌<◌, ◌≤◌, All, count_by, length, not, IfOk, OnOk};
ghost use Rattle.circuit_plain.specs.Steps.{task_place};

use crate::circuits::Gate;
use dq_lits::Memory;
use number_tables::NumberSet;
use std::alloc::Global;

// What a walk still has to do at the gate of a place: walk to it, or put it behind what it reads.
#[derive(Clone, Copy)]
enum Task {
    Visit(usize),
    Leave(usize),
}

// The places of the gates in the order in which a depth-first walk leaves them: where the gates
// have no cycle, each stands behind those that it reads. It promises places alone, since `order`
// tries each of them. Its stack is a list, so a long chain takes no deep recursion.
pub(crate) fn depth_first(alloc: Global, gates: &[Gate]) -> Result<Vec<usize>, Memory>
    ensures { IfOk result (λ places. All (λ place. place < length gates.now) places.items) }
{
    let variables = gate_variables(alloc, gates)?;
    let mut seen = vec![in alloc; false; gates.len()]?;
    let mut places = Vec::new(alloc);
    let mut tasks = visits(alloc, gates.len())?;
    while let Some(task) = tasks.pop() {
        match task {
            Task::Leave(place) => places.push(place)?,
            Task::Visit(place) => visit(place, gates, &variables, &mut seen, &mut tasks)?,
        }
    }
    Ok(places)
}

// The variables of the gates: as these differ, each stands at the place of its gate.
fn gate_variables(alloc: Global, gates: &[Gate]) -> Result<NumberSet, Memory> {
    let mut variables = NumberSet::new(alloc);
    for gate in gates {
        variables.insert(gate.variable)?;
    }
    Ok(variables)
}

// A visit of each place below `n`, the first one last.
fn visits(alloc: Global, n: usize) -> Result<Vec<Task>, Memory>
    ensures { IfOk result (λ tasks. All (λ task. task_place task < n) tasks.items) }
{
    let mut tasks = Vec::new(alloc);
    for place in (0..n).rev() {
        tasks.push(Task::Visit(place))?;
    }
    Ok(tasks)
}

// Has the gates that this one reads visited, and then this one left, where it wasn't seen before.
fn visit(
    place: usize,
    gates: &[Gate],
    variables: &NumberSet,
    seen: &mut [bool],
    tasks: &mut Vec<Task>,
) -> Result<(), Memory>
    requires a_mark_a_gate { length seen.old ≡ length gates.now }
    requires in_range { place < length gates.now }
    requires tasks_in_range { All (λ task. task_place task < length gates.now) tasks.old.items }
    ensures in_range { OnOk result
        (All (λ task. task_place task < length gates.now) tasks.new.items) }
    ensures ends { OnOk result (
        length tasks.new.items + 3 * count_by not seen.new
        ≤ length tasks.old.items + 3 * count_by not seen.old) }
{
    if !seen[place] {
        seen[place] = true;
        tasks.push(Task::Leave(place))?;
        visit_side(gates[place].right, variables, seen, tasks)?;
        visit_side(gates[place].left, variables, seen, tasks)?;
    }
    Ok(())
}

// Adds a visit of the gate that a right side stands on, where it wasn't seen.
fn visit_side(
    side: u64,
    variables: &NumberSet,
    seen: &[bool],
    tasks: &mut Vec<Task>,
) -> Result<(), Memory>
    requires { All (λ task. task_place task < length seen.now) tasks.old.items }
    ensures in_range { OnOk result
        (All (λ task. task_place task < length seen.now) tasks.new.items) }
    ensures one_more { OnOk result (length tasks.new.items ≤ length tasks.old.items + 1) }
{
    if let Some(place) = variables.place(side / 2) {
        if place < seen.len() && !seen[place] {
            tasks.push(Task::Visit(place))?;
        }
    }
    Ok(())
}

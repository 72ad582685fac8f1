//! Tables over a formula's variables.

ghost use Rattle.std.specs.Prelude.{◌≡◌, ◌≢◌, ◌==◌, ◌*◌, ◌<◌, length, map, AllPairs, All, IfOk};
ghost use Rattle.std.specs.List.{position_or_len};
ghost use Rattle.skolem_checker.specs.Tables.{AreNumbers, IsWritten, IsKeptElsewhere, IsMapping, IsLiteralTable, IsPlaceTable};
ghost use Rattle.skolem_checker.specs.MappingReading.{mapping_in};

use crate::mapping::Mapped;
use circuit_plain::Circuit;
use dq_formula::Formula;
use dq_lits::Memory;
use std::alloc::Global;

/// Writes each value at its key.
pub(crate) fn write_at(table: &mut Vec<u64>, keys: &[u64], values: &[u64])
    requires a_value_a_key { length values.now ≡ length keys.now }
    requires in_range { All (λ v. v < length table.old.items) keys.now }
    requires distinct { AllPairs (λ v w. v ≢ w) keys.now }
    ensures same_length { length table.new.items ≡ length table.old.items }
    ensures written { IsWritten table.new.items keys.now values.now }
    ensures elsewhere { IsKeptElsewhere table.old.items table.new.items keys.now }
{
    for (i, key) in keys.iter().enumerate() {
        table[*key as usize] = values[i];
    }
}

/// The literals of a circuit's inputs.
pub(crate) fn input_literals(alloc: Global, circuit: &Circuit) -> Result<Vec<u64>, Memory>
    ensures { IfOk result (λ literals. literals.items ≡ map (λ v. 2 * v) circuit.now.inputs) }
{
    circuit.every_circuit_is_a_netlist();
    let mut literals = Vec::new(alloc);
    for variable in circuit.inputs() {
        literals.push(2 * *variable)?;
    }
    Ok(literals)
}

/// The numbers below `n`.
pub(crate) fn numbers_below(alloc: Global, n: usize) -> Result<Vec<u64>, Memory>
    ensures { IfOk result (λ numbers. AreNumbers numbers.items n) }
{
    let mut numbers = Vec::new(alloc);
    for i in 0..n {
        numbers.push(i as u64)?;
    }
    Ok(numbers)
}

/// The place of each of these universals in the order of declaration.
pub(crate) fn universal_places(
    alloc: Global,
    f: &Formula,
    universals: &[u64],
) -> Result<Vec<usize>, Memory>
    ensures { IfOk result
        (λ places. places.items
        ≡ map (λ x. position_or_len (λ u. u == x) f.now.universals) universals.now) }
{
    Ok(universals.iter().map(|x| f.place_of(*x)).collect(alloc)?)
}

/// So many zeros.
pub(crate) fn zeros(alloc: Global, n: usize) -> Result<Vec<u64>, Memory>
    ensures { IfOk result (λ zeros. length zeros.items ≡ n) }
{
    Ok(vec![in alloc; 0u64; n]?)
}

/// By variable, the literal of a universal's input or of an existential's output.
pub(crate) fn literal_table(
    alloc: Global,
    f: &Formula,
    circuit: &Circuit,
    mapped: &Mapped,
) -> Result<Vec<u64>, Memory>
    requires { IsMapping f.now circuit.now (mapping_in mapped.now) }
    ensures { IfOk result
        (λ literals. IsLiteralTable f.now circuit.now (mapping_in mapped.now) literals.items) }
{
    f.every_formula_is_lawful();
    let inputs = input_literals(alloc, circuit)?;
    let mut literals = zeros(alloc, f.vars() as usize + 1)?;
    write_at(&mut literals, &mapped.inputs, &inputs);
    write_at(&mut literals, &mapped.outputs, circuit.outputs());
    Ok(literals)
}

/// By existential, the place of its output.
pub(crate) fn place_table(
    alloc: Global,
    f: &Formula,
    circuit: &Circuit,
    mapped: &Mapped,
) -> Result<Vec<u64>, Memory>
    requires { IsMapping f.now circuit.now (mapping_in mapped.now) }
    ensures { IfOk result (λ places. IsPlaceTable f.now (mapping_in mapped.now) places.items) }
{
    f.every_formula_is_lawful();
    let numbers = numbers_below(alloc, mapped.outputs.len())?;
    let mut places = zeros(alloc, f.vars() as usize + 1)?;
    write_at(&mut places, &mapped.outputs, &numbers);
    Ok(places)
}

//! What passing the tests shows. Each law is the contract of a function that does nothing: who
//! calls it may use what it ensures.

ghost use Rattle.std.specs.Prelude.{◌≡◌, ◌↔◌, Ok, Err};
ghost use Rattle.dq_lits.specs.Formula.{Existential, Dqbf, HasLawfulPrefix};
ghost use Rattle.dq_lits.specs.Henkin.{IsTrueFormula};
ghost use Rattle.dq_lits.specs.Skolem.{OutputFunction, AreSkolemFunctions};
ghost use Rattle.circuit_plain.specs.Netlist.{Netlist, IsNetlist};
ghost use Rattle.aiger_text.specs.Symbol.{SymbolTable};
ghost use Rattle.skolem_checker.specs.Checks.{Candidate, candidate_of, IsReadsAnswer, IsRowsAnswer};
ghost use Rattle.skolem_checker.specs.SkolemCircuit.{IsComplete, IsSkolemCircuit, ReadsUniversal, AreOutputsOf};
ghost use Rattle.skolem_checker.specs.Mapping.{IsAtPlace, Mapping, mapping_of};
ghost use Rattle.skolem_checker.specs.Naming.{IsToldMapping, IsToldFault};
ghost use Rattle.skolem_checker.specs.declared.mapping.MapError.{MapError};

use dq_lits::laws::skolem_functions_show_true;

/// The outputs of a Skolem circuit are Skolem functions: there is a function for each existential,
/// with its output's value and with what the output reads in its support.
pub fn outputs_are_skolem_functions()
    ensures { (f : Dqbf) (net : Netlist) (symbols : SymbolTable) → HasLawfulPrefix f → IsNetlist net
        → IsComplete net
        → (h : IsSkolemCircuit f net symbols)
        → (output : Existential → OutputFunction) × AreSkolemFunctions f output
        × AreOutputsOf f (record { netlist = net; mapping = h.mapping }) output }
{}

/// A Skolem circuit shows that the formula is true.
pub fn skolem_circuit_shows_true()
    ensures { (f : Dqbf) (net : Netlist) (symbols : SymbolTable) → HasLawfulPrefix f → IsNetlist net
        → IsComplete net
        → IsSkolemCircuit f net symbols → IsTrueFormula f }
{
    outputs_are_skolem_functions();
    skolem_functions_show_true();
}

/// A circuit that is mapped, reads declared universals alone and has no bad row is a Skolem
/// circuit.
pub fn tested_circuit_is_skolem()
    ensures { (c : Candidate) (symbols : SymbolTable) → HasLawfulPrefix c.formula
        → candidate_of c.formula c.circuit.netlist symbols ≡ Ok c
        → IsReadsAnswer (ReadsUniversal c.circuit) c.formula (Ok tt)
        → IsRowsAnswer c.formula c.circuit (Ok tt)
        → IsSkolemCircuit c.formula c.circuit.netlist symbols }
{}

/// A fault of a mapping is at the circuit's header, at one of its inputs or at one of its outputs.
pub fn mapping_faults_have_places()
    ensures { (f : Dqbf) (net : Netlist) (symbols : SymbolTable) (fault : MapError)
        → mapping_of f net symbols ≡ Err fault
        → IsAtPlace net fault.at }
{}

/// Inputs and outputs stand for the variables that their symbols say, or for those in the order of
/// declaration where there is no symbol; where that gives no mapping, its first fault is named.
pub fn mapping_is_as_told()
    ensures exact { (f : Dqbf) (net : Netlist) (symbols : SymbolTable) (mapping : Mapping) →
        (mapping_of f net symbols ≡ Ok mapping) ↔ IsToldMapping f net symbols mapping }
    ensures fault { (f : Dqbf) (net : Netlist) (symbols : SymbolTable) (fault : MapError) →
        mapping_of f net symbols ≡ Err fault → IsToldFault fault.at fault.name f net symbols }
{}

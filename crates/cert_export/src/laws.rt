//! What the definitions of `specs/` prove about one another. Each law is the contract of a function
//! without parameters and with an empty body.

ghost use Rattle.cert_export.specs.Renaming.{RenamedLinesAreDerived};
ghost use Rattle.cert_export.specs.Expansion.{InstancesAreExpansion};
ghost use Rattle.cert_export.specs.ExportableLogs.{ProductiveAnswersCanExport, SessionAnswersCanExport};
ghost use Rattle.cert_export.specs.Exported.{ExportedAnswerRefutes, ExportedLinesAreAllowed};
ghost use Rattle.cert_export.specs.ExportedCircuit.{CircuitNumbersAreInjective, CircuitClausesAreNegatedMatrix, ExportedCircuitIsComplete, ExportedCircuitReadsSeen, ExportedCircuitIsNetlist};
ghost use Rattle.cert_export.specs.ExportedCircuit.{ExportedSymbolsMap, WrittenSymbolsAreNumbers, ExportedFileIsSpellable, ExportedAnswerIsAccepted, ExportedProofIsAllowed, ExportedAnswerIsProved};

use aiger_text::laws::numbers_are_names;
use dq_text::laws::written_numbers_are_read;
use proof_checker::laws::proved_circuit_is_skolem;
use skolem_checker::laws::mapping_is_as_told;

/// A derived line stays derived under a partial renaming, by its hints up to the first that is
/// falsified.
pub fn renamed_lines_are_derived()
    ensures { RenamedLinesAreDerived }
{}

/// The instances given, renamed, are those of the expansion, under its ids.
pub fn instances_are_expansion()
    ensures { InstancesAreExpansion }
{}

/// The checker of refutations finds no fault in what is exported of an answer that rests on
/// instances.
pub fn exported_answer_refutes()
    ensures { ExportedAnswerRefutes }
{}

/// And its lines are such as the format allows.
pub fn exported_lines_are_allowed()
    ensures { ExportedLinesAreAllowed }
{}

/// No two variables have one number in the exported circuit and its proof.
pub fn circuit_numbers_are_injective()
    ensures { CircuitNumbersAreInjective }
{}

/// The given clauses that a circuit's proof rests on, renamed, are those of the negated matrix,
/// under its ids.
pub fn circuit_clauses_are_negated_matrix()
    ensures { CircuitClausesAreNegatedMatrix }
{}

/// Every gate and every output of the exported circuit can be evaluated.
pub fn exported_circuit_is_complete()
    ensures { ExportedCircuitIsComplete }
{}

/// Each output of the exported circuit reads only what its existential sees.
pub fn exported_circuit_reads_seen()
    ensures { ExportedCircuitReadsSeen }
{}

/// The exported circuit is a netlist.
pub fn exported_circuit_is_netlist()
    ensures { ExportedCircuitIsNetlist }
{}

/// Where each symbol is its variable's number, the circuit is mapped as it was exported.
pub fn exported_symbols_map()
    ensures { ExportedSymbolsMap }
{
    written_numbers_are_read();
    mapping_is_as_told();
}

/// The checker of circuits' proofs finds no fault in what is exported of an answer that shows
/// outputs to be right.
pub fn exported_answer_is_accepted()
    ensures { ExportedAnswerIsAccepted }
{}

/// And its lines are such as the format allows.
pub fn exported_proof_is_allowed()
    ensures { ExportedProofIsAllowed }
{}

/// The exported circuit is a Skolem circuit, as its proof shows.
pub fn exported_answer_is_proved()
    ensures { ExportedAnswerIsProved }
{
    proved_circuit_is_skolem();
    exported_symbols_map();
}

/// The symbols that are written are the variables' numbers.
pub fn written_symbols_are_numbers()
    ensures { WrittenSymbolsAreNumbers }
{}

/// A text can hold the exported circuit with its symbols.
pub fn exported_file_is_spellable()
    ensures { ExportedFileIsSpellable }
{
    numbers_are_names();
}

/// In a log of productive work for a formula, an answer that decides can be exported, with the
/// clauses' own numbers.
pub fn productive_answers_can_be_exported()
    ensures { ProductiveAnswersCanExport }
{}

/// And in a session, of the formula that is live, with its clauses' numbers among all.
pub fn session_answers_can_be_exported()
    ensures { SessionAnswersCanExport }
{}

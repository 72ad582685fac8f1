//! The reader as a machine over tokens: where the next one stands, and the formula so far.

ghost use Rattle.std.specs.Prelude.{◌≡◌};
ghost use Rattle.dqdimacs_reader.specs.Machine.{check, before_header};
ghost use Rattle.dqdimacs_reader.specs.MachineState.{state_of, IsReaderState};

use crate::checks;
use crate::distinct::DistinctLiterals;
use crate::faults::FormulaFault;
use crate::lexemes::Lexeme;
use dq_formula::{Formula, MAX_CLAUSES, MAX_VARIABLES};
use dq_lits::{Lit, Memory};
use std::alloc::Global;

/// Where the next token stands.
#[derive(Clone, Copy, PartialEq, Eq)]
pub enum Stage {
    Header,
    Format,
    Variables,
    Clauses,
    /// At the start of a set, an item, a clause or an XOR line.
    PrefixPart,
    Universals,
    Existentials,
    /// At the variable of an item.
    Dependent,
    Dependencies,
    Clause,
    Xor,
}

/// The machine. Fields count from the stage on that fills them.
#[derive(Drop)]
pub struct Machine {
    pub alloc: Global,
    pub stage: Stage,
    /// How many clauses and XOR lines the header states.
    pub clauses: u64,
    /// How many of these were read.
    pub constraints: u64,
    pub formula: Formula,
    pub dependent: u64,
    pub dependencies: Vec<u64>,
    /// Those of a clause or an XOR line, so far.
    pub literals: DistinctLiterals,
}

/// The machine before the first token. It takes no memory.
pub fn start(alloc: Global) -> Machine
    ensures state { state_of result ≡ before_header }
    ensures ready { IsReaderState result }
{
    Machine {
        alloc,
        stage: Stage::Header,
        clauses: 0,
        constraints: 0,
        formula: Formula::new(alloc, 0),
        dependent: 0,
        dependencies: Vec::new(alloc),
        literals: DistinctLiterals::new(alloc),
    }
}

/// The first check that a token fails.
pub fn token_fault(machine: &Machine, lexeme: Lexeme) -> Option<FormulaFault>
    requires { IsReaderState machine.now }
    ensures { result ≡ check (state_of machine.now) lexeme }
{
    match machine.stage {
        Stage::Header => checks::header_fault(lexeme),
        Stage::Format => checks::format_fault(lexeme),
        Stage::Variables => checks::limit_fault(lexeme, MAX_VARIABLES),
        Stage::Clauses => checks::limit_fault(lexeme, MAX_CLAUSES as u64),
        Stage::PrefixPart => checks::part_fault(
            &machine.formula,
            machine.constraints,
            machine.clauses,
            lexeme,
        ),
        Stage::Universals => checks::declared_fault(&machine.formula, lexeme),
        Stage::Existentials => checks::declared_fault(&machine.formula, lexeme),
        Stage::Dependent => checks::dependent_fault(&machine.formula, lexeme),
        Stage::Dependencies => checks::dependency_fault(&machine.formula, lexeme),
        Stage::Clause => checks::literal_fault(&machine.formula, lexeme),
        Stage::Xor => checks::xor_fault(&machine.formula, machine.literals.items(), lexeme),
    }
}

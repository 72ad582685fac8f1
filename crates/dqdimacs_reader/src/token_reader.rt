//! Reading token by token, up to the first fault.

ghost use Rattle.std.specs.Prelude.{◌≡◌, ℕ, List, ◌∷◌, [], Result, IfOk, IfNone};
ghost use Rattle.dq_lits.specs.Formula.{Dqbf, HasLawfulPrefix};
ghost use Rattle.dq_text.specs.Pieces.{SummarizedToken};
ghost use Rattle.dqdimacs_reader.specs.Lexeme.{summary_lexeme};
ghost use Rattle.dqdimacs_reader.specs.Machine.{before_header, at_end, on_line};
ghost use Rattle.dqdimacs_reader.specs.MachineState.{state_of, IsReaderState};
ghost use Rattle.dqdimacs_reader.specs.Progress.{goes_on, has_stopped, has_ended, may_answer, progress_at, goes_to};
ghost use Rattle.dqdimacs_reader.specs.Reading.{IsReading, end_fault_of};
ghost use Rattle.dqdimacs_reader.specs.declared.faults.ReadStop.{ReadStop as Stop};
ghost use Rattle.dqdimacs_reader.specs.declared.faults.ReadStop.TheVariants.{Memory as OutOfMemory};

use crate::faults::{FormulaFault, ReadStop};
use crate::lexemes::{Lexeme, classify, classify_summary, number_lexeme};
use crate::machine::{Machine, Stage, start, token_fault};
use crate::plain_steps::take_plain;
use crate::steps::step;
use dq_formula::Formula;
use dq_lits::Memory;
use dq_text::laws::summaries_tell_words_and_numbers;
use dq_text::{TakesTokens, TokenSummary};
use std::alloc::Global;
use std::marker::Model;

/// The machine, until a token has a fault or memory is wanting; from there on what stopped it.
#[derive(Drop)]
pub struct TokenReader {
    machine: Machine,
    stopped: Option<ReadStop>,
}

impl Model for TokenReader {
    ghost use Rattle.dqdimacs_reader.specs.Progress.{Progress, progress_of, CanGoOn};

    ghost Value = { Progress };

    ghost view = { progress_of };

    ghost invariant = { CanGoOn };
}

impl TokenReader {
    /// Before the first token. It takes no memory.
    pub fn new(alloc: Global) -> TokenReader
        ensures { result ≡ goes_on before_header }
    {
        TokenReader {
            machine: start(alloc),
            stopped: None,
        }
    }

    /// Whether it takes no more tokens.
    pub fn is_stopped(&self) -> bool
        ensures { result ≡ has_ended self.now }
    {
        self.stopped.is_some()
    }

    /// Stops for want of memory.
    pub fn lack_memory(&mut self)
        ensures { self.new ≡ has_stopped OutOfMemory }
    {
        self.stopped = Some(ReadStop::Memory);
    }

    /// The formula, where the text ends on this line, or what stopped the reading.
    pub fn finish(self, last_line: u64) -> Result<Formula, ReadStop>
        ensures exact { may_answer self [] last_line result }
        ensures lawful { IfOk result HasLawfulPrefix }
    {
        match self.stopped {
            Some(stop) => Err(stop),
            None => finish(self.machine, last_line),
        }
    }

    // Takes the next token as a lexeme.
    #[inline(always)]
    fn take(&mut self, lexeme: Lexeme, line: u64)
        ensures { (token : SummarizedToken) (tokens : List SummarizedToken) (last : ℕ)
            (answer : Result Dqbf Stop)
            → summary_lexeme token.summary ≡ lexeme → token.line ≡ line
            → may_answer self.new tokens last answer
            → may_answer self.old (token ∷ tokens) last answer }
    {
        if self.stopped.is_some() {
            return;
        }
        match take_plain(&mut self.machine, lexeme) {
            Ok(true) => {}
            Ok(false) => self.stopped = stop_at(&mut self.machine, lexeme, line),
            Err(Memory) => self.stopped = Some(ReadStop::Memory),
        }
    }
}

impl TakesTokens for TokenReader {
    type Answer = Result<Formula, ReadStop>;

    ghost gives = { may_answer };

    #[inline(never)]
    fn token(&mut self, text: &[u8], line: u64) -> Result<(), Memory> {
        summaries_tell_words_and_numbers();
        self.take(classify(text), line);
        Ok(())
    }

    #[inline(always)]
    fn number(&mut self, number: i64, line: u64) -> Result<(), Memory> {
        summaries_tell_words_and_numbers();
        self.take(number_lexeme(number), line);
        Ok(())
    }

    #[inline(never)]
    fn summary(&mut self, token: TokenSummary, line: u64) -> Result<(), Memory> {
        self.take(classify_summary(token), line);
        Ok(())
    }
}

// What stops the reading at a token, if anything does; else the machine goes on behind it.
#[inline(never)]
fn stop_at(machine: &mut Machine, lexeme: Lexeme, line: u64) -> Option<ReadStop>
    requires { IsReaderState machine.old }
    ensures taken { goes_to (state_of machine.old) lexeme line
        (progress_at result (state_of machine.new)) }
    ensures ready { IfNone result (IsReaderState machine.new) }
{
    if let Some(name) = token_fault(machine, lexeme) {
        return Some(ReadStop::Refused { line, name });
    }
    match step(machine, lexeme) {
        Ok(()) => None,
        Err(Memory) => Some(ReadStop::Memory),
    }
}

// What the end of the text decides.
fn finish(machine: Machine, last_line: u64) -> Result<Formula, ReadStop>
    requires { IsReaderState machine }
    ensures exact { IsReading (on_line last_line (at_end (state_of machine))) result }
    ensures lawful { IfOk result HasLawfulPrefix }
{
    if let Some(name) = end_fault(&machine) {
        return Err(ReadStop::Refused {
            line: last_line,
            name,
        });
    }
    let Machine { mut formula, .. } = machine;
    formula.add_free()?;
    formula.every_formula_is_lawful();
    Ok(formula)
}

// Why the text can't end here.
fn end_fault(machine: &Machine) -> Option<FormulaFault>
    ensures { result ≡ end_fault_of (at_end (state_of machine.now)) }
{
    match machine.stage {
        Stage::Header | Stage::Format | Stage::Variables | Stage::Clauses => Some(
            FormulaFault::NoHeader,
        ),
        Stage::PrefixPart if machine.constraints < machine.clauses => Some(
            FormulaFault::TooFewClauses,
        ),
        Stage::PrefixPart => None,
        _ => Some(FormulaFault::MissingZero),
    }
}

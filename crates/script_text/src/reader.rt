//! Reading a script line by line.
//!
//! A script is read whole before anything is searched. A line is judged in the state behind the
//! lines before it, so that 'the first refusal' is a recursion over lines and needs no order of
//! faults beside it. Commands have a byte each and their clauses lie end to end.

ghost use Rattle.std.specs.Prelude.{◌≡◌, ◌+◌, ◌<◌, ◌^◌, length, Ok, Some, OnOk};
ghost use Rattle.dq_text.specs.BlankLine.{has_no_token};
ghost use Rattle.dq_text.specs.Line.{line_tokens, lines_from};
ghost use Rattle.script_text.specs.Commands.{push, pop, solve};
ghost use Rattle.script_text.specs.Reading.{alone, behind, behind_line, command_of, in_frame, in_limit, keyword, read_lines, read_script, start, IsScriptReading};
ghost use Rattle.script_text.specs.Steps.{IsCounted, IsMade, IsStateReading, state_of};

use crate::clauses::take_clause;
use crate::commands::{Keyword, Script};
use crate::faults::{LineStop, ScriptFault, ScriptStop, at_line};
use dq_formula::{Formula, MAX_CLAUSES};
use dq_lits::{Lit, Memory};
use dq_text::{LineTokens, Lines, is_word};
use dqdimacs_reader::DistinctLiterals;
use std::alloc::Global;

// The commands so far, how many frames are open behind them, and how many clauses the formula and
// they have.
#[derive(Drop)]
pub(crate) struct ScriptReader {
    pub script: Script,
    pub depth: usize,
    pub clauses: usize,
}

fn keyword(word: &[u8]) -> Option<Keyword>
    ensures { result ≡ keyword word.now }
{
    if is_word(word, b"push") {
        Some(Keyword::Push)
    } else if is_word(word, b"add") {
        Some(Keyword::Add)
    } else if is_word(word, b"pop") {
        Some(Keyword::Pop)
    } else if is_word(word, b"solve") {
        Some(Keyword::Solve)
    } else {
        None
    }
}

// Whether no word stands here.
fn is_end(tokens: &mut LineTokens) -> bool
    ensures { result ≡ has_no_token tokens.old }
{
    tokens.next().is_none()
}

impl ScriptReader {
    fn new(alloc: Global, f: &Formula) -> ScriptReader
        ensures state { state_of result ≡ start f.now }
        ensures counted { IsCounted result }
    {
        ScriptReader {
            script: Script::new(alloc),
            depth: 0,
            clauses: f.clauses(),
        }
    }

    // Takes a line's command, if it has one.
    fn take_line(
        &mut self,
        f: &Formula,
        literals: &mut DistinctLiterals,
        line: &[u8],
    ) -> Result<(), LineStop>
        requires counted { IsCounted self.old }
        ensures line { IsMade (behind_line f.now (state_of self.old) (line_tokens line.now)) result
            (state_of self.new) }
        ensures counted { OnOk result (IsCounted self.new) }
    {
        let mut tokens = LineTokens::new(line);
        let Some(word) = tokens.next() else {
            return Ok(());
        };
        match keyword(word) {
            None => Err(LineStop::Fault(ScriptFault::BadCommand)),
            Some(Keyword::Add) => self.take_add(f, literals, &mut tokens),
            Some(Keyword::Push) => self.take_push(&mut tokens),
            Some(Keyword::Pop) => self.take_pop(&mut tokens),
            Some(Keyword::Solve) => self.take_solve(&mut tokens),
        }
    }

    fn take_push(&mut self, tokens: &mut LineTokens) -> Result<(), LineStop>
        requires counted { IsCounted self.old }
        ensures line { IsMade (behind (state_of self.old) (alone tokens.old (Ok push))) result
            (state_of self.new) }
        ensures counted { OnOk result (IsCounted self.new) }
    {
        if !is_end(tokens) {
            return Err(LineStop::Fault(ScriptFault::BadCommand));
        }
        self.script.push(Keyword::Push, &[])?;
        self.depth += 1;
        Ok(())
    }

    fn take_pop(&mut self, tokens: &mut LineTokens) -> Result<(), LineStop>
        requires counted { IsCounted self.old }
        ensures line { IsMade
            (behind (state_of self.old) (alone tokens.old (in_frame self.old.depth (Ok pop))))
            result (state_of self.new) }
        ensures counted { OnOk result (IsCounted self.new) }
    {
        if !is_end(tokens) {
            return Err(LineStop::Fault(ScriptFault::BadCommand));
        }
        if self.depth == 0 {
            return Err(LineStop::Fault(ScriptFault::NoFrame));
        }
        self.script.push(Keyword::Pop, &[])?;
        self.depth -= 1;
        Ok(())
    }

    fn take_solve(&mut self, tokens: &mut LineTokens) -> Result<(), LineStop>
        requires counted { IsCounted self.old }
        ensures line { IsMade (behind (state_of self.old) (alone tokens.old (Ok solve))) result
            (state_of self.new) }
        ensures counted { OnOk result (IsCounted self.new) }
    {
        if !is_end(tokens) {
            return Err(LineStop::Fault(ScriptFault::BadCommand));
        }
        self.script.push(Keyword::Solve, &[])?;
        Ok(())
    }

    fn take_add(
        &mut self,
        f: &Formula,
        literals: &mut DistinctLiterals,
        tokens: &mut LineTokens,
    ) -> Result<(), LineStop>
        requires counted { IsCounted self.old }
        ensures line { IsMade
            (behind (state_of self.old) (command_of f.now (state_of self.old) (Some Keyword.Add) tokens.old))
            result (state_of self.new) }
        ensures counted { OnOk result (IsCounted self.new) }
    {
        if self.depth == 0 {
            return Err(LineStop::Fault(ScriptFault::NoFrame));
        }
        take_clause(f, tokens, literals)?;
        self.add(literals.items())
    }

    // Adds a clause, if one more is allowed.
    fn add(&mut self, clause: &[Lit]) -> Result<(), LineStop>
        requires counted { IsCounted self.old }
        ensures line { IsMade (behind (state_of self.old) (in_limit self.old.clauses clause.now))
            result (state_of self.new) }
        ensures counted { OnOk result (IsCounted self.new) }
    {
        if self.clauses >= MAX_CLAUSES {
            return Err(LineStop::Fault(ScriptFault::Limit));
        }
        self.script.push(Keyword::Add, clause)?;
        self.clauses += 1;
        Ok(())
    }
}

fn read_lines(alloc: Global, text: &[u8], f: &Formula) -> Result<ScriptReader, ScriptStop>
    requires { 1 + length text.now < 2 ^ 64 }
    ensures { IsStateReading (read_lines f.now (start f.now) (lines_from 1 text.now)) result }
{
    let mut reader = ScriptReader::new(alloc, f);
    let mut literals = DistinctLiterals::new(alloc);
    let mut lines = Lines::new(text, 1);
    while let Some(line) = lines.next() {
        if let Err(stop) = reader.take_line(f, &mut literals, line.text) {
            return Err(at_line(line.number, stop));
        }
    }
    Ok(reader)
}

/// Reads the text of a script that goes with a formula. A fault is the first refusal, by its line
/// and, within a line, in the order of [`ScriptFault`]; a clause's words are looked at one by one.
pub fn read_script(alloc: Global, text: &[u8], f: &Formula) -> Result<Script, ScriptStop>
    requires { 1 + length text.now < 2 ^ 64 }
    ensures { IsScriptReading (read_script f.now text.now) result }
{
    Ok(read_lines(alloc, text, f)?.script)
}

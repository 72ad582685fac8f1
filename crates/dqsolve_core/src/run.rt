//! A whole run: the words, the files, the search, and what is written.
//!
//! What is shown over two circuits is one clause by statuses (`ComparesTold`): at each status but
//! those of failures, what was written is the texts' first refusal or the command's answer for
//! their design. `told` is a record of one record a kind of command, so that a new command adds a
//! field and no clause.

ghost use Rattle.std.specs.Prelude.{◌≡◌, ℕ, ◌≤◌, ◌⊎◌, List, [], map, string_bytes, Some, IfOk};
ghost use Rattle.dq_io.specs.State.{state_of};
ghost use Rattle.headline.specs.BlackBoxes.{AnswersBoxes};
ghost use Rattle.dq_lits.specs.Formula.{IsWellFormed};
ghost use Rattle.cert_text.specs.Header.{max_count};
ghost use Rattle.hint_log.specs.ProductiveLog.{IsProductiveLog};
ghost use Rattle.planted_formulas.specs.Planted.{planted_formula};
ghost use Rattle.dq_runs.specs.Ending.{Ends, HasCauses};
ghost use Rattle.dq_runs.specs.Sinks.{sink_of};
ghost use Rattle.dqsolve_words.specs.Command.{Command, Comparison, solve, pec, defined, session, most_seed, least_size, most_size, default_steps};
ghost use Rattle.dqsolve_words.specs.Spelling.{spelled_command};
ghost use Rattle.dqsolve_words.specs.Words.{options_of, search_of, planting_of, comparison_of, defining_of, session_of};
ghost use Rattle.dqsolve_core.specs.OnePage.{ShowsHeadline, ShowsSession};
ghost use Rattle.dqsolve_core.specs.Outputs.{IsReported, IsSolveOutput, IsSolveLog, IsDemoOutput};
ghost use Rattle.dqsolve_core.specs.Report.{form_of};
ghost use Rattle.dqsolve_core.specs.Running.{IsDue, IsRunLog, IsOwnLog, steps_asked};
ghost use Rattle.dqsolve_core.specs.ToldCircuits.{AreCircuitsTold};
ghost use Rattle.dqsolve_core.specs.Told.{IsTold, ShowsTold};
ghost use Rattle.dqsolve_core.specs.ToldSessions.{IsSessionTold};

use crate::demos::demo_output;
use box_laws::laws::designs_are_on_the_page;
use definition_runs::define_file;
use dq_formula::Formula;
use dq_io::{Files, Sink};
use dq_lits::Memory;
use dq_runs::{FormulaStop, Output, deliver, outputs, read_formula};
use dq_verdicts::{solve, solve_prepared};
use dqdimacs_reader::laws::formula_or_first_fault;
use dqsolve_words::laws::numbers_are_in_range;
use dqsolve_words::{
    CommandWords, DefiningWords, DemoWords, PecWords, SessionWords, SolveOptions, SolveWords,
    command_words,
};
use headline_laws::laws::{accepted_circuits_are_on_the_page, formulas_are_on_the_page};
use hint_log::Log;
use pec_front::laws::{certified_boxes_fit, design_formulas_are_well_formed, fitting_boxes_choose};
use pec_runs::{DesignStop, encode, read_design_formula};
use planted_formulas::planted_formula;
use session_laws::laws::sessions_are_on_the_page;
use session_runs::session_files;
use std::alloc::Global;
use verdict_texts::Form;

/// The most steps of a search on a planted formula.
const DEFAULT_STEPS: u64 = 1_000_000;

/// The commands, as the usage line has them.
const COMMANDS: &str = concat!(
    "dqsolve solve [--steps N] [--bare] [--v2] [--prep] [--binary] FILE / dqsolve demo SEED SIZE",
    " / dqsolve pec [--steps N] SPEC IMPL / dqsolve encode SPEC IMPL",
    " / dqsolve defined [--steps N] FILE",
    " / dqsolve session [--steps N] FILE SCRIPT",
);

/// Decides the formula in a file, and writes the verdict with a certificate; or decides a planted
/// formula, judges the certificate, and writes a line on it; or decides whether the black boxes of a
/// circuit can be filled as its specification asks, or writes the formula of that question; or
/// writes the definitions of the existentials of the formula in a file; or decides it once for each
/// search that a script asks for, with the clauses that the script has added by then.
///
/// The words are the program's name and those of one command (`COMMANDS`), spelled as
/// `spelled_command` of `dqsolve_words` says. The log is emptied first, and then has the search's
/// entries. The status is 10 where the formula is true, 20 where it is false, 30 where definitions
/// were written, 0 where the steps didn't suffice, the formula was written or a script's searches
/// were made, 1 where the words are others, 2 where the formula's text has a fault, 3 where a file
/// can't be read, 4 where the text can't be written, 5 for want of memory, 6 where a file is too
/// long, and 7 where a circuit, its boxes or a script are refused.
pub fn dqsolve_run<F: Files, K: Sink>(
    alloc: Global,
    words: &[String],
    files: &mut F,
    out: &mut K,
    log: &mut Log,
) -> u8
    // What is written is the text that is due, and the status is that text's.
    ensures ends { Ends
        (IsDue (state_of F.Files files.old) (state_of F.Files files.new) log.new
        (spelled_command (map string_bytes words.now)))
        (sink_of K.Sink out.old) (sink_of K.Sink out.new) result }

    // The log is the run's own.
    ensures log { IsOwnLog (state_of F.Files files.old)
        (spelled_command (map string_bytes words.now)) log.new result }

    // Over files that are told, what is written is right, and where nothing failed, there is an
    // answer: a verdict on a formula, a line on a planted one, a verdict on the boxes of a design or
    // its formula, the first refusal of two circuits, the definitions of a formula, or a verdict for
    // each search of a script.
    ensures told { ShowsTold (state_of F.Files files.old) (state_of F.Files files.new)
        (spelled_command (map string_bytes words.now)) log.new
        (sink_of K.Sink out.old) (sink_of K.Sink out.new) result }

    // On one page: over a formula that is told, what is written with 10 and with 20 is right of its
    // text.
    ensures headline { (formula : List ℕ)
        → IsTold (F.held files.old) (spelled_command (map string_bytes words.now)) formula
        → (result ≡ 10) ⊎ (result ≡ 20) → ShowsHeadline formula (sink_of K.Sink out.old).taken
        (sink_of K.Sink out.new).taken result }

    // On the page of black boxes: over two circuits that are told, 10 and 20 are right of their
    // texts.
    ensures boxes { (c : Comparison) (specification implementation : List ℕ)
        → spelled_command (map string_bytes words.now) ≡ Some (pec c)
        → AreCircuitsTold (F.held files.old) c.circuits specification implementation
        → (result ≡ 10) ⊎ (result ≡ 20) → AnswersBoxes specification implementation result }

    // On the page of sessions: over a formula and a script that are told, what is written with 0 is
    // a block for each search of the script, right for the formula that it asks about.
    ensures session { (formula script : List ℕ)
        → IsSessionTold (F.held files.old) (spelled_command (map string_bytes words.now)) formula
        script → result ≡ 0 → ShowsSession formula script (sink_of K.Sink out.old).taken
        (sink_of K.Sink out.new).taken }

    // Each refusal has its cause, and no fault is passed over, over all files and sinks.
    ensures causes { HasCauses (spelled_command (map string_bytes words.now))
        (state_of F.Files files.old) (state_of F.Files files.new)
        (sink_of K.Sink out.old) (sink_of K.Sink out.new) result }
{
    formula_or_first_fault();
    certified_boxes_fit();
    fitting_boxes_choose();
    formulas_are_on_the_page();
    accepted_circuits_are_on_the_page();
    designs_are_on_the_page();
    sessions_are_on_the_page();
    let output = report(alloc, words, files, log);
    deliver(out, output)
}

// What is to be written.
fn report<F: Files>(
    alloc: Global,
    words: &[String],
    files: &mut F,
    log: &mut Log,
) -> Result<Output, Memory>
    ensures reported { IfOk result
        (IsReported (state_of F.Files files.old) (state_of F.Files files.new)
        (spelled_command (map string_bytes words.now)) log.new) }
    ensures log { IsRunLog (state_of F.Files files.old)
        (spelled_command (map string_bytes words.now)) log.new }
    ensures limit { IfOk result (λ _. (c : Command)
        → spelled_command (map string_bytes words.now) ≡ Some c → log.new.limit ≡ steps_asked c) }
    ensures held { F.held files.new ≡ F.held files.old }
{
    numbers_are_in_range();
    log.rewind(0);
    match command_words(alloc, words)? {
        None => outputs::usage(alloc, COMMANDS),
        Some(CommandWords::Solve(asked)) => report_file(alloc, asked, files, log),
        Some(CommandWords::Demo(asked)) => report_demo(alloc, asked, log),
        Some(CommandWords::Pec(asked)) => report_circuits(alloc, asked, files, log),
        Some(CommandWords::Encode(asked)) => encode(alloc, files, asked.spec, asked.imp),
        Some(CommandWords::Defined(asked)) => report_definitions(alloc, asked, files, log),
        Some(CommandWords::Session(asked)) => report_session(alloc, asked, files, log),
    }
}

// What is to be written of a planted formula.
fn report_demo(alloc: Global, asked: DemoWords, log: &mut Log) -> Result<Output, Memory>
    requires seed { asked.seed ≤ most_seed }
    requires least { least_size ≤ asked.size }
    requires most { asked.size ≤ most_size }
    ensures demonstrated { IfOk result (IsDemoOutput (planting_of asked) log.new) }
    ensures limit { log.new.limit ≡ default_steps }
    ensures log { (log.new.entries ≡ [])
        ⊎ IsProductiveLog (planted_formula asked.seed asked.size) log.new.entries }
{
    log.rewind(DEFAULT_STEPS);
    let f = planted_formula(alloc, asked.seed, asked.size)?;
    demo_output(alloc, asked, &f, log)
}

// What is to be written of two circuits that are compared.
fn report_circuits<F: Files>(
    alloc: Global,
    comparison: PecWords,
    files: &mut F,
    log: &mut Log,
) -> Result<Output, Memory>
    requires steps { comparison.steps ≤ max_count }
    ensures reported { IfOk result
        (IsReported (state_of F.Files files.old) (state_of F.Files files.new)
        (Some (pec (comparison_of comparison.entry))) log.new) }
    ensures log { IsRunLog (state_of F.Files files.old)
        (Some (pec (comparison_of comparison.entry))) log.new }
    ensures limit { log.new.limit ≡ comparison.entry.steps }
    ensures held { F.held files.new ≡ F.held files.old }
{
    design_formulas_are_well_formed();
    log.rewind(comparison.steps);
    match read_design_formula(
        alloc,
        files,
        comparison.circuits.spec,
        comparison.circuits.imp,
    ) {
        Ok(formula) => {
            let form = Form {
                bare: false,
                deletes: false,
                binary: false,
            };
            solve(alloc, &formula, form, log)
        }
        Err(DesignStop::Memory) => Err(Memory),
        Err(DesignStop::Said(said)) => said.output(alloc),
    }
}

// What is to be written where the definitions of the formula in a file are asked for.
fn report_definitions<F: Files>(
    alloc: Global,
    defining: DefiningWords,
    files: &mut F,
    log: &mut Log,
) -> Result<Output, Memory>
    ensures reported { IfOk result
        (IsReported (state_of F.Files files.old) (state_of F.Files files.new)
        (Some (defined (defining_of defining.entry))) log.new) }
    ensures log { IsRunLog (state_of F.Files files.old)
        (Some (defined (defining_of defining.entry))) log.new }
    ensures limit { log.new.limit ≡ defining.entry.steps }
    ensures held { F.held files.new ≡ F.held files.old }
{
    log.rewind(defining.steps);
    define_file(alloc, files, defining.file, log)
}

// What is to be written where the searches of a script are asked for.
fn report_session<F: Files>(
    alloc: Global,
    asked: SessionWords,
    files: &mut F,
    log: &mut Log,
) -> Result<Output, Memory>
    requires steps { asked.steps ≤ max_count }
    ensures reported { IfOk result
        (IsReported (state_of F.Files files.old) (state_of F.Files files.new)
        (Some (session (session_of asked.entry))) log.new) }
    ensures log { IsRunLog (state_of F.Files files.old)
        (Some (session (session_of asked.entry))) log.new }
    ensures limit { log.new.limit ≡ asked.entry.steps }
    ensures held { F.held files.new ≡ F.held files.old }
{
    log.rewind(asked.steps);
    session_files(alloc, files, asked.file, asked.script, log)
}

// What is to be written where the words name a file.
fn report_file<F: Files>(
    alloc: Global,
    asked: SolveWords,
    files: &mut F,
    log: &mut Log,
) -> Result<Output, Memory>
    requires steps { asked.steps ≤ max_count }
    ensures reported { IfOk result
        (IsReported (state_of F.Files files.old) (state_of F.Files files.new)
        (Some (solve (search_of asked.entry))) log.new) }
    ensures log { IsRunLog (state_of F.Files files.old)
        (Some (solve (search_of asked.entry))) log.new }
    ensures limit { log.new.limit ≡ asked.entry.steps }
    ensures held { F.held files.new ≡ F.held files.old }
{
    log.rewind(asked.steps);
    match read_formula(alloc, files, asked.file) {
        Ok(formula) => solve_with(alloc, &formula, asked.options, log),
        Err(FormulaStop::Memory) => Err(Memory),
        Err(FormulaStop::Said(said)) => said.output(alloc),
    }
}

// Searches with these options.
#[tactic(auto, using(crate::proofs::Runs::alone_output, crate::proofs::Runs::left_output, crate::proofs::Runs::alone_log, crate::proofs::Runs::left_log))]
fn solve_with(
    alloc: Global,
    f: &Formula,
    options: SolveOptions,
    log: &mut Log,
) -> Result<Output, Memory>
    requires formula { IsWellFormed f.now }
    requires empty { log.old.entries ≡ [] }
    requires limit { log.old.limit ≤ max_count }
    ensures verdict { IfOk result (IsSolveOutput f.now log.new (options_of options)) }
    ensures work { IsSolveLog f.now options.prepares log.new }
    ensures limit { log.new.limit ≡ log.old.limit }
{
    let form = form_of(options);
    if options.prepares {
        return solve_prepared(alloc, f, form, log);
    }
    solve(alloc, f, form, log)
}

// How a verdict is written with these options.
fn form_of(options: SolveOptions) -> Form
    ensures { result ≡ form_of (options_of options) }
{
    Form {
        bare: options.bare,
        deletes: options.deletes,
        binary: options.binary,
    }
}

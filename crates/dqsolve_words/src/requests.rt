//! What the words ask for.

ghost use Rattle.std.specs.Prelude.{◌≡◌, [], ◌∷◌, ◌++◌, false, map, string_bytes, Option, Some, None, MatchOption, option_map, option_and_then, codes, IfOk};
ghost use Rattle.clap.specs.Simple.{app_of, shape_of, subcommand_rows_of, with_subcommand, new_shape, Shape};
ghost use Rattle.clap.specs.Walk.{rows_of, rule_of};
ghost use Rattle.clap.specs.Matches.{found_of};
ghost use Rattle.clap.specs.declared.builder.command.Command.TheViews.{out-Command};
ghost use Rattle.dqsolve_words.specs.Command.{solve, demo, pec, encode, defined, session, asked_of, solve_in, demo_in, circuits_in, pec_in, defined_in, session_in, steps_in, number_in, has_flag, options_in, most_seed, least_size, most_size};
ghost use Rattle.dqsolve_words.specs.Parsed.{command_in, given_in, bare_app, formula_app, circuit_app, solver_app, writing_options, solve_options, without_flags, solve_shape, demo_shape, pec_shape, encode_shape, defined_shape, session_shape, required_word, value_option, flag};
ghost use Rattle.dqsolve_words.specs.Spelling.{spelled_command};
ghost use Rattle.dqsolve_words.specs.Words.{options_of, search_of, planting_of, circuits_of, comparison_of, defining_of, session_of, command_said};

use clap::error::ErrorKind;
use clap::{Arg, ArgAction, ArgMatches, Command};
use dq_lits::Memory;
use std::alloc::{AllocError, Global};

/// The least number of steps that can be asked for.
const LEAST_STEPS: u64 = 1;

/// The greatest number of steps that can be asked for.
const MOST_STEPS: u64 = 1_000_000_000;

/// The number of steps where none is asked for.
const DEFAULT_STEPS: u64 = 1_000_000;

/// The greatest seed.
const MOST_SEED: u64 = 2_147_483_647;

/// The least size.
const LEAST_SIZE: u64 = 1;

/// The greatest size.
const MOST_SIZE: u64 = 10_000;

/// How a verdict is found and written: without the line that names it, with a deletion behind the
/// last line of the proof that hints a derived clause, by a search on what unit propagation with
/// universal reduction leaves of the formula, and with a circuit in AIGER's binary form.
#[derive(Clone, Copy)]
pub struct SolveOptions {
    pub bare: bool,
    pub deletes: bool,
    pub prepares: bool,
    pub binary: bool,
}

/// A search with so many steps at most, how its verdict is written, and the name of the formula's
/// file.
#[derive(Clone, Copy)]
pub struct SolveWords<'a> {
    pub steps: u64,
    pub options: SolveOptions,
    pub file: &'a str,
}

/// A search on the formula that is planted by a seed, in a size.
#[derive(Clone, Copy)]
pub struct DemoWords {
    pub seed: u64,
    pub size: u64,
}

/// The names of the files of a specification, and of an implementation with black boxes.
#[derive(Clone, Copy)]
pub struct CircuitWords<'a> {
    pub spec: &'a str,
    pub imp: &'a str,
}

/// A search for functions that fill the boxes, with so many steps at most.
#[derive(Clone, Copy)]
pub struct PecWords<'a> {
    pub steps: u64,
    pub circuits: CircuitWords<'a>,
}

/// A search for the definitions of the existentials of the formula in a file, with so many steps
/// at most.
#[derive(Clone, Copy)]
pub struct DefiningWords<'a> {
    pub steps: u64,
    pub file: &'a str,
}

/// A script's searches over the formula in a file, with so many steps at most in all.
#[derive(Clone, Copy)]
pub struct SessionWords<'a> {
    pub steps: u64,
    pub file: &'a str,
    pub script: &'a str,
}

/// What the words ask for.
#[derive(Clone, Copy)]
pub enum CommandWords<'a> {
    Solve(SolveWords<'a>),
    Demo(DemoWords),
    Pec(PecWords<'a>),
    Encode(CircuitWords<'a>),
    Defined(DefiningWords<'a>),
    Session(SessionWords<'a>),
}

// An argument that is known by its place, has to be there, and is given once.
fn word_argument<'a>(alloc: Global, id: &'a str) -> Arg<'a>
    ensures rule { rule_of result ≡ required_word id.entry.now }
    ensures local { result.global ≡ false }
{
    Arg::new(alloc, id).required(true).action(ArgAction::Set)
}

// `--ID VALUE`.
fn option_argument<'a>(alloc: Global, id: &'a str) -> Arg<'a>
    ensures rule { rule_of result ≡ value_option id.entry.now }
    ensures local { result.global ≡ false }
{
    Arg::new(alloc, id).long(id).action(ArgAction::Set)
}

// `--ID`.
fn flag_argument<'a>(alloc: Global, id: &'a str) -> Arg<'a>
    ensures rule { rule_of result ≡ flag id.entry.now }
    ensures local { result.global ≡ false }
{
    Arg::new(alloc, id).long(id).action(ArgAction::SetTrue)
}

// A command without flags of clap's own.
fn plain_command<'a>(alloc: Global, name: &'a str) -> Command<'a>
    ensures shape { shape_of result ≡ without_flags (new_shape name.entry.now) }
    ensures local { (out-Command result).has_globals ≡ false }
{
    Command::new(alloc, name)
        .disable_help_flag(true)
        .disable_version_flag(true)
}

// A command with one more argument. It says no more of clap's command than is needed here, since each
// caller's proof is searched for among all that is said.
fn with_argument<'a>(command: Command<'a>, argument: Arg<'a>) -> Result<Command<'a>, AllocError>
    requires { argument.global ≡ false }
    ensures shape { IfOk result (λ new. shape_of new ≡ record (shape_of command.entry) {
      rules = (shape_of command.entry).rules ++ rule_of argument.entry ∷ [];
    }) }
    ensures local { IfOk result (λ new. (out-Command new).has_globals
        ≡ (out-Command command.entry).has_globals) }
{
    command.arg(argument)
}

// `solve [--steps N] [--bare] [--v2]`.
fn writing_options<'a>(alloc: Global) -> Result<Command<'a>, AllocError>
    ensures shape { IfOk result
        (λ command. shape_of command ≡ record solve_shape { rules = writing_options }) }
    ensures local { IfOk result (λ command. (out-Command command).has_globals ≡ false) }
{
    let command = plain_command(alloc, "solve");
    let command = with_argument(command, option_argument(alloc, "steps"))?;
    let command = with_argument(command, flag_argument(alloc, "bare"))?;
    with_argument(command, flag_argument(alloc, "v2"))
}

// `solve [--steps N] [--bare] [--v2] [--prep] [--binary]`.
fn solve_options<'a>(alloc: Global) -> Result<Command<'a>, AllocError>
    ensures shape { IfOk result
        (λ command. shape_of command ≡ record solve_shape { rules = solve_options }) }
    ensures local { IfOk result (λ command. (out-Command command).has_globals ≡ false) }
{
    let command = writing_options(alloc)?;
    let command = with_argument(command, flag_argument(alloc, "prep"))?;
    with_argument(command, flag_argument(alloc, "binary"))
}

// `solve [--steps N] [--bare] [--v2] [--prep] [--binary] FILE`.
fn solve_command<'a>(alloc: Global) -> Result<Command<'a>, AllocError>
    ensures shape { IfOk result (λ command. shape_of command ≡ solve_shape) }
    ensures local { IfOk result (λ command. (out-Command command).has_globals ≡ false) }
{
    let command = solve_options(alloc)?;
    with_argument(command, word_argument(alloc, "FILE"))
}

// `demo SEED SIZE`.
fn demo_command<'a>(alloc: Global) -> Result<Command<'a>, AllocError>
    ensures shape { IfOk result (λ command. shape_of command ≡ demo_shape) }
    ensures local { IfOk result (λ command. (out-Command command).has_globals ≡ false) }
{
    let command = plain_command(alloc, "demo");
    let command = with_argument(command, word_argument(alloc, "SEED"))?;
    with_argument(command, word_argument(alloc, "SIZE"))
}

// `pec [--steps N] SPEC IMPL`.
fn pec_command<'a>(alloc: Global) -> Result<Command<'a>, AllocError>
    ensures shape { IfOk result (λ command. shape_of command ≡ pec_shape) }
    ensures local { IfOk result (λ command. (out-Command command).has_globals ≡ false) }
{
    let command = plain_command(alloc, "pec");
    let command = with_argument(command, option_argument(alloc, "steps"))?;
    let command = with_argument(command, word_argument(alloc, "SPEC"))?;
    with_argument(command, word_argument(alloc, "IMPL"))
}

// `encode SPEC IMPL`.
fn encode_command<'a>(alloc: Global) -> Result<Command<'a>, AllocError>
    ensures shape { IfOk result (λ command. shape_of command ≡ encode_shape) }
    ensures local { IfOk result (λ command. (out-Command command).has_globals ≡ false) }
{
    let command = plain_command(alloc, "encode");
    let command = with_argument(command, word_argument(alloc, "SPEC"))?;
    with_argument(command, word_argument(alloc, "IMPL"))
}

// `defined [--steps N] FILE`.
fn defined_command<'a>(alloc: Global) -> Result<Command<'a>, AllocError>
    ensures shape { IfOk result (λ command. shape_of command ≡ defined_shape) }
    ensures local { IfOk result (λ command. (out-Command command).has_globals ≡ false) }
{
    let command = plain_command(alloc, "defined");
    let command = with_argument(command, option_argument(alloc, "steps"))?;
    with_argument(command, word_argument(alloc, "FILE"))
}

// `session [--steps N] FILE SCRIPT`.
fn session_command<'a>(alloc: Global) -> Result<Command<'a>, AllocError>
    ensures shape { IfOk result (λ command. shape_of command ≡ session_shape) }
    ensures local { IfOk result (λ command. (out-Command command).has_globals ≡ false) }
{
    let command = plain_command(alloc, "session");
    let command = with_argument(command, option_argument(alloc, "steps"))?;
    let command = with_argument(command, word_argument(alloc, "FILE"))?;
    with_argument(command, word_argument(alloc, "SCRIPT"))
}

// A command with one more subcommand, if there was memory for that. What is built so far is let go
// here alone, by a call: each `?` behind which a command goes out of scope costs the prover more than
// all else that a function here does.
fn with_subcommand<'a>(
    command: Command<'a>,
    added: Result<Command<'a>, AllocError>,
) -> Result<Command<'a>, AllocError>
    ensures { (shape : Shape)
        → IfOk added.entry (λ sub. shape_of sub ≡ shape)
        → IfOk added.entry (λ sub. (out-Command sub).has_globals ≡ false)
        → IfOk result (λ new. app_of new ≡ with_subcommand (app_of command.entry) shape) }
{
    match added {
        Ok(sub) => command.subcommand(sub),
        Err(error) => {
            drop(command);
            Err(error)
        }
    }
}

// `dqsolve` without subcommands, not even `help`.
fn bare_command<'a>(alloc: Global) -> Command<'a>
    ensures { app_of result ≡ bare_app }
{
    Command::new(alloc, "dqsolve")
        .disable_help_flag(true)
        .disable_version_flag(true)
        .disable_help_subcommand(true)
}

// `dqsolve`, with the subcommands on formulas.
fn formula_command<'a>(alloc: Global) -> Result<Command<'a>, AllocError>
    ensures { IfOk result (λ command. app_of command ≡ formula_app) }
{
    let command = with_subcommand(bare_command(alloc), solve_command(alloc))?;
    with_subcommand(command, demo_command(alloc))
}

// `dqsolve`, with those on circuits too.
fn circuit_command<'a>(alloc: Global) -> Result<Command<'a>, AllocError>
    ensures { IfOk result (λ command. app_of command ≡ circuit_app) }
{
    let formulas = formula_command(alloc)?;
    let command = with_subcommand(formulas, pec_command(alloc))?;
    with_subcommand(command, encode_command(alloc))
}

// `dqsolve`, with its subcommands.
fn solver_command<'a>(alloc: Global) -> Result<Command<'a>, AllocError>
    ensures { IfOk result (λ command. app_of command ≡ solver_app) }
{
    let circuits = circuit_command(alloc)?;
    let command = with_subcommand(circuits, defined_command(alloc))?;
    with_subcommand(command, session_command(alloc))
}

// A number in a range.
fn number_in(text: &str, least: u64, most: u64) -> Option<u64>
    ensures { result ≡ number_in least most text.now }
{
    let Ok(number) = text.parse::<u64>() else {
        return None;
    };
    if least <= number && number <= most {
        Some(number)
    } else {
        None
    }
}

// How many steps the matches ask for.
fn steps_in<'a>(matches: &ArgMatches<'a>) -> Option<u64>
    ensures { result ≡ steps_in (given_in (rows_of (found_of matches.now))) }
{
    match matches.get_str("steps") {
        Some(text) => number_in(text, LEAST_STEPS, MOST_STEPS),
        None => Some(DEFAULT_STEPS),
    }
}

// Whether the matches have a flag.
fn has_flag<'a>(matches: &ArgMatches<'a>, id: &str) -> bool
    ensures { result ≡ has_flag id.now (given_in (rows_of (found_of matches.now))) }
{
    match matches.get_str(id) {
        Some(value) => value == "true",
        None => false,
    }
}

// The flags that the matches have.
fn options_in<'a>(matches: &ArgMatches<'a>) -> SolveOptions
    ensures { options_of result ≡ options_in (given_in (rows_of (found_of matches.now))) }
{
    SolveOptions {
        bare: has_flag(matches, "bare"),
        deletes: has_flag(matches, "v2"),
        prepares: has_flag(matches, "prep"),
        binary: has_flag(matches, "binary"),
    }
}

// What the matches of `solve` ask for.
fn solve_in<'a>(matches: &ArgMatches<'a>) -> Option<SolveWords<'a>>
    ensures { option_map search_of result ≡ solve_in (given_in (rows_of (found_of matches.now))) }
{
    let Some(file) = matches.get_str("FILE") else {
        return None;
    };
    let Some(steps) = steps_in(matches) else {
        return None;
    };
    let options = options_in(matches);
    Some(SolveWords {
        steps,
        options,
        file,
    })
}

// The number in a range that the matches give a name.
fn named_number<'a>(matches: &ArgMatches<'a>, id: &str, least: u64, most: u64) -> Option<u64>
    ensures { result
        ≡ option_and_then (number_in least most)
        (given_in (rows_of (found_of matches.now)) id.now) }
{
    match matches.get_str(id) {
        Some(text) => number_in(text, least, most),
        None => None,
    }
}

// What the matches of `demo` ask for.
fn demo_in<'a>(matches: &ArgMatches<'a>) -> Option<DemoWords>
    ensures { option_map planting_of result ≡ demo_in (given_in (rows_of (found_of matches.now))) }
{
    let Some(seed) = named_number(matches, "SEED", 0, MOST_SEED) else {
        return None;
    };
    let Some(size) = named_number(matches, "SIZE", LEAST_SIZE, MOST_SIZE) else {
        return None;
    };
    Some(DemoWords { seed, size })
}

// The files that the matches name.
fn circuits_in<'a>(matches: &ArgMatches<'a>) -> Option<CircuitWords<'a>>
    ensures { option_map circuits_of result ≡ circuits_in (given_in (rows_of (found_of matches.now))) }
{
    let Some(spec) = matches.get_str("SPEC") else {
        return None;
    };
    let Some(imp) = matches.get_str("IMPL") else {
        return None;
    };
    Some(CircuitWords { spec, imp })
}

// What the matches of `pec` ask for.
fn pec_in<'a>(matches: &ArgMatches<'a>) -> Option<PecWords<'a>>
    ensures { option_map comparison_of result ≡ pec_in (given_in (rows_of (found_of matches.now))) }
{
    let Some(circuits) = circuits_in(matches) else {
        return None;
    };
    let Some(steps) = steps_in(matches) else {
        return None;
    };
    Some(PecWords { steps, circuits })
}

// What the matches of `defined` ask for.
fn defined_in<'a>(matches: &ArgMatches<'a>) -> Option<DefiningWords<'a>>
    ensures { option_map defining_of result ≡ defined_in (given_in (rows_of (found_of matches.now))) }
{
    let Some(file) = matches.get_str("FILE") else {
        return None;
    };
    let Some(steps) = steps_in(matches) else {
        return None;
    };
    Some(DefiningWords { steps, file })
}

// What the matches of `session` ask for.
fn session_in<'a>(matches: &ArgMatches<'a>) -> Option<SessionWords<'a>>
    ensures { option_map session_of result ≡ session_in (given_in (rows_of (found_of matches.now))) }
{
    let Some(file) = matches.get_str("FILE") else {
        return None;
    };
    let Some(script) = matches.get_str("SCRIPT") else {
        return None;
    };
    let Some(steps) = steps_in(matches) else {
        return None;
    };
    Some(SessionWords {
        steps,
        file,
        script,
    })
}

// What the matches of `solve` ask for, as a command.
fn solve_asked<'a>(matches: &ArgMatches<'a>) -> Option<CommandWords<'a>>
    ensures { option_map command_said result
        ≡ option_map solve (solve_in (given_in (rows_of (found_of matches.now)))) }
{
    match solve_in(matches) {
        Some(search) => Some(CommandWords::Solve(search)),
        None => None,
    }
}

// What the matches of `demo` ask for, as a command.
fn demo_asked<'a>(matches: &ArgMatches<'a>) -> Option<CommandWords<'a>>
    ensures { option_map command_said result
        ≡ option_map demo (demo_in (given_in (rows_of (found_of matches.now)))) }
{
    match demo_in(matches) {
        Some(planting) => Some(CommandWords::Demo(planting)),
        None => None,
    }
}

// What the matches of `pec` ask for, as a command.
fn pec_asked<'a>(matches: &ArgMatches<'a>) -> Option<CommandWords<'a>>
    ensures { option_map command_said result
        ≡ option_map pec (pec_in (given_in (rows_of (found_of matches.now)))) }
{
    match pec_in(matches) {
        Some(comparison) => Some(CommandWords::Pec(comparison)),
        None => None,
    }
}

// What the matches of `encode` ask for, as a command.
fn encode_asked<'a>(matches: &ArgMatches<'a>) -> Option<CommandWords<'a>>
    ensures { option_map command_said result
        ≡ option_map encode (circuits_in (given_in (rows_of (found_of matches.now)))) }
{
    match circuits_in(matches) {
        Some(circuits) => Some(CommandWords::Encode(circuits)),
        None => None,
    }
}

// What the matches of `defined` ask for, as a command.
fn defined_asked<'a>(matches: &ArgMatches<'a>) -> Option<CommandWords<'a>>
    ensures { option_map command_said result
        ≡ option_map defined (defined_in (given_in (rows_of (found_of matches.now)))) }
{
    match defined_in(matches) {
        Some(defining) => Some(CommandWords::Defined(defining)),
        None => None,
    }
}

// What the matches of `session` ask for, as a command.
fn session_asked<'a>(matches: &ArgMatches<'a>) -> Option<CommandWords<'a>>
    ensures { option_map command_said result
        ≡ option_map session (session_in (given_in (rows_of (found_of matches.now)))) }
{
    match session_in(matches) {
        Some(asked) => Some(CommandWords::Session(asked)),
        None => None,
    }
}

// What the matches ask of the subcommand of a name.
fn asked_of<'a>(name: &str, matches: &ArgMatches<'a>) -> Option<CommandWords<'a>>
    ensures { option_map command_said result ≡ asked_of name.now (given_in (rows_of (found_of matches.now))) }
{
    if name == "demo" {
        return demo_asked(matches);
    }
    if name == "pec" {
        return pec_asked(matches);
    }
    if name == "encode" {
        return encode_asked(matches);
    }
    if name == "defined" {
        return defined_asked(matches);
    }
    if name == "session" {
        return session_asked(matches);
    }
    solve_asked(matches)
}

// What the matches ask for.
fn command_in<'a>(matches: &ArgMatches<'a>) -> Option<CommandWords<'a>>
    ensures { option_map command_said result ≡ command_in (subcommand_rows_of matches.now) }
{
    match matches.subcommand() {
        Some((name, matches)) => asked_of(name, matches),
        None => None,
    }
}

/// What the words ask for; `None` where they are refused. The first word is the program's own name.
pub fn command_words<'a>(
    alloc: Global,
    words: &'a [String],
) -> Result<Option<CommandWords<'a>>, Memory>
    ensures { IfOk result
        (λ answer. option_map command_said answer ≡ spelled_command (map string_bytes words.now)) }
{
    let command = solver_command(alloc)?;
    match command.try_get_matches_from(words) {
        Ok(matches) => Ok(command_in(&matches)),
        Err(error) => match error.kind() {
            ErrorKind::OutOfMemory => Err(Memory),
            _ => Ok(None),
        },
    }
}

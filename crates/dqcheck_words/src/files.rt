//! The names that the words give.

ghost use Rattle.std.specs.Prelude.{◌≡◌, false, map, string_bytes, Some, None, MatchOption, IfOk};
ghost use Rattle.clap.specs.Words.{app_of, found_of, rows_of, rule_of};
ghost use Rattle.dqcheck_words.specs.Parsed.{checker_app, required_file, HasNames, named_by};
ghost use Rattle.dqcheck_words.specs.Spelling.{spelled_command};

use clap::error::ErrorKind;
use clap::{Arg, ArgAction, ArgMatches, Command};
use dq_lits::Memory;
use std::alloc::{AllocError, Global};

/// The names of the formula's and of the certificate's file.
#[derive(Clone, Copy)]
pub struct FileNames<'a> {
    pub formula: &'a str,
    pub certificate: &'a str,
}

// An argument that is known by its place, has to be there, and is given once.
fn file_argument<'a>(alloc: Global, id: &'a str) -> Arg<'a>
    ensures rule { rule_of result ≡ required_file id.entry.now }
    ensures local { result.global ≡ false }
{
    Arg::new(alloc, id).required(true).action(ArgAction::Set)
}

// `dqcheck FORMULA CERT`, without flags.
fn checker_command<'a>(alloc: Global) -> Result<Command<'a>, AllocError>
    ensures { IfOk result (λ command. app_of command ≡ checker_app) }
{
    let formula = file_argument(alloc, "FORMULA");
    let certificate = file_argument(alloc, "CERT");
    Command::new(alloc, "dqcheck")
        .disable_help_flag(true)
        .disable_version_flag(true)
        .arg(formula)?
        .arg(certificate)
}

// The names in the matches, which have both.
fn names_in<'a>(matches: &ArgMatches<'a>) -> FileNames<'a>
    requires { HasNames (rows_of (found_of matches.now)) }
    ensures { named_by (rows_of (found_of matches.now))
        ≡ record { formula = result.formula.now; certificate = result.certificate.now } }
{
    match (matches.get_str("FORMULA"), matches.get_str("CERT")) {
        (Some(formula), Some(certificate)) => FileNames {
            formula,
            certificate,
        },
        _ => unreachable!(),
    }
}

/// The names that the words give; `None` where the words are refused. The first word is the
/// program's own name.
pub fn file_names<'a>(alloc: Global, words: &'a [String]) -> Result<Option<FileNames<'a>>, Memory>
    ensures { IfOk result
        (λ answer. MatchOption answer (spelled_command (map string_bytes words.now) ≡ None)
        (λ names. spelled_command (map string_bytes words.now)
        ≡ Some (record { formula = names.formula.now; certificate = names.certificate.now }))) }
{
    let command = checker_command(alloc)?;
    match command.try_get_matches_from(words) {
        Ok(matches) => Ok(Some(names_in(&matches))),
        Err(error) => match error.kind() {
            ErrorKind::OutOfMemory => Err(Memory),
            _ => Ok(None),
        },
    }
}

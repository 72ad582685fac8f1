//! One command.

ghost use Rattle.std.specs.Prelude.{◌≡◌, OnOk, OnErr};
ghost use Rattle.script_text.specs.Commands.{command_seen};
ghost use Rattle.session_runs.specs.Following.{database_behind, MayCome};

use dq_lits::Memory;
use dq_session::ClauseDatabase;
use script_text::Command;

/// Takes a command into a database. Where it asks for a search, the database stays as it was, and so it does
/// where memory is wanting.
pub fn take(database: &mut ClauseDatabase, command: Command) -> Result<(), Memory>
    requires may_come { MayCome database.old (command_seen command) }
    ensures ok { OnOk result (database.new ≡ database_behind database.old (command_seen command.entry)) }
    ensures err { OnErr result (database.new ≡ database.old) }
{
    match command {
        Command::Push => database.push(),
        Command::Add(literals) => database.add(literals),
        Command::Pop => {
            database.pop();
            Ok(())
        }
        Command::Solve => Ok(()),
    }
}

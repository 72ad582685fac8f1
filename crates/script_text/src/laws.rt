//! What a script that was read may be relied on for.

ghost use Rattle.script_text.specs.Lawful.{ScriptsAreAllowed};

/// Each command of a script may come where it stands: a frame is open for a clause and for an end,
/// and a clause has distinct literals on the formula's universals and existentials, within the
/// limit.
pub fn scripts_are_allowed()
    ensures { ScriptsAreAllowed }
{}

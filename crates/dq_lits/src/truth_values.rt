//! The value of a literal.

ghost use Rattle.std.specs.Prelude.{◌≡◌, if◌then◌else◌};

/// What a literal is where some literals are true.
#[derive(Clone, Copy, PartialEq, Eq)]
pub enum TruthValue {
    /// It is one of them.
    True,
    /// Its negation is.
    False,
    /// Neither is.
    Unassigned,
}

/// The value of a literal that is true or false.
pub fn truth_value(is_true: bool) -> TruthValue
    ensures { result ≡ (if is_true then TruthValue.True else TruthValue.False) }
{
    if is_true {
        TruthValue::True
    } else {
        TruthValue::False
    }
}

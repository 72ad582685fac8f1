//! The checks of a token where it stands, in their order; see `specs/Machine.antt` for the whole
//! table.
//!
//! Clauses and XOR lines are counted, not the matrix's clauses, since a header counts them; the
//! most clauses of a matrix are tested at each clause's zero. An XOR line of more than five
//! literals is refused: its clauses double with each literal, and fresh existentials part it.

ghost use Rattle.std.specs.Prelude.{◌≡◌, ◌≤◌, ◌<◌, length};
ghost use Rattle.std.specs.List.{list_any};
ghost use Rattle.dq_formula.specs.Xor.{xor_clauses};
ghost use Rattle.dqdimacs_reader.specs.Machine.{max_xor, wanted, is_p, is_cnf, check_natural, check_limit, check_entry, check_declared, check_dependent, check_dependency, check_part, check_literal, check_in_clause, check_room, check_in_xor, check_xor_end, check_xor_literal, stands_on};

use crate::faults::FormulaFault;
use crate::lexemes::Lexeme;
use dq_formula::{Formula, MAX_CLAUSES, MAX_XOR};
use dq_lits::Lit;

/// At the word `p`.
pub fn header_fault(lexeme: Lexeme) -> Option<FormulaFault>
    ensures { result ≡ wanted (is_p lexeme) }
{
    match lexeme {
        Lexeme::P => None,
        _ => Some(FormulaFault::NoHeader),
    }
}

/// At the word `cnf`.
pub fn format_fault(lexeme: Lexeme) -> Option<FormulaFault>
    ensures { result ≡ wanted (is_cnf lexeme) }
{
    match lexeme {
        Lexeme::Cnf => None,
        _ => Some(FormulaFault::NoHeader),
    }
}

/// At a number of the header.
pub fn limit_fault(lexeme: Lexeme, limit: u64) -> Option<FormulaFault>
    ensures { result ≡ check_natural lexeme (check_limit limit) }
{
    match lexeme {
        Lexeme::Natural(n) if n > limit => Some(FormulaFault::Limit),
        Lexeme::Natural(_) => None,
        Lexeme::Large => Some(FormulaFault::TooBig),
        _ => Some(FormulaFault::BadNumber),
    }
}

/// Inside a set.
pub fn declared_fault(formula: &Formula, lexeme: Lexeme) -> Option<FormulaFault>
    ensures { result
        ≡ check_entry lexeme (check_declared (record { clauses = 0; constraints = 0; formula = formula.now })) }
{
    match lexeme {
        Lexeme::P => Some(FormulaFault::HeaderTwice),
        Lexeme::Natural(0) => None,
        Lexeme::Natural(v) if v > formula.vars() => Some(FormulaFault::VarRange),
        Lexeme::Natural(v) if formula.is_declared(v) => Some(FormulaFault::DeclaredTwice),
        Lexeme::Natural(_) => None,
        Lexeme::Large => Some(FormulaFault::TooBig),
        _ => Some(FormulaFault::BadNumber),
    }
}

/// At the variable of an item.
#[inline(always)]
pub fn dependent_fault(formula: &Formula, lexeme: Lexeme) -> Option<FormulaFault>
    ensures { result
        ≡ check_entry lexeme (check_dependent (record { clauses = 0; constraints = 0; formula = formula.now })) }
{
    match lexeme {
        Lexeme::P => Some(FormulaFault::HeaderTwice),
        Lexeme::Natural(0) => Some(FormulaFault::EmptyD),
        Lexeme::Natural(v) if v > formula.vars() => Some(FormulaFault::VarRange),
        Lexeme::Natural(v) if formula.is_declared(v) => Some(FormulaFault::DeclaredTwice),
        Lexeme::Natural(_) => None,
        Lexeme::Large => Some(FormulaFault::TooBig),
        _ => Some(FormulaFault::BadNumber),
    }
}

/// At a dependency of an item.
#[inline(always)]
pub fn dependency_fault(formula: &Formula, lexeme: Lexeme) -> Option<FormulaFault>
    ensures { result
        ≡ check_entry lexeme (check_dependency (record { clauses = 0; constraints = 0; formula = formula.now })) }
{
    match lexeme {
        Lexeme::P => Some(FormulaFault::HeaderTwice),
        Lexeme::Natural(0) => None,
        Lexeme::Natural(v) if v > formula.vars() => Some(FormulaFault::VarRange),
        Lexeme::Natural(v) if formula.is_universal(v) => None,
        Lexeme::Natural(_) => Some(FormulaFault::NotUniversal),
        Lexeme::Large => Some(FormulaFault::TooBig),
        _ => Some(FormulaFault::BadNumber),
    }
}

/// At the start of a set, an item, a clause or an XOR line, where so many of the last two were read
/// of those that the header states.
#[inline(always)]
pub fn part_fault(
    formula: &Formula,
    constraints: u64,
    clauses: u64,
    lexeme: Lexeme,
) -> Option<FormulaFault>
    ensures { result
        ≡ check_part (record { clauses = clauses; constraints = constraints; formula = formula.now })
        lexeme }
{
    match lexeme {
        Lexeme::P => Some(FormulaFault::HeaderTwice),
        Lexeme::A | Lexeme::D | Lexeme::E if constraints > 0 => Some(FormulaFault::PrefixLate),
        Lexeme::A | Lexeme::D | Lexeme::E => None,
        Lexeme::Cnf | Lexeme::Other => Some(FormulaFault::BadNumber),
        Lexeme::Large | Lexeme::NegativeLarge => Some(FormulaFault::TooBig),
        Lexeme::X | Lexeme::Natural(_) | Lexeme::Negative(_) if constraints == clauses => Some(
            FormulaFault::TooManyClauses,
        ),
        Lexeme::X => None,
        Lexeme::Natural(v) | Lexeme::Negative(v) => number_fault(formula, v),
    }
}

/// Inside a clause.
#[inline(always)]
pub fn literal_fault(formula: &Formula, lexeme: Lexeme) -> Option<FormulaFault>
    ensures { result
        ≡ check_in_clause (record { clauses = 0; constraints = 0; formula = formula.now }) lexeme }
{
    match lexeme {
        Lexeme::P => Some(FormulaFault::HeaderTwice),
        Lexeme::A | Lexeme::D | Lexeme::E => Some(FormulaFault::PrefixLate),
        Lexeme::X | Lexeme::Cnf | Lexeme::Other => Some(FormulaFault::BadNumber),
        Lexeme::Large | Lexeme::NegativeLarge => Some(FormulaFault::TooBig),
        Lexeme::Natural(v) | Lexeme::Negative(v) => number_fault(formula, v),
    }
}

// A literal of a clause by its variable, or the zero that ends it.
#[inline(always)]
fn number_fault(formula: &Formula, v: u64) -> Option<FormulaFault>
    ensures { result
        ≡ check_literal (record { clauses = 0; constraints = 0; formula = formula.now }) v }
{
    if v == 0 {
        room_fault(formula, 1)
    } else if v > formula.vars() {
        Some(FormulaFault::VarRange)
    } else {
        None
    }
}

// Where so many clauses come to the matrix.
#[inline(always)]
fn room_fault(formula: &Formula, more: usize) -> Option<FormulaFault>
    requires { more ≤ 16 }
    ensures { result
        ≡ check_room (record { clauses = 0; constraints = 0; formula = formula.now }) more }
{
    if formula.clauses() + more > MAX_CLAUSES {
        Some(FormulaFault::Limit)
    } else {
        None
    }
}

/// Inside an XOR line, behind these literals.
pub fn xor_fault(formula: &Formula, literals: &[Lit], lexeme: Lexeme) -> Option<FormulaFault>
    requires few { length literals.now ≤ max_xor }
    ensures { result
        ≡ check_in_xor (record { clauses = 0; constraints = 0; formula = formula.now }) literals.now
        lexeme }
{
    match lexeme {
        Lexeme::P => Some(FormulaFault::HeaderTwice),
        Lexeme::A | Lexeme::D | Lexeme::E => Some(FormulaFault::PrefixLate),
        Lexeme::X | Lexeme::Cnf | Lexeme::Other => Some(FormulaFault::BadNumber),
        Lexeme::Large | Lexeme::NegativeLarge => Some(FormulaFault::TooBig),
        Lexeme::Natural(0) | Lexeme::Negative(0) => xor_end_fault(formula, literals),
        Lexeme::Natural(v) | Lexeme::Negative(v) => xor_literal_fault(formula, literals, v),
    }
}

// At the zero that ends an XOR line.
fn xor_end_fault(formula: &Formula, literals: &[Lit]) -> Option<FormulaFault>
    requires few { length literals.now ≤ max_xor }
    ensures { result
        ≡ check_xor_end (record { clauses = 0; constraints = 0; formula = formula.now })
        literals.now }
{
    if literals.is_empty() {
        return Some(FormulaFault::XorSize);
    }
    room_fault(formula, clauses_of_xor(literals))
}

// How many clauses an XOR line has: half of the choices of negated literals.
fn clauses_of_xor(literals: &[Lit]) -> usize
    requires some { 1 ≤ length literals.now }
    requires few { length literals.now ≤ max_xor }
    ensures value { result ≡ length (xor_clauses literals.now) }
    ensures few { result ≤ 16 }
{
    let size = literals.len();
    if size == 1 {
        1
    } else if size == 2 {
        2
    } else if size == 3 {
        4
    } else if size == 4 {
        8
    } else {
        16
    }
}

// At a literal of an XOR line.
fn xor_literal_fault(formula: &Formula, literals: &[Lit], v: u64) -> Option<FormulaFault>
    ensures { result
        ≡ check_xor_literal (record { clauses = 0; constraints = 0; formula = formula.now })
        literals.now v }
{
    if v > formula.vars() {
        Some(FormulaFault::VarRange)
    } else if literals.len() >= MAX_XOR {
        Some(FormulaFault::XorSize)
    } else if is_met(literals, v) {
        Some(FormulaFault::XorRepeat)
    } else {
        None
    }
}

// Whether one of the literals stands on the variable.
fn is_met(literals: &[Lit], v: u64) -> bool
    ensures { result ≡ list_any (stands_on v) literals.now }
{
    literals.iter().any(|l| l.var() == v)
}

//! The two programs that are run.

/// The checker or the solver.
#[derive(Clone, Copy)]
pub enum Program {
    Checker,
    Solver,
}

impl Program {
    pub fn is_checker(self) -> bool {
        match self {
            Program::Checker => true,
            Program::Solver => false,
        }
    }

    /// The program's own name, the first of its words.
    pub fn name(self) -> &'static str {
        match self {
            Program::Checker => "dqcheck",
            Program::Solver => "dqsolve",
        }
    }

    /// The words behind its name where a case gives no others.
    pub fn usual_words(self) -> &'static str {
        match self {
            Program::Checker => "formula certificate",
            Program::Solver => "solve formula",
        }
    }
}

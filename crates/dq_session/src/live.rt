//! Live clauses, and open frames.

/// A live clause, by its number from 1 on, and the frame that it is of; the file is frame 0.
#[derive(Clone, Copy)]
pub struct Live {
    pub clause: u64,
    pub frame: u64,
}

/// A frame that is open.
#[derive(Clone, Copy)]
pub(crate) struct OpenFrame {
    pub(crate) number: u64,
    // How many clauses were live when it was opened.
    pub(crate) start: usize,
}

//! Reading a text, whole or in pieces.
//!
//! An answer that the reader's state allows is right for the whole text, whatever bytes come behind
//! what was fed (`StandsFor`). A line's number that would pass 64 bits ends with want of memory; no
//! text is that long.

ghost use Rattle.std.specs.Prelude.{◌≡◌, ℕ, List, [], IfOk};
ghost use Rattle.dq_lits.specs.Formula.{HasLawfulPrefix, IsWellFormed};
ghost use Rattle.dqdimacs_reader.specs.Grammar.{SpellsFormula};
ghost use Rattle.dqdimacs_reader.specs.Machine.{reading};
ghost use Rattle.dqdimacs_reader.specs.Pieces.{StandsFor};
ghost use Rattle.dqdimacs_reader.specs.Reading.{IsReading, HasDistinctClauses};

use crate::faults::ReadStop;
use crate::token_reader::TokenReader;
use dq_formula::Formula;
use dq_io::Feed;
use dq_lits::Memory;
use dq_text::TokenPieces;
use dq_text::laws::{pieces_have_the_tokens, summaries_tell_words_and_numbers};
use std::alloc::Global;

/// Reads a DQDIMACS text: exactly the formula that it spells, or its first fault by line and name.
pub fn read(alloc: Global, bytes: &[u8]) -> Result<Formula, ReadStop>
    ensures exact { IsReading (reading bytes.now) result }
    ensures spelled { IfOk result (SpellsFormula bytes.now) }
    ensures well_formed { IfOk result IsWellFormed }
    ensures distinct { IfOk result HasDistinctClauses }
{
    let mut reader = Reader::new(alloc);
    reader.feed(bytes);
    reader.end()
}

/// Reads a DQDIMACS text that comes in pieces, however it is cut. It keeps the formula so far, and of
/// a token whose end didn't come yet a summary, whatever its length.
#[derive(Drop)]
pub struct Reader {
    pieces: TokenPieces,
    tokens: TokenReader,
}

impl Reader {
    /// Before the first piece. It takes no memory.
    pub fn new(alloc: Global) -> Reader
        ensures { StandsFor result [] }
    {
        summaries_tell_words_and_numbers();
        pieces_have_the_tokens();
        Reader {
            pieces: TokenPieces::new(),
            tokens: TokenReader::new(alloc),
        }
    }

    /// What `read` answers of all that was fed: a fault that was met, or want of memory, is told here.
    pub fn end(self) -> Result<Formula, ReadStop>
        ensures exact { (text : List ℕ) → StandsFor self text → IsReading (reading text) result }
        ensures spelled { (text : List ℕ) → StandsFor self text
            → IfOk result (SpellsFormula text) }
        ensures well_formed { (text : List ℕ) → StandsFor self text → IfOk result IsWellFormed }
        ensures distinct { (text : List ℕ) → StandsFor self text
            → IfOk result HasDistinctClauses }
    {
        finish(self)
    }
}

impl Feed for Reader {
    type Subject = ();

    ghost subject = { λ _. tt };

    ghost stands = { StandsFor };

    fn feed(&mut self, piece: &[u8]) {
        if self.tokens.is_stopped() {
            return;
        }
        match self.pieces.feed(&mut self.tokens, piece) {
            Ok(()) => {}
            Err(Memory) => self.tokens.lack_memory(),
        }
    }
}

fn finish(reader: Reader) -> Result<Formula, ReadStop>
    ensures exact { (text : List ℕ) → StandsFor reader text → IsReading (reading text) result }
    ensures lawful { IfOk result HasLawfulPrefix }
{
    let Reader { pieces, mut tokens } = reader;
    let last_line = pieces.end(&mut tokens)?;
    tokens.finish(last_line)
}

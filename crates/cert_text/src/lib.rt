//! The texts of certificates: which kind one is, and expansion refutations (`dqr`), circuits' proofs
//! (`dqp`) and definitions (`dqd`), read exactly.
#![tactic(auto)]

pub use circuit_proofs::Dqp;
pub use definition_blocks::{Definition, DefinitionBlock, FreePair, Valuation};
pub use definition_lines::read_definitions_header;
pub use definition_reader::{first_definition_id, read_block};
pub use definition_writer::{write_block, write_definitions_header};
pub use faults::{CertFault, CertRefusal, CertStop, LineStop, at_line, refused};
pub use first_lines::kind;
pub use headers::{ItemCount, RowsAndItems, read_header, read_proof_header};
pub use item_lines::{ItemRead, ProofLines, read_item};
pub use items::{Item, ItemList};
pub use kinds::Kind;
pub use line_ids::LineIds;
pub use pairs::Pairs;
pub use proof_reader::{first_proof_id, last_variable, read_dqp};
pub use reader::{first_id, read_blank_lines, read_dqr};
pub use refutations::Dqr;
pub use row_lines::{RowUniversals, read_row, read_signs};
pub use sign_words::universal_words;
pub use step_lines::StepBuffers;
pub use steps::{Step, StepList};
pub use variables::Variables;
pub use versions::Version;
pub use writer::{write_dqp, write_dqr};

mod circuit_proofs;
mod definition_blocks;
mod definition_lines;
mod definition_reader;
mod definition_writer;
pub mod examples;
mod faults;
mod first_lines;
mod headers;
mod item_lines;
mod item_lists;
mod items;
mod kinds;
pub mod laws;
mod line_ids;
mod live_lines;
mod numbers;
mod pairs;
mod plain_steps;
mod proof_reader;
mod reader;
mod refutations;
mod row_lines;
mod row_lists;
mod sign_words;
mod step_lines;
mod steps;
mod variables;
mod versions;
mod writer;

//! Files that are read by name, sinks that take bytes, and the causes of their failures.
//!
//! Code that reads or writes is generic over the traits `Files` and `Sink`. Their clauses say which
//! bytes go where, for objects that tell, and that each failure has a counted fault behind it.
//! `read_all`, `feed_all` and `write_all` do the loops. `MemFiles` and `MemSink` fail at given calls,
//! `NeverFailFiles` and `NeverFailSink` never do, and `RealFiles` and `RealSink` are the system's.
//! `command_words` gives the words that a program was started by.
#![tactic(auto)]

pub use errors::{Failed, FeedStop, ReadStop, SinkFault};
pub use feeding::{Feed, feed_all};
pub use files::Files;
pub use memory_files::MemFiles;
pub use memory_sink::MemSink;
pub use never_fail::{NeverFailFiles, NeverFailSink};
pub use reading::read_all;
pub use real::{RealFiles, RealSink};
pub use sinks::Sink;
pub use words::command_words;
pub use writing::write_all;

mod errors;
mod failures;
mod feeding;
mod files;
mod memory_files;
mod memory_sink;
mod never_fail;
mod reading;
mod real;
mod sinks;
mod store;
mod words;
mod writing;

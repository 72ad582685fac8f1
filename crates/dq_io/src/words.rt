//! The trusted edge: the words of the command line that the program was started by.
//!
//! The program's own name isn't looked at, so it need not be text. A later word that is no text
//! gives the usage line.

use std::env::FillError;
use std::rt::Env;
use std::{env, io};

/// The words of a program's command line, of which the first is its own name. Nothing looks at that
/// name, which need not be text, so an empty one stands in its place. An error's kind is
/// `OutOfMemory` for want of memory, and another where a later word is no text.
pub fn command_words(rt: &HostRuntime) -> io::Result<Vec<String>> {
    Ok(env::args(&(Unnamed { runtime: rt }, rt.alloc()))?.collect(rt.alloc())?)
}

// A runtime that doesn't tell the program's name.
#[derive(Drop)]
struct Unnamed<'a> {
    runtime: &'a HostRuntime,
}

impl<'a> Env for Unnamed<'a> {
    fn arg(&self, i: usize, buf: &mut [u8]) -> Result<usize, FillError> {
        if i == 0 {
            Ok(0)
        } else {
            self.runtime.arg(i, buf)
        }
    }

    fn var(&self, name: &str, buf: &mut [u8]) -> Result<usize, FillError> {
        self.runtime.var(name, buf)
    }

    fn var_at(&self, i: usize, buf: &mut [u8]) -> Result<usize, FillError> {
        self.runtime.var_at(i, buf)
    }
}

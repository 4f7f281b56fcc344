//! Sessions of lines: reading lines, answering each of them, and how a program then ends.
#![tactic(auto)]

pub mod engine;
pub mod fault;
pub mod laws;
pub mod patient;
pub mod program;
pub mod prompting;
mod session;
pub mod watched;

pub use engine::{run, serve};
pub use fault::{Fault, end};
pub use patient::Patient;
pub use program::{Program, Refusal};
pub use prompting::{Notices, Prompting};
pub use watched::{WatchedReader, WatchedWriter};

//! Files that are read whole, or put in place of others, and why there is none to read or to write.
#![tactic(auto)]

mod fault;
mod reading;
mod replacing;

pub use fault::FileFault;
pub use reading::{read, read_behind};
pub use replacing::replace;

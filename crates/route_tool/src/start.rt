//! What the program is started with.

use line_sessions::Notices;
use std::env::FillError;
use std::rt::Env;

/// What is told where it is started with anything else.
pub const USAGE: &'static str =
    "route_tool: it takes lines on standard input, and no argument but --read-on";

/// What is told at a terminal.
pub const NOTICES: Notices = Notices {
    greeting: "route_tool: help lists the requests, quit ends\n",
    cut: "not read: the terminal cuts a line of 4,095 bytes and more; `load FILE` takes longer ones\n",
};

/// Whether it is started with `--read-on`, and nothing else; none where with anything else. It
/// takes no memory.
pub fn is_read_on_start<R: Env>(rt: &R) -> Option<bool> {
    let mut word = [0u8; 16];
    match rt.arg(1, &mut word) {
        Err(FillError::NotPresent) => Some(false),
        Ok(count) if word.get(..count) == Some(b"--read-on".as_slice()) => {
            matches!(rt.arg(2, &mut word), Err(FillError::NotPresent)).then_some(true)
        }
        _ => None,
    }
}

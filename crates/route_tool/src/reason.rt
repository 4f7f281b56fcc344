//! Why a line asks for nothing, for the person who wrote it.
ghost use Rattle.std.specs.Prelude.{◌≡◌, ◌⊎◌};
ghost use Rattle.route_tool.specs.Reasons.{ShowsHop, IsReason, IsWrong, reason_text};

use crate::command::{Word, first_word, is_hop};

/// What is wrong with a line.
#[derive(Clone, Copy)]
pub enum Reason {
    NotUtf8,
    NoRequest,
    NoNetwork,
    NoHop,
    NoAddress,
    /// Of a line in a file, which asks for something else than a change of a route.
    NoChange,
}

impl Reason {
    /// The text that is told of it.
    pub fn text(self) -> &'static str
        ensures { result.now ≡ reason_text self }
    {
        match self {
            Reason::NotUtf8 => "not UTF-8",
            Reason::NoRequest => "no such request: help lists them",
            Reason::NoNetwork => "no network, as 10.0.0.0/8",
            Reason::NoHop => "no hop, as via 192.0.2.1",
            Reason::NoChange => "no add, del or comment",
            Reason::NoAddress => "no address, as 192.0.2.1",
        }
    }
}

/// What is wrong behind `add`, where no network and hop follow.
fn wrong_with_addition(rest: &str) -> Reason
    ensures { ((result ≡ Reason.NoNetwork) × ShowsHop rest.now)
        ⊎ ((result ≡ Reason.NoHop) × (ShowsHop rest.now → ⊥)) }
{
    match rest.split_once(' ') {
        Some((_, hop)) => {
            if is_hop(hop) {
                Reason::NoNetwork
            } else {
                Reason::NoHop
            }
        }
        None => Reason::NoHop,
    }
}

/// What is wrong with a text that asks for nothing.
fn wrong_with_text(text: &str) -> Reason
    ensures { IsWrong result text.now }
{
    let Some((word, rest)) = first_word(text) else {
        return Reason::NoRequest;
    };
    match word {
        Word::Add => wrong_with_addition(rest),
        Word::Del | Word::Below => Reason::NoNetwork,
        Word::Look | Word::Find => Reason::NoAddress,
    }
}

/// What is wrong with a line that asks for nothing.
pub fn wrong_with(line: &[u8]) -> Reason
    ensures { IsReason result line.now }
{
    match str::from_utf8(line) {
        Ok(text) => wrong_with_text(text),
        Err(_) => Reason::NotUtf8,
    }
}

//! The lines of a file, each of which changes a route.
ghost use Rattle.std.specs.Prelude.{◌≡◌, ◌↔◌, ◌∷◌, ◌++◌, IsTrue, MatchOption, MatchResult, IfSome, IfNone, option_copied};
ghost use Rattle.std.specs.List.{All};
ghost use Rattle.line_sessions.specs.Lines.{HasNoFeed};
ghost use Rattle.route_tool.specs.Commands.{asked_of, request_of};
ghost use Rattle.route_tool.specs.Loads.{IsEditLine, IsChange, IsEdit, IsFirstBad, IsGood, IsNoEdit, lines_in, lines_left};

use crate::command::{Command, Request, parse};
use crate::reason::{Reason, wrong_with};
use memchr::memchr;
use radix_trie::Address;

/// Whether an addition or a deletion is asked for.
fn is_change<A: Address>(request: &Request<'_, A>) -> bool
    ensures { IsTrue result ↔ IsChange (request_of request.now) }
{
    match request {
        Request::Add(_, _) | Request::Del(_) => true,
        Request::Below(_) | Request::Look(_) | Request::Find(_) => false,
    }
}

/// Whether a change of a route is asked for, or nothing.
fn is_edit(command: &Command<'_>) -> bool
    ensures { IsTrue result ↔ IsEdit (asked_of command.now) }
{
    match command {
        Command::V4(request) => is_change(request),
        Command::V6(request) => is_change(request),
        Command::Comment => true,
        _ => false,
    }
}

/// What a line of a file asks for, or what is wrong with it.
pub(crate) fn edit_of(line: &[u8]) -> Result<Command<'_>, Reason>
    ensures { MatchResult result (λ c. IsEditLine line.now (asked_of c)) (IsNoEdit line.now) }
{
    if line.is_empty() {
        return Ok(Command::Comment);
    }
    match parse(line) {
        Some(command) => {
            if is_edit(&command) {
                Ok(command)
            } else {
                Err(Reason::NoChange)
            }
        }
        None => Err(wrong_with(line)),
    }
}

/// The bytes before the first line feed, and those after it.
fn first_line(bytes: &[u8]) -> Option<(&[u8], &[u8])>
    ensures parts { IfSome result (λ p. bytes.now ≡ p.0.now ++ 10 ∷ p.1.now) }
    ensures line { IfSome result (λ p. HasNoFeed p.0.now) }
    ensures none { IfNone result (HasNoFeed bytes.now) }
{
    let place = memchr(b'\n', bytes)?;
    let (line, fed) = bytes.split_at(place);
    let (_, after) = fed.split_at(1);
    Some((line, after))
}

/// The first line, and the bytes behind its line feed, where there is one.
pub(crate) fn first_part(bytes: &[u8]) -> (&[u8], Option<&[u8]>)
    ensures { lines_in bytes.now ≡ result.0.now ∷ lines_left (option_copied result.1) }
{
    match first_line(bytes) {
        Some((line, after)) => (line, Some(after)),
        None => (bytes, None),
    }
}

/// The number of a text's first bad line, and what is wrong with it, where one is bad.
pub fn first_bad(text: &[u8]) -> Option<(u64, Reason)>
    ensures { MatchOption result (All IsGood (lines_in text.now))
        (λ p. IsFirstBad (lines_in text.now) p.0 p.1) }
{
    let mut rest = Some(text);
    let mut number = 0u64;
    while let Some(bytes) = rest {
        let (line, after) = first_part(bytes);
        number = number.saturating_add(1);
        if let Err(reason) = edit_of(line) {
            return Some((number, reason));
        }
        rest = after;
    }
    None
}

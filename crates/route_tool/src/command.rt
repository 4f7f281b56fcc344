//! Reading a line as a command.
ghost use Rattle.std.specs.Prelude.{◌≡◌, ◌↔◌, IsTrue, MatchOption};
ghost use Rattle.std.specs.Str.{IsUtf8};
ghost use Rattle.radix_keys.specs.Networks.{IsParted};
ghost use Rattle.route_tool.specs.Commands.{asked_of, request_of, word_text};
ghost use Rattle.route_tool.specs.Requests.{HasDotEarly, IsAddition, IsHop, IsRequest, IsTarget, IsTextRequest, MayBeIpv4, Says, WritesNetwork, file_word, in_full, word_of};

use radix_trie::{Address, Network};
use std::net::{Ipv4Addr, Ipv6Addr};

/// What is asked of the routes of one family.
#[derive(Drop)]
pub enum Request<'a, A: Address> {
    Add(Network<A>, &'a str),
    Del(Network<A>),
    Below(Network<A>),
    Look(A),
    Find(A),
}

/// What is asked of a table.
#[derive(Drop)]
pub enum Command<'a> {
    V4(Request<'a, Ipv4Addr>),
    V6(Request<'a, Ipv6Addr>),
    Len,
    All,
    Dump,
    Aggregate,
    Compact,
    OnFile(FileCall, &'a str),
    Help,
    Comment,
}

/// What is done with a file.
#[derive(Clone, Copy)]
pub enum FileCall {
    Load,
    Open,
    WriteIpv4,
    WriteIpv6,
}

/// The word of a request that has something behind it.
#[derive(Clone, Copy)]
pub enum Word {
    Add,
    Del,
    Below,
    Look,
    Find,
}

/// One byte or more, the first and the last of them no space.
pub fn is_hop(text: &str) -> bool
    ensures { IsTrue result ↔ IsHop text.now }
{
    let bytes = text.as_bytes();
    if bytes.is_empty() {
        return false;
    }
    bytes[0] != b' ' && bytes[bytes.len() - 1] != b' '
}

/// The text of a network in full: that of the network of all IPv4 addresses for `default`, and else
/// the text itself.
fn in_full(text: &str) -> &str
    ensures { result.now ≡ in_full text.now }
{
    if text == "default" { "0.0.0.0/0" } else { text }
}

/// The network that a text writes, with the count of its bits or without, if it writes one.
fn network_of<A: Address>(text: &str) -> Option<Network<A>>
    ensures { MatchOption result
        ((net : _) → ¬ (WritesNetwork A.BITS A.number A.is_text text.now net))
        (WritesNetwork A.BITS A.number A.is_text text.now) }
{
    match text.split_once('/') {
        Some(_) => match text.parse::<Network<A>>() {
            Ok(network) => Some(network),
            Err(_) => None,
        },
        None => {
            let host = A::parse(text)?;
            Some(Network::host(host))
        }
    }
}

/// The network that a text stands for, if it stands for one.
fn target<A: Address>(text: &str) -> Option<Network<A>>
    ensures { MatchOption result
        ((net : _) → ¬ (IsTarget A.BITS A.number A.is_text text.now net))
        (IsTarget A.BITS A.number A.is_text text.now) }
{
    network_of(in_full(text))
}

/// A network, one space and a hop.
fn addition<A: Address>(rest: &str) -> Option<(Network<A>, &str)>
    ensures { MatchOption result
        ((net : _) (hop : _) → ¬ (IsAddition A.BITS A.number A.is_text rest.now net hop))
        (λ p. IsAddition A.BITS A.number A.is_text rest.now p.0 p.1.now) }
{
    let (text, hop) = rest.split_once(' ')?;
    if !is_hop(hop) {
        return None;
    }
    let network = target(text)?;
    Some((network, hop))
}

/// The word that a text begins with, where it is one of these and a space follows, and what stands
/// behind the space.
pub(crate) fn first_word(text: &str) -> Option<(Word, &str)>
    ensures { MatchOption result
        ((word : Word) (rest : _) → ¬ (IsParted 32 text.now (word_text word) rest))
        (λ p. IsParted 32 text.now (word_text p.0) p.1.now) }
{
    if let Some(rest) = text.strip_prefix("look ") {
        return Some((Word::Look, rest));
    }
    if let Some(rest) = text.strip_prefix("find ") {
        return Some((Word::Find, rest));
    }
    if let Some(rest) = text.strip_prefix("add ") {
        return Some((Word::Add, rest));
    }
    if let Some(rest) = text.strip_prefix("del ") {
        return Some((Word::Del, rest));
    }
    if let Some(rest) = text.strip_prefix("below ") {
        return Some((Word::Below, rest));
    }
    None
}

/// What a word and the text behind it ask for of one family.
fn said<'a, A: Address>(word: Word, rest: &'a str) -> Option<Request<'a, A>>
    ensures { MatchOption result
        ((r : _) → word_text word ≡ word_of r → ¬ (Says A.BITS A.number A.is_text r rest.now))
        (λ r. (word_text word ≡ word_of (request_of r))
        × Says A.BITS A.number A.is_text (request_of r) rest.now) }
{
    match word {
        Word::Add => match addition(rest) {
            Some((network, hop)) => Some(Request::Add(network, hop)),
            None => None,
        },
        Word::Del => {
            let network = target(rest)?;
            Some(Request::Del(network))
        }
        Word::Below => {
            let network = target(rest)?;
            Some(Request::Below(network))
        }
        Word::Look => {
            let address = A::parse(rest)?;
            Some(Request::Look(address))
        }
        Word::Find => {
            let address = A::parse(rest)?;
            Some(Request::Find(address))
        }
    }
}

/// Whether the second, third or fourth byte is a dot, as in each text that begins with an IPv4
/// address.
fn has_dot_early(text: &str) -> bool
    ensures { IsTrue result ↔ HasDotEarly text.now }
{
    let bytes = text.as_bytes();
    bytes.len() > 3 && (bytes[1] == b'.' || bytes[2] == b'.' || bytes[3] == b'.')
}

/// Whether a text begins as each one does that asks something of IPv4 routes.
fn may_be_ipv4(text: &str) -> bool
    ensures { MayBeIpv4 text.now → IsTrue result }
{
    has_dot_early(text) || text.starts_with("default")
}

/// What is done with a file, where a text begins with the word for it and a space, and the file's
/// name behind these.
fn file_call(text: &str) -> Option<(FileCall, &str)>
    ensures { MatchOption result
        ((call : FileCall) (path : _) → ¬ (IsParted 32 text.now (file_word call) path))
        (λ p. IsParted 32 text.now (file_word p.0) p.1.now) }
{
    if let Some(path) = text.strip_prefix("load ") {
        return Some((FileCall::Load, path));
    }
    if let Some(path) = text.strip_prefix("open ") {
        return Some((FileCall::Open, path));
    }
    if let Some(path) = text.strip_prefix("write_ipv4 ") {
        return Some((FileCall::WriteIpv4, path));
    }
    if let Some(path) = text.strip_prefix("write_ipv6 ") {
        return Some((FileCall::WriteIpv6, path));
    }
    None
}

/// What a text that begins with no such word asks for, if it is good.
fn bare(text: &str) -> Option<Command<'_>>
    requires { (word : Word) (rest : _) → ¬ (IsParted 32 text.now (word_text word) rest) }
    ensures { MatchOption result ((c : _) → ¬ (IsTextRequest text.now c))
        (λ c. IsTextRequest text.now (asked_of c)) }
{
    if text == "len" {
        Some(Command::Len)
    } else if text == "list" {
        Some(Command::All)
    } else if text == "dump" {
        Some(Command::Dump)
    } else if text == "aggregate" {
        Some(Command::Aggregate)
    } else if text == "compact" {
        Some(Command::Compact)
    } else if text == "help" {
        Some(Command::Help)
    } else {
        match file_call(text) {
            Some((call, path)) => Some(Command::OnFile(call, path)),
            None => None,
        }
    }
}

/// What a text asks for, if it is good.
fn parse_text(text: &str) -> Option<Command<'_>>
    ensures { MatchOption result ((c : _) → ¬ (IsTextRequest text.now c))
        (λ c. IsTextRequest text.now (asked_of c)) }
{
    let Some((word, rest)) = first_word(text) else {
        return bare(text);
    };
    if may_be_ipv4(rest) {
        if let Some(request) = said::<Ipv4Addr>(word, rest) {
            return Some(Command::V4(request));
        }
    }
    match said::<Ipv6Addr>(word, rest) {
        Some(request) => Some(Command::V6(request)),
        None => None,
    }
}

/// What a line that is no comment asks for, if it is good.
fn parse_utf8(line: &[u8]) -> Option<Command<'_>>
    ensures { MatchOption result ((c : _) → ¬ (IsUtf8 line.now × IsTextRequest line.now c))
        (λ c. IsUtf8 line.now × IsTextRequest line.now (asked_of c)) }
{
    match str::from_utf8(line) {
        Ok(text) => parse_text(text),
        Err(_) => None,
    }
}

/// What a line asks for, if it is good.
pub fn parse(line: &[u8]) -> Option<Command<'_>>
    ensures { MatchOption result ((c : _) → ¬ (IsRequest line.now c))
        (λ c. IsRequest line.now (asked_of c)) }
{
    if !line.is_empty() && line[0] == b'#' {
        Some(Command::Comment)
    } else {
        parse_utf8(line)
    }
}

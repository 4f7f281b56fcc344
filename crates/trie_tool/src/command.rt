//! Reading a line as a command.
ghost use Rattle.std.specs.Prelude.{◌≡◌, option_map, None, Some};
ghost use Rattle.trie_tool.specs.Request.{request_of, worded_request, keyed_request, lone_request, number_of, insert_of};
ghost use Rattle.trie_tool.specs.Command.{request};
ghost use Rattle.std.specs.List.{list_all};
ghost use Rattle.std.specs.Char.{is_ascii_digit};

#[derive(Drop)]
pub enum Command<'a> {
    Insert(&'a str, u64),
    Get(&'a str),
    Remove(&'a str),
    Ancestor(&'a str),
    Below(&'a str),
    Prune(&'a str),
    Len,
    Foot,
    Json,
}

fn all_digits(text: &str) -> bool
    ensures { result ≡ list_all is_ascii_digit text.now }
{
    text.as_bytes().iter().all(|b| b.is_ascii_digit())
}

/// One digit or more, of a value that fits.
fn number(text: &str) -> Option<u64>
    ensures { result ≡ number_of text.now }
{
    if all_digits(text) {
        text.parse().ok()
    } else {
        None
    }
}

/// A key, a space and a number.
fn insertion(rest: &str) -> Option<Command<'_>>
    ensures { option_map request result ≡ insert_of rest.now }
{
    let (key, text) = rest.rsplit_once(' ')?;
    let value = number(text)?;
    Some(Command::Insert(key, value))
}

fn keyed<'a>(word: &str, rest: &'a str) -> Option<Command<'a>>
    ensures { option_map request result ≡ keyed_request word.now rest.now }
{
    if word == "get" {
        Some(Command::Get(rest))
    } else if word == "insert" {
        insertion(rest)
    } else if word == "remove" {
        Some(Command::Remove(rest))
    } else if word == "ancestor" {
        Some(Command::Ancestor(rest))
    } else if word == "below" {
        Some(Command::Below(rest))
    } else if word == "prune" {
        Some(Command::Prune(rest))
    } else {
        None
    }
}

fn lone<'a>(word: &str) -> Option<Command<'a>>
    ensures { option_map request result ≡ lone_request word.now }
{
    if word == "len" {
        Some(Command::Len)
    } else if word == "foot" {
        Some(Command::Foot)
    } else if word == "json" {
        Some(Command::Json)
    } else {
        None
    }
}

/// A word alone, or a word, one space and the rest.
fn worded(text: &str) -> Option<Command<'_>>
    ensures { option_map request result ≡ worded_request text.now }
{
    match text.split_once(' ') {
        Some((word, rest)) => keyed(word, rest),
        None => lone(text),
    }
}

/// What a line asks for, if it is good.
pub fn parse(line: &[u8]) -> Option<Command<'_>>
    ensures { option_map request result ≡ request_of line.now }
{
    match str::from_utf8(line) {
        Ok(text) => worded(text),
        Err(_) => None,
    }
}

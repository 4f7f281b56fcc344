//! The public suffix of a host name, by rules as publicsuffix.org has them: `co.uk` is one of
//! `www.example.co.uk`. A rule `*.ck` makes each name one label below `ck` one, and `!www.ck` takes
//! one of these out. The longest rule that applies decides, and where none does the last label is
//! the suffix.
ghost use Rattle.std.specs.Prelude.{◌≡◌, ℕ, IfOk, drop};

use radix_trie::{Memory, Parts, Trie, TrieError};
use std::alloc::Global;

/// What the rules say of a name.
#[derive(Clone, Copy, Drop)]
struct Rules {
    /// It is a public suffix.
    itself: bool,
    /// Each name one label below it is one.
    wildcard: bool,
    /// It is none, though a wildcard makes it one.
    exception: bool,
}

const NO_RULES: Rules = Rules {
    itself: false,
    wildcard: false,
    exception: false,
};

/// Adds a rule. The keys are names from the last label to the first, so that those above a host are
/// its ends.
fn add_rule(alloc: Global, all: &mut Trie<Parts, Rules>, rule: &str) -> Result<(), TrieError> {
    let wildcard = rule.strip_prefix("*.");
    let exception = rule.strip_prefix('!');
    let name = wildcard.or(exception).unwrap_or(rule);
    let rules = all.get_or_insert(Parts::reversed(alloc, name, b'.')?, NO_RULES)?;
    rules.wildcard |= wildcard.is_some();
    rules.exception |= exception.is_some();
    rules.itself |= wildcard.or(exception).is_none();
    Ok(())
}

/// How many labels the public suffix of a host has. All rules that apply come in one walk, the
/// shortest name first.
fn suffix_len(all: &Trie<Parts, Rules>, host: &Parts) -> Result<usize, Memory> {
    let mut len = 1;
    for (name, rules) in all.common_prefixes(host)? {
        let labels = name.len();
        if rules.exception {
            return Ok(labels.saturating_sub(1));
        }
        if rules.itself {
            len = labels;
        }
        if rules.wildcard && labels < host.len() {
            len = labels + 1;
        }
    }
    Ok(len)
}

/// The last labels of a host, so many, or all where there are fewer.
fn last_labels(host: &str, count: usize) -> &str
    ensures { (n : ℕ) × (result.now ≡ drop n host.now) }
{
    match host.rmatch_indices('.').nth(count.saturating_sub(1)) {
        Some((point, _)) => host.get(point.saturating_add(1)..).unwrap_or(host),
        None => host,
    }
}

/// The public suffix of a host, which is an end of it.
fn suffix<'a>(alloc: Global, all: &Trie<Parts, Rules>, host: &'a str) -> Result<&'a str, TrieError>
    ensures { IfOk result (λ end. (n : ℕ) × (end.now ≡ drop n host.now)) }
{
    let labels = Parts::reversed(alloc, host, b'.')?;
    Ok(last_labels(host, suffix_len(all, &labels)?))
}

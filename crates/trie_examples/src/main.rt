//! Examples of the trie's uses. The program is that of the README: limits of folders, each
//! inherited from the nearest one above. What the other examples answer is proved; they are run by
//! `rust/tests/tests/examples.rs`.
#![tactic(auto)]

use radix_trie::prelude::*;

fn main(rt: HostRuntime) -> anyhow::Result<()> {
    let mut limits: Trie<&'static str, u64> = Trie::new(rt.alloc());
    for (path, limit) in [("/home/ann/", 30), ("/", 10), ("/home/", 20)] {
        limits.insert(path, limit)?;
    }
    println!(rt; "{:?}", limits.get_ancestor_value(&"/home/ann/letters")?)?;
    for (path, limit) in limits.iter()? {
        println!(rt; "{path} {limit}")?;
    }
    Ok(())
}

mod answers;
mod by_keys;
mod cited;
mod counters;
mod dictionary;
mod either;
mod given;
mod key_sets;
mod leases;
mod lists;
mod log_lines;
mod makers;
mod moves;
mod one_tree;
mod pages;
mod rising;
mod round_trips;
mod subscribers;
mod suffixes;
mod tallies;
mod threads;
mod told;
mod topics;
mod typed;
mod uses;

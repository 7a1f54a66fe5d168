//! Runs one kind of call on an index, so that it can be timed from outside: index_bench KEYS PHASE ROUNDS.
//! A round of `make` makes the index anew over its memory, one of `file` files every key into a new index, and one of
//! `remove` takes them out again; `find` and `next` look each key up in one that is filled. Prints only counts.
#![tactic(auto)]

use anyhow::anyhow;
use index::{Index, IndexMemory};
use std::env;
use std::str::FromStr;

#[derive(Clone, Copy)]
enum Phase {
    Make,
    File,
    Find,
    Next,
    Remove,
}

impl FromStr for Phase {
    type Err = anyhow::Error;

    fn from_str(name: &str) -> anyhow::Result<Phase> {
        match name {
            "make" => Ok(Phase::Make),
            "file" => Ok(Phase::File),
            "find" => Ok(Phase::Find),
            "next" => Ok(Phase::Next),
            "remove" => Ok(Phase::Remove),
            _ => Err(anyhow!("the phases are make, file, find, next and remove")),
        }
    }
}

// Keys that are scattered over all of u32, each a different one.
fn key(i: u32) -> u32 {
    let mixed = i.wrapping_mul(2654435761).rotate_left(13);
    (mixed ^ (mixed >> 7)).wrapping_mul(40503)
}

// For how many of the keys the call answers true.
// By a `for`, and not by `filter` and `count`: there it stays open that the call may be made each time.
fn hits<F: FnMut(u32) -> bool>(keys: u32, mut call: F) -> u32
    requires { F.IsAlwaysCallable call }
{
    let mut hits = 0u32;
    for i in 0..keys {
        if call(key(i)) {
            hits = hits.saturating_add(1);
        }
    }
    hits
}

// An index over the memory of this one, in which every key is filed.
fn filled(index: Index<u64>, keys: u32) -> Index<u64> {
    let mut index = Index::new(index.into_memory());
    for i in 0..keys {
        let _ = index.file(key(i), u64::from(i));
    }
    index
}

// One round, and how many of its calls found something.
fn round(index: Index<u64>, phase: Phase, keys: u32) -> (Index<u64>, u32) {
    // a match, since a phase is one of five words of the command line
    match phase {
        Phase::Make => (Index::new(index.into_memory()), 0),
        Phase::File => (filled(index, keys), 0),
        Phase::Find => {
            let found = hits(keys, |key| index.find(key).is_some());
            (index, found)
        }
        Phase::Next => {
            // only whether there is a next key: where the key is not looked at, the search's last way down is left out
            let found = hits(keys, |key| {
                index.first_at_or_after(key.wrapping_add(1)).is_some()
            });
            (index, found)
        }
        Phase::Remove => {
            let mut index = filled(index, keys);
            let removed = hits(keys, |key| index.remove(key).is_some());
            (index, removed)
        }
    }
}

fn run(rt: &HostRuntime) -> anyhow::Result<()> {
    let mut args = env::args(rt)?;
    let _ = args.next();
    let (Some(keys), Some(phase), Some(rounds)) = (args.next(), args.next(), args.next()) else {
        return Err(anyhow!("usage: index_bench KEYS PHASE ROUNDS"));
    };
    let keys = keys.as_str().parse::<u32>()?;
    let rounds = rounds.as_str().parse::<u32>()?;
    let phase = phase.as_str().parse::<Phase>()?;
    let slots = keys as usize;
    let memory = IndexMemory::new(rt.alloc(), slots * 7 + 1, slots, 0u64)?;
    let mut index = filled(Index::new(memory), keys);
    let mut hits = 0u32;
    for _ in 0..rounds {
        let (next, found) = round(index, phase, keys);
        index = next;
        hits = hits.wrapping_add(found);
    }
    let room = index.room();
    let count = index.count();
    let used = index.nodes_in_use();
    println!(rt; "room {room}, filed {count}, nodes {used}, hits {hits}")?;
    Ok(())
}

fn main(rt: HostRuntime) -> anyhow::Result<()> {
    run(&rt)
}

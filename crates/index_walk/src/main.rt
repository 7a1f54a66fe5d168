//! Walks an index and the library's ordered map through the same pseudo-random calls, and compares every answer, the
//! refusals and the nodes in use. Prints only counts.
#![tactic(auto)]

ghost use Rattle.std.specs.Prelude.{◌≤◌};

use index::{FileRefusal, Index, IndexMemory};
use shuffle::Shuffled;
use std::alloc::Global;
use std::collections::{BTreeMap, BTreeSet};

const NODES: usize = 75;

const SLOTS: usize = 22;

const STEPS: usize = 6000;

#[derive(Clone, Copy, Default)]
struct Counts {
    filed: u32,
    no_slot: u32,
    few_nodes: u32,
    removed: u32,
    absent: u32,
    found: u32,
    next: u32,
    wrong: u32,
    // the records and the nodes in use after all keys are removed
    records_left: usize,
    nodes_left: usize,
}

// An index, the map that it is compared with, and the counts so far.
#[derive(Drop)]
struct Walk {
    heap: Global,
    index: Index<u32>,
    map: BTreeMap<u32, u32>,
    counts: Counts,
}

fn add_one(count: &mut u32) {
    *count = count.saturating_add(1);
}

// One of a few dozen keys, many of which share leading parts, with the first and the last key among them.
fn key_from(seed: u32) -> u32 {
    let low = seed & 3;
    match (seed >> 2) & 7 {
        0 => low,
        1 => 0xffff_ffff - low,
        2 => low << 28,
        3 => 0x1000_0000 | low,
        4 => 0x1234_5600 | ((seed >> 5) & 7),
        5 => 0x1234_0000 | (((seed >> 5) & 7) << 8),
        6 => ((seed >> 5) & 7) << 28,
        _ => ((seed >> 5) & 7) << 20,
    }
}

// How many leading parts of 1 to 7 steps of the key are none of those.
fn missing_parts(parts: &BTreeSet<(u32, u32)>, key: u32) -> usize
    ensures { result ≤ 7 }
{
    (1..8u32)
        .filter(|height| !parts.contains(&(*height, key >> (4 * *height))))
        .count()
}

impl Walk {
    // The different leading parts of 1 to 7 steps among the keys.
    fn leading_parts(&self) -> anyhow::Result<BTreeSet<(u32, u32)>> {
        let mut parts = BTreeSet::new(self.heap);
        for key in self.map.keys() {
            for height in 1..8u32 {
                let _ = parts.insert((height, *key >> (4 * height)))?;
            }
        }
        Ok(parts)
    }

    // What the map says that filing under the key answers.
    fn expected(&self, key: u32) -> anyhow::Result<Result<(), FileRefusal>> {
        if self.map.contains_key(&key) {
            return Ok(Ok(()));
        }
        if self.map.len() >= SLOTS {
            return Ok(Err(FileRefusal::NoSlot));
        }
        let parts = self.leading_parts()?;
        if parts.len() + 1 + missing_parts(&parts, key) > NODES {
            return Ok(Err(FileRefusal::TooFewNodes));
        }
        Ok(Ok(()))
    }

    // Each of the four below makes a call on the index and on the map, and says whether they agree.
    fn file(&mut self, key: u32, record: u32) -> anyhow::Result<bool> {
        let expected = self.expected(key)?;
        let answer = self.index.file(key, record);
        match answer {
            Ok(()) => {
                let _ = self.map.insert(key, record)?;
                add_one(&mut self.counts.filed);
            }
            Err(FileRefusal::NoSlot) => add_one(&mut self.counts.no_slot),
            Err(FileRefusal::TooFewNodes) => add_one(&mut self.counts.few_nodes),
        }
        Ok(answer == expected)
    }

    fn remove(&mut self, key: u32) -> bool {
        let removed = self.index.remove(key);
        match removed {
            Some(_) => add_one(&mut self.counts.removed),
            None => add_one(&mut self.counts.absent),
        }
        removed == self.map.remove(&key)
    }

    fn find(&mut self, key: u32) -> bool {
        let found = self.index.find(key);
        if found.is_some() {
            add_one(&mut self.counts.found);
        }
        found == self.map.get(&key).copied()
    }

    fn next(&mut self, key: u32) -> bool {
        let next = self.index.first_at_or_after(key);
        if next.is_some() {
            add_one(&mut self.counts.next);
        }
        next == self.map.range(key..).next().map(|(k, _)| *k)
    }

    // One of the calls, by the number given.
    fn step(&mut self, seed: u32) -> anyhow::Result<bool> {
        let key = key_from(seed >> 3);
        match seed & 7 {
            0..3 => self.file(key, seed),
            3..6 => Ok(self.remove(key)),
            6 => Ok(self.find(key)),
            _ => Ok(self.next(key)),
        }
    }

    // Whether the index says of its counts what the map does.
    fn sizes_agree(&self) -> anyhow::Result<bool> {
        let parts = self.leading_parts()?;
        Ok(self.index.count() == self.map.len() && self.index.nodes_in_use() == parts.len() + 1)
    }

    // Removes every key, in their order, and counts the records and nodes that are still in use.
    fn remove_all(&mut self) {
        // as many turns as there can be keys, so that it ends without a measure
        for _ in 0..SLOTS {
            if let Some(key) = self.index.first_at_or_after(0) {
                let _ = self.index.remove(key);
            }
        }
        self.counts.records_left = self.index.count();
        self.counts.nodes_left = self.index.nodes_in_use();
    }
}

fn walk_all(heap: Global) -> anyhow::Result<Counts> {
    let mut walk = Walk {
        heap,
        index: Index::new(IndexMemory::new(heap, NODES, SLOTS, 0u32)?),
        map: BTreeMap::new(heap),
        counts: Counts::default(),
    };
    for seed in Shuffled::new(2463534242).take(STEPS) {
        let agree = walk.step(seed)?;
        if !agree || !walk.sizes_agree()? {
            add_one(&mut walk.counts.wrong);
        }
    }
    walk.remove_all();
    Ok(walk.counts)
}

// How many nodes two keys take in an index with room enough.
fn nodes_of(heap: Global, a: u32, b: u32) -> anyhow::Result<usize> {
    let mut index = Index::new(IndexMemory::new(heap, 16, 2, 0u32)?);
    let _ = index.file(a, 1);
    let _ = index.file(b, 2);
    Ok(index.nodes_in_use())
}

fn run(rt: &HostRuntime) -> anyhow::Result<()> {
    let heap = rt.alloc();
    let c = walk_all(heap)?;
    println!(rt;
        "filed {}, refused {} for a slot and {} for nodes",
        c.filed, c.no_slot, c.few_nodes
    )?;
    println!(rt;
        "removed {}, absent {}, found {}, next {}",
        c.removed, c.absent, c.found, c.next
    )?;
    println!(rt;
        "wrong {} of {}; left {} records, {} node",
        c.wrong, STEPS, c.records_left, c.nodes_left
    )?;
    let near = nodes_of(heap, 0, 1)?;
    let far = nodes_of(heap, 0, 268_435_456)?;
    println!(rt; "keys 0 and 1: {near} nodes; keys 0 and 268435456: {far} nodes")?;
    Ok(())
}

fn main(rt: HostRuntime) -> anyhow::Result<()> {
    run(&rt)
}

//! Walks a store and a plain list of held pages through the same pseudo-random calls, and compares every answer. Prints only
//! counts.
#![tactic(auto)]

mod plain;

use backend::{Backend, Refusal};
use contents::ContentsMemory;
use dedup::new_dedup;
use index::IndexMemory;
use local::new_local;
use page::{Key, PAGE_BYTES};
use plain::{Plain, Reach};
use shuffle::Shuffled;
use store::HeldPages;

const STEPS: usize = 6000;

#[derive(Clone, Copy, Default)]
struct Counts {
    accepted: u32,
    refused: u32,
    found: u32,
    missed: u32,
    dropped: u32,
    wrong: u32,
}

// A store, the plain list beside it, and what was counted so far.
#[derive(Drop)]
struct Walk<B> {
    store: B,
    plain: Plain,
    counts: Counts,
}

// `index_walk` has these lines too; a crate for them would be longer than both.
fn add_one(count: &mut u32) {
    *count = count.saturating_add(1);
}

// One of a few dozen keys of five pools, two objects in each; most are ephemeral.
fn key_from(seed: u32) -> Key {
    let pool = match (seed >> 4) & 7 {
        0 | 1 => 0,
        2 | 3 => 2,
        4 | 5 => 4,
        6 => 1,
        _ => 3,
    };
    Key::from((pool << 28) | ((seed & 1) << 12) | ((seed >> 1) & 3))
}

// The byte that fills the page, or none where its bytes differ.
fn filling(page: &[u8]) -> Option<u8> {
    let first = page.first().copied()?;
    page.iter().all(|byte| *byte == first).then_some(first)
}

impl<B: Backend> Walk<B> {
    fn compare(&mut self, same: bool) {
        if !same {
            add_one(&mut self.counts.wrong);
        }
    }

    fn put(&mut self, key: Key, byte: u8) -> anyhow::Result<()> {
        let accepted = self.store.put(key, &[byte; PAGE_BYTES]).is_ok();
        if accepted {
            add_one(&mut self.counts.accepted);
        } else {
            add_one(&mut self.counts.refused);
        }
        let expected = self.plain.put(u32::from(key), byte)?;
        self.compare(accepted == expected);
        Ok(())
    }

    fn got(&mut self, key: Key) -> Result<Option<u8>, Refusal> {
        let mut page = [0; PAGE_BYTES];
        let found = self.store.get(key, &mut page)?;
        Ok(if found { filling(&page) } else { None })
    }

    fn get(&mut self, key: Key) {
        let answer = self.got(key).ok().flatten();
        if answer.is_some() {
            add_one(&mut self.counts.found);
        } else {
            add_one(&mut self.counts.missed);
        }
        let expected = self.plain.get(u32::from(key));
        self.compare(answer == expected);
    }

    fn drop_all(&mut self, key: Key, reach: Reach) {
        // the interface has a call of its own for each reach
        match reach {
            Reach::Page => self.store.drop_page(key),
            Reach::Object => self.store.drop_object(key),
            Reach::Pool => self.store.drop_pool(key),
        }
        self.plain.drop_all(u32::from(key), reach);
        add_one(&mut self.counts.dropped);
    }

    // The same questions to both.
    fn ask(&mut self, key: Key) {
        let pool = key.pool();
        let holds = self.store.holds(key) == self.plain.page(u32::from(key)).is_some();
        let pages = self.store.pool_pages(pool) as usize == self.plain.pool_pages(u32::from(pool));
        self.compare(holds && pages);
    }

    fn step(&mut self, seed: u32) -> anyhow::Result<()> {
        let key = key_from(seed >> 8);
        match seed & 31 {
            0 => self.drop_all(key, Reach::Pool),
            1 => self.drop_all(key, Reach::Object),
            2 | 3 => self.drop_all(key, Reach::Page),
            4..=11 => self.get(key),
            _ => self.put(key, ((seed >> 5) & 3) as u8)?,
        }
        self.ask(key_from(seed >> 16));
        Ok(())
    }

    fn run(&mut self) -> anyhow::Result<()> {
        for seed in Shuffled::new(2463534242).take(STEPS) {
            self.step(seed)?;
        }
        Ok(())
    }
}

fn print_counts(rt: &HostRuntime, name: &str, counts: Counts) -> anyhow::Result<()> {
    let Counts {
        accepted,
        refused,
        found,
        missed,
        dropped,
        wrong,
    } = counts;
    println!(rt;
        "{name}: put {accepted}, refused {refused}, found {found}, missed {missed}, drops {dropped}"
    )?;
    println!(rt; "{name}: wrong {wrong} of {STEPS}")?;
    Ok(())
}

// Walks the store and a plain list with as much room, and prints what was counted.
fn walked<B: Backend + Drop>(
    rt: &HostRuntime,
    name: &str,
    store: B,
    plain: Plain,
) -> anyhow::Result<Walk<B>> {
    let mut walk = Walk {
        store,
        plain,
        counts: Counts::default(),
    };
    walk.run()?;
    print_counts(rt, name, walk.counts)?;
    Ok(walk)
}

fn walk_local(rt: &HostRuntime, places: usize) -> anyhow::Result<()> {
    let heap = rt.alloc();
    let bytes = vec![in heap; 0; 6 * PAGE_BYTES + 100]?;
    let index = IndexMemory::new(heap, 100, places, 0u16)?;
    let store = new_local(heap, 1, bytes, index)?;
    // the pages of the walk are of four kinds at most
    let _ = walked(rt, "local", store, Plain::new(heap, places, 4))?;
    Ok(())
}

fn walk_dedup(rt: &HostRuntime, places: usize, contents: usize) -> anyhow::Result<()> {
    let heap = rt.alloc();
    let memory = ContentsMemory::new(heap, 6 * PAGE_BYTES + 100, contents)?;
    let index = IndexMemory::new(heap, 100, places, 0u16)?;
    let store = new_dedup(heap, 1, memory, index)?;
    let plain = Plain::new(heap, places, contents);
    let walk = walked(rt, "deduplicating", store, plain)?;
    let (held, different) = walk.store.pages().counts();
    let (plain_held, plain_different) = walk.plain.counts();
    println!(rt;
        "at the end {held} held, {different} different; plainly {plain_held} and {plain_different}"
    )?;
    Ok(())
}

fn walk_all(rt: &HostRuntime) -> anyhow::Result<()> {
    walk_local(rt, 6)?;
    walk_dedup(rt, 6, 2)
}

fn main(rt: HostRuntime) -> anyhow::Result<()> {
    walk_all(&rt)
}

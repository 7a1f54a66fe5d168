//! The third level: file pages as at the second, equal anonymous pages stored once.
use crate::printed::{PrintedPile, key};
use contents::ContentsMemory;
use dedup::{Dedup, new_dedup};
use index::IndexMemory;
use layers::{Divider, Quota};
use local::{Local, new_local};
use page::{Key, PAGE_BYTES};
use std::alloc::{AllocError, Global};

const SLOTS: usize = 32;

const CONTENTS: usize = 32;

const SHARED_SLOTS: usize = 64;

const LIMIT: u32 = 8;

type Pile = Divider<Quota<Local>, Dedup>;

fn new_pile(heap: Global) -> Result<Pile, AllocError> {
    let bytes = vec![in heap; 0; SLOTS * PAGE_BYTES]?;
    let index = IndexMemory::new(heap, 7 * SLOTS + 1, SLOTS, 0u16)?;
    let local = new_local(heap, 3, bytes, index)?;
    let contents = ContentsMemory::new(heap, CONTENTS * PAGE_BYTES, CONTENTS)?;
    let shared_index = IndexMemory::new(heap, 7 * SHARED_SLOTS + 1, SHARED_SLOTS, 0u16)?;
    let dedup = new_dedup(heap, 4, contents, shared_index)?;
    Ok(Divider::new(1, Quota::new(2, [LIMIT; 16], local), dedup))
}

// How many anonymous pages are held, and how many different ones.
fn print_counts(printed: &PrintedPile<'_, Pile>) -> anyhow::Result<()> {
    let rt = printed.rt;
    let (held, different) = printed.pile.second().pages().counts();
    println!(rt; "    anonymous pages: {held} held, {different} different")?;
    Ok(())
}

fn offer(pile: &mut PrintedPile<'_, Pile>, key: Key, byte: u8) -> anyhow::Result<()> {
    pile.put(key, byte)?;
    print_counts(pile)
}

fn shared(pile: &mut PrintedPile<'_, Pile>) -> anyhow::Result<()> {
    let rt = pile.rt;
    println!(rt; "Equal pages under many keys:")?;
    for index in 0..4u32 {
        offer(pile, key(1, 0, index), 7)?;
    }
    offer(pile, key(3, 0, 0), 7)?;
    offer(pile, key(3, 0, 1), 8)?;
    println!(rt; "One overwritten, by a page that is new and by one that is there:")?;
    offer(pile, key(1, 0, 0), 9)?;
    offer(pile, key(1, 0, 1), 8)?;
    pile.get(key(1, 0, 0))?;
    pile.get(key(1, 0, 1))?;
    pile.get(key(1, 0, 2))?;
    println!(rt; "One of several dropped, and the last of a content:")?;
    pile.drop_page(key(3, 0, 0))?;
    print_counts(pile)?;
    pile.drop_page(key(1, 0, 0))?;
    print_counts(pile)
}

fn refusals(pile: &mut PrintedPile<'_, Pile>) -> anyhow::Result<()> {
    let rt = pile.rt;
    println!(rt; "Different pages until none has a place; an equal one still has:")?;
    for index in 0..31u32 {
        pile.put(key(5, 0, index), 100 + index as u8)?;
    }
    offer(pile, key(5, 1, 0), 100)?;
    println!(rt; "Equal pages until no place is free:")?;
    for index in 0..32u32 {
        pile.put(key(7, 0, index), 7)?;
    }
    print_counts(pile)?;
    println!(rt; "File pages, up to the limit:")?;
    for index in 0..=LIMIT {
        pile.put(key(0, 0, index), index as u8)?;
    }
    pile.print_holdings()?;
    Ok(())
}

/// A divider on quota over local, and on deduplicating.
pub fn show(rt: &HostRuntime) -> anyhow::Result<()> {
    println!(rt;
        "Level 3: a divider on quota over local, {SLOTS} slots, limits {LIMIT}, and on deduplicating, {SHARED_SLOTS} slots, {CONTENTS} contents"
    )?;
    let pile = new_pile(rt.alloc())?;
    let mut printed = PrintedPile { rt, pile };
    shared(&mut printed)?;
    refusals(&mut printed)
}

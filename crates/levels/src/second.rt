//! The second level: evicted pages kept in spare memory, under a limit for each pool.
use crate::printed::{PrintedPile, key};
use backend::Backend;
use index::IndexMemory;
use layers::Quota;
use local::new_local;
use page::PAGE_BYTES;

const SLOTS: usize = 64;

const LIMIT: u32 = 8;

// Offers a page more than the pool's limit.
fn fill<B: Backend>(pile: &mut PrintedPile<'_, B>, pool: u32) -> anyhow::Result<()> {
    for index in 0..=LIMIT {
        pile.put(key(pool, index % 2, index), index as u8)?;
    }
    pile.print_holdings()?;
    Ok(())
}

fn refusals<B: Backend>(pile: &mut PrintedPile<'_, B>) -> anyhow::Result<()> {
    let rt = pile.rt;
    println!(rt; "A pool that holds its limit:")?;
    fill(pile, 0)?;
    println!(rt; "Persistent pages drive ephemeral ones out:")?;
    for half in 0..8u32 {
        fill(pile, 2 * half + 1)?;
    }
    println!(rt; "No place is free, and no page gives way:")?;
    pile.put(key(0, 0, 0), 100)?;
    pile.put(key(1, 0, 0), 101)?;
    println!(rt; "No page:")?;
    pile.put_short(key(1, 0, 0))?;
    pile.print_holdings()?;
    Ok(())
}

fn gets_and_drops<B: Backend>(pile: &mut PrintedPile<'_, B>) -> anyhow::Result<()> {
    let rt = pile.rt;
    println!(rt; "Gets and drops:")?;
    pile.get(key(1, 0, 0))?;
    pile.get(key(1, 0, 0))?;
    pile.drop_pool(key(3, 0, 0))?;
    pile.put(key(2, 0, 0), 102)?;
    pile.print_holdings()?;
    pile.get(key(2, 0, 0))?;
    pile.get(key(2, 0, 0))?;
    pile.drop_object(key(5, 1, 0))?;
    pile.drop_page(key(5, 0, 2))?;
    pile.print_holdings()?;
    let offers = pile.pile.offers();
    println!(rt; "offers {offers}")?;
    Ok(())
}

/// Quota over local, until each refusal has come.
pub fn show(rt: &HostRuntime) -> anyhow::Result<()> {
    let heap = rt.alloc();
    println!(rt; "Level 2: quota over local, {SLOTS} slots, limits {LIMIT}")?;
    let bytes = vec![in heap; 0; SLOTS * PAGE_BYTES]?;
    let index = IndexMemory::new(heap, 7 * SLOTS + 1, SLOTS, 0u16)?;
    let local = new_local(heap, 2, bytes, index)?;
    let pile = Quota::new(1, [LIMIT; 16], local);
    let mut printed = PrintedPile { rt, pile };
    refusals(&mut printed)?;
    gets_and_drops(&mut printed)
}

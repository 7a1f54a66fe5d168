//! Runs every call on a quota over a divider over two backends that keep nothing, and prints each answer.
#![tactic(auto)]

use backend::{Backend, Nothing, Refusal, move_page};
use layers::{Divider, Quota};
use page::{Key, PAGE_BYTES};
use std::{fmt, io};

// An answer in words.
#[derive(Drop)]
struct Answer<T>(Result<T, Refusal>);

impl fmt::Display for Answer<()> {
    fn fmt<W: fmt::Write>(&self, f: &mut fmt::Formatter<W>) -> fmt::Result {
        match self.0 {
            Ok(()) => write!(f, "accepted"),
            Err(refusal) => write!(f, "refused, {refusal}"),
        }
    }
}

impl fmt::Display for Answer<bool> {
    fn fmt<W: fmt::Write>(&self, f: &mut fmt::Formatter<W>) -> fmt::Result {
        match self.0 {
            Ok(true) => write!(f, "found"),
            Ok(false) => write!(f, "not found"),
            Err(refusal) => write!(f, "refused, {refusal}"),
        }
    }
}

fn print_answers<B: Backend>(rt: &HostRuntime, pile: &mut B, key: Key) -> io::Result<()> {
    let pool = key.pool();
    println!(rt; "key {key}, pool {pool}")?;

    let mut page = [1; PAGE_BYTES];
    let mut short = [1; PAGE_BYTES - 1];
    println!(rt; "put: {}", Answer(pile.put(key, &page)))?;
    println!(rt; "put: {}", Answer(pile.put(key, &short)))?;
    println!(rt; "get: {}", Answer(pile.get(key, &mut page)))?;
    println!(rt; "get: {}", Answer(pile.get(key, &mut short)))?;
    println!(rt; "move: {}", Answer(move_page(pile, key, key)))?;

    pile.drop_page(key);
    pile.drop_object(key);
    pile.drop_pool(key);
    let holds = pile.holds(key);
    let pages = pile.pool_pages(pool);
    let offers = pile.offers();
    println!(rt; "holds {holds}, pages {pages}, offers {offers}")
}

fn main(rt: HostRuntime) -> io::Result<()> {
    // Pools 0 and 1 may hold nothing, the others up to 4 pages each.
    let limits = [0, 0, 4, 4, 4, 4, 4, 4, 4, 4, 4, 4, 4, 4, 4, 4];
    let sides = Divider::new(200, Nothing::new(300), Nothing::new(301));
    let mut pile = Quota::new(100, limits, sides);
    for pool in 0..4 {
        print_answers(&rt, &mut pile, Key::from((pool << 28) + 4097))?;
    }

    let count = pile.offers();
    let sides = pile.into_below();
    let divided = sides.offers();
    let (even, odd) = sides.into_sides();
    let first = even.offers();
    let second = odd.offers();
    println!(rt; "offers: quota {count}, divider {divided}, even side {first}, odd side {second}")
}

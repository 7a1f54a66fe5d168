//! A pile whose calls are printed, each with its answer, and with what the pools hold.
use backend::Backend;
use page::{Key, PAGE_BYTES};
use std::io;

/// The key of these parts, cut to their bits.
pub fn key(pool: u32, object: u32, index: u32) -> Key {
    Key::from(((pool & 15) << 28) | ((object & 0xffff) << 12) | (index & 0xfff))
}

/// A pile, and where what it does is printed.
#[derive(Drop)]
pub struct PrintedPile<'a, B> {
    pub rt: &'a HostRuntime,
    pub pile: B,
}

impl<B: Backend> PrintedPile<'_, B> {
    /// How many pages each pool holds, of those that hold any.
    pub fn print_holdings(&mut self) -> io::Result<()> {
        let rt = self.rt;
        print!(rt; "    held by pool:")?;
        for pool in 0..16u8 {
            let pages = self.pile.pool_pages(pool);
            if pages > 0 {
                print!(rt; " {pool}:{pages}")?;
            }
        }
        println!(rt)
    }

    /// Prints a call on a key, without its answer.
    fn print_call(&self, call: &str, key: Key) -> io::Result<()> {
        let rt = self.rt;
        let pool = key.pool();
        let object = key.object();
        let index = key.index();
        print!(rt; "{call} pool {pool} object {object} index {index}: ")
    }

    fn offer(&mut self, call: &str, key: Key, page: &[u8]) -> io::Result<()> {
        let rt = self.rt;
        self.print_call(call, key)?;
        match self.pile.put(key, page) {
            Ok(()) => println!(rt; "accepted"),
            Err(refusal) => println!(rt; "refused, {refusal}"),
        }
    }

    /// Offers a page that is filled with one byte.
    pub fn put(&mut self, key: Key, byte: u8) -> io::Result<()> {
        self.offer("put", key, &[byte; PAGE_BYTES])
    }

    /// Offers a slice that is no page.
    pub fn put_short(&mut self, key: Key) -> io::Result<()> {
        self.offer("put of 255 bytes,", key, &[0; PAGE_BYTES - 1])
    }

    /// Gets a page and prints its first byte.
    pub fn get(&mut self, key: Key) -> io::Result<()> {
        let rt = self.rt;
        self.print_call("get", key)?;
        let mut page = [0; PAGE_BYTES];
        match self.pile.get(key, &mut page) {
            Ok(true) => {
                let byte = page[0];
                println!(rt; "found, filled with {byte}")
            }
            Ok(false) => println!(rt; "not found"),
            Err(refusal) => println!(rt; "refused, {refusal}"),
        }
    }

    // A method for each of a backend's three drops, which share what they print.
    pub fn drop_page(&mut self, key: Key) -> io::Result<()> {
        self.pile.drop_page(key);
        self.print_done("drop page", key)
    }

    pub fn drop_object(&mut self, key: Key) -> io::Result<()> {
        self.pile.drop_object(key);
        self.print_done("drop object of", key)
    }

    pub fn drop_pool(&mut self, key: Key) -> io::Result<()> {
        self.pile.drop_pool(key);
        self.print_done("drop pool of", key)
    }

    fn print_done(&self, call: &str, key: Key) -> io::Result<()> {
        let rt = self.rt;
        self.print_call(call, key)?;
        println!(rt; "done")
    }
}

//! The memory of contents.
ghost use Rattle.std.specs.Prelude.{◌≡◌, replicate, IfOk};

use super::records::ContentRecord;
use std::alloc::{AllocError, Global};

/// Memory for contents, which is given to them at making: page bytes, and a record for each content.
#[derive(Drop)]
pub struct ContentsMemory {
    pub bytes: Vec<u8>,
    pub records: Vec<ContentRecord>,
}

impl ContentsMemory {
    /// Memory of so many bytes, all of them zero, and so many blank records.
    pub fn new(heap: Global, bytes: usize, records: usize) -> Result<ContentsMemory, AllocError>
        ensures bytes { IfOk result (λ m. m.bytes.items ≡ replicate bytes 0) }
        ensures records { IfOk result (λ m. m.records.items ≡ replicate records (record { users = 0; fingerprint = 0 })) }
    {
        Ok(ContentsMemory {
            bytes: vec![in heap; 0; bytes]?,
            records: vec![in heap; ContentRecord::blank(); records]?,
        })
    }
}

#[cfg(test)]
mod tests {
    use super::*;
    use std::test::Fail;

    #[test]
    fn memory_is_made(rt: HostRuntime) -> Result<(), Fail> {
        let memory = ContentsMemory::new(rt.alloc(), 515, 5)?;
        assert_eq!(rt; memory.bytes.len(), 515);
        assert_eq!(rt; memory.records.len(), 5);
        Ok(())
    }
}

// The buffers of the whole, or of a chip.
use std::alloc::{AllocError, Global};

// A memory, and marks of as many bytes.
#[derive(Drop)]
pub struct Buffers {
    pub memory: Vec<u8>,
    pub marks: Vec<u8>,
}

impl Buffers {
    // So many cells, none of which is marked.
    pub fn new(alloc: Global, cells: usize) -> Result<Self, AllocError> {
        Ok(Buffers {
            memory: vec![in alloc; 0u8; cells]?,
            marks: vec![in alloc; 0u8; cells]?,
        })
    }
}

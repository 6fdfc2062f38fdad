//! What is written of a tree.

use std::alloc::{AllocError, Global};

/// Bytes, and whether memory was short for some of them.
#[derive(Drop)]
pub struct Output {
    bytes: Vec<u8>,
    is_short: bool,
}

impl Output {
    pub fn new(alloc: Global) -> Output {
        Output {
            bytes: Vec::new(alloc),
            is_short: false,
        }
    }

    /// Puts bytes behind the others.
    pub fn put(&mut self, bytes: &[u8]) {
        if self.bytes.extend_from_slice(bytes).is_err() {
            self.is_short = true;
        }
    }

    /// The bytes as a text.
    pub fn text(&self, alloc: Global) -> Result<String, AllocError> {
        if self.is_short {
            return String::from_str(alloc, "out of memory");
        }
        String::from_utf8_lossy(alloc, self.bytes.as_slice())
    }
}

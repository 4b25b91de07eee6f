//! A digest of all that calls return.
use std::hash::{FoldHasher, Hasher};

/// A digest of numbers and bytes in their order.
#[derive(Drop)]
pub(crate) struct Digest {
    hasher: FoldHasher,
}

impl Digest {
    pub(crate) fn new() -> Digest {
        Digest {
            hasher: FoldHasher::default(),
        }
    }

    pub(crate) fn add_bytes(&mut self, bytes: &[u8]) {
        self.hasher.write(bytes);
        self.add(bytes.len());
    }

    pub(crate) fn add(&mut self, number: usize) {
        self.hasher.write_usize(number);
    }

    pub(crate) fn value(&self) -> u64 {
        self.hasher.finish()
    }
}

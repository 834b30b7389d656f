//! Bytes that own their memory.
ghost use Rattle.std.specs.Prelude.{◌≡◌, IfOk};

use crate::{NoMemory, Owned};
use std::alloc::Global;

/// Bytes that own their memory, seen as a list.
pub type Bytes = Owned<u8>;

impl Bytes {
    /// A copy of `bytes`.
    pub fn copy(alloc: Global, bytes: &[u8]) -> Result<Bytes, NoMemory>
        ensures { IfOk result (λ b. b ≡ bytes.now) }
    {
        Ok(Owned::from_vec(Vec::from_slice(alloc, bytes)?))
    }
}

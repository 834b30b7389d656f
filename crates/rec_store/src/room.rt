//! Room that bytes of a store are put into.
ghost use Rattle.std.specs.Prelude.{◌≡◌, ℕ, ◌+◌, ◌≤◌, List, ◌++◌, length, vec_capacity};
ghost use Rattle.rec_store.specs.DumpStore.{AreBytes};

use arrayvec::ArrayVec;

/// Room for bytes, each behind those that stand there.
pub(crate) trait Room {
    /// The bytes that stand there.
    ghost items: { Self → List ℕ };

    /// How many bytes can stand there.
    ghost size: { Self → ℕ };

    /// How many bytes stand there.
    fn count(&self) -> usize
        ensures { result ≡ length (items self.now) };

    /// Puts bytes behind those that stand there, where there is room for them.
    fn put(&mut self, bytes: &[u8])
        requires { length (items self.old) + length bytes.now ≤ size self.old }
        ensures items { items self.new ≡ items self.old ++ bytes.now }
        ensures size { size self.old ≤ size self.new }
        ensures are { AreBytes bytes.now };
}

impl Room for ArrayVec<u8, 16> {
    ghost items = { λ head. head.items };

    ghost size = { λ _. 16 };

    fn count(&self) -> usize {
        self.len()
    }

    fn put(&mut self, bytes: &[u8]) {
        self.try_extend_from_slice(bytes).unwrap();
    }
}

impl Room for Vec<u8> {
    ghost items = { λ bytes. bytes.items };

    ghost size = { λ bytes. vec_capacity bytes };

    fn count(&self) -> usize {
        self.len()
    }

    fn put(&mut self, bytes: &[u8]) {
        self.extend_from_slice(bytes).unwrap();
    }
}

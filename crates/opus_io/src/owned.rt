//! A list that owns its memory.
ghost use Rattle.std.specs.Prelude.{◌≡◌, List};

use std::marker::Model;

/// Values one after another that own their memory, seen as a list.
#[derive(Drop)]
pub struct Owned<T> {
    items: Vec<T>,
}

impl<T> Model for Owned<T> {
    ghost Value = { List T };

    ghost view = { λ o. o.items.items };
}

impl<T> Owned<T> {
    /// The same values, without a copy.
    pub fn from_vec(items: Vec<T>) -> Owned<T>
        ensures { result ≡ items.items }
    {
        Owned { items }
    }

    /// The same values, taken out without a copy.
    pub fn into_vec(self) -> Vec<T>
        ensures { result.items ≡ self }
    {
        self.items
    }

    /// The values, lent.
    pub fn as_slice(&self) -> &[T]
        ensures { result.now ≡ self.now }
    {
        self.items.as_slice()
    }
}

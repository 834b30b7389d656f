//! Parameters that have no place of their own.
use opus_io::{Bytes, Owned};

/// A parameter with a name that isn't known, both as they were written.
#[derive(Drop)]
pub struct Param {
    /// Letters, digits, `-`, `_` and `.`, at least one.
    pub name: Bytes,
    /// What stands behind the first `=`, without the blanks around it. It may be empty.
    pub value: Bytes,
}

/// Parameters in the order of their line, seen as a list.
pub type Params = Owned<Param>;

//! How an input of packets is cut.

/// The input ends within a record of a store: within its head or its payload.
#[derive(Clone, Copy, Debug, PartialEq, Eq)]
pub struct Cut {
    /// How many bytes the input has.
    pub place: u64,
}

//! Why a store gives nothing more.
/// What is wrong with the bytes of a store. Places are indices from the input's first byte.
#[derive(Clone, Copy, Debug, PartialEq, Eq)]
pub enum StoreFault {
    /// The input ended inside a record, at this place.
    StoreCut(u64),
    /// The first line of a capture is another one from this place on.
    DumpLine(u64),
    /// The length of the capture's record at this place is below 8.
    DumpLength(u64),
}

/// Why a store gives nothing more.
#[derive(Clone, Copy, Debug, PartialEq, Eq)]
pub enum StoreStop {
    /// The bytes are no whole store.
    Fault(StoreFault),
    /// A read of the source failed.
    Read,
    /// The input is longer than the reader's limit.
    Limit,
    /// There was no memory for a record.
    NoMemory,
}

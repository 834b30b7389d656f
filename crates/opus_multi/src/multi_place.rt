//! Where a feed of multistream packets stands.
use crate::fault::MultiFault;

/// Where a feed of multistream packets stands.
#[derive(Clone, Copy)]
pub(crate) enum MultiPlace {
    /// More bytes can come.
    Reading,
    /// The input is over, and it was a multistream packet.
    Done,
    /// No multistream packet can follow the bytes that came, or memory was refused.
    Failed(MultiFault),
}

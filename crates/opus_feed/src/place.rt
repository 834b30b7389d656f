//! Where a feed stands.
use crate::stage::Stage;
use opus_packet::Rule;

/// Where a feed stands.
#[derive(Clone, Copy)]
pub(crate) enum Place {
    /// In the header.
    Opening(Stage),
    /// Behind the header.
    Filling,
    /// A packet is whole.
    Full,
    /// No packet can follow the bytes that came: the rule that is broken.
    Failed(Rule),
}

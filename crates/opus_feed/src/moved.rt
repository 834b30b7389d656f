//! How far a piece brings a feed.
use crate::place::Place;

/// Where a feed stands behind a piece, and how many bytes of it came.
#[derive(Clone, Copy)]
pub(crate) struct Moved {
    pub place: Place,
    pub used: usize,
}

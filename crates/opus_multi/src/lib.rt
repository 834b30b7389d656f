//! Multistream Opus packets (RFC 7845, section 3): the self-delimited packets of all streams but the last, and then the
//! undelimited packet of the last, all of one duration.
#![tactic(auto)]

mod durations;
mod fault;
mod form;
mod joined;
pub mod laws;
mod list;
mod multi;
mod multi_feed;
mod multi_place;
mod part;

pub use fault::{JoinFault, MultiFault};
pub use joined::join;
pub use list::{write_multi, write_multi_kept};
pub use multi::{Multi, decode_multi};
pub use multi_feed::{MultiFeed, framing_at};
pub use part::Part;

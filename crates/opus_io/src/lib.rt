//! Where bytes come from and where they go: sources, sinks, and a reader that counts.
//!
//! The bottom of the project. It knows bytes and faults, and nothing of Opus.
#![tactic(auto)]

mod bytes;
mod copy;
mod counted;
mod endless;
mod from_read;
mod memory;
mod no_memory;
mod owned;
mod reader;
mod script;
mod sink;
mod source;
mod steady;
mod to_write;
mod whole;

pub use bytes::Bytes;
pub use counted::Counted;
pub use endless::EndlessSource;
pub use from_read::FromRead;
pub use memory::{MemorySink, MemorySource};
pub use no_memory::NoMemory;
pub use owned::Owned;
pub use reader::{InStop, Reader};
pub use sink::{Sink, SinkStop};
pub use source::{Failed, Source};
pub use steady::{SteadySink, SteadySource};
pub use to_write::ToWrite;
pub use whole::write_all;

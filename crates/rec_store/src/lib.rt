//! Stores of packets: the records of an `opus_demo` file, read from a source and written, and captures in the rtpdump
//! layout, written.
//!
//! It knows records, and nothing of Opus.
#![tactic(auto)]

mod demo;
mod dump;
mod dump_item;
mod dump_line;
mod dump_opening;
mod dump_reader;
pub mod laws;
mod numbers;
mod record;
mod room;
mod stop;
mod take;

pub use demo::{DemoHead, DemoReader};
pub use dump::{dump_head, dump_record, dump_record_head};
pub use dump_item::{
    DumpItem, DumpKind, DumpRecordHead, DumpTold, dump_record_length, read_dump_record,
};
pub use dump_line::{LineStep, line_step};
pub use dump_opening::{DUMP_HEAD_LEN, DumpHead};
pub use dump_reader::DumpReader;
pub use record::{demo_head, demo_record};
pub use stop::{StoreFault, StoreStop};

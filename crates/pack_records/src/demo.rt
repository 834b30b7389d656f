//! An `opus_demo` store as an input of packets.
ghost use Rattle.std.specs.Prelude.{◌≡◌, [], IfOk};

use crate::store::Store;
use crate::undelimited::Undelimited;
use opus_feed::Padding;
use opus_io::NoMemory;
use std::alloc::Global;

/// The records of an `opus_demo` store: each has the payload's length, the final range and the payload, which is a
/// packet. One without a payload is a lost packet.
///
/// A record that lies whole in what is fed is lent from there, where its payload is a packet in its kept form. Any
/// other is read in pieces, and lent from memory that `new` takes.
pub type DemoForm = Store<Undelimited>;

impl Store<Undelimited> {
    ghost use Rattle.pack_records.specs.DemoForm.{DemoStands};

    /// A form that was fed nothing. It takes all memory that it needs: with `Keep` room for the padding bytes too.
    ///
    /// # Errors
    ///
    /// No memory.
    pub fn new(alloc: Global, padding: Padding) -> Result<DemoForm, NoMemory>
        ensures stands { IfOk result (λ f. DemoStands f [] []) }
        ensures padding { IfOk result (λ f. f.payload.pieces.padding ≡ padding) }
    {
        Ok(Store::over(Undelimited::new(alloc, padding)?))
    }
}

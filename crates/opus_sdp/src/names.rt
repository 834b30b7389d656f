//! Names that were met, letters in any case.
ghost use Rattle.std.specs.Prelude.{◌≡◌, ℕ, List, false, not, ◌||◌, IfOk, OnOk};
ghost use Rattle.opus_sdp.specs.Table.{lowered, same_name};

use opus_io::NoMemory;
use std::alloc::Global;
use std::collections::BTreeSet;

/// Names that were met, in small letters.
#[derive(Drop)]
pub(crate) struct Names {
    lowered: BTreeSet<Vec<u8>>,
}

impl Names {
    ghost use Rattle.opus_sdp.specs.Names.{has_met};

    /// No name was met.
    pub(crate) fn new(alloc: Global) -> Names
        ensures { (q : List ℕ) → has_met result q ≡ false }
    {
        Names {
            lowered: BTreeSet::new(alloc),
        }
    }

    /// Adds a name, and tells whether it is new.
    pub(crate) fn add(&mut self, alloc: Global, name: &[u8]) -> Result<bool, NoMemory>
        ensures added { IfOk result (λ new. new ≡ not (has_met self.old name.now)) }
        ensures names { OnOk result ((q : List ℕ) →
            has_met self.new q ≡ (has_met self.old q || same_name name.now q)) }
    {
        let key = lowered(alloc, name)?;
        self.lowered.insert(key).map_err(|_| NoMemory)
    }
}

// The name in small letters.
fn lowered(alloc: Global, name: &[u8]) -> Result<Vec<u8>, NoMemory>
    ensures { IfOk result (λ key. key.items ≡ lowered name.now) }
{
    let mut key = Vec::from_slice(alloc, name)?;
    key.as_mut_slice().make_ascii_lowercase();
    Ok(key)
}

//! All that is drawn for a packet.
ghost use Rattle.std.specs.Prelude.{◌≡◌, ◌<◌, All};
ghost use Rattle.arrayvec.specs.ArrayVec.{array_vec_len};

use crate::form::Form;
use arrayvec::ArrayVec;

/// A packet before its bytes are written.
#[derive(Drop)]
pub(crate) struct Plan {
    pub(crate) config: u8,
    pub(crate) stereo: bool,
    pub(crate) form: Form,
    /// Bytes of each frame, below 300.
    pub(crate) lengths: ArrayVec<u16, 48>,
    ghost known: { config < 32 },
    ghost counted: { array_vec_len lengths ≡ form.count },
    ghost short: { All (λ n. n < 300) lengths.items },
}

//! Laws of the lengths: each is the contract of a function that does nothing.
ghost use Rattle.std.specs.Prelude.{◌≡◌, ℕ, ◌<◌, ◌≤◌, ◌↔◌, List, ◌++◌, length, take};
ghost use Rattle.opus_flen.specs.FrameLength.{BeginsWithLength, length_bytes, length_read};
ghost use Rattle.opus_flen.specs.PaddingLength.{padding_limit, SpellsPadding, padding_bytes, padding_read};
ghost use Rattle.opus_flen.specs.declared.frame_length.LenRead.TheVariants.{Len};
ghost use Rattle.opus_flen.specs.declared.padding_length.PadRead.TheVariants.{Pad};

/// Bytes that begin with a frame length are read so, and two lengths never begin the same bytes.
pub fn a_frame_length_is_read_in_one_way()
    ensures read { (bytes : List ℕ) (n used : ℕ) → BeginsWithLength bytes n used
        → length_read bytes ≡ Len n used }
    ensures one { (m n : ℕ) (xs ys : List ℕ)
        → length_bytes m ++ xs ≡ length_bytes n ++ ys → (m ≡ n) × (xs ≡ ys) }
{}

/// Bytes that begin with a padding length are read so, and a total has one spelling.
pub fn a_padding_length_is_read_in_one_way()
    ensures read { (bytes : List ℕ) (total used : ℕ) → SpellsPadding total (take used bytes)
        → used ≤ length bytes → padding_read bytes ≡ Pad total used }
    ensures one { (total : ℕ) (bytes : List ℕ) → 1 ≤ total → total < padding_limit
        → SpellsPadding total bytes ↔ (bytes ≡ padding_bytes total) }
{}

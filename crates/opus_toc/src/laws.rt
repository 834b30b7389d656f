//! Laws of the TOC byte: each is the contract of a function that does nothing.
ghost use Rattle.std.specs.Prelude.{◌≡◌, ℕ, ◌<◌, Bool};
ghost use Rattle.opus_toc.specs.Toc.{config_of, stereo_of, code_of, toc_byte};

/// Each byte is the one that its parts make.
pub fn a_byte_is_made_of_its_parts()
    ensures same { (b : ℕ) → b < 256 → toc_byte (config_of b) (stereo_of b) (code_of b) ≡ b }
    ensures config_in { (b : ℕ) → b < 256 → config_of b < 32 }
    ensures code_in { (b : ℕ) → b < 256 → code_of b < 4 }
{}

/// The parts of a byte are those that it was made of.
pub fn the_parts_of_a_byte_come_back()
    ensures byte_in { (config : ℕ) (stereo : Bool) (code : ℕ) → config < 32 → code < 4
        → toc_byte config stereo code < 256 }
    ensures config { (config : ℕ) (stereo : Bool) (code : ℕ) → config < 32 → code < 4
        → config_of (toc_byte config stereo code) ≡ config }
    ensures stereo { (config : ℕ) (stereo : Bool) (code : ℕ) → config < 32 → code < 4
        → stereo_of (toc_byte config stereo code) ≡ stereo }
    ensures code { (config : ℕ) (stereo : Bool) (code : ℕ) → config < 32 → code < 4
        → code_of (toc_byte config stereo code) ≡ code }
{}

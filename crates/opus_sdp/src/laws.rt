//! Laws of lines: each is the contract of a function that does nothing.
ghost use Rattle.std.specs.Prelude.{◌≡◌, ℕ, List, IsTrue, None};
ghost use Rattle.opus_sdp.specs.Text.{is_line};
ghost use Rattle.opus_sdp.specs.SdpLine.{SdpValue, IsSdpLine, sdp_fault, sdp_text, IsSdpValue};

/// A line says one thing at most.
pub fn a_line_says_one_thing()
    ensures same { (a b : SdpValue) (line : List ℕ) → IsSdpLine a line → IsSdpLine b line → a ≡ b }
{}

/// A text without a newline has no fault exactly where it is a line; and a line has no newline.
pub fn a_text_without_a_fault_is_a_line()
    ensures line { (line : List ℕ) → IsTrue (is_line line) → sdp_fault line ≡ None
        → (a : SdpValue) × IsSdpLine a line }
    ensures none { (a : SdpValue) (line : List ℕ) → IsSdpLine a line → sdp_fault line ≡ None }
    ensures one_line { (a : SdpValue) (line : List ℕ) → IsSdpLine a line → IsTrue (is_line line) }
{}

/// What a line says may be printed, and the printed line says the same.
pub fn a_printed_line_says_the_same()
    ensures value { (a : SdpValue) (line : List ℕ) → IsSdpLine a line → IsSdpValue a }
    ensures read { (a : SdpValue) → IsSdpValue a → IsSdpLine a (sdp_text a) }
    ensures again { (a : SdpValue) (line : List ℕ) → IsSdpLine a line → IsSdpLine a (sdp_text a) }
{}

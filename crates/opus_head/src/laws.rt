//! Laws of heads: each is the contract of a function that does nothing.
ghost use Rattle.std.specs.Prelude.{◌≡◌, ◌≤◌, ℕ, List, ◌++◌, length, None};
ghost use Rattle.opus_head.specs.HeadValue.{HeadValue, AreBytes, IsHead};
ghost use Rattle.opus_head.specs.HeadBytes.{head_bytes, IsOpusHead};
ghost use Rattle.opus_head.specs.HeadFault.{head_fault, past_tables};

/// The same bytes are one head at most.
pub fn bytes_are_one_head()
    ensures same { (g h : HeadValue) (bytes : List ℕ) → IsOpusHead g bytes → IsOpusHead h bytes
        → g ≡ h }
{}

/// Bytes have no fault exactly where they are a head.
pub fn bytes_without_a_fault_are_a_head()
    ensures head { (bytes : List ℕ) → AreBytes bytes → head_fault bytes ≡ None
        → (h : HeadValue) × IsOpusHead h bytes }
    ensures none { (h : HeadValue) (bytes : List ℕ) → IsOpusHead h bytes
        → head_fault bytes ≡ None }
{}

/// What is written for a head are the bytes of this head, and of no other.
pub fn what_is_written_is_read()
    ensures read { (h : HeadValue) → IsHead h → IsOpusHead h (head_bytes h) }
    ensures only { (g h : HeadValue) → IsHead h → IsOpusHead g (head_bytes h) → g ≡ h }
{}

/// No head's table ends behind byte 115,791: what follows one byte more changes neither the fault nor anything but what
/// the head keeps of it.
pub fn what_follows_the_largest_table_changes_nothing()
    ensures fault { (bytes more : List ℕ) → AreBytes bytes → past_tables ≤ length bytes
        → head_fault (bytes ++ more) ≡ head_fault bytes }
    ensures head { (h : HeadValue) (bytes more : List ℕ) → AreBytes bytes → past_tables ≤ length bytes
        → IsOpusHead h (bytes ++ more)
        → (extra : List ℕ) × IsOpusHead (record h { extra = extra }) bytes }
{}

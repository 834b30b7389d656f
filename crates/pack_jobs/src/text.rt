//! Texts in fixed memory, made at the end of a run.
ghost use Rattle.std.specs.Prelude.{◌≡◌, ◌+◌, ◌≤◌, ◌<◌, ◌^◌, ◌++◌, ◌∷◌, [], length, decimal};
ghost use Rattle.arrayvec.specs.ArrayString.{array_string_len};
ghost use Rattle.pack_jobs.specs.Named.{named};
ghost use Rattle.pack_jobs.specs.Refusal.{rule_name, fault_text, refusal_text};

use crate::refusal::Why;
use arrayvec::ArrayString;
use itoa::Buffer;
use job_ends::{Reason, text_of};
use opus_packet::{Fault, Rule};

/// The decimal digits of `n`.
pub fn decimal_text(n: u64) -> ArrayString<20>
    ensures text { result.bytes ≡ decimal n }
    ensures most { length result.bytes ≤ 20 }
{
    let mut text = ArrayString::new();
    text.push_str(Buffer::new().format(n));
    text
}

/// Appends ` NAME N`.
pub fn push_named<const N: usize>(line: &mut ArrayString<N>, name: &str, number: u64)
    requires { array_string_len line.old + length name.now + 22 ≤ N }
    ensures text { line.new.bytes ≡ line.old.bytes ++ named name.now number }
    ensures len { array_string_len line.new ≤ array_string_len line.old + length name.now + 22 }
{
    line.push_str(" ");
    line.push_str(name);
    line.push_str(" ");
    line.push_str(decimal_text(number).as_str());
}

/// `RULE at P`, where P counts from the first byte that could be a packet's.
pub fn fault_text(fault: Fault) -> ArrayString<64>
    ensures text { result.bytes ≡ fault_text fault }
    ensures most { length result.bytes ≤ 32 }
{
    let mut text = ArrayString::new();
    text.push_str(rule_text(fault.rule));
    text.push_str(" at ");
    text.push_str(decimal_text(fault.place).as_str());
    text
}

// The rule's name.
fn rule_text(rule: Rule) -> &'static str
    ensures text { result.now ≡ rule_name rule }
    ensures most { length result.now ≤ 8 }
{
    match rule {
        Rule::R1 => "R1",
        Rule::R2 => "R2",
        Rule::R3 => "R3",
        Rule::R4 => "R4",
        Rule::R5 => "R5",
        Rule::R6 => "R6",
        Rule::R7 => "R7",
        Rule::PadLimit => "PadLimit",
        Rule::Cut => "Cut",
    }
}

impl Reason for Why {
    ghost words = { refusal_text };

    fn text(self) -> ArrayString<64> {
        match self {
            Why::Fault(fault) => fault_text(fault),
            Why::PaddingLong => text_of("padding long"),
            Why::StoreCut => text_of("store cut"),
            Why::MixedKind => text_of("mixed kind"),
            Why::TooLong => text_of("too long"),
            Why::TooSmall => text_of("too small"),
            Why::PadLimit => text_of("pad limit"),
        }
    }
}

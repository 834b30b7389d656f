//! The note, made in memory of its own.
ghost use Rattle.std.specs.Prelude.{◌≡◌, ◌+◌, ◌≤◌, ◌++◌, length, codes};
ghost use Rattle.opus_words.specs.Options.{option_name};
ghost use Rattle.opuspack.specs.NoteLine.{note, refusal_note};
ghost use Rattle.opuspack.specs.Finish.{note_of, usage_text};

use crate::finish::Finish;
use arrayvec::ArrayString;
use opus_words::{Ending, JobFault, Opt, UsageKind};
use pack_jobs::decimal_text;

/// A note: at most 26 bytes of words, two numbers of 20 digits with 6 bytes around them, and a text of 64.
pub type Line = ArrayString<160>;

/// The note, or nothing where all is well.
pub fn line_of(finish: &Finish) -> Line
    ensures { result.bytes ≡ note_of finish.now }
{
    match finish {
        Finish::Usage(kind) => usage_line(*kind),
        Finish::Ended(Ending::Ok) => ArrayString::new(),
        Finish::Ended(Ending::Refused(fault)) => refusal_line(fault),
        Finish::Ended(Ending::ReadFault) => plain_line("read fault"),
        Finish::Ended(Ending::WriteFault) => plain_line("write fault"),
        Finish::Ended(Ending::NoMemory) => plain_line("no memory"),
        Finish::Ended(Ending::InputLimit) => plain_line("input limit"),
    }
}

fn plain_line(text: &str) -> Line
    requires { length text.now ≤ 64 }
    ensures { result.bytes ≡ note text.now }
{
    let mut line = ArrayString::new();
    line.push_str("opuspack: ");
    line.push_str(text);
    line.push_str("\n");
    line
}

fn usage_line(kind: UsageKind) -> Line
    ensures { result.bytes ≡ note (codes "usage: " ++ usage_text kind) }
{
    match kind {
        UsageKind::Words => plain_line("usage: words"),
        UsageKind::Job => plain_line("usage: job"),
        UsageKind::Option(option) => option_line("usage: option --", option),
        UsageKind::Value(option) => option_line("usage: value --", option),
        UsageKind::Missing(option) => option_line("usage: missing --", option),
    }
}

fn option_line(front: &str, option: Opt) -> Line
    requires { length front.now ≤ 64 }
    ensures { result.bytes ≡ note (front.now ++ option_name option) }
{
    let mut line = ArrayString::new();
    line.push_str("opuspack: ");
    line.push_str(front);
    line.push_str(option.name());
    line.push_str("\n");
    line
}

fn refusal_line(fault: &JobFault) -> Line
    ensures { result.bytes ≡ refusal_note fault.now }
{
    let mut line = ArrayString::new();
    line.push_str("opuspack: refused: record ");
    line.push_str(decimal_text(fault.index).as_str());
    line.push_str(" at ");
    line.push_str(decimal_text(fault.place).as_str());
    line.push_str(": ");
    line.push_str(fault.text.as_str());
    line.push_str("\n");
    line
}

//! The lines that tell of an OpusHead, in pieces of fixed memory.
ghost use Rattle.std.specs.Prelude.{◌≡◌, ◌+◌, ◌≤◌, ◌++◌, length, decimal};
ghost use Rattle.std.specs.Fmt.{signed_decimal};
ghost use Rattle.arrayvec.specs.ArrayString.{array_string_len};
ghost use Rattle.opus_head.specs.Factors.{factors_of, table_entries};
ghost use Rattle.opuspack.specs.HeadLines.{field_line, field_lines, route_text, stream_text, channel_line, factor_text};

use crate::texts::Texts;
use arrayvec::ArrayString;
use opus_head::{Head, Route, Table, route};
use pack_jobs::decimal_text;

/// The lines of the fields: eight names of at most 8 bytes, each with a number of at most 21 and two bytes more.
pub(crate) fn field_lines(head: &Head) -> ArrayString<248>
    ensures { result.bytes ≡ field_lines head.now }
{
    let mut lines = ArrayString::new();
    push_number(&mut lines, "version", u64::from(head.version()));
    push_number(&mut lines, "channels", u64::from(head.channels()));
    push_number(&mut lines, "preskip", u64::from(head.pre_skip()));
    push_number(&mut lines, "rate", u64::from(head.rate()));
    push_field(&mut lines, "gain", &signed_text(head.gain()));
    push_number(&mut lines, "family", u64::from(head.family()));
    push_number(&mut lines, "streams", u64::from(head.streams()));
    push_number(&mut lines, "coupled", u64::from(head.coupled()));
    lines
}

fn push_number(lines: &mut ArrayString<248>, name: &str, number: u64)
    requires name { length name.now ≤ 8 }
    requires room { array_string_len lines.old + 31 ≤ 248 }
    ensures line { lines.new.bytes ≡ lines.old.bytes ++ field_line name.now (decimal number) }
    ensures len { array_string_len lines.new ≤ array_string_len lines.old + 31 }
{
    let mut digits = ArrayString::new();
    digits.push_str(decimal_text(number).as_str());
    push_field(lines, name, &digits);
}

fn push_field(lines: &mut ArrayString<248>, name: &str, number: &ArrayString<21>)
    requires name { length name.now ≤ 8 }
    requires room { array_string_len lines.old + 31 ≤ 248 }
    ensures line { lines.new.bytes ≡ lines.old.bytes ++ field_line name.now number.now.bytes }
    ensures len { array_string_len lines.new ≤ array_string_len lines.old + 31 }
{
    lines.push_str(name);
    lines.push_str(" ");
    lines.push_str(number.as_str());
    lines.push_str("\n");
}

// A sign where the number is below 0, and its digits.
fn signed_text(number: i16) -> ArrayString<21>
    ensures { result.bytes ≡ signed_decimal number }
{
    let mut text = ArrayString::new();
    if number < 0 {
        text.push_str("-");
    }
    text.push_str(decimal_text(u64::from(number.unsigned_abs())).as_str());
    text
}

/// The lines of the channels.
#[derive(Drop)]
pub(crate) struct Channels<'a> {
    pub(crate) head: &'a Head,
}

impl<'a> Texts for Channels<'a> {
    ghost number = { λ c. c.head.now.channels };

    ghost told = { λ c. channel_line c.head.now };

    fn count(&self) -> usize {
        usize::from(self.head.channels())
    }

    fn text(&self, index: usize) -> ArrayString<64> {
        // Known of every head: a byte counts its channels.
        let _ = self.head.channels();
        let mut line = ArrayString::new();
        line.push_str("channel ");
        line.push_str(decimal_text(index as u64).as_str());
        line.push_str(": ");
        line.push_str(route_text(route(self.head, index as u8)).as_str());
        line.push_str("\n");
        line
    }
}

// What is played on a channel.
fn route_text(route: Route) -> ArrayString<33>
    ensures { result.bytes ≡ route_text route }
{
    match route {
        Route::Silence => ArrayString::from("silence").unwrap(),
        Route::Mono { stream } => stream_text(stream, ""),
        Route::Left { stream } => stream_text(stream, " left"),
        Route::Right { stream } => stream_text(stream, " right"),
        Route::Matrix => ArrayString::from("matrix").unwrap(),
    }
}

// A stream, or a side of it.
fn stream_text(stream: u8, side: &str) -> ArrayString<33>
    requires { length side.now ≤ 6 }
    ensures { result.bytes ≡ stream_text stream side.now }
{
    let mut text = ArrayString::new();
    text.push_str("stream ");
    text.push_str(decimal_text(u64::from(stream)).as_str());
    text.push_str(side);
    text
}

/// The factors of a matrix, each behind a blank.
#[derive(Drop)]
pub(crate) struct Factors<'a> {
    pub(crate) head: &'a Head,
}

impl<'a> Texts for Factors<'a> {
    ghost number = { λ f. factors_of f.head.now };

    ghost told = { λ f. factor_text (table_entries f.head.now.table) };

    fn count(&self) -> usize {
        match self.head.table() {
            Table::Matrix {
                streams,
                coupled,
                ..
            } => {
                let decoded = usize::from(*streams) + usize::from(*coupled);
                decoded * usize::from(self.head.channels())
            }
            _ => 0,
        }
    }

    fn text(&self, index: usize) -> ArrayString<64> {
        let mut text = ArrayString::new();
        text.push_str(" ");
        text.push_str(signed_text(self.head.entry(index)).as_str());
        text
    }
}

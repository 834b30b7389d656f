//! What `clap` found in the words, as the table of options reads it.
ghost use Rattle.std.specs.Prelude.{◌≡◌, ◌≤◌, ◌^◌, ◌<◌, IfSome, codes, find, option_map};
ghost use Rattle.clap.specs.Words.{first_of, found_of, rows_of};
ghost use Rattle.opus_words.specs.Jobs.{forms_of};
ghost use Rattle.opus_words.specs.Options.{is_default, most_in, most_of, options, row_of};
ghost use Rattle.opus_words.specs.Words.{form_of, is_foreign, is_missing, is_need, is_unfit};
ghost use Rattle.opus_words.specs.Words.{is_value_of, job_with, kind_of, number_in, number_lacking};
ghost use Rattle.opus_words.specs.Words.{number_of, padding_of, text_of};

use crate::command::JOB;
use crate::form::Form;
use crate::job::Job;
use crate::kind::JobKind;
use crate::option::Opt;
use crate::padding::{first_padding, padding_named};
use crate::table::{Lack, Row, Values};
use clap::ArgMatches;
use opus_feed::Padding;
use text_numbers::read_number;

/// The job that JOB names.
pub(crate) fn kind(matches: &ArgMatches<'_>) -> Option<JobKind>
    ensures { result ≡ kind_of (rows_of (found_of matches.now)) }
{
    match job_text(matches) {
        Some(text) => JobKind::named(text),
        None => None,
    }
}

/// The first option that is given and that the job doesn't take.
pub(crate) fn foreign(matches: &ArgMatches<'_>, kind: JobKind) -> Option<Opt>
    ensures { result ≡ find (is_foreign kind (rows_of (found_of matches.now))) options }
{
    Opt::ALL
        .iter()
        .copied()
        .find(|opt| is_foreign(matches, kind, *opt))
}

/// The first option whose text is no value that the job allows.
pub(crate) fn unfit(matches: &ArgMatches<'_>, kind: JobKind) -> Option<Opt>
    ensures { result ≡ find (is_unfit kind (rows_of (found_of matches.now))) options }
{
    Opt::ALL
        .iter()
        .copied()
        .find(|opt| is_unfit(matches, kind, *opt))
}

/// The first option that the job needs and that isn't given.
pub(crate) fn missing(matches: &ArgMatches<'_>, kind: JobKind) -> Option<Opt>
    ensures { result ≡ find (is_missing kind (rows_of (found_of matches.now))) options }
{
    Opt::ALL
        .iter()
        .copied()
        .find(|opt| is_missing(matches, kind, *opt))
}

fn job_text<'a>(matches: &ArgMatches<'a>) -> Option<&'a str>
    ensures { option_map (λ s. s.now) result
        ≡ first_of (codes "job") (rows_of (found_of matches.now)) }
{
    matches.get_str(JOB)
}

/// The text that is given for the option.
fn text<'a>(matches: &ArgMatches<'a>, opt: Opt) -> Option<&'a str>
    ensures { option_map (λ s. s.now) result ≡ text_of (rows_of (found_of matches.now)) opt }
{
    matches.get_str(opt.name())
}

/// The option is given, and the job doesn't take it.
fn is_foreign(matches: &ArgMatches<'_>, kind: JobKind, opt: Opt) -> bool
    ensures { result ≡ is_foreign kind (rows_of (found_of matches.now)) opt }
{
    text(matches, opt).is_some() && opt.lack(kind).is_none()
}

/// The option is given, and its text is no value that the job allows.
fn is_unfit(matches: &ArgMatches<'_>, kind: JobKind, opt: Opt) -> bool
    ensures { result ≡ is_unfit kind (rows_of (found_of matches.now)) opt }
{
    match text(matches, opt) {
        Some(text) => !Row::of(opt).values.has(kind, text),
        None => false,
    }
}

/// The job needs the option, and it isn't given.
fn is_missing(matches: &ArgMatches<'_>, kind: JobKind, opt: Opt) -> bool
    ensures { result ≡ is_missing kind (rows_of (found_of matches.now)) opt }
{
    is_need(opt.lack(kind)) && text(matches, opt).is_none()
}

fn is_need(lack: Option<Lack>) -> bool
    ensures { result ≡ is_need lack }
{
    matches!(lack, Some(Lack::Needed))
}

/// The form given, or the job's first one.
fn form(matches: &ArgMatches<'_>, kind: JobKind) -> Option<Form>
    ensures { result ≡ form_of kind (rows_of (found_of matches.now)) }
{
    match text(matches, Opt::Form) {
        Some(text) => kind.form_named(text),
        None => kind.forms().first().copied(),
    }
}

/// The padding given, or the first one, if the job takes the option.
fn padding(matches: &ArgMatches<'_>, kind: JobKind) -> Option<Padding>
    ensures { result ≡ padding_of kind (rows_of (found_of matches.now)) }
{
    Opt::Padding.lack(kind)?;
    match text(matches, Opt::Padding) {
        Some(text) => padding_named(text),
        None => Some(first_padding()),
    }
}

/// The number given for the option, or its default.
fn number(matches: &ArgMatches<'_>, kind: JobKind, opt: Opt) -> Option<u32>
    ensures value { result ≡ number_of kind (rows_of (found_of matches.now)) opt }
    ensures within { IfSome result (λ n. n ≤ most_of opt) }
{
    let lack = opt.lack(kind)?;
    match text(matches, opt) {
        Some(text) => Row::of(opt).values.number(text),
        None => lack.number(),
    }
}

impl Values {
    fn has(self, kind: JobKind, text: &str) -> bool
        ensures { result ≡ is_value_of self kind text.now }
    {
        match self {
            Values::Forms => kind.form_named(text).is_some(),
            Values::Numbers(least, most) => read_number(text.as_bytes(), least, most).is_some(),
            Values::Paddings => padding_named(text).is_some(),
        }
    }

    fn number(self, text: &str) -> Option<u32>
        ensures value { result ≡ number_in self text.now }
        ensures within { IfSome result (λ n. n ≤ most_in self) }
    {
        match self {
            Values::Forms => None,
            Values::Numbers(least, most) => read_number(text.as_bytes(), least, most),
            Values::Paddings => None,
        }
    }
}

impl Lack {
    fn number(self) -> Option<u32>
        ensures { result ≡ number_lacking self }
    {
        match self {
            Lack::Number(number) => Some(number),
            _ => None,
        }
    }
}

/// The job with its options.
pub(crate) fn job(matches: &ArgMatches<'_>, kind: JobKind) -> Job
    ensures { result ≡ job_with kind (rows_of (found_of matches.now)) }
{
    Job {
        kind,
        form: form(matches, kind),
        streams: byte(number(matches, kind, Opt::Streams)),
        stream: byte(number(matches, kind, Opt::Stream)),
        group: byte(number(matches, kind, Opt::Group)),
        frames: byte(number(matches, kind, Opt::Frames)),
        size: number(matches, kind, Opt::Size),
        pt: byte(number(matches, kind, Opt::Pt)),
        seq: short(number(matches, kind, Opt::Seq)),
        stamp: number(matches, kind, Opt::Stamp),
        ssrc: number(matches, kind, Opt::Ssrc),
        seed: number(matches, kind, Opt::Seed),
        count: number(matches, kind, Opt::Count),
        padding: padding(matches, kind),
    }
}

fn byte(number: Option<u32>) -> Option<u8>
    requires { IfSome number (λ n. n < 2 ^ 8) }
    ensures { result ≡ number }
{
    match number {
        Some(number) => Some(number as u8),
        None => None,
    }
}

fn short(number: Option<u32>) -> Option<u16>
    requires { IfSome number (λ n. n < 2 ^ 16) }
    ensures { result ≡ number }
{
    match number {
        Some(number) => Some(number as u16),
        None => None,
    }
}

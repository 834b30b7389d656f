//! Words and what they stand for.
use opus_words::{Job, WordsFault, job_of};
use std::alloc::{AllocError, Global};
use std::fmt::Debug;
use std::test::Fail;

/// The answer to a line of words with a blank between each two.
fn answer(alloc: Global, line: &str) -> Result<Result<Job, WordsFault>, AllocError> {
    let mut words = Vec::new(alloc);
    for word in line.split_whitespace() {
        words.push(String::from_str(alloc, word)?)?;
    }
    Ok(job_of(alloc, words.as_slice()))
}

/// Each row has words, and then the job that they stand for: its kind and what is given or has a default.
const JOBS: &str = "\
norm = Norm, form Raw, streams 1, padding Drop
norm --form raw = Norm, form Raw, streams 1, padding Drop
norm --form=raw = Norm, form Raw, streams 1, padding Drop
norm --padding drop = Norm, form Raw, streams 1, padding Drop
--form raw norm = Norm, form Raw, streams 1, padding Drop
--form=raw norm --streams 1 = Norm, form Raw, streams 1, padding Drop
--streams 1 --form raw norm = Norm, form Raw, streams 1, padding Drop
norm --form self --streams 1 = Norm, form SelfDelimited, streams 1, padding Drop
--padding=keep norm = Norm, form Raw, streams 1, padding Keep
norm --streams 2 = Norm, form Raw, streams 2, padding Drop
check --form=demo = Check, form Demo, streams 1
show --form self = Show, form SelfDelimited, streams 1
send = Send, pt 96, seq 0, stamp 0, ssrc 0
--pt 127 --seq 65535 send --stamp=4294967295 --ssrc 4294967295 = Send, pt 127, seq 65535, stamp 4294967295, ssrc 4294967295
replay = Replay
recv --pt 0 --ssrc 1 = Recv, pt 0, ssrc 1
sdp = Sdp
apart --streams 255 = Apart, streams 255
join --streams 1 = Join, streams 1
extract --streams 255 --stream 254 = Extract, streams 255, stream 254
split = Split, form Demo, frames 1
split --frames 48 = Split, form Demo, frames 48
--frames=5 split --form self = Split, form SelfDelimited, frames 5
pad --size 33554431 = Pad, form Raw, size 33554431
";

/// Adds an option's value, if it has one, to what is told of a job.
fn add<T: Debug + Drop>(
    alloc: Global,
    told: &mut String,
    name: &str,
    value: Option<T>,
) -> Result<(), AllocError> {
    if let Some(value) = value {
        let field = format!(in alloc; ", {name} {value:?}")?;
        told.push_str(field.as_str())?;
    }
    Ok(())
}

fn add_sizes(alloc: Global, told: &mut String, job: &Job) -> Result<(), AllocError> {
    add(alloc, told, "form", job.form)?;
    add(alloc, told, "streams", job.streams)?;
    add(alloc, told, "stream", job.stream)?;
    add(alloc, told, "group", job.group)?;
    add(alloc, told, "frames", job.frames)?;
    add(alloc, told, "size", job.size)
}

fn add_numbers(alloc: Global, told: &mut String, job: &Job) -> Result<(), AllocError> {
    add(alloc, told, "pt", job.pt)?;
    add(alloc, told, "seq", job.seq)?;
    add(alloc, told, "stamp", job.stamp)?;
    add(alloc, told, "ssrc", job.ssrc)?;
    add(alloc, told, "seed", job.seed)?;
    add(alloc, told, "count", job.count)?;
    add(alloc, told, "padding", job.padding)
}

fn told(alloc: Global, job: &Job) -> Result<String, AllocError> {
    let kind = job.kind;
    let mut told = format!(in alloc; "{kind:?}")?;
    add_sizes(alloc, &mut told, job)?;
    add_numbers(alloc, &mut told, job)?;
    Ok(told)
}

fn is_taken(alloc: Global, row: &str) -> Result<bool, Fail> {
    let (line, want) = row.split_once(" = ").ok_or("a row has two parts")?;
    match answer(alloc, line)? {
        Ok(job) => Ok(told(alloc, &job)?.as_str() == want),
        Err(_) => Ok(false),
    }
}

#[test]
fn words_stand_for_jobs(rt: HostRuntime) -> Result<(), Fail> {
    for row in JOBS.lines() {
        assert!(rt; is_taken(rt.alloc(), row)?, "{row}");
    }
    Ok(())
}

/// Each row has words, and then the usage kind that they give.
const ROWS: &str = "\
norm --loud yes = Words
 = Words
norm norm = Words
--form raw = Words
norm --form = Words
norm --for raw = Words
norm --Form raw = Words
norm -f raw = Words
norm --form raw --form raw = Words
norm --form=raw --form demo = Words
sing --seed 1 --seed 1 = Words
--help = Words
norm --help = Words
-h = Words
--version = Words
norm -V = Words
sing = Job
Norm = Job
sing --size x = Job
head --form raw = Option(Form)
apart --form demo = Option(Form)
merge --streams 1 = Option(Streams)
join --stream 0 = Option(Stream)
split --group 1 = Option(Group)
merge --frames 1 = Option(Frames)
norm --size 4 = Option(Size)
split --form x --size 4 = Option(Size)
sdp --pt 1 = Option(Pt)
recv --seq 1 = Option(Seq)
replay --stamp 1 = Option(Stamp)
make --ssrc 1 = Option(Ssrc)
send --seed 1 = Option(Seed)
check --count=1 = Option(Count)
norm --count 1 --stream 1 = Option(Stream)
check --padding drop = Option(Padding)
norm --padding keep --padding keep = Words
split --count 1 --padding x = Option(Count)
norm --form RAW = Value(Form)
merge --form raw = Value(Form)
pad --form self = Value(Form)
norm --streams 0 = Value(Streams)
norm --streams 256 = Value(Streams)
norm --streams 01 = Value(Streams)
norm --streams +1 = Value(Streams)
extract --stream 300 = Value(Stream)
extract --stream 255 = Value(Stream)
merge --group 49 = Value(Group)
split --frames 0 = Value(Frames)
split --frames=49 = Value(Frames)
pad --size 33554432 = Value(Size)
send --pt 128 = Value(Pt)
send --seq 65536 = Value(Seq)
send --stamp 4294967296 = Value(Stamp)
recv --ssrc 99999999999999999999 = Value(Ssrc)
make --seed 1x = Value(Seed)
trial --count 1000001 = Value(Count)
trial --count 1_000 = Value(Count)
norm --padding Keep = Value(Padding)
norm --padding= = Value(Padding)
norm --streams 0 --padding x = Value(Streams)
extract --stream 7 = Missing(Streams)
apart = Missing(Streams)
join = Missing(Streams)
extract --streams 2 = Missing(Stream)
pad = Missing(Size)
make --seed 3 = Missing(Count)
trial = Missing(Count)
extract --streams 2 --stream 2 = Value(Stream)
norm --form self --streams 2 = Value(Streams)
";

fn is_named(alloc: Global, row: &str) -> Result<bool, Fail> {
    let (line, want) = row.split_once(" = ").ok_or("a row has two parts")?;
    let Err(kind) = answer(alloc, line)? else {
        return Ok(false);
    };
    let text = format!(in alloc; "{kind:?}")?;
    Ok(text.as_str() == format!(in alloc; "Usage({want})")?.as_str())
}

#[test]
fn names_what_is_wrong(rt: HostRuntime) -> Result<(), Fail> {
    for row in ROWS.lines() {
        assert!(rt; is_named(rt.alloc(), row)?, "{row}");
    }
    Ok(())
}

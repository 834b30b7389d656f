//! Words that stand for no job, and words as they come from a process.
use crate::arguments::words_of;
use crate::finish::Finish;
use opus_words::UsageKind;
use std::alloc::Global;
use std::env::FillError;
use std::rt::Env;
use std::test::Fail;

pub(crate) const ROWS: &str = r"
norm --loud yes | | | usage: words
sing | | | usage: job
norm --size 4 | | | usage: option --size
split --frames 0 | | | usage: value --frames
pad | | | usage: missing --size
extract --streams 2 --stream 2 | | | usage: value --stream
norm --form self --streams 2 | | | usage: value --streams
--help | | | usage: words
norm --padding some | | | usage: value --padding
merge --padding keep | | | usage: option --padding
";

// The arguments of a process, its name first.
#[derive(Drop)]
struct Arguments(&'static [&'static [u8]]);

impl Env for Arguments {
    fn arg(&self, i: usize, buf: &mut [u8]) -> Result<usize, FillError> {
        let word = *self.0.get(i).ok_or(FillError::NotPresent)?;
        let room = buf.get_mut(..word.len()).ok_or(FillError::TooLong)?;
        room.copy_from_slice(word);
        Ok(word.len())
    }

    fn var(&self, _: &str, _: &mut [u8]) -> Result<usize, FillError> {
        Err(FillError::NotPresent)
    }

    fn var_at(&self, _: usize, _: &mut [u8]) -> Result<usize, FillError> {
        Err(FillError::NotPresent)
    }
}

// The arguments of a process, and its words, where they are taken.
type Taken = (&'static [&'static [u8]], Option<&'static str>);

const TAKEN: &[Taken] = &[
    (
        &[b"opuspack", b"norm", b"--form=demo"],
        Some("norm --form=demo"),
    ),
    (&[b"opuspack", b"\xff"], None),
];

fn are_taken(alloc: Global, row: &Taken) -> Result<bool, Fail> {
    match (words_of(&(Arguments(row.0), alloc)), row.1) {
        (Ok(words), Some(line)) => Ok(words == super::words_of(alloc, line)?),
        (Err(finish), None) => Ok(matches!(finish, Finish::Usage(UsageKind::Words))),
        _ => Ok(false),
    }
}

#[test]
fn takes_the_words_behind_the_programs_name(rt: HostRuntime) -> Result<(), Fail> {
    for row in TAKEN {
        assert!(rt; are_taken(rt.alloc(), row)?, "{row:?}");
    }
    Ok(())
}

//! The job join over stores, a row a line.
use crate::pack_jobs_rows::{LIMIT, Row, Run, is_row};
use opus_io::{MemorySink, MemorySource};
use opus_words::Ending;
use std::alloc::Global;
use std::test::Fail;
use stream_jobs::join_job;

// The records of a group, which are joined.
#[derive(Clone, Copy, Debug)]
struct Group(u8);

impl Run for Group {
    fn run(
        &self,
        alloc: Global,
        limit: u64,
        source: &mut MemorySource,
        sink: &mut MemorySink,
    ) -> Ending {
        join_job(alloc, self.0.max(1), limit.clamp(1, LIMIT), source, sink)
    }
}

const ROWS: &[Row<Group>] = &[
    // Whole groups.
    (
        Group(2),
        b"\0\0\0\x02\0\0\0\x05\xf8\xaa\0\0\0\x02\0\0\0\x03\xf8\xbb",
        None,
        b"\0\0\0\x05\0\0\0\x06\xf8\x01\xaa\xf8\xbb",
    ),
    (
        Group(2),
        b"\0\0\0\x02\xff\0\xff\0\xf8\xaa\0\0\0\x02\x0f\xf0\x0f\xf0\xf8\xbb",
        None,
        b"\0\0\0\x05\xf0\xf0\xf0\xf0\xf8\x01\xaa\xf8\xbb",
    ),
    (
        Group(1),
        b"\0\0\0\x05\0\0\0\x07\xfb\x41\x01\xaa\0\0\0\0\0\0\0\0\x09\0\0\0\x02\0\0\0\x01\xf0\xbb",
        None,
        b"\0\0\0\x02\0\0\0\x07\xf8\xaa\0\0\0\0\0\0\0\x09\0\0\0\x02\0\0\0\x01\xf0\xbb",
    ),
    (
        Group(3),
        b"\0\0\0\x02\0\0\0\x01\xf8\xaa\0\0\0\x03\0\0\0\x02\xf1\xbb\xcc\0\0\0\x02\0\0\0\x04\xf8\xdd\
        \0\0\0\0\0\0\0\x08\0\0\0\0\0\0\0\x0c\0\0\0\0\0\0\0\x02",
        None,
        b"\0\0\0\x09\0\0\0\x07\xf8\x01\xaa\xf1\x01\xbb\xcc\xf8\xdd\0\0\0\0\0\0\0\x06",
    ),
    (
        Group(2),
        b"\0\0\0\x02\0\0\0\0\xf8\xaa\0\0\0\x02\0\0\0\0\xf8\xbb\0\0\0\x02\0\0\0\x01\xf0\xcc\0\0\0\x02\0\0\0\x01\xf0\xdd",
        None,
        b"\0\0\0\x05\0\0\0\0\xf8\x01\xaa\xf8\xbb\0\0\0\x05\0\0\0\0\xf0\x01\xcc\xf0\xdd",
    ),
    (Group(255), b"", None, b""),
    // Records that don't follow the first of their group.
    (
        Group(2),
        b"\0\0\0\x02\0\0\0\0\xf8\xaa\0\0\0\0\0\0\0\0",
        Some((1, 18, "lost part")),
        b"",
    ),
    (
        Group(3),
        b"\0\0\0\0\0\0\0\0\0\0\0\x02\0\0\0\0\xf8\xaa\0\0\0\x02\0\0\0\0\xf8\xbb",
        Some((1, 18, "lost part")),
        b"",
    ),
    (
        Group(3),
        b"\0\0\0\x02\0\0\0\0\xf8\xaa\0\0\0\0\0\0\0\0\0\0\0\x02\0\0\0\0\xf8\xbb",
        Some((1, 18, "lost part")),
        b"",
    ),
    (
        Group(3),
        b"\0\0\0\x02\0\0\0\0\xf8\xaa\0\0\0\x02\0\0\0\0\xf8\xbb\0\0\0\0\0\0\0\0",
        Some((2, 28, "lost part")),
        b"",
    ),
    (
        Group(3),
        b"\0\0\0\0\0\0\0\0\0\0\0\0\0\0\0\0\0\0\0\x02\0\0\0\0\xf8\xaa",
        Some((2, 26, "lost part")),
        b"",
    ),
    (
        Group(3),
        b"\0\0\0\x02\0\0\0\0\xf8\xaa\0\0\0\x02\0\0\0\0\xf0\xbb\0\0\0\x02\0\0\0\0\xf8\xcc",
        Some((1, 20, "unequal stream 1")),
        b"",
    ),
    (
        Group(3),
        b"\0\0\0\x02\0\0\0\0\xf8\xaa\0\0\0\x02\0\0\0\0\xf8\xbb\0\0\0\x02\0\0\0\0\xf0\xcc",
        Some((2, 30, "unequal stream 2")),
        b"",
    ),
    (
        Group(2),
        b"\0\0\0\x02\0\0\0\x05\xf8\xaa\0\0\0\x02\0\0\0\x03\xf8\xbb\0\0\0\x02\0\0\0\0\xf8\xcc\0\0\0\x02\0\0\0\0\xf0\xdd",
        Some((3, 40, "unequal stream 1")),
        b"\0\0\0\x05\0\0\0\x06\xf8\x01\xaa\xf8\xbb",
    ),
    (
        Group(2),
        b"\0\0\0\0\0\0\0\x05\0\0\0\0\0\0\0\x03\0\0\0\x02\0\0\0\0\xf8\xaa\0\0\0\0\0\0\0\0",
        Some((3, 34, "lost part")),
        b"\0\0\0\0\0\0\0\x06",
    ),
    // Bad records, groups that are too short, and cuts.
    (
        Group(2),
        b"\0\0\0\x02\0\0\0\0\xf8\xaa\0\0\0\x02\0\0\0\0\xfb\0",
        Some((1, 19, "R5 at 1")),
        b"",
    ),
    (
        Group(2),
        b"\0\0\0\x02\0\0\0\x05\xf8\xaa\0\0\0\x02\0\0\0\x03\xf8\xbb\0\0\0\x02\0\0\0\0\xf9\xaa\0\0\0\0\0\0\0\0",
        Some((2, 30, "R3 at 2")),
        b"\0\0\0\x05\0\0\0\x06\xf8\x01\xaa\xf8\xbb",
    ),
    (
        Group(2),
        b"\0\0\0\x02\0\0\0\0\xf8\xaa",
        Some((1, 10, "short group")),
        b"",
    ),
    (
        Group(2),
        b"\0\0\0\x02\0\0\0\x05\xf8\xaa\0\0\0\x02\0\0\0\x03\xf8\xbb\0\0\0\0\0\0\0\x01",
        Some((3, 28, "short group")),
        b"\0\0\0\x05\0\0\0\x06\xf8\x01\xaa\xf8\xbb",
    ),
    (
        Group(3),
        b"\0\0\0\x02\0\0\0\0\xf8\xaa\0\0\0\x02\0\0\0\0\xf8\xbb",
        Some((2, 20, "short group")),
        b"",
    ),
    (
        Group(2),
        b"\0\0\0\x02\0\0\0\0\xf8\xaa\0\0\0",
        Some((1, 13, "short group")),
        b"",
    ),
    (
        Group(2),
        b"\0\0\0\x02\0\0\0\0\xf8\xaa\0\0\0\x03\0\0\0\0\xfb\x07",
        Some((1, 19, "R5 at 1")),
        b"",
    ),
    (
        Group(2),
        b"\0\0\0\x02\0\0\0\x05\xf8\xaa\0\0\0\x02\0\0\0\x03\xf8\xbb\0\0\0\x02\0\0\0\0\xf8",
        Some((2, 29, "store cut")),
        b"\0\0\0\x05\0\0\0\x06\xf8\x01\xaa\xf8\xbb",
    ),
    (Group(3), b"\0", Some((0, 1, "store cut")), b""),
];

#[test]
fn groups_are_joined_or_refused(rt: HostRuntime) -> Result<(), Fail> {
    for row in ROWS {
        assert!(rt; is_row(rt.alloc(), row)?, "{row:?}");
    }
    Ok(())
}

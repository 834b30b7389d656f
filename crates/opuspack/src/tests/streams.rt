//! Jobs over multistream packets.

pub(crate) const ROWS: &str = r"
# With a byte of padding in the first stream, and a lone frame with a count in the second.
norm --streams 2 | fb410101aa00fb01bb | f801aaf8bb |
norm --streams 2 | f801aaf0bb | | refused: record 0 at 3: unequal stream 1
norm --streams 2 | f801aa | | refused: record 0 at 3: stream 1 R1 at 0
apart --streams 2 | 00000005 00000009 f801aaf8bb 00000000 00000007 | 00000002 00000000 f8aa 00000002 00000000 f8bb 00000000 00000000 00000000 00000000 |
extract --streams 2 --stream 1 | 00000005 00000009 f801aaf8bb 00000000 00000007 | 00000002 00000000 f8bb 00000000 00000000 |
join --streams 2 | 00000002 00000005 f8aa 00000002 00000003 f8bb | 00000005 00000006 f801aaf8bb |
join --streams 2 | 00000002 00000000 f8aa | | refused: record 1 at 10: short group
join --streams 2 | 00000002 00000000 f8aa 00000000 00000000 | | refused: record 1 at 18: lost part
check --form demo --streams 2 | 00000003 00000000 f801aa 00000005 00000000 f801aaf0bb 00000000 00000000 00000005 00000000 f801aaf8bb | '0 stream 1 R1 at 0\n1 unequal stream 1\n2 lost\n3 ok\n' | refused: record 0 at 11: stream 1 R1 at 0
";

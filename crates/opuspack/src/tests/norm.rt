//! norm in its three forms, and with padding kept.

pub(crate) const ROWS: &str = r"
# One packet.
norm | fa02aabbccdd | f9aabbccdd |
norm | 08 | 08 |
norm | fbc20201aabb0000 | f9aabb |
norm | fb06 | fb06 |
norm | f9 | f9 |
norm | | | refused: record 0 at 0: R1 at 0
norm | fb00 | | refused: record 0 at 1: R5 at 1
norm | fb07 | | refused: record 0 at 1: R5 at 1
norm | f9aa | | refused: record 0 at 2: R3 at 2
norm | fa | | refused: record 0 at 1: R4 at 1
norm | fafc | | refused: record 0 at 2: R4 at 2
norm | fa05aa | | refused: record 0 at 3: R4 at 3
norm | fb | | refused: record 0 at 1: R6 at 1
norm | fb02aa | | refused: record 0 at 3: R6 at 3
norm | fb42 | | refused: record 0 at 2: R6 at 2
norm | fb410500 | | refused: record 0 at 4: R6 at 4
norm | fb8203aa | | refused: record 0 at 4: R7 at 4
# Self-delimited packets.
norm --form self | f802aabbf800 | f802aabbf800 |
norm --form self | fb410102aabb00 | f802aabb |
norm --form self | | |
norm --form self | fa0101aabbf900fb820100cc | f901aabbf900fa0100cc |
norm --form self | f802aa | | refused: record 0 at 3: Cut at 3
norm --form self | f8 | | refused: record 0 at 1: Cut at 1
norm --form self | f8fc | | refused: record 0 at 2: Cut at 2
norm --form self | f801 | | refused: record 0 at 2: Cut at 2
norm --form self | f9 | | refused: record 0 at 1: Cut at 1
norm --form self | f9fc | | refused: record 0 at 2: Cut at 2
norm --form self | f901aa | | refused: record 0 at 3: Cut at 3
norm --form self | fa | | refused: record 0 at 1: Cut at 1
norm --form self | fafc | | refused: record 0 at 2: Cut at 2
norm --form self | fa01 | | refused: record 0 at 2: Cut at 2
norm --form self | fa01fc | | refused: record 0 at 3: Cut at 3
norm --form self | fa0101aa | | refused: record 0 at 4: Cut at 4
norm --form self | fb | | refused: record 0 at 1: Cut at 1
norm --form self | fb02 | | refused: record 0 at 2: Cut at 2
norm --form self | fb0201aa | | refused: record 0 at 4: Cut at 4
norm --form self | fb42 | | refused: record 0 at 2: Cut at 2
norm --form self | fb42ff | | refused: record 0 at 3: Cut at 3
norm --form self | fb4201 | | refused: record 0 at 3: Cut at 3
norm --form self | fb420100 | | refused: record 0 at 4: Cut at 4
norm --form self | fb82 | | refused: record 0 at 2: Cut at 2
norm --form self | fb82fc | | refused: record 0 at 3: Cut at 3
norm --form self | fb8201 | | refused: record 0 at 3: Cut at 3
norm --form self | fb820101aa | | refused: record 0 at 5: Cut at 5
norm --form self | fb00 | | refused: record 0 at 1: R5 at 1
norm --form self | fb0700 | | refused: record 0 at 1: R5 at 1
norm --form self | f801aafb31 | f801aa | refused: record 1 at 4: R5 at 1
norm --form self | f801aaf901bb | f801aa | refused: record 1 at 6: Cut at 3
# Stores.
norm --form demo | 00000000 00000007 | 00000000 00000007 |
norm --form demo | | |
norm --form demo | 00000006 00000005 fa02aabbccdd 00000000 00000006 00000008 00000007 fbc20201aabb0000 | 00000005 00000005 f9aabbccdd 00000000 00000006 00000003 00000007 f9aabb |
norm --form demo | 00000003 00000000 f8aa | | refused: record 0 at 10: store cut
norm --form demo | 00000003 00000000 fb07 | | refused: record 0 at 9: R5 at 1
norm --form demo | 00000002 00000001 f8aa 00000002 00000002 fb00 00000002 00000003 f8bb | 00000002 00000001 f8aa | refused: record 1 at 19: R5 at 1
# Padding bytes are written again.
norm --padding keep | fbc20201aabb1122 | fb4202aabb1122 |
norm --padding keep | fb4100aa | f8aa |
norm --form self --padding keep | fb410102aabb00 | fb410102aabb00 |
";

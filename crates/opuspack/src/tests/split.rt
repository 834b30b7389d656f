//! split over stores and self-delimited packets.

pub(crate) const ROWS: &str = r"
# Stores.
split --frames 2 | 00000005 00000007 fb03aabbcc | 00000003 00000000 f9aabb 00000002 00000007 f8cc |
split --frames 2 | 00000007 00000007 fb4301aabbcc00 | 00000003 00000000 f9aabb 00000002 00000007 f8cc |
split --frames 2 | 00000000 00000007 00000002 00000008 f8aa 00000000 00000009 | 00000000 00000007 00000002 00000008 f8aa 00000000 00000009 |
split --frames 2 | 00000004 00000007 fa01aabb | 00000003 00000007 f9aabb |
split --frames 2 | | |
split --frames 2 | 00000002 00000001 fb03 00000002 00000002 fb00 | 00000001 00000000 f9 00000001 00000001 f8 | refused: record 1 at 19: R5 at 1
split --frames 2 | 00000002 00000001 f8aa 00000002 00000002 f9aa | 00000002 00000001 f8aa | refused: record 1 at 20: R3 at 2
split --frames 2 | 00000000 00000001 00000003 00000002 fb03 | 00000000 00000001 | refused: record 1 at 18: store cut
# One frame a piece, where no number is given.
split | 00000003 00000007 f9aabb | 00000002 00000000 f8aa 00000002 00000007 f8bb |
# Self-delimited packets.
split --form self --frames 2 | fb0301aabbccf800 | f901aabbf801ccf800 |
split --form self --frames 2 | fb83010002aabbcc | fa0100aaf802bbcc |
split --form self --frames 2 | | |
split --form self --frames 2 | fb0300f802aa | f900f800 | refused: record 1 at 6: Cut at 3
";

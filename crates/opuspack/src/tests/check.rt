//! check in its three forms.

pub(crate) const ROWS: &str = r"
# Stores.
check --form demo | 00000002 00000000 f8aa 00000000 00000000 00000002 00000000 fb07 | '0 ok\n1 lost\n2 R5 at 1\n' | refused: record 2 at 27: R5 at 1
check --form demo | 00000002 00000000 fb00 00000002 00000000 f8aa 00000002 00000000 f9aa | '0 R5 at 1\n1 ok\n2 R3 at 2\n' | refused: record 0 at 9: R5 at 1
check --form demo | 00000002 00000000 f8aa 00000005 | '0 ok\n' | refused: record 1 at 14: store cut
check --form demo | 00000002 00000000 fb00 00000005 | '0 R5 at 1\n' | refused: record 0 at 9: R5 at 1
check --form demo | 00000009 00000000 fb07 | '0 R5 at 1\n' | refused: record 0 at 9: R5 at 1
check --form demo | 00000003 00000000 f9aa | | refused: record 0 at 10: store cut
# One packet.
check | 08 | '0 ok\n' |
check | fb00 | '0 R5 at 1\n' | refused: record 0 at 1: R5 at 1
# Self-delimited packets.
--form=self check | f802aabbf800 | '0 ok\n1 ok\n' |
--form=self check | f800fb00 | '0 ok\n1 R5 at 1\n' | refused: record 1 at 3: R5 at 1
--form=self check | f800f8 | '0 ok\n1 Cut at 1\n' | refused: record 1 at 3: Cut at 1
";

//! pad over packets and stores.

pub(crate) const ROWS: &str = r"
# One packet in each size.
pad --size 2 | f8aa | f8aa |
pad --size 3 | f8aa | fb01aa |
pad --size 4 | f8aa | fb4100aa |
pad --size 5 | f8aa | fb4101aa00 |
pad --size 1 | f8aa | | refused: record 0 at 2: too small
pad --size 20000000 | f8aa | | refused: record 0 at 2: pad limit
# Stores: one frame; a lost packet; two frames of one length; one with padding, which is dropped; two frames of two
# lengths.
pad --form demo --size 4 | 00000002 00000007 f8aa 00000000 00000009 | 00000004 00000007 fb4100aa 00000000 00000009 |
pad --form demo --size 4 | 00000003 00000007 f9aabb | 00000004 00000007 fb02aabb |
pad --form demo --size 4 | 00000006 00000007 fb4102aa0000 | 00000004 00000007 fb4100aa |
pad --form demo --size 4 | | |
pad --form demo --size 4 | 00000002 00000007 f8aa 00000005 00000007 f9aabbccdd | 00000004 00000007 fb4100aa | refused: record 1 at 23: too small
pad --form demo --size 4 | 00000002 00000001 f8aa 00000002 00000002 f9aa | 00000004 00000001 fb4100aa | refused: record 1 at 20: R3 at 2
pad --form demo --size 4 | 00000000 00000001 00000003 00000002 fb03 | 00000000 00000001 | refused: record 1 at 18: store cut
";

//! The jobs that write lines or events: show, recv, replay and sdp.

/// A capture of seven records: one is RTCP, two came in swapped order, one was cut, and the last repeats the one before
/// it.
pub(crate) const CAPTURE: &str = r"'#!rtpplay1.0 10.0.0.5/5004\n' 00*8 0a000005 138c 0000
0018 0010 00000000 806f 03e8 00000000 1234abcd fc010203
0010 0000 00000005 80c90001 1234abcd
0023 001b 00000028 916f 03ea 00000780 1234abcd 00000007bede000110ff0000fc0405
0016 000e 00000029 806f 03e9 000003c0 1234abcd fc06
0014 0010 0000003c 806f 03eb 00000b40 1234abcd
0018 0010 00000050 a06f 03ec 00000f00 1234abcd fc080002
0016 000e 00000051 806f 03ec 00000f00 1234abcd fc09";

/// The payloads of its packets as a store, a lost record for the one that was cut.
pub(crate) const PAYLOADS: &str =
    r"00000004 00000000 fc010203 00000002 00000000 fc06 00000003 00000000 fc0405 00000000 00000000 00000002 00000000 fc08";

/// Its packets and what is missing, a line each, and what became of its records.
pub(crate) const EVENTS: &str = r"'packet 1000 stamp 0 bytes 4\n'
'packet 1001 stamp 960 bytes 2\n'
'packet 1002 stamp 1920 bytes 3\n'
'gap 1003 count 1\n'
'packet 1004 stamp 3840 bytes 2\n'
'records 7 rtcp 1 cut 1 bad 0 other 0 repeats 1 packets 4 missing 1\n'";

pub(crate) const ROWS: &str = r"
# A packet of SILK at 20 ms, one of SILK in stereo at 60 ms, and one of CELT without bytes.
show | 0840 | '0.0: config 1 silk nb 960 samples mono, code 0, 1 frames, pad 0, 2 bytes\n0.0.0: 1 bytes mid 0/1\n' |
show | 1c11 | '0.0: config 3 silk nb 2880 samples stereo, code 0, 1 frames, pad 0, 2 bytes\n0.0.0: 1 bytes mid 000/1 side 000/1\n' |
show | fc | '0.0: config 31 celt fb 960 samples stereo, code 0, 1 frames, pad 0, 1 bytes\n0.0.0: 0 bytes\n' |
recv | CAPTURE | PAYLOADS |
replay | CAPTURE | EVENTS |
sdp | 'a=fmtp:111 useinbandfec=1; maxplaybackrate=16000;minptime=10' | 'a=fmtp:111 maxplaybackrate=16000;useinbandfec=1;minptime=10\n' |
sdp | 'a=rtpmap:111 opus/48000/2' | 'a=rtpmap:111 opus/48000/2\n' |
sdp | | |
# Their faults.
sdp | 'a=fmtp:111 stereo=2' | | refused: record 0 at 18: value
show | fb07 | | refused: record 0 at 1: R5 at 1
replay | '#!rtpplay1.0 10.0.0.5/5004' | 'records 0 rtcp 0 cut 0 bad 0 other 0 repeats 0 packets 0 missing 0\n' | refused: record 0 at 26: store cut
recv | '#!Atpplay1.0 10.0.0.5/5004\n' | | refused: record 0 at 2: dump line
";

//! The packets that lent bytes spell.
use opus_feed::Framing;
use pack_records::lent_packet;

// A framing, bytes, and the frames of the packet that all of them spell, one behind the other, if they spell one.
type Spelled = (Framing, &'static [u8], Option<&'static [u8]>);

const SPELLED: &[Spelled] = &[
    (
        Framing::Whole,
        b"\xfa\x02\xaa\xbb\xcc",
        Some(b"\xaa\xbb\xcc"),
    ),
    (
        Framing::Whole,
        b"\xfb\x42\x01\xaa\xbb\x00",
        Some(b"\xaa\xbb"),
    ),
    (Framing::Whole, b"\x08", Some(b"")),
    (Framing::Whole, b"\xf9\xaa", None),
    (Framing::Whole, b"", None),
    (
        Framing::SelfDelimited,
        b"\xf8\x02\xaa\xbb",
        Some(b"\xaa\xbb"),
    ),
    (Framing::SelfDelimited, b"\xf8\x00", Some(b"")),
    (Framing::SelfDelimited, b"\xf8\x02\xaa", None),
    (Framing::SelfDelimited, b"\xf8\x00\xaa", None),
];

fn is_spelled(row: &Spelled) -> bool {
    lent_packet(row.0, row.1).map(|packet| packet.body()) == row.2
}

#[test]
fn lent_bytes_spell_one_packet_or_none(rt: HostRuntime) {
    for row in SPELLED {
        assert!(rt; is_spelled(row), "{row:?}");
    }
}

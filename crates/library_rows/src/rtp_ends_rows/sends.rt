//! Records sent in order, with losses, and numbers and stamps that wrap.
use opus_packet::decode;
use rtp_ends::Sender;
use std::alloc::Global;
use std::test::Fail;

/// What is sent: a packet, a canonical form of so many samples, or nothing where a packet is lost.
#[derive(Clone, Copy, Debug)]
enum Record {
    Packet(&'static [u8]),
    Form(&'static [u8], u32),
    Lost,
}

// The first sequence number, the first stamp, the source and the payload type; what stands in front; the records; all
// bytes at the end; and how many records there were, and how long they last.
type Row = (
    (u16, u32, u32, u8),
    &'static [u8],
    &'static [Record],
    &'static [u8],
    (u64, u64),
);

const ROWS: &[Row] = &[
    // Two packets with a loss between them, whose numbers and stamps wrap.
    (
        (65535, 4_294_967_000, 1, 111),
        &[0x77],
        &[
            Record::Packet(&[0xF8, 0xAA]),
            Record::Lost,
            Record::Packet(&[0xF8, 0xBB]),
        ],
        &[
            0x77, 0x80, 0x6F, 0xFF, 0xFF, 0xFF, 0xFF, 0xFE, 0xD8, 0, 0, 0, 1, 0xF8, 0xAA, 0x80,
            0x6F, 0, 1, 0, 0, 6, 0x58, 0, 0, 0, 1, 0xF8, 0xBB,
        ],
        (3, 2880),
    ),
    // Two losses before the first packet take no time, and each later one as much as the packet before it: of 20 ms,
    // 2.5 ms, and 60 ms in one frame of SILK or three of CELT, which is written in its canonical form.
    (
        (65534, 0, 0x0102_0304, 127),
        &[],
        &[
            Record::Lost,
            Record::Lost,
            Record::Packet(&[0xF8]),
            Record::Lost,
            Record::Packet(&[0xE0]),
            Record::Lost,
            Record::Lost,
            Record::Packet(&[0x18]),
            Record::Packet(&[0xFB, 0x43, 1, 7, 7, 7, 0]),
        ],
        &[
            0x80, 127, 0, 0, 0, 0, 0, 0, 1, 2, 3, 4, 0xF8, // 0
            0x80, 127, 0, 2, 0, 0, 7, 0x80, 1, 2, 3, 4, 0xE0, // 1920
            0x80, 127, 0, 5, 0, 0, 8, 0xE8, 1, 2, 3, 4, 0x18, // 2280
            0x80, 127, 0, 6, 0, 0, 0x14, 0x28, 1, 2, 3, 4, 0xFB, 3, 7, 7, 7, // 5160
        ],
        (9, 8040),
    ),
    // Canonical forms sent from where they lie: of 20 ms, then a loss, and 60 ms in three frames.
    (
        (65535, 0, 1, 96),
        &[],
        &[
            Record::Form(&[0xF8, 0xAA], 960),
            Record::Lost,
            Record::Form(&[0xFB, 3, 7, 7, 7], 2880),
        ],
        &[
            0x80, 96, 0xFF, 0xFF, 0, 0, 0, 0, 0, 0, 0, 1, 0xF8, 0xAA, // 0
            0x80, 96, 0, 1, 0, 0, 7, 0x80, 0, 0, 0, 1, 0xFB, 3, 7, 7, 7, // 1920
        ],
        (3, 4800),
    ),
];

fn send(sender: &mut Sender, record: Record, out: &mut Vec<u8>) -> Result<(), Fail> {
    match record {
        _ if sender.sent() >= 1000 => {}
        Record::Packet(bytes) => sender.send(&decode(bytes)?, out)?,
        Record::Form(form, samples) if samples <= 5760 => sender.send_form(form, samples, out)?,
        Record::Form(..) => {}
        Record::Lost => sender.skip(),
    }
    Ok(())
}

fn is_sent(alloc: Global, row: &Row) -> Result<bool, Fail> {
    let (seq, stamp, ssrc, payload_type) = row.0;
    if payload_type >= 128 {
        return Ok(false);
    }
    let mut sender = Sender::new(seq, stamp, ssrc, payload_type);
    let mut out = Vec::from_slice(alloc, row.1)?;
    for record in row.2 {
        send(&mut sender, *record, &mut out)?;
    }
    Ok(out.as_slice() == row.3 && (sender.sent(), sender.elapsed()) == row.4)
}

#[test]
fn records_are_sent_in_order(rt: HostRuntime) -> Result<(), Fail> {
    for row in ROWS {
        assert!(rt; is_sent(rt.alloc(), row)?, "{row:?}");
    }
    Ok(())
}

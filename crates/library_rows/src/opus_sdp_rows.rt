//! Lines, what is printed of them, and their faults with their places.
use opus_io::Bytes;
use opus_sdp::SdpFault::{self, Codec, Name, PayloadType, Prefix, Repeat, Value};
use opus_sdp::{Fmtp, Param, Params, is_line, read_fmtp, read_rtpmap, write_fmtp, write_rtpmap};
use std::alloc::Global;
use std::test::Fail;

// A line and behind `=>` what is printed of it, which is printed again as it is; or behind `!!` its fault.
const ROWS: &str = "\
# Of all kinds.
a=fmtp:111 useinbandfec=1; maxplaybackrate=16000;minptime=10 \
=> a=fmtp:111 maxplaybackrate=16000;useinbandfec=1;minptime=10
a=fmtp:111 stereo=2 !! Value(18)
a=rtpmap:111 opus/48000/2 => a=rtpmap:111 opus/48000/2
a=fmtp:128 !! PayloadType(7)
a=rtpmap:111 opus/48000 !! Codec(12)
a=fmtp:1 cbr=1;CBR=0 !! Repeat(15)
a=fmtp:1 cbr !! Name(9)
a=fmtp:1 ;; => a=fmtp:1
# A line begins with its kind and a payload type.
 !! Prefix
 \t\r !! Prefix
 a=fmtp:1 !! Prefix
A=fmtp:1 !! Prefix
a=fmtp !! Prefix
a=rtpmap !! Prefix
a=fmtp: !! PayloadType(7)
a=fmtp: 1 !! PayloadType(7)
a=fmtp:0 => a=fmtp:0
a=fmtp:00 !! PayloadType(7)
a=fmtp:01 cbr=1 !! PayloadType(7)
a=fmtp:127 => a=fmtp:127
a=fmtp:+1 !! PayloadType(7)
a=fmtp:1;cbr=1 !! PayloadType(7)
a=fmtp:1\u{b} !! PayloadType(7)
a=fmtp:18446744073709551617 !! PayloadType(7)
a=rtpmap: !! PayloadType(9)
a=rtpmap:128 opus/48000/2 !! PayloadType(9)
a=rtpmap:0opus/48000/2 !! PayloadType(9)
# The codec is Opus in any case.
a=rtpmap:96 OPUS/48000/2\r => a=rtpmap:96 opus/48000/2
a=rtpmap:0 \t\rOpUs/48000/2 \t => a=rtpmap:0 opus/48000/2
a=rtpmap:127\topus/48000/2 => a=rtpmap:127 opus/48000/2
a=rtpmap:7 !! Codec(10)
a=rtpmap:7  !! Codec(10)
a=rtpmap:0 PCMU/8000\r !! Codec(10)
a=rtpmap:97 VP8/90000\r !! Codec(11)
a=rtpmap:126 telephone-event/8000 !! Codec(12)
a=rtpmap:111 opus/48000/1 !! Codec(12)
a=rtpmap:111 opus/48000/2/1 !! Codec(12)
a=rtpmap:111 opus /48000/2 !! Codec(12)
a=rtpmap:111 opus/48000/2 x !! Codec(12)
# Blanks are dropped around parameters, names and values.
a=fmtp:1 \t\r  => a=fmtp:1
a=fmtp:1\tcbr=1\r => a=fmtp:1 cbr=1
a=fmtp:1\r\tcbr=1 => a=fmtp:1 cbr=1
a=fmtp:1  cbr\t=1 => a=fmtp:1 cbr=1
a=fmtp:1 cbr=\r1 => a=fmtp:1 cbr=1
a=fmtp:1 cbr=1\t;usedtx=0 => a=fmtp:1 cbr=1;usedtx=0
a=fmtp:1 cbr=1;\rusedtx=0 => a=fmtp:1 cbr=1;usedtx=0
a=fmtp:1 ; \t;cbr=1;\r => a=fmtp:1 cbr=1
a=fmtp:1 x = a b\t => a=fmtp:1 x=a b
a=fmtp:1 x=a\rb;y=c\r => a=fmtp:1 x=a\rb;y=c
a=fmtp:1 c br=1 !! Name(9)
a=fmtp:1 2 cbr=1 !! Name(9)
a=fmtp:1 cbr=1 0 !! Value(13)
a=fmtp:1  \tcbr=\t 2 !! Value(17)
a=fmtp:1 cbr=1; \tcbr=1 !! Repeat(17)
a=fmtp:1 x=1;\r y !! Name(15)
# The first fault is named.
a=fmtp:1 =1 !! Name(9)
a=fmtp:1 x+y=1 !! Name(9)
a=fmtp:1 \u{e9}=1 !! Name(9)
a=fmtp:1 -_.9aZ=v => a=fmtp:1 -_.9aZ=v
a=fmtp:1 cbr=1;cbr !! Name(15)
a=fmtp:1 cbr=1;cbr=7 !! Repeat(15)
a=fmtp:1 cbr=2;x !! Value(13)
a=fmtp:1 x=1;y=1;X=2 !! Repeat(17)
a=fmtp:1 x;x=1;cbr=3 !! Name(9)
a=fmtp:1 sTeReO=1;STEREO=1 !! Repeat(18)
# Values are what stands behind the first `=`.
a=fmtp:1 x= => a=fmtp:1 x=
a=fmtp:1 x= \t;y= => a=fmtp:1 x=;y=
a=fmtp:1 x=a=b== => a=fmtp:1 x=a=b==
a=fmtp:1 x== => a=fmtp:1 x==
a=fmtp:1 cbr=1=1 !! Value(13)
a=fmtp:1 cbr= !! Value(13)
a=fmtp:1 cbr =\t ;x=1 !! Value(14)
a=fmtp:1 cbr=01 !! Value(13)
a=fmtp:1 stereo=00 !! Value(16)
a=fmtp:1 maxplaybackrate=08000 !! Value(25)
a=fmtp:1 maxplaybackrate=8000. !! Value(25)
a=fmtp:1 maxplaybackrate=4294975296 !! Value(25)
a=fmtp:1 cbr=18446744073709551617 !! Value(13)
a=fmtp:1 cbr=true !! Value(13)
# Known ones stand in front, in small letters.
a=fmtp:9 Foo=1;CBR=0;bar=2 => a=fmtp:9 cbr=0;Foo=1;bar=2
a=fmtp:9 b=1;a=2;c=3 => a=fmtp:9 b=1;a=2;c=3
a=fmtp:96 sprop-maxcapturerate=44100 ; Sprop-Stereo=1\r => a=fmtp:96 sprop-maxcapturerate=44100;sprop-stereo=1
a=fmtp:102 sprop-stereo=0;sprop-maxcapturerate=12000;minptime=20;useinbandfec=0;maxaveragebitrate=64000;stereo=0\r \
=> a=fmtp:102 sprop-maxcapturerate=12000;maxaveragebitrate=64000;stereo=0;sprop-stereo=0;useinbandfec=0;minptime=20
a=fmtp:127 maxptime=60;cbr=1;sprop-stereo=0;usedtx=1;maxplaybackrate=16000;sprop-maxcapturerate=8000;ptime=20\r \
=> a=fmtp:127 maxplaybackrate=16000;sprop-maxcapturerate=8000;sprop-stereo=0;cbr=1;usedtx=1;maxptime=60;ptime=20
";

// Reads a line `a=fmtp:`, which no test here cuts with a newline.
fn read(alloc: Global, line: &[u8]) -> Result<Fmtp, SdpFault> {
    if is_line(line) {
        read_fmtp(alloc, line)
    } else {
        Err(Prefix)
    }
}

// What is printed of a line of either kind.
fn printed(alloc: Global, line: &[u8]) -> Result<Vec<u8>, SdpFault> {
    let mut out = Vec::new(alloc);
    if line.starts_with(b"a=rtpmap:") {
        write_rtpmap(read_rtpmap(line)?, &mut out)?;
    } else {
        write_fmtp(&read(alloc, line)?, &mut out)?;
    }
    Ok(out)
}

fn prints(alloc: Global, line: &str, text: &str) -> bool {
    match printed(alloc, line.as_bytes()) {
        Ok(mut out) => out.pop() == Some(b'\n') && out.as_slice() == text.as_bytes(),
        Err(_) => false,
    }
}

// The fault is named as it is derived to be printed.
fn has_fault(alloc: Global, line: &str, want: &str) -> Result<bool, Fail> {
    match printed(alloc, line.as_bytes()) {
        Ok(_) => Ok(false),
        Err(fault) => Ok(format!(in alloc; "{fault:?}")?.as_str() == want),
    }
}

fn is_said(alloc: Global, row: &str) -> Result<bool, Fail> {
    if let Some((line, text)) = row.split_once(" => ") {
        return Ok(prints(alloc, line, text) && prints(alloc, text, text));
    }
    let (line, fault) = row.split_once(" !! ").ok_or("a row has two parts")?;
    has_fault(alloc, line, fault)
}

#[test]
fn lines_are_printed_in_one_form(rt: HostRuntime) -> Result<(), Fail> {
    for row in ROWS.lines() {
        if !row.starts_with('#') {
            assert!(rt; is_said(rt.alloc(), row)?, "{row:?}");
        }
    }
    Ok(())
}

// A known name, and the first and the last number that it allows.
const KNOWN: &str = "\
maxplaybackrate 8000 48000
sprop-maxcapturerate 8000 48000
maxaveragebitrate 6000 510000
stereo 0 1
sprop-stereo 0 1
cbr 0 1
useinbandfec 0 1
usedtx 0 1
";

#[derive(Drop)]
struct Known<'a> {
    name: &'a str,
    least: u32,
    most: u32,
}

fn known_of(row: &str) -> Result<Known<'_>, Fail> {
    let mut words = row.split(' ');
    let name = words.next().ok_or("a name is missing")?;
    let least = words.next().ok_or("the first number is missing")?.parse()?;
    let most = words.next().ok_or("the last number is missing")?.parse()?;
    Ok(Known { name, least, most })
}

fn is_allowed(alloc: Global, name: &str, written: &str, value: u32) -> Result<bool, Fail> {
    let line = format!(in alloc; "a=fmtp:1 {written}={value}")?;
    let text = format!(in alloc; "a=fmtp:1 {name}={value}")?;
    Ok(prints(alloc, line.as_str(), text.as_str()) && prints(alloc, text.as_str(), text.as_str()))
}

fn is_refused(alloc: Global, written: &str, value: i64) -> Result<bool, Fail> {
    let line = format!(in alloc; "a=fmtp:1 {written}={value}")?;
    let place = written.len().saturating_add(10);
    let fault = format!(in alloc; "Value({place})")?;
    has_fault(alloc, line.as_str(), fault.as_str())
}

// The name, written so, allows these two numbers, and none below the first or above the second.
fn has_range(alloc: Global, row: &Known<'_>, written: &str) -> Result<bool, Fail> {
    Ok(
        is_allowed(alloc, row.name, written, row.least)?
            && is_allowed(alloc, row.name, written, row.most)?
            && is_refused(alloc, written, i64::from(row.least).saturating_sub(1))?
            && is_refused(alloc, written, i64::from(row.most).saturating_add(1))?,
    )
}

fn has_range_in_any_case(alloc: Global, row: &str) -> Result<bool, Fail> {
    let known = known_of(row)?;
    let mut upper = String::from_str(alloc, known.name)?;
    upper.make_ascii_uppercase();
    Ok(has_range(alloc, &known, known.name)? && has_range(alloc, &known, upper.as_str())?)
}

#[test]
fn known_names_have_their_ranges_in_any_case(rt: HostRuntime) -> Result<(), Fail> {
    for row in KNOWN.lines() {
        assert!(rt; has_range_in_any_case(rt.alloc(), row)?, "{row}");
    }
    Ok(())
}

fn is_param(param: Option<&Param>, name: &[u8], value: &[u8]) -> bool {
    match param {
        Some(param) => param.name.as_slice() == name && param.value.as_slice() == value,
        None => false,
    }
}

fn others_are_x_and_z(fmtp: &Fmtp) -> bool {
    let others = fmtp.others.as_slice();
    others.len() == 2 && is_param(others.first(), b"X", b"y") && is_param(others.get(1), b"z", b"")
}

fn numbers_are_in_their_fields(fmtp: &Fmtp) -> bool {
    fmtp.payload_type == 5
        && fmtp.max_playback_rate == Some(8001)
        && fmtp.max_capture_rate == Some(8002)
        && fmtp.max_average_bitrate == Some(6003)
}

fn choices_are_in_their_fields(fmtp: &Fmtp) -> bool {
    (fmtp.stereo, fmtp.sprop_stereo) == (Some(true), Some(false))
        && (fmtp.cbr, fmtp.in_band_fec) == (Some(true), Some(false))
        && fmtp.dtx == Some(true)
}

fn parameters_stand_in_their_fields(alloc: Global) -> bool {
    let line = b"a=fmtp:5 maxplaybackrate=8001;sprop-maxcapturerate=8002;maxaveragebitrate=6003;\
        stereo=1;sprop-stereo=0;cbr=1;useinbandfec=0;usedtx=1;X=y;z=";
    match read(alloc, line) {
        Ok(fmtp) => {
            numbers_are_in_their_fields(&fmtp)
                && choices_are_in_their_fields(&fmtp)
                && others_are_x_and_z(&fmtp)
        }
        Err(_) => false,
    }
}

fn own_value(alloc: Global) -> Result<Fmtp, Fail> {
    let mut others = Vec::new(alloc);
    others.push(Param {
        name: Bytes::copy(alloc, b"ptime")?,
        value: Bytes::copy(alloc, b"20")?,
    })?;
    Ok(Fmtp {
        payload_type: 111,
        max_playback_rate: None,
        max_capture_rate: None,
        max_average_bitrate: Some(510_000),
        stereo: Some(false),
        sprop_stereo: None,
        cbr: None,
        in_band_fec: Some(true),
        dtx: None,
        others: Params::from_vec(others),
    })
}

fn a_value_of_ones_own_is_printed(alloc: Global) -> Result<bool, Fail> {
    let mut out = Vec::from_slice(alloc, b"v=0\n")?;
    write_fmtp(&own_value(alloc)?, &mut out)?;
    let text = b"v=0\na=fmtp:111 maxaveragebitrate=510000;stereo=0;useinbandfec=1;ptime=20\n";
    Ok(out.as_slice() == text.as_slice())
}

// A megabyte of parameters whose names differ.
fn long_line(alloc: Global) -> Result<Vec<u8>, Fail> {
    let mut line = Vec::from_slice(alloc, b"a=fmtp:1 First=")?;
    for number in 0..110_000 {
        let param = format!(in alloc; ";p{number}=1")?;
        line.extend_from_slice(param.as_bytes())?;
    }
    Ok(line)
}

fn others_in(alloc: Global, line: &[u8]) -> Option<usize> {
    match read(alloc, line) {
        Ok(fmtp) => Some(fmtp.others.as_slice().len()),
        Err(_) => None,
    }
}

// A long line is read; a last parameter that repeats the first one is found.
fn a_long_line_is_read(alloc: Global) -> Result<bool, Fail> {
    let mut line = long_line(alloc)?;
    let read_first = others_in(alloc, &line) == Some(110_001);
    let place = (line.len() as u64).saturating_add(1);
    line.extend_from_slice(b";fIRST=")?;
    Ok(read_first && read(alloc, &line).err() == Some(Repeat(place)))
}

#[test]
fn values_are_read_and_printed(rt: HostRuntime) -> Result<(), Fail> {
    assert!(rt; parameters_stand_in_their_fields(rt.alloc()));
    assert!(rt; a_value_of_ones_own_is_printed(rt.alloc())?);
    assert!(rt; a_long_line_is_read(rt.alloc())?);
    Ok(())
}

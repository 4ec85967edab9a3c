//! WAVE files: worked bytes, files of other programs, cut files, failing devices, and the greatest sizes.
use counted_devices::{Counting, FailAt, Failing, FailurePoint, Media};
use mpd_text::number;
use std::alloc::{AllocError, Global};
use std::fs;
use std::io::Cursor;
use std::test::Fail;
use test_texts::{Recorder, wants, wants_made};
use wave::{Head, Reader, chunks_are_those_of_the_bytes, read_head};

/// 24 bits, one channel, a title, and a data size past the file's end.
const FIRST: &str = "52494646 00000000 57415645
    666d7420 10000000 0100 0100 401f0000 c05d0000 0300 1800
    4c495354 10000000 494e464f 494e414d 03000000 486900 00
    64617461 64000000 000100 ffffff 7f";

/// What is no hexadecimal digit's value.
const NO_VALUE: u8 = 16;

/// The value of a hexadecimal digit.
fn value_of(digit: u8) -> u8 {
    match digit {
        b'0'..=b'9' => digit - b'0',
        b'a'..=b'f' => digit - b'a' + 10,
        _ => NO_VALUE,
    }
}

/// Adds the byte that a digit ends, or gives the value of a digit that begins one.
fn add_digit(all: &mut Vec<u8>, high: u8, digit: u8) -> Result<u8, AllocError> {
    let value = value_of(digit);
    if value == NO_VALUE {
        return Ok(high);
    }
    if high == NO_VALUE {
        return Ok(value);
    }
    all.push(high.wrapping_mul(16) | value)?;
    Ok(NO_VALUE)
}

/// The bytes of hexadecimal digits.
pub(crate) fn bytes(alloc: Global, digits: &str) -> Result<Vec<u8>, AllocError> {
    let mut all = Vec::new(alloc);
    let mut high = NO_VALUE;
    for digit in digits.as_bytes() {
        high = add_digit(&mut all, high, *digit)?;
    }
    Ok(all)
}

/// A device of these bytes.
fn device(alloc: Global, digits: &str, point: FailurePoint) -> Result<FailAt, AllocError> {
    Ok(FailAt::new(bytes(alloc, digits)?, point))
}

/// Frames from one on, and the most that are read of them.
type Range = (u64, usize);

/// Adds the frames that are read of each range, or the fault's name.
fn tell_ranges<M: Media>(
    recorder: &mut Recorder,
    alloc: Global,
    reader: &mut Reader<M>,
    ranges: &[Range],
) {
    for (offset, most) in ranges {
        match reader.frames_at(alloc, *offset, *most) {
            Ok(frames) => recorder.add(format_args!(" {frames:?}")),
            Err(fault) => recorder.add(format_args!(" {fault:?}")),
        }
    }
}

/// Adds channels, bits and frames, and each tag after a bar.
fn tell_head(recorder: &mut Recorder, head: &Head) {
    let (channels, bits, frames) = (head.channels(), head.bits(), head.frames());
    recorder.add(format_args!("{channels} {bits} {frames}"));
    tell_tags(recorder, head);
}

fn tell_tags(recorder: &mut Recorder, head: &Head) {
    for tag in head.tags() {
        recorder.add(format_args!("|{} {}", tag.name().text(), tag.text()));
    }
}

/// Adds the head of a file and some frames, or the fault's name.
fn tell_file<M: Media + Drop>(
    recorder: &mut Recorder,
    alloc: Global,
    media: M,
    rate: u32,
    ranges: &[Range],
) {
    let mut media = media;
    match read_head(alloc, &mut media, rate, false) {
        Ok(head) => {
            let mut reader = Reader::new(media, head);
            tell_head(recorder, reader.head());
            tell_ranges(recorder, alloc, &mut reader, ranges);
        }
        Err(fault) => recorder.add(format_args!("{fault:?}")),
    }
}

/// Adds a line of a table again, with what is read of the file on its left side.
fn tell_line(recorder: &mut Recorder, alloc: Global, line: &str) {
    let Some((file, _)) = line.split_once(" => ") else {
        return recorder.add(format_args!("{line}\n"));
    };
    recorder.add(format_args!("{file} => "));
    let (rate, digits) = file.split_once(": ").unwrap_or(("", file));
    match device(alloc, digits, FailurePoint::Never) {
        Ok(media) => tell_file(recorder, alloc, media, number(rate).unwrap_or(0), &[(0, 5)]),
        Err(_) => recorder.fail(),
    }
    recorder.add("\n");
}

/// The lines of a table again, with what is read of the files on their left sides.
fn observed_of(alloc: Global, table: &str) -> Result<String, AllocError> {
    let mut recorder = Recorder::new(alloc);
    for line in table.lines() {
        tell_line(&mut recorder, alloc, line);
    }
    recorder.into_text()
}

/// Files, a line for each: the rate, the bytes in hexadecimal digits, and what is read of them. A line with
/// `#` says of what kind the next ones are.
const FILES: &str =
    "8000: 52494646 00000000 57415645 666d7420 10000000 0100 0100 401f0000 c05d0000 0300 1800 4c495354 10000000 494e464f 494e414d 03000000 486900 00 64617461 64000000 000100 ffffff 7f => 1 24 2|Title Hi [[1, 1], [-1, -1]]
44100: 52494646 00000000 57415645 666d7420 10000000 0100 0100 401f0000 c05d0000 0300 1800 4c495354 10000000 494e464f 494e414d 03000000 486900 00 64617461 64000000 000100 ffffff 7f => Unsupported
# 8 bits, two channels
8000: 52494646 00000000 57415645 666d7420 10000000 0100 0200 401f0000 803e0000 0200 0800 64617461 02000000 00ff => 2 8 1 [[-32768, 32512]]
# a tag that is not PCM
8000: 52494646 00000000 57415645 666d7420 10000000 0300 0100 401f0000 c05d0000 0300 1800 64617461 64000000 000100 => Unsupported
# a whole format of ten bytes
8000: 52494646 00000000 57415645 666d7420 0a000000 0100 0100 401f0000 c05d 64617461 00000000 => Unsupported
# the data before the format
8000: 52494646 00000000 57415645 64617461 02000000 0000 666d7420 10000000 0100 0100 401f0000 803e0000 0200 1000 => NoFormat
# extensible, with the GUID of PCM and with another
8000: 52494646 00000000 57415645 666d7420 28000000 feff 0100 401f0000 803e0000 0200 1000 1600 1000 04000000 01000000 0000 1000 8000 00aa00389b71 64617461 04000000 0080 ff7f => 1 16 2 [[-32768, -32768], [32767, 32767]]
8000: 52494646 00000000 57415645 666d7420 28000000 feff 0100 401f0000 803e0000 0200 1000 1600 1000 04000000 03000000 0000 1000 8000 00aa00389b71 64617461 04000000 0080 ff7f => Unsupported
# odd data, its pad byte, and a list after it
8000: 52494646 00000000 57415645 666d7420 10000000 0100 0100 401f0000 401f0000 0100 0800 64617461 03000000 0080ff 00 4c495354 0e000000 494e464f 49415254 02000000 5800 => 1 8 3|Artist X [[-32768, -32768], [0, 0], [32512, 32512]]
# neither PCM nor data
8000: 52494646 00000000 57415645 666d7420 10000000 0300 0100 401f0000 803e0000 0200 1000 => Unsupported
# an empty title and another
8000: 52494646 00000000 57415645 666d7420 10000000 0100 0100 401f0000 401f0000 0100 0800 4c495354 1a000000 494e464f 494e414d 01000000 00 00 494e414d 04000000 42656500 64617461 00000000 => 1 8 0|Title Bee []
# a list that is cut off
8000: 52494646 00000000 57415645 666d7420 10000000 0100 0100 401f0000 401f0000 0100 0800 64617461 01000000 80 00 4c495354 20000000 494e464f 494e414d 02000000 4100 => 1 8 1 [[0, 0]]
# a text that runs past its list's end, with more of the file after it
8000: 52494646 00000000 57415645 666d7420 10000000 0100 0100 401f0000 401f0000 0100 0800 4c495354 0e000000 494e464f 494e414d 06000000 4142 64617461 01000000 80 => 1 8 1 [[0, 0]]
# a control character, bytes that are not UTF-8, and then a text that counts
8000: 52494646 00000000 57415645 666d7420 10000000 0100 0100 401f0000 401f0000 0100 0800 4c495354 26000000 494e464f 49505244 02000000 411f 49505244 02000000 ff41 49505244 05000000 5a6fc3ab00 00 64617461 00000000 => 1 8 0|Album Zo\u{eb} []
# all tags, in two lists, in the order of answers; the first text of a tag counts
8000: 52494646 00000000 57415645 666d7420 10000000 0100 0100 401f0000 401f0000 0100 0800 4c495354 36000000 494e464f 49434d54 01000000 6600 49474e52 01000000 6500 49435244 01000000 6400 49505244 01000000 6300 49434d54 01000000 7800 64617461 00000000 4c495354 22000000 494e464f 49415254 01000000 6200 494e414d 01000000 6100 494e414d 01000000 7a00 => 1 8 0|Title a|Artist b|Album c|Date d|Genre e|Comment f []
# a list of another kind, a list too short for its kind, and another name in a list of texts
8000: 52494646 00000000 57415645 666d7420 10000000 0100 0100 401f0000 401f0000 0100 0800 4c495354 0e000000 6164746c 494e414d 02000000 4100 4c495354 02000000 494e 4c495354 0e000000 494e464f 49534654 02000000 4100 64617461 00000000 => 1 8 0 []
# an unknown chunk, and a second format, which is passed over
8000: 52494646 00000000 57415645 666d7420 10000000 0100 0100 401f0000 401f0000 0100 0800 78787878 03000000 010203 00 666d7420 10000000 0100 0200 401f0000 803e0000 0200 0800 64617461 02000000 00ff => 1 8 2 [[-32768, -32768], [32512, 32512]]
# a second data chunk is passed over
8000: 52494646 00000000 57415645 666d7420 10000000 0100 0100 401f0000 401f0000 0100 0800 64617461 01000000 00 00 64617461 01000000 ff => 1 8 1 [[-32768, -32768]]
# three channels, 32 bits, and a block align that does not agree
8000: 52494646 00000000 57415645 666d7420 10000000 0100 0300 401f0000 c05d0000 0300 0800 64617461 03000000 000000 => Unsupported
8000: 52494646 00000000 57415645 666d7420 10000000 0100 0100 401f0000 007d0000 0400 2000 64617461 04000000 00000000 => Unsupported
8000: 52494646 00000000 57415645 666d7420 10000000 0100 0100 401f0000 803e0000 0400 1000 64617461 04000000 00000000 => Unsupported
# RIFX, no WAVE, and nothing at all
8000: 52494658 00000000 57415645 => NotRiff
8000: 52494646 00000000 41564920 => NotRiff
8000:  => NotRiff
# the first file, cut to 11, 30, 36, 60, 67, 68, 71 and 74 bytes
8000: 52494646 00000000 574156 => NotRiff
8000: 52494646 00000000 57415645 666d7420 10000000 0100 0100 401f0000 c05d => NoFormat
8000: 52494646 00000000 57415645 666d7420 10000000 0100 0100 401f0000 c05d0000 0300 1800 => NoData
8000: 52494646 00000000 57415645 666d7420 10000000 0100 0100 401f0000 c05d0000 0300 1800 4c495354 10000000 494e464f 494e414d 03000000 486900 00 => NoData
8000: 52494646 00000000 57415645 666d7420 10000000 0100 0100 401f0000 c05d0000 0300 1800 4c495354 10000000 494e464f 494e414d 03000000 486900 00 64617461 640000 => NoData
8000: 52494646 00000000 57415645 666d7420 10000000 0100 0100 401f0000 c05d0000 0300 1800 4c495354 10000000 494e464f 494e414d 03000000 486900 00 64617461 64000000 => 1 24 0|Title Hi []
8000: 52494646 00000000 57415645 666d7420 10000000 0100 0100 401f0000 c05d0000 0300 1800 4c495354 10000000 494e464f 494e414d 03000000 486900 00 64617461 64000000 000100 => 1 24 1|Title Hi [[1, 1]]
8000: 52494646 00000000 57415645 666d7420 10000000 0100 0100 401f0000 c05d0000 0300 1800 4c495354 10000000 494e464f 494e414d 03000000 486900 00 64617461 64000000 000100 ffffff => 1 24 2|Title Hi [[1, 1], [-1, -1]]
# the greatest size of data, as in a stream
8000: 52494646 00000000 57415645 666d7420 10000000 0100 0100 401f0000 c05d0000 0300 1800 4c495354 10000000 494e464f 494e414d 03000000 486900 00 64617461 ffffffff 000100 ffffff 7f => 1 24 2|Title Hi [[1, 1], [-1, -1]]
";

/// Files that sox 14.4.2 and ffmpeg 5.1.9 wrote from raw samples, as hexadecimal digits, and what `soxi`,
/// `ffprobe` and `sox OUT.wav -t raw -` say of them: channels, bits, samples a channel, tags, and the
/// samples.
const REAL: &str = "# sox -D -t raw -r 8000 -e signed -b 16 -c 2 IN OUT.wav
8000: 524946463000000057415645666d74201000000001000200401f0000007d000004001000646174610c0000000100ffff2c01d4feff7f0080 => 2 16 3 [[1, -1], [300, -300], [32767, -32768]]
# sox -D -t raw -r 8000 -e signed -b 24 -c 1 IN OUT.wav; the samples are 256, -1, 8388607, -8388608, 513
8000: 524946465800000057415645666d742028000000feff0100401f0000c05d00000300180016001800040000000100000000001000800000aa00389b71666163740400000005000000646174610f000000000100ffffffffff7f00008001020000 => 1 24 5 [[1, 1], [-1, -1], [32767, 32767], [-32768, -32768], [2, 2]]
# sox -D -t raw -r 8000 -e unsigned -b 8 -c 1 IN OUT.wav
8000: 524946462800000057415645666d74201000000001000100401f0000401f00000100080064617461030000000080ff00 => 1 8 3 [[-32768, -32768], [0, 0], [32512, 32512]]
# ffmpeg -f s24le -ar 8000 -ac 2 -i IN -c:a pcm_s24le -metadata title=Zoë .. OUT.wav; the samples are 65536, -65536, 255, -257
8000: 52494646c200000057415645666d742028000000feff0200401f000080bb00000600180016001800030000000100000000001000800000aa00389b714c49535472000000494e464f494152540a000000416e206172746973740049434d54070000005361792068690000494352440500000032303236000049474e5205000000546573740000494e414d050000005a6fc3ab000049505244040000004f646400495346540e0000004c61766635392e32372e31303000646174610c0000000000010000ffff0000fffeff => 2 24 2|Title Zo\u{eb}|Artist An artist|Album Odd|Date 2026|Genre Test|Comment Say hi [[256, -256], [0, -2]]
# ffmpeg -f u8 -ar 8000 -ac 1 -i IN -c:a pcm_u8 -metadata title=T -bitexact OUT.wav
8000: 524946463e00000057415645666d74201000000001000100401f0000401f0000010008004c4953540e000000494e464f494e414d02000000540064617461030000000080ff00 => 1 8 3|Title T [[-32768, -32768], [0, 0], [32512, 32512]]
# ffmpeg -f s16le -ar 8000 -ac 1 -i IN -c:a pcm_s16le -f wav - | cat
8000: 52494646ffffffff57415645666d74201000000001000100401f0000803e0000020010004c4953541a000000494e464f495346540e0000004c61766635392e32372e3130300064617461fffffffffbff00000700 => 1 16 3 [[-5, -5], [0, 0], [7, 7]]
";

/// What is read of the first file on a device in memory, on one of unknown bytes, and on one whose first call
/// would block.
fn devices_observed(alloc: Global) -> Result<String, AllocError> {
    let mut recorder = Recorder::new(alloc);
    let in_memory = device(alloc, FIRST, FailurePoint::Never)?;
    tell_file(&mut recorder, alloc, in_memory, 8_000, RANGES);
    recorder.add("\n");
    let unknown = Counting::new(Cursor::new(bytes(alloc, FIRST)?));
    tell_file(&mut recorder, alloc, unknown, 8_000, &[(0, 5)]);
    recorder.add("\n");
    let blocked = FailAt::would_block(bytes(alloc, FIRST)?, FailurePoint::Call(1));
    tell_file(&mut recorder, alloc, blocked, 8_000, &[(0, 5)]);
    recorder.into_text()
}

const RANGES: &[Range] = &[
    (0, 1),
    (1, 1),
    (1, 9),
    (2, 1),
    (u64::MAX, usize::MAX),
    (0, usize::MAX),
    (0, 0),
];

const HIGH: &str = "1 24 2|Title Hi [[1, 1], [-1, -1]]";

// The last device is a file on the disk.
#[test]
fn files_and_devices(rt: HostRuntime) -> Result<(), Fail> {
    chunks_are_those_of_the_bytes();
    wants(observed_of(rt.alloc(), FILES), FILES)?;
    wants(observed_of(rt.alloc(), REAL), REAL)?;
    wants(
        devices_observed(rt.alloc()),
        "1 24 2|Title Hi [[1, 1]] [[-1, -1]] [[-1, -1]] [] [] [[1, 1], [-1, -1]] []\n\
         1 24 2|Title Hi [[1, 1], [-1, -1]]\nReadFault",
    )?;
    let name = "wave_of_this_test.wav";
    let bytes = bytes(rt.alloc(), FIRST).expect(&rt, "no memory");
    fs::write(&rt, name, bytes.as_slice()).expect(&rt, "no file");
    let media = Counting::new(fs::open(&rt, name).expect(&rt, "no file"));
    let mut recorder = Recorder::new(rt.alloc());
    tell_file(&mut recorder, rt.alloc(), media, 8_000, &[(0, 5)]);
    fs::remove_file(&rt, name).expect(&rt, "no file");
    wants(recorder.into_text(), HIGH)
}

/// Digits that are each of some others, so many times.
pub(crate) fn digits(alloc: Global, parts: &[(&str, usize)]) -> Result<String, AllocError> {
    let mut digits = Recorder::new(alloc);
    for (part, times) in parts {
        digits.add_made(part.repeat(alloc, *times));
    }
    digits.into_text()
}

/// Adds each tag after a bar, of a file of these digits in the everyday profile or in the base profile.
pub(crate) fn tell_tags_of(recorder: &mut Recorder, alloc: Global, digits: &str, everyday: bool) {
    let Ok(mut media) = device(alloc, digits, FailurePoint::Never) else {
        return recorder.fail();
    };
    match read_head(alloc, &mut media, 8_000, everyday) {
        Ok(head) => tell_tags(recorder, &head),
        Err(fault) => recorder.add(format_args!("{fault:?}")),
    }
}

/// Where the samples of a file begin, how long a frame is, how many frames and tags there are, and how many
/// calls the reading of its head took.
fn offset_observed(
    alloc: Global,
    parts: &[(&str, usize)],
    everyday: bool,
) -> Result<String, AllocError> {
    let mut media = device(alloc, digits(alloc, parts)?.as_str(), FailurePoint::Never)?;
    match read_head(alloc, &mut media, 8_000, everyday) {
        Ok(head) => {
            let (offset, block, frames) = (head.offset(), head.layout().block(), head.frames());
            let (tags, calls) = (head.into_tags().len(), media.calls());
            format!(in alloc; "{offset} {block} {frames} {tags} {calls}")
        }
        Err(fault) => format!(in alloc; "{fault:?}"),
    }
}

/// A file's start, with a format of 24 bits and one channel at 8,000 frames a second.
pub(crate) const START: &str =
    "52494646 00000000 57415645 666d7420 10000000 0100 0100 401f0000 c05d0000 0300 1800";

/// An artist of 1,024 letters, the most that a tag has, and one of a letter more, in a list before two frames.
const LONGEST_TEXT: &[(&str, usize)] = &[
    (START, 1),
    ("4c495354 0c040000 494e464f 49415254 00040000", 1),
    ("61", 1_024),
    ("64617461 06000000 000100 ffffff", 1),
];

const TOO_LONG_TEXT: &[(&str, usize)] = &[
    (START, 1),
    ("4c495354 0d040000 494e464f 49415254 01040000", 1),
    ("61", 1_025),
    ("00 64617461 06000000 000100 ffffff", 1),
];

/// How many frames a file has; of a block of 1,024, how many calls its reading took, and whether its samples
/// are all 1 and -1.
fn block_observed(alloc: Global, reader: Reader<FailAt>) -> Result<String, AllocError> {
    let mut reader = reader;
    let (all, before) = (reader.head().frames(), reader.media().calls());
    match reader.frames_at(alloc, 500, 1_024) {
        Ok(frames) => {
            let calls = reader.media().calls().wrapping_sub(before);
            let are_expected = frames.as_slice() == [[1, -1]; 1_024].as_slice();
            format!(in alloc; "{all} {calls} {are_expected}")
        }
        Err(fault) => format!(in alloc; "{fault:?}"),
    }
}

/// The same of a file of 24 bits and two channels, with 500 frames of 2 and -2, 1,024 of 1 and -1, and 476
/// of 2 and -2, above low bytes of 200.
fn block_of_file_observed(alloc: Global, start: &str, rate: u32) -> Result<String, AllocError> {
    let parts = [
        (start, 1),
        ("c80200 c8feff", 500),
        ("c80100 c8ffff", 1_024),
        ("c80200 c8feff", 476),
    ];
    let digits = digits(alloc, &parts)?;
    let mut media = device(alloc, digits.as_str(), FailurePoint::Never)?;
    match read_head(alloc, &mut media, rate, false) {
        Ok(head) => block_observed(alloc, Reader::new(media, head)),
        Err(fault) => format!(in alloc; "{fault:?}"),
    }
}

/// The starts of files of 2,000 such frames, at 8,000 and at 192,000 a second.
const LOWEST: &str =
    "52494646 00000000 57415645 666d7420 10000000 0100 0200 401f0000 80bb0000 0600 1800
    64617461 e02e0000";

const HIGHEST: &str =
    "52494646 00000000 57415645 666d7420 10000000 0100 0200 00ee0200 00941100 0600 1800
    64617461 e02e0000";

/// Adds what is read twice of the frames of a file where a call fails, or the fault of its head, and how many
/// calls failed.
fn tell_failing(recorder: &mut Recorder, alloc: Global, digits: &str, call: u64, everyday: bool) {
    let Ok(mut media) = device(alloc, digits, FailurePoint::Call(call)) else {
        return recorder.fail();
    };
    match read_head(alloc, &mut media, 8_000, everyday) {
        Ok(head) => {
            let mut reader = Reader::new(media, head);
            tell_ranges(recorder, alloc, &mut reader, &[(0, 2), (0, 2)]);
            recorder.add(format_args!(" {}\n", reader.media().failures()));
        }
        Err(fault) => recorder.add(format_args!("{fault:?} {}\n", media.failures())),
    }
}

/// The same of the file with the longest text, for each of some calls.
fn failing_observed(alloc: Global, first: u64, last: u64) -> Result<String, AllocError> {
    let digits = digits(alloc, LONGEST_TEXT)?;
    let mut recorder = Recorder::new(alloc);
    for call in first..=last {
        tell_failing(&mut recorder, alloc, digits.as_str(), call, false);
    }
    recorder.into_text()
}

/// A file with no samples, and an ID3v2 tag with a title after them.
const TAGGED: &[(&str, usize)] = &[
    (START, 1),
    ("64617461 00000000 69643320 16000000", 1),
    ("494433030000 0000000c 544954320000000200000062", 1),
];

/// The same of a file with an ID3v2 tag, whose tags are those of the everyday profile.
fn failing_tag_observed(alloc: Global, last: u64) -> Result<String, AllocError> {
    let digits = digits(alloc, TAGGED)?;
    let mut recorder = Recorder::new(alloc);
    for call in 1..=last {
        tell_failing(&mut recorder, alloc, digits.as_str(), call, true);
    }
    recorder.into_text()
}

// The calls of a head are the file's size, and a seek and a read for each of eleven: the first twelve bytes,
// three headers and the format for the samples, three headers, the list's kind, an item's header and its text
// for the tags. In the everyday profile three headers more are read, in search of an ID3v2 tag; of a file with
// such a tag the calls are the size, and a seek and a read for each of twelve: the twelve bytes, two headers and
// the format for the samples, three headers for the lists, three for the tag, its head, and all of it. Those of
// frames, at the lowest and the highest rate, are one seek and one read. Then each call fails in turn: the 23 of
// the head, the two of the frames, and the 25 of the head with the tag.
#[test]
fn offsets_and_calls(rt: HostRuntime) -> Result<(), Fail> {
    let alloc = rt.alloc();
    wants(offset_observed(alloc, LONGEST_TEXT, false), "1088 3 2 1 23")?;
    wants(offset_observed(alloc, LONGEST_TEXT, true), "1088 3 2 1 29")?;
    wants(
        offset_observed(alloc, TOO_LONG_TEXT, false),
        "1090 3 2 0 23",
    )?;
    wants(offset_observed(alloc, TOO_LONG_TEXT, true), "1090 3 2 0 29")?;
    wants(offset_observed(alloc, TAGGED, true), "44 3 0 1 25")?;
    wants(block_of_file_observed(alloc, LOWEST, 8_000), "2000 2 true")?;
    wants(
        block_of_file_observed(alloc, HIGHEST, 192_000),
        "2000 2 true",
    )?;
    wants_made(
        failing_observed(alloc, 1, 23),
        "ReadFault 1\n".repeat(alloc, 23),
    )?;
    wants_made(
        failing_tag_observed(alloc, 25),
        "ReadFault 1\n".repeat(alloc, 25),
    )?;
    wants(
        failing_observed(alloc, 24, 25),
        " ReadFault [[1, 1], [-1, -1]] 1\n ReadFault [[1, 1], [-1, -1]] 1\n",
    )
}

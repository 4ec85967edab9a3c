//! The tags of WAVE files in the everyday profile.
use crate::wave_files::{START, digits, tell_tags_of};
use std::alloc::{AllocError, Global};
use std::test::Fail;
use test_texts::{Recorder, wants};

/// The tags of a file whose format these digits follow, each after a bar, or that there are none.
fn tags_observed(alloc: Global, rest: &str, everyday: bool) -> Result<String, AllocError> {
    let file = digits(alloc, &[(START, 1), (rest, 1)])?;
    let mut recorder = Recorder::new(alloc);
    tell_tags_of(&mut recorder, alloc, file.as_str(), everyday);
    let text = recorder.into_text()?;
    if text.is_empty() {
        return String::from_str(alloc, "none");
    }
    Ok(text)
}

/// Adds a line of a table again, with the tags that the file on its left side has in the base profile and in
/// the everyday profile.
fn tell_line(recorder: &mut Recorder, alloc: Global, line: &str) {
    let Some((rest, _)) = line.split_once(" => ") else {
        return recorder.add(format_args!("{line}\n"));
    };
    recorder.add(format_args!("{rest} => "));
    recorder.add_made(tags_observed(alloc, rest, false));
    recorder.add(" / ");
    recorder.add_made(tags_observed(alloc, rest, true));
    recorder.add("\n");
}

/// Files, a line for each: what follows the format, in hexadecimal digits; the tags of the base profile; and
/// those of the everyday profile. A line with `#` says of what kind the next ones are.
const FILES: &str = "# `ITRK`, `IPRT` and `IMUS`
4c495354 30000000 494e464f 494e414d 01000000 61 00 49505254 01000000 37 00 4954524b 03000000 332f39 00 494d5553 04000000 42616368 64617461 00000000 => |Title a / |Title a|Track 3/9|Composer Bach
4c495354 0e000000 494e464f 49505254 01000000 37 00 64617461 00000000 => none / |Track 7
# an `IPRT` in a list before the `ITRK` in another, and the first of each name
4c495354 0e000000 494e464f 49505254 01000000 37 00 64617461 00000000 4c495354 0e000000 494e464f 4954524b 01000000 33 00 => none / |Track 3
4c495354 2c000000 494e464f 4954524b 01000000 33 00 4954524b 01000000 34 00 494d5553 01000000 78 00 494d5553 01000000 79 00 64617461 00000000 => none / |Track 3|Composer x
4c495354 18000000 494e464f 49505254 01000000 35 00 49505254 01000000 36 00 64617461 00000000 => none / |Track 5
# an `ITRK` that is skipped: empty, with a control character, past its list's end, and with a byte that has no character
4c495354 20000000 494e464f 4954524b 00000000 4954524b 01000000 1f 00 49505254 01000000 37 00 64617461 00000000 => none / |Track 7
4c495354 18000000 494e464f 49505254 01000000 37 00 4954524b 06000000 3132 64617461 00000000 => none / |Track 7
4c495354 18000000 494e464f 4954524b 02000000 3181 49505254 01000000 37 00 64617461 00000000 => none / |Track 7
# Windows-1252 where a text is not UTF-8
4c495354 1a000000 494e464f 494e414d 03000000 5a6feb 00 49415254 02000000 8093 64617461 00000000 => none / |Title Zo\u{eb}|Artist \u{20ac}\u{201c}
4c495354 1c000000 494e464f 494e414d 04000000 5a6fc3ab 49415254 03000000 c3abeb 00 64617461 00000000 => |Title Zo\u{eb} / |Title Zo\u{eb}|Artist \u{c3}\u{ab}\u{eb}
4c495354 10000000 494e464f 494e414d 03000000 eb0081 00 64617461 00000000 => none / |Title \u{eb}
# the five bytes without a character, a control character, and then a text that counts
4c495354 4a000000 494e464f 494e414d 02000000 6181 494e414d 02000000 618d 494e414d 02000000 618f 494e414d 02000000 6190 494e414d 02000000 619d 494e414d 02000000 eb1f 494e414d 01000000 62 00 64617461 00000000 => |Title b / |Title b
# an ID3v2 tag before the data and behind it: its texts go before those of lists
4c495354 22000000 494e464f 494e414d 01000000 61 00 49415254 01000000 78 00 4954524b 01000000 31 00 69643320 22000000 494433030000000000185449543200000002000000625452434b0000000200000032 64617461 00000000 => |Title a|Artist x / |Title b|Artist x|Track 2
64617461 00000000 49443320 16000000 4944330300000000000c544954320000000200000062 4c495354 18000000 494e464f 494e414d 01000000 61 00 49415254 01000000 78 00 => |Title a|Artist x / |Title b|Artist x
# all ten texts of an ID3v2 tag, in the order of answers
64617461 00000000 69643320 8d000000 4944330300000000010354495432000000020000006154504531000000020000006254414c4200000002000000635450453200000002000000645452434b000000020000003554504f5300000004000000312f3254594552000000050000003139393954434f4e00000004000000506f7054434f4d0000000200000065434f4d4d000000060000006465750066 00 => none / |Title a|Artist b|Album c|Date 1999|Genre Pop|Comment f|AlbumArtist d|Track 5|Disc 1/2|Composer e
# a text of an ID3v2 tag that is skipped
4c495354 0e000000 494e464f 494e414d 01000000 61 00 69643320 16000000 4944330300000000000c54495432000000020000001f 64617461 00000000 => |Title a / |Title a
# a second chunk, after one with a tag and after one without
69643320 16000000 4944330300000000000c544954320000000200000061 64617461 00000000 49443320 22000000 49443303000000000018544954320000000200000062545045310000000200000063 => none / |Title a
49443320 02000000 7878 64617461 00000000 69643320 16000000 4944330300000000000c544954320000000200000062 => none / none
69643320 16000000 4944330300800000000c544954320000000200000062 64617461 00000000 69643320 16000000 4944330300000000000c544954320000000200000062 => none / none
# a chunk that is cut off by the file's end, and one without its pad byte
4c495354 0e000000 494e464f 494e414d 01000000 61 00 64617461 00000000 69643320 17000000 4944330300000000000c544954320000000200000062 => |Title a / |Title a
4c495354 0e000000 494e464f 494e414d 01000000 61 00 64617461 00000000 69643320 17000000 4944330300000000000d54495432000000030000006263 => |Title a / |Title bc
# a tag that ends before its chunk, one that goes on past it, and chunks of other names
69643320 22000000 4944330300000000000c544954320000000200000062545045310000000200000063 64617461 00000000 => none / |Title b
69643320 16000000 4944330300000000022c544954320000000200000062 64617461 00000000 => none / |Title b
49643320 16000000 4944330300000000000c544954320000000200000062 69643300 16000000 4944330300000000000c544954320000000200000062 64617461 00000000 => none / none
";

/// How long the only text of a file is, with the bar and its name before it, or that there is none. The text is
/// made of two parts, each so many times.
fn length_observed(
    alloc: Global,
    list: &'static str,
    parts: [(&'static str, usize); 2],
) -> Result<String, AllocError> {
    let [first, second] = parts;
    let file = digits(alloc, &[("64617461 00000000", 1), (list, 1), first, second])?;
    let tags = tags_observed(alloc, file.as_str(), true)?;
    let len = tags.len();
    format!(in alloc; "{len}\n")
}

/// Lists with an artist, up to its text; the text; and how long `|Artist ` and the text are in UTF-8. Only a
/// text of at most 1,024 bytes there counts: where there is none, `none` has four.
const LENGTHS: [(&str, [(&str, usize); 2]); 8] = [
    // 512 letters of two bytes, and one more
    (
        "4c495354 0c020000 494e464f 49415254 00020000",
        [("eb", 512), ("61", 0)],
    ),
    (
        "4c495354 0d020000 494e464f 49415254 01020000",
        [("eb", 513), ("61", 0)],
    ),
    // 341 characters of three bytes, and one more
    (
        "4c495354 61010000 494e464f 49415254 55010000",
        [("80", 341), ("61", 0)],
    ),
    (
        "4c495354 62010000 494e464f 49415254 56010000",
        [("80", 342), ("61", 0)],
    ),
    // a letter of two bytes and 1,022 of one, and one more
    (
        "4c495354 0b040000 494e464f 49415254 ff030000",
        [("eb", 1), ("61", 1_022)],
    ),
    (
        "4c495354 0c040000 494e464f 49415254 00040000",
        [("eb", 1), ("61", 1_023)],
    ),
    // 1,024 letters of one byte, and one more
    (
        "4c495354 0c040000 494e464f 49415254 00040000",
        [("61", 1_024), ("eb", 0)],
    ),
    (
        "4c495354 0d040000 494e464f 49415254 01040000",
        [("61", 1_025), ("eb", 0)],
    ),
];

const LENGTHS_TELL: &str = "1032\n4\n1031\n4\n1032\n4\n1032\n4\n";

fn lengths_observed(alloc: Global) -> Result<String, AllocError> {
    let mut recorder = Recorder::new(alloc);
    for (list, parts) in LENGTHS {
        recorder.add_made(length_observed(alloc, list, parts));
    }
    recorder.into_text()
}

#[test]
fn tags_of_both_profiles(rt: HostRuntime) -> Result<(), Fail> {
    let mut recorder = Recorder::new(rt.alloc());
    for line in FILES.lines() {
        tell_line(&mut recorder, rt.alloc(), line);
    }
    wants(recorder.into_text(), FILES)?;
    wants(lengths_observed(rt.alloc()), LENGTHS_TELL)
}

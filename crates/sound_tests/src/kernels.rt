//! Worked values of the sample kernels, and blocks of the greatest size.
ghost use Rattle.std.specs.Prelude.{◌≡◌, length};

use pcm_mix::{Channels, Depth, Fading, fade, from_bytes, gain, mix, to_bytes};

const FULL: [i16; 2] = [-32768, 32767];

// volume, frame, what it becomes
const GAINS: &[(u8, [i16; 2], [i16; 2])] = &[
    (50, [-3, 3], [-1, 1]),
    (0, FULL, [0, 0]),
    (1, FULL, [-327, 327]),
    (99, FULL, [-32440, 32439]),
    (100, FULL, FULL),
    (99, [-1, 1], [0, 0]),
    (1, [-99, 100], [0, 1]),
    (33, [-200, 10], [-66, 3]),
];

// Frames are worked on in steps of eight and one by one, so each length up to a few steps is tried, and then a
// whole block.
fn length_at(step: usize) -> usize {
    if step < 69 { step } else { 1_024 }
}

// Whether so many frames of a block become this at a volume, and the others stay.
fn are_gained(count: usize, volume: u8, before: [i16; 2], after: [i16; 2]) -> bool {
    let mut frames = [before; 1_024];
    let count = count.min(1_024);
    gain(&mut frames[..count], volume.min(100));
    &frames[..count] == &[after; 1_024][..count] && &frames[count..] == &[before; 1_024][count..]
}

// Whether frames that all differ, each twice what it is at half the volume, stay in their places.
fn stay_in_place(count: usize) -> bool {
    let mut frames = [[0i16; 2]; 1_024];
    let mut halves = [[0i16; 2]; 1_024];
    for offset in 0..1_024usize {
        let half = offset as i16;
        frames[offset] = [half * 2, half * -2];
        halves[offset] = [half, half * -1];
    }
    let count = count.min(1_024);
    gain(&mut frames[..count], 50);
    &frames[..count] == &halves[..count]
}

// Whether so many frames of a block at the end of the greatest fade, which is 3,600 seconds at 192,000 frames a
// second, are the other song except for what is rounded off, and the others stay.
fn are_faded(count: usize) -> bool {
    let mut frames = [FULL; 1_024];
    let count = count.min(1_024);
    let others = [[32_767, -32_768]; 1_024];
    fade(
        &mut frames[..count],
        &others[..count],
        691_198_976,
        691_200_000,
    );
    let expected = [[32_766i16, -32_767]; 1_024];
    &frames[..count] == &expected[..count] && &frames[count..] == &[FULL; 1_024][count..]
}

#[test]
fn fades(rt: HostRuntime) {
    let mut frames = [[100, 100]; 4];
    fade(&mut frames, &[[-100, 0]; 4], 0, 4);
    assert_eq!(rt; frames, [[100, 100], [50, 75], [0, 50], [-50, 25]]);

    let mut shortest = [FULL];
    fade(&mut shortest, &[[7, 8]], 0, 1);
    assert_eq!(rt; shortest, [FULL]);

    // 2 * -1 / 3 and 2 * 1 / 3 are nearer to zero than to one
    let mut small = [[0, 0]; 2];
    fade(&mut small, &[[-1, 1]; 2], 1, 3);
    assert_eq!(rt; small, [[0, 0], [0, 0]]);

    // the first block of the greatest fade
    let mut first = [FULL; 1_024];
    fade(&mut first, &[[32_767, -32_768]; 1_024], 0, 691_200_000);
    assert_eq!(rt; first[0], FULL);
    assert_eq!(rt; first[1_023], [-32_767i16, 32_766]);
}

#[test]
fn frames_from_bytes(rt: HostRuntime) {
    let mut frames = [[9, 9]; 2];
    from_bytes(
        &[0, 1, 0, 255, 255, 255, 127],
        Depth::TwentyFour,
        Channels::Mono,
        &mut frames,
    );
    assert_eq!(rt; frames, [[1, 1], [-1, -1]]);
    from_bytes(
        &[255, 255, 127, 0, 0, 128, 255, 0, 0, 1, 0, 255],
        Depth::TwentyFour,
        Channels::Stereo,
        &mut frames,
    );
    assert_eq!(rt; frames, [[32767, -32768], [0, -256]]);
    from_bytes(
        &[0, 255, 128, 127],
        Depth::Eight,
        Channels::Stereo,
        &mut frames,
    );
    assert_eq!(rt; frames, [[-32768, 32512], [0, -256]]);
    from_bytes(&[128, 0], Depth::Eight, Channels::Mono, &mut frames);
    assert_eq!(rt; frames, [[0, 0], [-32768, -32768]]);
    from_bytes(
        &[0, 128, 255, 127],
        Depth::Sixteen,
        Channels::Mono,
        &mut frames,
    );
    assert_eq!(rt; frames, [[-32768, -32768], [32767, 32767]]);
    from_bytes(
        &[1, 0, 255, 255, 0, 1, 0, 255],
        Depth::Sixteen,
        Channels::Stereo,
        &mut frames,
    );
    assert_eq!(rt; frames, [[1, -1], [256, -256]]);
}

// What each sample is whose bytes are all 127: 127 - 128 times 256, and 127 times 257 above what is cut.
const LAYOUTS: &[(Depth, Channels, i16)] = &[
    (Depth::Eight, Channels::Mono, -256),
    (Depth::Eight, Channels::Stereo, -256),
    (Depth::Sixteen, Channels::Mono, 32_639),
    (Depth::Sixteen, Channels::Stereo, 32_639),
    (Depth::TwentyFour, Channels::Mono, 32_639),
    (Depth::TwentyFour, Channels::Stereo, 32_639),
];

// Whether so many frames of a block are read as these samples, and the others stay.
fn are_read(count: usize, depth: Depth, channels: Channels, sample: i16) -> bool {
    let bytes = [127u8; 6_144];
    let mut frames = [[9i16; 2]; 1_024];
    let count = count.min(1_024);
    let read = &mut frames[..count];
    if read.len() * (depth.width() * channels.count()) <= bytes.len() {
        from_bytes(&bytes, depth, channels, read);
    }
    let expected = [[sample; 2]; 1_024];
    &frames[..count] == &expected[..count] && &frames[count..] == &[[9i16; 2]; 1_024][count..]
}

// Whether the bytes of so many frames of a block, whose bytes are all 1, are written, and the others stay.
fn are_written(count: usize) -> bool {
    let mut bytes = [7u8; 4_096];
    let count = count.min(1_024);
    to_bytes(&[[257i16; 2]; 1_024][..count], &mut bytes[..4 * count]);
    &bytes[..4 * count] == &[1u8; 4_096][..4 * count]
        && &bytes[4 * count..] == &[7u8; 4_096][4 * count..]
}

#[test]
fn blocks_of_each_length(rt: HostRuntime) {
    for step in 0..70usize {
        let count = length_at(step);
        for (volume, before, after) in GAINS.iter() {
            let as_expected = are_gained(count, *volume, *before, *after);
            assert!(rt; as_expected, "step {step} at {volume}");
        }
        for (depth, channels, sample) in LAYOUTS.iter() {
            let as_expected = are_read(count, *depth, *channels, *sample);
            assert!(rt; as_expected, "step {step}, {depth:?}, {channels:?}");
        }
        assert!(rt; stay_in_place(count), "step {step} in place");
        assert!(rt; are_faded(count), "step {step} faded");
        assert!(rt; are_written(count), "step {step} written");
    }
}

// 7 fades into -5 by 7, 4, 1, -2, which at volume 50 are 3, 2, 0, -1. At volume 50 first, 3 would fade into
// -2 by 3, 1, 0, 0.
#[test]
fn blocks_and_their_bytes(rt: HostRuntime) {
    let mut plain = [[301, -3]; 2];
    mix(&mut plain, None, 50);
    assert_eq!(rt; plain, [[150, -1]; 2]);

    let mut faded = [[7, 5]; 4];
    let fading = Fading {
        others: &[[-5, 99]; 4],
        offset: 0,
        len: 4,
    };
    mix(&mut faded, Some(fading), 50);
    assert_eq!(rt; faded, [[3, 2], [2, 14], [0, 26], [-1, 37]]);

    // the last block of the greatest fade is the other song except for what is rounded off
    let mut block = [[0i16; 2]; 1_024];
    let fading = Fading {
        others: &[[32_767, -32_768]; 1_024],
        offset: 691_198_976,
        len: 691_200_000,
    };
    mix(&mut block, Some(fading), 50);
    assert_eq!(rt; block, [[16_383i16, -16_383]; 1_024]);

    let mut bytes = [0; 12];
    to_bytes(&[[1, -1], [2, -32768], [32767, 256]], &mut bytes);
    assert_eq!(rt; bytes, [1, 0, 255, 255, 2, 0, 0, 128, 255, 127, 0, 1]);
}

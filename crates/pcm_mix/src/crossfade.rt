//! Fades from one song into the next.
ghost use Rattle.std.specs.Prelude.{◌≡◌, ◌+◌, ◌-◌, ◌*◌, ◌<◌, ◌≤◌, length, pos, neg_ℤ, int_div, ◌*ℤ◌, ◌≤ℤ◌};
ghost use Rattle.pcm_mix.specs.Samples.{faded, faded_frame, faded_frames};

use crate::Frame;

/// Fades frames into others. The first of them is the frame at `offset` of a fade of `len` frames in all,
/// and at offset `i` a sample becomes `(sample * (len - i) + other * i) / len`, rounded toward zero.
#[tactic(auto, using(crate::proofs::Fades::fade_more))]
pub fn fade(frames: &mut [Frame], others: &[Frame], offset: u32, len: u32)
    requires same { length frames.old ≡ length others.now }
    requires within { offset + length others.now ≤ len }
    ensures { frames.new ≡ faded_frames len offset frames.old others.now }
{
    let inverse = inverse_of(len);
    for i in 0..frames.len() {
        frames[i] = faded_frame(frames[i], others[i], offset + i as u32, len, inverse);
    }
}

fn faded_frame(from: Frame, to: Frame, offset: u32, len: u32, inverse: u64) -> Frame
    requires { offset < len }
    ensures { result ≡ faded_frame len offset from to }
{
    [
        faded_sample(from[0], to[0], offset, len, inverse),
        faded_sample(from[1], to[1], offset, len, inverse),
    ]
}

fn faded_sample(from: i16, to: i16, offset: u32, len: u32, inverse: u64) -> i16
    requires { offset < len }
    ensures { result ≡ faded len offset from to }
{
    let sum = weighted(from, len - offset) + weighted(to, offset);
    quotient(sum, len, inverse) as i16
}

/// 2^64 divided by `len` and rounded up, or a little less for a `len` of 1. Quotients are only estimated with it,
/// so no contract depends on its value.
fn inverse_of(len: u32) -> u64 {
    match u64::MAX.checked_div(u64::from(len)) {
        Some(inverse) => inverse.saturating_add(1),
        None => 0,
    }
}

/// `sum / len`, rounded toward zero. A division takes several times as long as a multiplication. So the quotient is
/// first estimated, by multiplying with the inverse of `len`, and the estimate is checked by another multiplication.
/// The division is only made if the estimate is wrong, which is rare.
fn quotient(sum: i64, len: u32, inverse: u64) -> i64
    requires { 0 < len }
    ensures { result ≡ int_div sum (pos len) }
{
    let size = sum.unsigned_abs();
    let estimate = upper_half(size, inverse);
    let product = u64::from(estimate) * u64::from(len);
    if product > size || size - product >= u64::from(len) {
        return sum / i64::from(len);
    }
    if sum < 0 {
        -i64::from(estimate)
    } else {
        i64::from(estimate)
    }
}

/// The upper half of a product of 128 bits, or the greatest number of 32 bits.
fn upper_half(number: u64, other: u64) -> u32 {
    let product = u128::from(number) * u128::from(other);
    u32::try_from(product >> 64).unwrap_or(u32::MAX)
}

fn weighted(sample: i16, weight: u32) -> i64
    ensures value { result ≡ sample *ℤ pos weight }
    ensures least { neg_ℤ (pos (32768 * weight)) ≤ℤ result }
    ensures most { result ≤ℤ pos (32767 * weight) }
{
    i64::from(sample) * i64::from(weight)
}

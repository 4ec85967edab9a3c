//! The head of a tag, and where its frames lie.
ghost use Rattle.std.specs.Prelude.{◌≡◌, ◌+◌, ◌^◌, ◌≤◌, ◌<◌, Some, None, MatchOption, IfSome, length, take, drop};
ghost use Rattle.id3_tags.specs.Tags.{number_at, syncsafe_at, version_of, is_read, says_unsynchronised, after_extended, frames_in, tag_of, begins_tag, tag_in, tag_len, is_set};
ghost use Rattle.id3_tags.specs.Views.{tag_data};

/// The major version of a tag: ID3v2.2, 2.3 or 2.4.
#[derive(Clone, Copy)]
pub(crate) enum Version {
    Two,
    Three,
    Four,
}

/// What the head of a tag says of its frames, and their bytes.
#[derive(Clone, Copy)]
pub(crate) struct Tag<'a> {
    pub(crate) version: Version,
    /// Whether the contents of all its frames are unsynchronised, which only version 2.4 says of frames.
    pub(crate) unsynchronised: bool,
    pub(crate) frames: &'a [u8],
}

/// Whether a flag is set, which is given as the byte that has it alone.
pub(crate) fn is_set(flags: u8, flag: u8) -> bool
    ensures { result ≡ is_set flags flag }
{
    flags & flag != 0
}

/// The number of the four bytes from an offset on, the highest first.
pub(crate) fn plain_at(bytes: &[u8], at: usize) -> u32
    requires { at + 4 ≤ length bytes.now }
    ensures { result ≡ number_at 256 bytes.now at }
{
    let high = u32::from(bytes[at]) * 256 + u32::from(bytes[at + 1]);
    (high * 256 + u32::from(bytes[at + 2])) * 256 + u32::from(bytes[at + 3])
}

/// The number of the four bytes from an offset on, of seven bits each, the highest first. There is none where
/// the highest bit of a byte is set.
pub(crate) fn syncsafe_at(bytes: &[u8], at: usize) -> Option<u32>
    requires { at + 4 ≤ length bytes.now }
    ensures value { result ≡ syncsafe_at bytes.now at }
    ensures bound { IfSome result (λ number. number < 2 ^ 28) }
{
    let (a, b, c, d) = (bytes[at], bytes[at + 1], bytes[at + 2], bytes[at + 3]);
    if a < 128 && b < 128 && c < 128 && d < 128 {
        let high = u32::from(a) * 128 + u32::from(b);
        return Some((high * 128 + u32::from(c)) * 128 + u32::from(d));
    }
    None
}

fn version_of(number: u8) -> Option<Version>
    ensures { result ≡ version_of number }
{
    match number {
        2 => Some(Version::Two),
        3 => Some(Version::Three),
        4 => Some(Version::Four),
        _ => None,
    }
}

/// Whether a tag with these flags is read.
fn is_read(version: Version, flags: u8) -> bool
    ensures { result ≡ is_read version flags }
{
    match version {
        Version::Two => !is_set(flags, 0x80) && !is_set(flags, 0x40),
        Version::Three => !is_set(flags, 0x80),
        Version::Four => true,
    }
}

/// Whether the flags say that each frame's content is unsynchronised.
fn says_unsynchronised(version: Version, flags: u8) -> bool
    ensures { result ≡ says_unsynchronised version flags }
{
    match version {
        Version::Two | Version::Three => false,
        Version::Four => is_set(flags, 0x80),
    }
}

/// The bytes from an offset on, of which there are none where it is past the end.
pub(crate) fn from_offset(bytes: &[u8], at: usize) -> &[u8]
    ensures { result.now ≡ drop at bytes.now }
{
    &bytes[at.min(bytes.len())..]
}

/// As many bytes from the start as this, or all where there are fewer.
fn up_to(bytes: &[u8], len: usize) -> &[u8]
    ensures { result.now ≡ take len bytes.now }
{
    &bytes[..len.min(bytes.len())]
}

/// The bytes after an extended header.
fn after_extended(version: Version, body: &[u8]) -> &[u8]
    ensures { result.now ≡ after_extended version body.now }
{
    match version {
        Version::Two => body,
        Version::Three => {
            if body.len() < 4 {
                return &[];
            }
            from_offset(body, 4 + plain_at(body, 0) as usize)
        }
        Version::Four => {
            if body.len() < 4 {
                return &[];
            }
            match syncsafe_at(body, 0) {
                Some(size) => from_offset(body, size as usize),
                None => &[],
            }
        }
    }
}

/// The bytes of the frames in the body of a tag.
#[tactic(auto, unfolding(crate::specs::Tags::frames_in))]
fn frames_in(version: Version, flags: u8, body: &[u8]) -> &[u8]
    ensures { result.now ≡ frames_in version flags body.now }
{
    if is_set(flags, 0x40) {
        after_extended(version, body)
    } else {
        body
    }
}

/// The tag of this version, with these flags and this size, whose body stands at the start of these bytes.
fn tag_of(version: Version, flags: u8, size: u32, rest: &[u8]) -> Option<Tag<'_>>
    ensures { MatchOption result (tag_of (Some version) flags (Some size) rest.now ≡ None)
        (λ tag. tag_of (Some version) flags (Some size) rest.now ≡ Some (tag_data tag)) }
{
    if !is_read(version, flags) {
        return None;
    }
    let unsynchronised = says_unsynchronised(version, flags);
    let frames = frames_in(version, flags, up_to(rest, size as usize));
    Some(Tag {
        version,
        unsynchronised,
        frames,
    })
}

/// Whether there are ten bytes, and the first three are `ID3`.
fn begins_tag(chunk: &[u8]) -> bool
    ensures { result ≡ begins_tag chunk.now }
{
    chunk.len() >= 10 && chunk.starts_with(b"ID3")
}

/// The tag that a chunk holds, if it is read.
#[tactic(auto, unfolding(crate::specs::Tags::tag_in))]
pub(crate) fn tag_in(chunk: &[u8]) -> Option<Tag<'_>>
    ensures { MatchOption result (tag_in chunk.now ≡ None) (λ tag. tag_in chunk.now ≡ Some (tag_data tag)) }
{
    if !begins_tag(chunk) {
        return None;
    }
    let version = version_of(chunk[3])?;
    let size = syncsafe_at(chunk, 6)?;
    tag_of(version, chunk[5], size, &chunk[10..])
}

/// How many bytes from the start of a chunk its ID3v2 tag takes, with the ten of its head. Ten bytes of the
/// chunk say it; it is 0 where they are no head of a tag, and otherwise below 10 + 2^28. No byte after these
/// counts for the texts that [`texts_of`](crate::texts_of) gives.
#[tactic(auto, unfolding(crate::specs::Tags::tag_len))]
pub fn tag_len(chunk: &[u8]) -> u64
    ensures value { result ≡ tag_len chunk.now }
    ensures bound { result < 10 + 2 ^ 28 }
{
    if !begins_tag(chunk) {
        return 0;
    }
    match syncsafe_at(chunk, 6) {
        Some(size) => 10 + u64::from(size),
        None => 0,
    }
}

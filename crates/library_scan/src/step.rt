//! What a scan does with a path.
ghost use Rattle.std.specs.Prelude.{◌≡◌, ◌==◌, nat_lt};
ghost use Rattle.std.specs.List.{count_by, list_any};
ghost use Rattle.library_scan.specs.Steps.{is_plain as is_plain_lem, is_song_uri as is_song_uri_lem, is_folder_uri as is_folder_uri_lem, ends_as_wave as ends_as_wave_lem, depth as depth_lem, step_of as step_of_lem};

/// The greatest length of a URI, in bytes (this profile's).
pub const MAX_URI: usize = 1_024;

/// How many folders below the scanned one a song may lie (this profile's).
pub const MAX_DEPTH: usize = 16;

/// What the system says of a path, where links are followed.
#[derive(Clone, Copy, PartialEq, Eq)]
pub enum Kind {
    /// A folder.
    Folder,
    /// A regular file.
    File,
    /// Something else, such as a FIFO, which is never opened.
    Other,
    /// The system does not tell.
    Unseen,
}

/// What a scan does with a path.
#[derive(Clone, Copy, PartialEq, Eq)]
pub enum Step {
    /// Passes over it without a word.
    Skip,
    /// Lists the folder.
    Descend,
    /// Reads the file.
    Read,
    /// Keeps it as a file that could not be opened.
    Refuse,
}

/// What a scan does with the path of a URI, that is of the path from the scanned folder on, with `/` between
/// names.
pub fn step_of(uri: &str, kind: Kind) -> Step
    ensures { result ≡ step_of_lem uri.now kind }
{
    match kind {
        Kind::Folder if is_folder_uri(uri.as_bytes()) => Step::Descend,
        Kind::File if is_song_uri(uri.as_bytes()) => Step::Read,
        Kind::Unseen if is_song_uri(uri.as_bytes()) => Step::Refuse,
        _ => Step::Skip,
    }
}

/// Whether a regular file of this URI is read.
pub(crate) fn is_song_uri(uri: &[u8]) -> bool
    ensures { result ≡ is_song_uri_lem uri.now }
{
    is_plain(uri) && depth(uri) <= MAX_DEPTH && ends_as_wave(uri)
}

/// Whether a folder of this URI is listed.
fn is_folder_uri(uri: &[u8]) -> bool
    ensures { result ≡ is_folder_uri_lem uri.now }
{
    is_plain(uri) && depth(uri) < MAX_DEPTH
}

/// Whether a URI is short enough and has no control byte.
pub(crate) fn is_plain(uri: &[u8]) -> bool
    ensures { result ≡ is_plain_lem uri.now }
{
    uri.len() <= MAX_URI && !has_control(uri)
}

fn has_control(uri: &[u8]) -> bool
    ensures { result ≡ list_any (λ b. nat_lt b 32) uri.now }
{
    uri.iter().any(|b| *b < 0x20)
}

/// How many folders stand before the last name.
fn depth(uri: &[u8]) -> usize
    ensures { result ≡ depth_lem uri.now }
{
    uri.iter().filter(|b| **b == b'/').count()
}

/// Whether the last name ends in `.wav`, whatever the case of these letters.
fn ends_as_wave(uri: &[u8]) -> bool
    ensures { result ≡ ends_as_wave_lem uri.now }
{
    uri.len() >= 4 && uri[uri.len() - 4..].eq_ignore_ascii_case(b".wav")
}

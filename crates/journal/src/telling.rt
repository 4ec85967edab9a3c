//! The printing of a line.
use settings::OneLine;

/// Tells a line on standard error, in one line whatever a path or a name in it holds. Where that fails nothing is
/// told: the daemon does not end for it.
pub fn tell<R: Eprint>(rt: &R, line: &str) {
    let _printed = eprintln!(rt; "music_daemon: {}", OneLine(line));
}

//! Steps over a list's text.

ghost use Rattle.std.specs.Prelude.{◌≡◌, ◌++◌, OnOk, OnErr, take, drop};
ghost use Rattle.shelf.specs.Lines.{lines_of};

use shelf::{UriList, next_uri};
use std::alloc::AllocError;

/// What comes after so many lines.
pub(crate) fn behind(text: &str, count: usize) -> &str
    ensures { lines_of result.now ≡ drop count (lines_of text.now) }
{
    let mut rest = text;
    let mut left = count;
    while left > 0 {
        let Some((_, more)) = next_uri(rest) else {
            return rest;
        };
        rest = more;
        left -= 1;
    }
    rest
}

/// What comes after the first line.
pub(crate) fn behind_first(text: &str) -> &str
    ensures { lines_of result.now ≡ drop 1 (lines_of text.now) }
{
    match next_uri(text) {
        Some((_, more)) => more,
        None => text,
    }
}

/// Puts the first lines after a list, so many of them.
pub(crate) fn push_first(list: &mut UriList, text: &str, count: usize) -> Result<(), AllocError>
    ensures { OnOk result (list.new ≡ list.old ++ take count (lines_of text.now)) }
{
    let mut rest = text;
    let mut left = count;
    while left > 0 {
        let Some((uri, more)) = next_uri(rest) else {
            return Ok(());
        };
        list.push(uri)?;
        rest = more;
        left -= 1;
    }
    Ok(())
}

/// Puts all lines after a list.
pub(crate) fn push_all(list: &mut UriList, text: &str) -> Result<(), AllocError>
    ensures { OnOk result (list.new ≡ list.old ++ lines_of text.now) }
{
    let mut rest = text;
    while let Some((uri, more)) = next_uri(rest) {
        list.push(uri)?;
        rest = more;
    }
    Ok(())
}

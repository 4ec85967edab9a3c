//! A path and what lies after it.
ghost use Rattle.std.specs.Prelude.{◌≡◌, IfOk};
ghost use Rattle.library_scan.specs.Steps.{path_of};

use mpd_text::Text;
use std::alloc::{AllocError, Global};

/// A path, a slash, and a name or a path after it; where one is empty, the other alone.
pub(crate) fn joined(alloc: Global, front: &str, name: &str) -> Result<Text, AllocError>
    ensures { IfOk result (λ path. path ≡ path_of front.now name.now) }
{
    if front.is_empty() {
        return Text::new(alloc, name);
    }
    if name.is_empty() {
        return Text::new(alloc, front);
    }
    Ok(Text::of(format!(in alloc; "{front}/{name}")?))
}

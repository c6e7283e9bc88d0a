//! The URIs of paths.
ghost use Rattle.std.specs.Prelude.{◌≡◌, ℕ, ◌<◌, not, string_bytes, IfOk};
ghost use Rattle.percent_encoding.specs.AsciiSet.{contains};
ghost use Rattle.cc2_reports.specs.Uris as spec;
ghost use Rattle.cc2_reports.specs.Uris.{is_open};

use cc2_error::error::NoMemory;
use percent_encoding::{AsciiSet, NON_ALPHANUMERIC, ascii_set, utf8_percent_encode};
use std::alloc::Global;

const ESCAPED: AsciiSet = ascii_set!(
    NON_ALPHANUMERIC
        .remove(b'/')
        .remove(b'-')
        .remove(b'.')
        .remove(b'_')
        .remove(b'~')
);

/// The URI of a path; that of a relative one is relative.
///
/// # Errors
/// `NoMemory` where memory ran out.
pub(crate) fn uri_of(alloc: Global, path: &str) -> Result<String, NoMemory>
    ensures { IfOk result (λ uri. string_bytes uri ≡ spec.uri_of path.now) }
{
    let mut uri = String::from_str(alloc, scheme_of(path))?;
    utf8_percent_encode(path, escaped()).append_to(&mut uri)?;
    Ok(uri)
}

fn scheme_of(path: &str) -> &'static str
    ensures { result.now ≡ spec.scheme_of path.now }
{
    if path.starts_with('/') { "file://" } else { "" }
}

// The bytes of a path that a URI can't have as they are.
fn escaped() -> AsciiSet
    ensures { (b : ℕ) → b < 128 → contains result b ≡ not (is_open b) }
{
    ESCAPED
}

//! The ends of lines after what a program wrote.
ghost use Rattle.std.specs.Prelude.{◌≡◌};
ghost use Rattle.cc2_rustc.specs.LineEnds.{is_line_end, without_line_ends, ends_line};

// Removes each `\n` and `\r` at the end.
pub(crate) fn drop_line_ends(bytes: &mut Vec<u8>)
    ensures { bytes.new.items ≡ without_line_ends bytes.old.items }
{
    while ends_line(bytes.as_slice()) {
        bytes.pop();
    }
}

// Whether it ends with `\n` or `\r`.
fn ends_line(bytes: &[u8]) -> bool
    ensures { result ≡ ends_line bytes.now }
{
    match bytes.last() {
        Some(byte) => *byte == b'\n' || *byte == b'\r',
        None => false,
    }
}

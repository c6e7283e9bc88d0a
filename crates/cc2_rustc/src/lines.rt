//! What follows a prefix in a line.
ghost use Rattle.std.specs.Prelude.{◌≡◌};
ghost use Rattle.std.specs.Option.{option_copied};
ghost use Rattle.std.specs.Str.Lines.{lines};
ghost use Rattle.cc2_rustc.specs.Versions.{behind, host_in};

// What follows the prefix in the first line of the text that has it.
pub(crate) fn behind<'a>(prefix: &str, text: &'a str) -> Option<&'a str>
    ensures { option_copied result ≡ behind prefix.now (lines text.now) }
{
    for line in text.lines() {
        if let Some(rest) = line.strip_prefix(prefix) {
            return Some(rest);
        }
    }
    None
}

// The host in the answer to `-vV`.
pub(crate) fn host_in(text: &str) -> Option<&str>
    ensures { option_copied result ≡ host_in text.now }
{
    behind("host: ", text)
}

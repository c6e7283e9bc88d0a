//! What a run writes and ends with.
ghost use Rattle.std.specs.Prelude.{◌≡◌};
ghost use Rattle.cc2_standin.specs.Table.{prints, fails};
ghost use Rattle.cc2_standin.specs.Shown.{said_view};

/// What a run writes on both streams, and the status that it ends with.
#[derive(Clone, Copy, Debug)]
pub struct Said {
    pub stdout: &'static [u8],
    pub stderr: &'static [u8],
    pub status: u8,
}

/// The text on standard output, and 0.
pub fn printed(text: &'static [u8]) -> Said
    ensures { said_view result ≡ prints text.now }
{
    Said {
        stdout: text,
        stderr: b"",
        status: 0,
    }
}

/// The text on standard error, and the status.
pub fn failed(text: &'static [u8], status: u8) -> Said
    ensures { said_view result ≡ fails text.now status }
{
    Said {
        stdout: b"",
        stderr: text,
        status,
    }
}

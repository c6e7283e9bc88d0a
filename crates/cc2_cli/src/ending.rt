//! How a program ends.
use std::io;
use std::io::Write;
use std::process::ExitCode;

/// Why a program ended by itself.
#[derive(Debug, Drop)]
pub enum Fault {
    /// An argument isn't UTF-8.
    Words,
    /// The current directory or the variables can't be read.
    Surroundings,
    /// A path can't be used: the message.
    Path(String),
    /// Standard output or standard error can't be written.
    Output,
    /// Memory ran out.
    Memory,
}

impl Fault {
    /// The fault of a directory that can't be entered for this reason.
    pub fn directory(rt: &HostRuntime, dir: &str, reason: &io::Error) -> Fault {
        Fault::of_path(rt, "enter the directory", dir, reason)
    }

    /// The fault of a file or a directory that can't be read for this reason.
    pub fn unreadable(rt: &HostRuntime, path: &str, reason: &io::Error) -> Fault {
        Fault::of_path(rt, "read", path, reason)
    }

    // The fault that something can't be done with a path for this reason.
    fn of_path(rt: &HostRuntime, what: &str, path: &str, reason: &io::Error) -> Fault {
        if reason.kind() == io::ErrorKind::OutOfMemory {
            return Fault::Memory;
        }
        match format!(in rt.alloc(); "error: cannot {what} `{path}`: {reason}\n") {
            Ok(message) => Fault::Path(message),
            Err(_) => Fault::Memory,
        }
    }

    fn line(&self) -> &str {
        match self {
            Fault::Words => "error: cannot read the arguments: they must be UTF-8\n",
            Fault::Surroundings => "error: cannot read the current directory or the environment\n",
            Fault::Path(message) => message.as_str(),
            Fault::Output => "error: cannot write the output\n",
            Fault::Memory => "error: out of memory\n",
        }
    }
}

/// The status of a run; where there is none, 1, with a line on standard error that says why.
pub fn ended(rt: &HostRuntime, outcome: Result<u8, Fault>) -> ExitCode {
    match outcome {
        Ok(status) => ExitCode::from(status),
        Err(fault) => {
            let _ = rt.stderr().write_all(fault.line().as_bytes());
            ExitCode::from(1)
        }
    }
}

/// The status of a run whose one fault is that its output can't be written.
///
/// # Errors
/// `Fault::Output` where the run has a fault.
pub fn written<E: Drop>(outcome: Result<u8, E>) -> Result<u8, Fault> {
    match outcome {
        Ok(status) => Ok(status),
        Err(_) => Err(Fault::Output),
    }
}

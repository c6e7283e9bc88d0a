//! How a value is let go.
use std::mem::forget;

/// How a value that nobody needs any more is let go.
#[derive(Clone, Copy, Debug)]
pub enum LetGo {
    /// It is dropped: right in a library, whose caller goes on.
    Dropped,
    /// It is forgotten: right where the process ends, since the system then takes its memory back at once.
    Forgotten,
}

impl LetGo {
    /// Lets the value go.
    pub fn take<T: Drop>(self, value: T) {
        match self {
            LetGo::Dropped => drop(value),
            LetGo::Forgotten => forget(value),
        }
    }
}

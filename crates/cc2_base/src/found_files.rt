//! The regular files that were found and not read yet.
use std::alloc::{AllocError, Global};
use std::cell::Cell;
use std::collections::VecDeque;

// So many are kept. Further ones are looked at again before they are read.
const MOST: usize = 100;

/// The paths at which regular files were found, in the order in which they were looked at. A walk finds
/// its files before they are read, in the same order: each of them is then looked at once.
#[derive(Drop)]
pub(crate) struct FoundFiles {
    paths: Cell<Option<VecDeque<String>>>,
}

impl FoundFiles {
    /// No file was found yet.
    pub(crate) fn none() -> FoundFiles {
        FoundFiles {
            paths: Cell::new(None),
        }
    }

    /// Notes that a regular file is at the path.
    ///
    /// # Errors
    /// `AllocError` where there is no memory for the path; no file is noted then.
    pub(crate) fn put(&self, alloc: Global, path: &str) -> Result<(), AllocError> {
        let mut paths = match self.paths.replace(None) {
            Some(paths) => paths,
            None => VecDeque::new(alloc),
        };
        if paths.len() < MOST {
            paths.push_back(String::from_str(alloc, path)?)?;
        }
        self.paths.set(Some(paths));
        Ok(())
    }

    /// Notes that something else than a regular file was found: what was found before it may be old.
    pub(crate) fn forget(&self) {
        self.paths.set(None);
    }

    /// Whether a regular file was found at the path, and those found before it were read. It counts
    /// once. Any other path forgets all.
    pub(crate) fn take(&self, path: &str) -> bool {
        let Some(mut paths) = self.paths.replace(None) else {
            return false;
        };
        let is_next = match paths.pop_front() {
            Some(next) => next.as_str() == path,
            None => false,
        };
        if is_next {
            self.paths.set(Some(paths));
        }
        is_next
    }
}

//! What the last questions for paths met, where these were absent.
use crate::path::parent;
use std::alloc::{AllocError, Global};
use std::cell::Cell;

// So many absent paths in a row, and the next one's folder is looked at first.
const FEW: u8 = 2;

/// How many paths in a row were absent, and the last of them where its folder was absent. The
/// text is empty where it wasn't, and serves again.
#[derive(Drop)]
pub(crate) struct Absences {
    in_a_row: Cell<u8>,
    last: Cell<Option<String>>,
}

impl Absences {
    /// No path was absent yet.
    pub(crate) fn none() -> Absences {
        Absences {
            in_a_row: Cell::new(0),
            last: Cell::new(None),
        }
    }

    /// Whether the path is another one of the folder that was just found absent. This holds for
    /// the next question alone, so that a folder that is made later is seen.
    pub(crate) fn cover(&self, path: &str) -> bool {
        let Some(mut last) = self.last.replace(None) else {
            return false;
        };
        let covers = !last.is_empty()
            && last.as_str() != path
            && parent(last.as_str()) == parent(path);
        last.clear();
        self.last.set(Some(last));
        covers
    }

    /// Whether a folder is looked at before its file.
    pub(crate) fn are_expected(&self) -> bool {
        self.in_a_row.get() >= FEW
    }

    /// Notes whether anything was found at a path, or at its folder.
    pub(crate) fn put(&self, there: bool) {
        if there {
            self.in_a_row.set(0);
        } else {
            self.in_a_row.set(self.in_a_row.get().saturating_add(1));
        }
    }

    /// Notes a path whose folder is absent.
    ///
    /// # Errors
    /// `AllocError` where the path finds no memory; nothing is noted then.
    pub(crate) fn put_folder(&self, alloc: Global, path: &str) -> Result<(), AllocError> {
        let mut last = match self.last.replace(None) {
            Some(last) => last,
            None => String::new(alloc),
        };
        last.push_str(path)?;
        self.last.set(Some(last));
        Ok(())
    }
}

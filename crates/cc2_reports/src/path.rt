//! The text of a path, by which a key is found.
use crate::escapes::unescaped;
use std::alloc::{AllocError, Global};

/// A key of a path, as the text spells it, and whether it has escapes.
#[derive(Clone, Copy)]
pub struct Piece<'a> {
    pub(crate) spelled: &'a str,
    pub(crate) has_escapes: bool,
}

/// How many bytes the keys of a path have.
pub fn byte_count(path: &[Piece<'_>]) -> usize {
    let mut count: usize = 0;
    for key in path {
        count = count.saturating_add(key.spelled.len());
    }
    count
}

/// The text of a path: each key, and a line break after it. A key with a line break, which only an escape spells, is
/// left as it is spelled.
///
/// # Errors
/// `AllocError` where memory ran out.
pub fn joined(alloc: Global, path: &[Piece<'_>]) -> Result<String, AllocError> {
    let mut text = String::new(alloc);
    for key in path {
        push_piece(&mut text, alloc, *key)?;
        text.push_str("\n")?;
    }
    Ok(text)
}

fn push_piece(text: &mut String, alloc: Global, key: Piece<'_>) -> Result<(), AllocError> {
    if key.has_escapes {
        let meant = unescaped(alloc, key.spelled)?;
        if !meant.as_str().contains('\n') {
            return text.push_str(meant.as_str());
        }
    }
    text.push_str(key.spelled)
}

/// The text of a path, by which its key is found; none where a key has a line break.
///
/// # Errors
/// `AllocError` where memory ran out.
pub fn path_text(alloc: Global, path: &[String]) -> Result<Option<String>, AllocError> {
    let mut text = String::new(alloc);
    for key in path {
        if key.as_str().contains('\n') {
            return Ok(None);
        }
        text.push_str(key.as_str())?;
        text.push_str("\n")?;
    }
    Ok(Some(text))
}

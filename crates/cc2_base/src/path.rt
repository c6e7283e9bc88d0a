//! Paths as texts: joining, parents, components, names, by the rules of Rust's `std::path` on Unix.
//! No disk is asked.
ghost use Rattle.std.specs.Prelude.{◌≡◌, true, false, Some, IfOk, MatchOption, option_map, string_bytes};
ghost use Rattle.cc2_base.specs.Paths.{begins_at_root, joined, components_of, same_path, parent_of, ancestors_of, file_name_of};
ghost use Rattle.cc2_base.specs.Paths.{is_dot, is_whole, stem_of_name, extension_of_name, stem_of, extension_of};
ghost use Rattle.std.specs.List.{before_last, after_last};
ghost use Rattle.cc2_base.specs.PathSteps.{ancestors_left, components_left, name_in};

use crate::path_iter::{Ancestors, Components};
use cc2_error::error::NoMemory;
use std::alloc::Global;
use std::path::{Component, Path};

/// Whether a path begins with `/` (Rust's
/// [`Path::is_absolute`](https://doc.rust-lang.org/std/path/struct.Path.html#method.is_absolute) on
/// Unix).
pub fn is_absolute(path: &str) -> bool
    ensures { result ≡ begins_at_root path.now }
{
    Path::new(path).is_absolute()
}

/// The second path where it is absolute; else the first, then `/` where that is neither empty nor
/// ends in one, then the second (Rust's
/// [`Path::join`](https://doc.rust-lang.org/std/path/struct.Path.html#method.join) on Unix).
///
/// # Errors
/// `NoMemory` where the joined path finds no memory.
pub fn join(alloc: Global, base: &str, path: &str) -> Result<String, NoMemory>
    ensures { IfOk result (λ whole. string_bytes whole ≡ joined base.now path.now) }
{
    let whole = Path::new(base).join(alloc, path)?;
    Ok(whole.into_string())
}

/// The path without its last component (Rust's
/// [`Path::parent`](https://doc.rust-lang.org/std/path/struct.Path.html#method.parent) on Unix);
/// none for an empty path and for the root.
pub fn parent(path: &str) -> Option<&str>
    ensures { option_map (λ p. p.now) result ≡ parent_of path.now }
{
    match Path::new(path).parent() {
        Some(parent) => Some(parent.as_str()),
        None => None,
    }
}

/// Whether two paths have the same components: `a//b/.` and `a/b` do. No `..` and no link is
/// followed (Rust's
/// [`==`](https://doc.rust-lang.org/std/path/struct.Path.html#impl-PartialEq-for-Path) of two
/// `Path`s on Unix).
pub fn same(path: &str, other: &str) -> bool
    ensures { result ≡ same_path path.now other.now }
{
    let mut others = Path::new(other).components();
    for last in Path::new(path).components().rev() {
        let text = last.as_os_str();
        match others.next_back() {
            Some(other) if other.as_os_str() == text => {}
            _ => return false,
        }
    }
    others.next_back().is_none()
}

// The last component, where it names a file.
fn file_name(path: &str) -> Option<&str>
    ensures { option_map (λ name. name.now) result ≡ file_name_of path.now }
{
    match Path::new(path).components().next_back() {
        Some(last) => as_name(last),
        None => None,
    }
}

fn as_name(component: Component<'_>) -> Option<&str>
    ensures { option_map (λ name. name.now) result ≡ name_in (Some component.entry) }
{
    match component {
        Component::Normal(name) => Some(name),
        Component::RootDir | Component::CurDir | Component::ParentDir => None,
    }
}

// What comes before and after a name's last dot, unless that is its first byte.
fn cut_at_dot(name: &str) -> Option<(&str, &str)>
    ensures { MatchOption result (is_whole name.now ≡ true) (λ cut. (is_whole name.now ≡ false)
        × (cut.0.now ≡ before_last is_dot name.now) × (cut.1.now ≡ after_last is_dot name.now)) }
{
    match name.rsplit_once('.') {
        None => None,
        Some((front, _)) if front.is_empty() => None,
        Some((front, back)) => Some((front, back)),
    }
}

fn stem_in(name: &str) -> &str
    ensures { result.now ≡ stem_of_name name.now }
{
    match cut_at_dot(name) {
        Some((front, _)) => front,
        None => name,
    }
}

fn extension_in(name: &str) -> Option<&str>
    ensures { option_map (λ extension. extension.now) result ≡ extension_of_name name.now }
{
    match cut_at_dot(name) {
        Some((_, back)) => Some(back),
        None => None,
    }
}

/// The last component up to its last dot, where it names a file: neither the root, `.` nor `..`. A
/// dot that is its first byte parts nothing (Rust's
/// [`Path::file_stem`](https://doc.rust-lang.org/std/path/struct.Path.html#method.file_stem) on
/// Unix).
#[tactic(auto, unfolding(crate::specs::Paths::stem_of))]
pub fn stem(path: &str) -> Option<&str>
    ensures { option_map (λ s. s.now) result ≡ stem_of path.now }
{
    match file_name(path) {
        Some(name) => Some(stem_in(name)),
        None => None,
    }
}

/// The last component after its last dot, where `stem` has cut it there; else none (Rust's
/// [`Path::extension`](https://doc.rust-lang.org/std/path/struct.Path.html#method.extension) on
/// Unix).
#[tactic(auto, unfolding(crate::specs::Paths::extension_of))]
pub fn extension(path: &str) -> Option<&str>
    ensures { option_map (λ s. s.now) result ≡ extension_of path.now }
{
    match file_name(path) {
        Some(name) => extension_in(name),
        None => None,
    }
}

/// The path itself, its parent, and so on to the root or to the empty text (Rust's
/// [`Path::ancestors`](https://doc.rust-lang.org/std/path/struct.Path.html#method.ancestors) on
/// Unix).
pub fn ancestors(path: &str) -> Ancestors<'_>
    ensures { ancestors_left result ≡ ancestors_of path.now }
{
    Ancestors::new(path)
}

/// The components: the root `/` of an absolute path, then the names between the slashes. A `.`
/// occurs only at the front of a relative path, and each `..` is kept (Rust's
/// [`Path::components`](https://doc.rust-lang.org/std/path/struct.Path.html#method.components) on
/// Unix).
pub fn components(path: &str) -> Components<'_>
    ensures { components_left result ≡ components_of path.now }
{
    Components::new(path)
}

//! The target of a build as Cargo takes it on its command line: a triple, or the path of a file that
//! describes a target.
ghost use Rattle.std.specs.Prelude.{IsSome};
ghost use Rattle.std.specs.Cow.{cow_str_bytes};
ghost use Rattle.cc2_resolved.specs.Targets.{triple_of};

use crate::target_text::{is_spec_path, triple_in};
use cc2_base::path::join;
use cc2_error::error::{Error, ErrorKind, Result};
use std::alloc::Global;
use std::borrow::CowStr;

/// A target: a triple, or the path of a file that describes one (Cargo Reference,
/// [`build.target`](https://doc.rust-lang.org/cargo/reference/config.html#buildtarget)).
///
/// A text is such a path where its extension is `json`, in any case, or where it holds `/` or `\`.
/// Targets are equal, ordered and hashed by the text that Cargo takes.
#[derive(Debug, Drop)]
pub struct TargetTripleRef<'a> {
    // The text as Cargo takes it; the rest is read from it.
    text: CowStr<'a>,
    ghost has_triple: { IsSome (triple_of (cow_str_bytes text)) },
}

/// A target that owns its text.
pub type TargetTriple = TargetTripleRef<'static>;

impl<'a> TargetTripleRef<'a> {
    ghost use Rattle.std.specs.Prelude.{◌≡◌, IfOk, IfErr, IsOk, ok_or, option_map, string_bytes};
    ghost use Rattle.std.specs.Result.{result_map_both};
    ghost use Rattle.cc2_error.specs.Causes.{refusal_of, plain, spec_name, no_memory};
    ghost use Rattle.cc2_error.specs.Outcomes.{Gives};
    ghost use Rattle.cc2_resolved.specs.Targets.{target_of, command_text, joined_to};
    ghost use Rattle.cc2_resolved.specs.ShownTargets.{target_at, IsOwned, IsBorrowed};

    /// The target of a text, which it borrows (Cargo Reference, Configuration,
    /// [`build.target`](https://doc.rust-lang.org/cargo/reference/config.html#buildtarget)). It
    /// takes no memory.
    ///
    /// # Errors
    /// `ErrorKind::SpecName` where the text is a spec path without a file name, as `/`, `./` and
    /// `a/..` are.
    pub fn new(text: &'a str) -> Result<TargetTripleRef<'a>>
        ensures target { result_map_both target_at refusal_of result
            ≡ ok_or (target_of text.now) (plain spec_name) }
        ensures borrowed { IfOk result (λ target. IsBorrowed target) }
    {
        match triple_in(text) {
            Some(_) => Ok(TargetTripleRef {
                text: CowStr::Borrowed(text),
            }),
            None => Err(Error::new(ErrorKind::SpecName)),
        }
    }

    /// The target of a text, which it takes over (Cargo Reference, Configuration,
    /// [`build.target`](https://doc.rust-lang.org/cargo/reference/config.html#buildtarget)). It
    /// takes no memory.
    ///
    /// # Errors
    /// `ErrorKind::SpecName` where the text is a spec path without a file name.
    pub fn from_string(text: String) -> Result<TargetTriple>
        ensures target { result_map_both target_at refusal_of result
            ≡ ok_or (target_of (string_bytes text)) (plain spec_name) }
        ensures owned { IfOk result (λ target. IsOwned target) }
    {
        match triple_in(text.as_str()) {
            Some(_) => Ok(TargetTripleRef {
                text: CowStr::Owned(text),
            }),
            None => Err(Error::new(ErrorKind::SpecName)),
        }
    }

    /// The same target, borrowed from this one. It takes no memory.
    pub fn by_ref(&self) -> TargetTripleRef<'_>
        ensures same { target_at result ≡ target_at self.now }
        ensures borrowed { IsBorrowed result }
    {
        TargetTripleRef {
            text: CowStr::Borrowed(self.text.as_str()),
        }
    }

    /// The same target with a text of its own. It takes memory only where the text is borrowed.
    ///
    /// # Errors
    /// `ErrorKind::Memory` where the copy of a borrowed text finds no memory.
    pub fn into_owned(self, alloc: Global) -> Result<TargetTriple>
        ensures same { IfOk result (λ target. target_at target ≡ target_at self.entry) }
        ensures owned { IfOk result (λ target. IsOwned target) }
        ensures succeeds { IsOwned self.entry → IsOk result }
        ensures refused { IfErr result (λ e. e ≡ no_memory) }
    {
        Ok(TargetTripleRef {
            text: CowStr::Owned(self.text.into_owned(alloc)?),
        })
    }

    /// The same target once more. It takes memory only where the text is its own.
    ///
    /// # Errors
    /// `ErrorKind::Memory` where the copy of an own text finds no memory.
    pub fn try_clone(&self, alloc: Global) -> Result<TargetTripleRef<'a>>
        ensures same { IfOk result (λ target. target_at target ≡ target_at self.now) }
        ensures succeeds { IsBorrowed self.now → IsOk result }
        ensures refused { IfErr result (λ e. e ≡ no_memory) }
    {
        match &self.text {
            CowStr::Borrowed(text) => Ok(TargetTripleRef {
                text: CowStr::Borrowed(*text),
            }),
            CowStr::Owned(text) => Ok(TargetTripleRef {
                text: CowStr::Owned(String::from_str(alloc, text.as_str())?),
            }),
        }
    }

    /// The target with its spec path, where it has one, joined to a root; its triple is as it was.
    /// So a setting's relative path is resolved from where its file is (Cargo Reference,
    /// [Config-relative paths](https://doc.rust-lang.org/cargo/reference/config.html#config-relative-paths)).
    ///
    /// # Errors
    /// `ErrorKind::Memory` where the target's text finds no memory.
    pub fn joined_to(&self, alloc: Global, root: &str) -> Result<TargetTriple>
        ensures joined { IfOk result (λ target.
            target_at target ≡ joined_to root.now (target_at self.now)) }
        ensures owned { IfOk result (λ target. IsOwned target) }
        ensures refused { IfErr result (λ e. e ≡ no_memory) }
    {
        match self.spec_path() {
            Some(path) => Ok(TargetTripleRef {
                text: CowStr::Owned(join(alloc, root, path)?),
            }),
            None => self.by_ref().into_owned(alloc),
        }
    }

    /// The target of a setting's text, with a spec path joined to a root. The text is judged, and
    /// the triple taken, before joining: `./` is refused, while `/p/./` would have the triple `p`.
    ///
    /// # Errors
    /// `ErrorKind::SpecName` where the text is a spec path without a file name, and
    /// `ErrorKind::Memory` where the target's text finds no memory.
    pub fn below_root(alloc: Global, root: &str, text: &str) -> Result<TargetTriple>
        ensures { Gives target_at result
            (ok_or (option_map (joined_to root.now) (target_of text.now)) (plain spec_name)) }
    {
        TargetTripleRef::new(text)?.joined_to(alloc, root)
    }

    /// The triple: the file name of a spec path up to its last dot, else the text (Cargo Reference,
    /// Configuration, [`[target]`](https://doc.rust-lang.org/cargo/reference/config.html#target)).
    pub fn triple(&self) -> &str
        ensures { result.now ≡ (target_at self.now).triple }
    {
        match triple_in(self.text.as_str()) {
            Some(triple) => triple,
            None => self.text.as_str(),
        }
    }

    /// The path of the file that describes the target, where the text is one (rustc's book,
    /// [Custom targets](https://doc.rust-lang.org/rustc/targets/custom.html)).
    pub fn spec_path(&self) -> Option<&str>
        ensures { option_map (λ path. path.now) result ≡ (target_at self.now).spec_path }
    {
        let text = self.text.as_str();
        if is_spec_path(text) { Some(text) } else { None }
    }

    /// The text as Cargo takes it after `--target`: the spec path where there is one, else the
    /// triple (Cargo Book, cargo build,
    /// [`--target`](https://doc.rust-lang.org/cargo/commands/cargo-build.html#option-cargo-build---target)).
    pub fn as_command_text(&self) -> &str
        ensures { result.now ≡ command_text (target_at self.now) }
    {
        self.text.as_str()
    }
}

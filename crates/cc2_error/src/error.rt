//! Why a call is refused: a kind for each refusal that the crate `cargo-config2` prints, with its
//! values, and the error that carries one; `Memory` (out of memory) is a kind of our own.
ghost use Rattle.std.specs.Prelude.{◌≡◌, ◌∷◌, map, string_bytes, OnOk};

use crate::ParseError;
use crate::path_and_args::PathAndArgs;
use std::alloc::{AllocError, AllocFailed, Global};
use std::fmt;

/// Memory ran out: a growth was refused, or an interface said so.
#[derive(Clone, Copy, Debug, PartialEq, Eq)]
pub struct NoMemory;

impl From<AllocError> for NoMemory {
    ghost use Rattle.std.specs.Prelude.{◌≡◌};

    ghost from_gives = { λ _ e. e ≡ record {} };

    fn from(_e: AllocError) -> NoMemory {
        NoMemory
    }
}

impl<T: Drop> From<AllocFailed<T>> for NoMemory {
    ghost use Rattle.std.specs.Prelude.{◌≡◌};

    ghost from_gives = { λ _ e. e ≡ record {} };

    fn from(_e: AllocFailed<T>) -> NoMemory {
        NoMemory
    }
}

/// The kind of value at a key path of a configuration, as a refused merge names it.
#[derive(Clone, Copy, Debug, PartialEq, Eq)]
pub enum Shape {
    /// A text.
    String,
    /// An array.
    Array,
    /// A table.
    Table,
}

impl Shape {
    ghost use Rattle.std.specs.Prelude.{◌≡◌};
    ghost use Rattle.cc2_error.specs.Shapes.{shape_text};

    /// The shape's name: `string`, `array` or `table`. It is also what the shape prints.
    pub fn as_str(self) -> &'static str
        ensures { result.now ≡ shape_text self }
    {
        match self {
            Shape::String => "string",
            Shape::Array => "array",
            Shape::Table => "table",
        }
    }
}

impl fmt::Display for Shape {
    ghost use Rattle.std.specs.Prelude.{Some};
    ghost use Rattle.cc2_error.specs.Shapes.{shape_text};

    ghost output = { λ shape. Some (shape_text shape) };

    fn fmt<W: fmt::Write>(&self, f: &mut fmt::Formatter<W>) -> fmt::Result {
        f.write_str(self.as_str())
    }
}

/// Why a file's content was not had.
#[derive(Clone, Copy, Debug, PartialEq, Eq)]
pub enum ReadCause {
    /// The file interface refused the read.
    Unreadable,
    /// The bytes are not UTF-8.
    NotText,
}

/// Why a file's text is not a configuration.
#[derive(Debug, Drop)]
pub enum ParseCause {
    /// The value at this key path has another type than the key's.
    WrongType {
        /// The keys from the top of the file down to the value.
        path: Vec<String>,
    },
    /// The TOML reader refuses the text, with this message.
    Refused {
        /// The reader's message.
        text: String,
    },
}

/// What is wrong with the values of a cfg key.
#[derive(Clone, Copy, Debug, PartialEq, Eq)]
pub enum CfgValueFault {
    /// There is no value, and the key has no default.
    Absent,
    /// There are more values than the key takes.
    TooMany,
    /// A value cannot be read.
    Unreadable,
}

/// What separates two flags of one text.
#[derive(Clone, Copy, Debug, PartialEq, Eq)]
pub enum Separator {
    /// U+001F, the unit separator.
    Unit,
    /// U+0020, the space.
    Space,
}

/// The kind of a refusal, with the parts of its line that vary.
///
/// The name of a file or of a variable is not here: it is in the line that the error prints.
#[derive(Debug, Drop)]
pub enum ErrorKind {
    /// Memory ran out: a growth was refused, or an interface said so.
    Memory,
    /// A configuration file was not read.
    ReadFile(ReadCause),
    /// A configuration file's text is not a configuration.
    ParseFile(ParseCause),
    /// The stronger value and the weaker one at this key path do not merge (Cargo Reference,
    /// Configuration,
    /// [hierarchical structure](https://doc.rust-lang.org/cargo/reference/config.html#hierarchical-structure)).
    Merge {
        /// The keys from the top down to the two values.
        path: Vec<String>,
        /// What the stronger value is.
        expected: Shape,
        /// What the weaker value is.
        found: Shape,
    },
    /// A consulted variable is not UTF-8.
    EnvNotText {
        /// The value between two `"`, each byte but printable ASCII as `\xNN`; `[REDACTED]` of a token.
        shown: String,
    },
    /// A consulted variable's text cannot be read as what it sets.
    EnvParse {
        /// What it must be, as `must be true or false`.
        must: &'static str,
        /// The text that was found.
        found: String,
    },
    /// A command has no word (Cargo Reference, Configuration,
    /// [executable paths with arguments](https://doc.rust-lang.org/cargo/reference/config.html#executable-paths-with-arguments)).
    EmptyCommand,
    /// A built-in credential provider of this kind has arguments (Cargo Reference,
    /// [Registry Authentication](https://doc.rust-lang.org/cargo/reference/registry-authentication.html)).
    ProviderArgs {
        /// The provider, as `cargo:token`.
        kind: &'static str,
    },
    /// The credential provider `cargo:token-from-stdout` has no command (Cargo Reference,
    /// [Registry Authentication](https://doc.rust-lang.org/cargo/reference/registry-authentication.html)).
    ProviderNoCommand,
    /// A relative value is to be joined to a root, and its file has none above it (Cargo Reference,
    /// Configuration,
    /// [config-relative paths](https://doc.rust-lang.org/cargo/reference/config.html#config-relative-paths)).
    NoRoot {
        /// The file in which the value is set.
        file: String,
        /// The value.
        value: String,
    },
    /// A target's spec path has no file name (Cargo Reference, Configuration,
    /// [`build.target`](https://doc.rust-lang.org/cargo/reference/config.html#buildtarget)).
    SpecName,
    /// A key of `[target]` begins with `cfg(`, is not blank and is no cfg expression (Rust Reference,
    /// [Conditional compilation](https://doc.rust-lang.org/reference/conditional-compilation.html)).
    CfgParse(ParseError),
    /// A target's triple begins with `cfg(` (Cargo Reference, Configuration,
    /// [`[target]`](https://doc.rust-lang.org/cargo/reference/config.html#target)).
    NotTriple {
        /// The triple.
        triple: String,
    },
    /// The program could not be started.
    NotRun {
        /// The program and its arguments.
        command: PathAndArgs,
    },
    /// The program ended with another status than 0; without a code it was ended by a signal.
    ProgramFailed {
        /// The program and its arguments.
        command: PathAndArgs,
        /// Its exit status; none where a signal ended it.
        code: Option<i32>,
        /// The bytes of its standard output.
        stdout: Vec<u8>,
        /// The bytes of its standard error.
        stderr: Vec<u8>,
    },
    /// The program's standard output is not UTF-8.
    OutputNotText {
        /// The program and its arguments.
        command: PathAndArgs,
    },
    /// The program's output has no version, or no host line where one is asked.
    VersionOutput {
        /// The program and its arguments.
        command: PathAndArgs,
        /// What it wrote to its standard output, without the ends of lines after it.
        output: String,
    },
    /// The values of this cfg key are not what the key takes.
    CfgValue {
        /// The key, as `target_os`.
        key: String,
        /// What is wrong with its values.
        fault: CfgValueFault,
    },
    /// A flag holds the separator that is to go between flags.
    Separator(Separator),
    /// A text is none of an enum's spellings.
    BadSpelling {
        /// Which spellings there are, as `must be git or sparse`.
        must: &'static str,
    },
}

/// A refusal: its kind and, where it is known, a context: a line on what was being done.
///
/// It prints its context where it has one, and else the line of its kind.
#[derive(Debug, Drop)]
pub struct Error {
    kind: ErrorKind,
    context: Option<String>,
}

/// A result of this crate and of those that depend on it.
pub type Result<T> = std::result::Result<T, Error>;

impl Error {
    ghost use Rattle.std.specs.Prelude.{◌≡◌, option_map, string_bytes};
    ghost use Rattle.cc2_error.specs.Causes.{cause_of, refusal_of, plain, in_context, cause_behind};
    ghost use Rattle.cc2_error.specs.Below.{IsBelow};

    /// The error of this kind, without a context. It takes no memory.
    pub fn new(kind: ErrorKind) -> Error
        ensures { refusal_of result ≡ plain (cause_of kind) }
    {
        let context = None;
        Error { kind, context }
    }

    /// The same error with this context, in place of the one that it may have had. It takes no
    /// memory.
    pub fn with_context(self, context: String) -> Error
        ensures { refusal_of result ≡ in_context (string_bytes context) (refusal_of self) }
    {
        let context = Some(context);
        Error {
            kind: self.kind,
            context,
        }
    }

    /// The refusal of a part, seen from the whole that has the part at the key: where the kind has
    /// a key path, that begins with the key. Kind and context are as they were.
    ///
    /// Where the copy of the key finds no memory the answer is another error: the kind
    /// `ErrorKind::Memory`, without a context.
    pub fn below(self, alloc: Global, key: &str) -> Error
        ensures { IsBelow key.now (refusal_of self) (refusal_of result) }
    {
        let mut error = self;
        match error.kind.put_below(alloc, key) {
            Ok(()) => error,
            Err(_) => Error::new(ErrorKind::Memory),
        }
    }

    /// The kind, with or without a context.
    pub fn kind(&self) -> &ErrorKind
        ensures { cause_of result.now ≡ (refusal_of self.now).cause }
    {
        &self.kind
    }

    // The context, where there is one.
    pub(crate) fn context(&self) -> Option<&str>
        ensures { option_map (λ context. context.now) result ≡ (refusal_of self.now).context }
    {
        self.context.as_ref().map(|context| context.as_str())
    }

    /// The kind where there is a context, since the context is printed in its place; else none.
    pub fn cause(&self) -> Option<&ErrorKind>
        ensures { option_map (λ kind. cause_of kind.now) result
            ≡ cause_behind (refusal_of self.now) }
    {
        match self.context {
            Some(_) => Some(self.kind()),
            None => None,
        }
    }
}

impl ErrorKind {
    ghost use Rattle.std.specs.Prelude.{◌≡◌, OnOk};
    ghost use Rattle.cc2_error.specs.Causes.{cause_of};
    ghost use Rattle.cc2_error.specs.Below.{cause_below};

    // Puts one key more at the front of the key path, where the kind has one.
    fn put_below(&mut self, alloc: Global, key: &str) -> std::result::Result<(), NoMemory>
        ensures { OnOk result (cause_of self.new ≡ cause_below key.now (cause_of self.old)) }
    {
        match self {
            ErrorKind::Merge { path, .. } => prepend(alloc, key, path),
            ErrorKind::ParseFile(ParseCause::WrongType { path }) => prepend(alloc, key, path),
            _ => Ok(()),
        }
    }
}

// Puts a key at the front.
fn prepend(alloc: Global, key: &str, path: &mut Vec<String>) -> std::result::Result<(), NoMemory>
    ensures { OnOk result (map string_bytes path.new.items
        ≡ key.now ∷ map string_bytes path.old.items) }
{
    path.insert(0, String::from_str(alloc, key)?)?;
    Ok(())
}

impl From<NoMemory> for Error {
    ghost use Rattle.std.specs.Prelude.{◌≡◌};
    ghost use Rattle.cc2_error.specs.Causes.{no_memory};

    ghost from_gives = { λ _ e. e ≡ no_memory };

    fn from(_e: NoMemory) -> Error {
        Error {
            kind: ErrorKind::Memory,
            context: None,
        }
    }
}

impl From<AllocError> for Error {
    ghost use Rattle.std.specs.Prelude.{◌≡◌};
    ghost use Rattle.cc2_error.specs.Causes.{no_memory};

    ghost from_gives = { λ _ e. e ≡ no_memory };

    fn from(_e: AllocError) -> Error {
        Error::from(NoMemory)
    }
}

impl<T: Drop> From<AllocFailed<T>> for Error {
    ghost use Rattle.std.specs.Prelude.{◌≡◌};
    ghost use Rattle.cc2_error.specs.Causes.{no_memory};

    ghost from_gives = { λ _ e. e ≡ no_memory };

    fn from(_e: AllocFailed<T>) -> Error {
        Error::from(NoMemory)
    }
}

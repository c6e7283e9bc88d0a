//! A program and its arguments, which a caller extends.
ghost use Rattle.std.specs.Prelude.{◌≡◌, ◌+◌, ◌<◌, ◌≤◌, [], ◌∷◌, IfOk, IsOk, OnOk, OnErr, string_bytes, map, vec_len};
ghost use Rattle.cc2_error.specs.Commands.{command_of, bare_command, is_command, with_args, room_of};

use crate::error::NoMemory;
use serde::{Described, Serialize, Serializer};
use std::alloc::Global;

/// A program's path and its arguments, in the order in which they are passed.
#[derive(Debug, Drop)]
pub struct PathAndArgs {
    /// The program's path.
    pub path: String,
    /// The arguments, without the program.
    pub args: Vec<String>,
}

// The same path and the same arguments, byte by byte.
impl PartialEq for PathAndArgs {
    ghost use Rattle.std.specs.Prelude.{◌≡◌, ◌↔◌, IsTrue};
    ghost use Rattle.std.specs.Cmp.{on_equiv, partial_equiv_from_equiv};
    ghost use Rattle.cc2_error.specs.Commands.{command_of, same_command};
    ghost use Rattle.cc2_error.specs.CommandLaws.{same_command_equiv};

    ghost eq = { λ a b. same_command (command_of a) (command_of b) };

    ghost laws = { partial_equiv_from_equiv (on_equiv (λ c. command_of c) same_command_equiv) };

    fn eq(&self, other: &PathAndArgs) -> bool
        ensures computed { result ≡ same_command (command_of self.now) (command_of other.now) }
        ensures same { IsTrue result ↔ (command_of self.now ≡ command_of other.now) }
    {
        self.is_for(other.path.as_str(), other.args.as_slice())
    }
}

impl Eq for PathAndArgs {
    ghost use Rattle.std.specs.Cmp.{on_equiv};
    ghost use Rattle.cc2_error.specs.Commands.{command_of};
    ghost use Rattle.cc2_error.specs.CommandLaws.{same_command_equiv};

    ghost laws = { on_equiv (λ c. command_of c) same_command_equiv };
}

impl PathAndArgs {
    /// The program without arguments. It takes no memory.
    pub fn new(alloc: Global, path: String) -> PathAndArgs
        ensures { command_of result ≡ bare_command (string_bytes path) }
    {
        PathAndArgs {
            path,
            args: Vec::new(alloc),
        }
    }

    /// Adds the argument after the others, and answers the command for the next call.
    ///
    /// # Errors
    /// `NoMemory` where the list of arguments can't grow; it is then as it was, as the contract of
    /// `push_arg` says.
    pub fn arg(&mut self, arg: String) -> Result<&mut PathAndArgs, NoMemory>
        ensures added { IfOk result (λ c.
            command_of c.now ≡ with_args (command_of self.old) (string_bytes arg ∷ [])) }
        ensures same_reference { IfOk result (λ c. c.ghost_name ≡ self.entry.ghost_name) }
        ensures succeeds { 0 < room_of self.old → IsOk result }
    {
        self.push_arg(arg)?;
        Ok(self)
    }

    /// Adds the arguments after the others, in their order, and answers the command for the next
    /// call.
    ///
    /// # Errors
    /// `NoMemory` where the list of arguments can't grow; it is then as it was, as the contract of
    /// `push_args` says.
    pub fn args(&mut self, args: Vec<String>) -> Result<&mut PathAndArgs, NoMemory>
        ensures added { IfOk result (λ c.
            command_of c.now ≡ with_args (command_of self.old) (map string_bytes args.items)) }
        ensures same_reference { IfOk result (λ c. c.ghost_name ≡ self.entry.ghost_name) }
        ensures succeeds { vec_len args ≤ room_of self.old → IsOk result }
    {
        self.push_args(args)?;
        Ok(self)
    }

    /// `arg` without the command for the next call.
    ///
    /// # Errors
    /// `NoMemory` where the list of arguments can't grow; it is then as it was.
    pub fn push_arg(&mut self, arg: String) -> Result<(), NoMemory>
        ensures added { OnOk result (command_of self.new
            ≡ with_args (command_of self.old) (string_bytes arg ∷ [])) }
        ensures refused { OnErr result (command_of self.new ≡ command_of self.old) }
        ensures succeeds { 0 < room_of self.old → IsOk result }
    {
        self.args.push(arg)?;
        Ok(())
    }

    /// `args` without the command for the next call.
    ///
    /// # Errors
    /// `NoMemory` where the list of arguments can't grow; it is then as it was.
    pub fn push_args(&mut self, args: Vec<String>) -> Result<(), NoMemory>
        ensures added { OnOk result (command_of self.new
            ≡ with_args (command_of self.old) (map string_bytes args.items)) }
        ensures refused { OnErr result (command_of self.new ≡ command_of self.old) }
        ensures succeeds { vec_len args ≤ room_of self.old → IsOk result }
    {
        let mut more = args;
        self.args.append(&mut more)?;
        Ok(())
    }

    /// Whether it is this program with these arguments, byte by byte.
    pub fn is_for(&self, program: &str, args: &[String]) -> bool
        ensures { result ≡ is_command (string_bytes self.now.path)
            (map string_bytes self.now.args.items) program.now (map string_bytes args.now) }
    {
        self.path.as_str() == program && self.args.as_slice() == args
    }

    /// The same path and arguments once more.
    ///
    /// # Errors
    /// `NoMemory` where the copy finds no memory.
    pub fn try_clone(&self, alloc: Global) -> Result<PathAndArgs, NoMemory>
        ensures { IfOk result (λ copy. command_of copy ≡ command_of self.now) }
    {
        let path = String::from_str(alloc, self.path.as_str())?;
        let args = copy_texts(alloc, self.args.as_slice())?;
        Ok(PathAndArgs { path, args })
    }
}

impl Described for PathAndArgs {}

/// An array of texts, the path first.
impl Serialize for PathAndArgs {
    fn serialize<S: Serializer>(&self, out: &mut S) -> Result<(), S::Error> {
        out.begin_seq(None)?;
        self.path.serialize(out)?;
        for arg in &self.args {
            arg.serialize(out)?;
        }
        out.end_seq()
    }
}

// The same texts once more.
fn copy_texts(alloc: Global, texts: &[String]) -> Result<Vec<String>, NoMemory>
    ensures { IfOk result (λ copies. map string_bytes copies.items ≡ map string_bytes texts.now) }
{
    let mut copies = Vec::new(alloc);
    for text in texts {
        copies.push(String::from_str(alloc, text.as_str())?)?;
    }
    Ok(copies)
}

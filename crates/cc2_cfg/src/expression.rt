//! A parsed cfg text: the table of its nodes, and its predicates.

ghost use Rattle.std.specs.Prelude.{◌≡◌, ◌++◌, map, IfOk, IfErr};
ghost use Rattle.std.specs.Iterator.{YieldsFirstBy, item_count};
ghost use Rattle.cc2_cfg.specs.Meaning.{predicates_of};
ghost use Rattle.cc2_cfg.specs.Planting.{tree_from};
ghost use Rattle.cc2_cfg.specs.Table.{IsTable, atom_of, label_of, part_label, row_of};
ghost use Rattle.cc2_error.specs.declared.cfg_error.CfgError.TheVariants.{Memory};

use cc2_error::CfgError;
use std::alloc::{AllocError, Global};

/// A predicate of a cfg text (Rust Reference,
/// [Conditional compilation](https://doc.rust-lang.org/reference/conditional-compilation.html)).
#[derive(Clone, Copy, Debug, PartialEq, Eq)]
pub enum Predicate<'a> {
    /// A word, such as `unix`.
    Flag(&'a str),
    /// A word and a value, such as `target_os = "linux"`; the value is without its quotes.
    KeyValue {
        /// The word before `=`.
        key: &'a str,
        /// The value, without its quotes.
        val: &'a str,
    },
}

#[derive(Clone, Copy, Debug, PartialEq, Eq)]
pub(crate) enum Func {
    All,
    Any,
    Not,
}

#[derive(Debug, Drop)]
pub(crate) enum Kind {
    Flag(String),
    Pair(String, String),
    Function(Func),
}

// A node as a reader sees it.
#[derive(Clone, Copy)]
pub(crate) enum Part<'a> {
    Leaf(Predicate<'a>),
    Function(Func),
}

impl Kind {
    pub(crate) fn part(&self) -> Part<'_>
        ensures { part_label result ≡ label_of self.now }
    {
        match self {
            Kind::Flag(key) => Part::Leaf(Predicate::Flag(key.as_str())),
            Kind::Pair(key, val) => Part::Leaf(Predicate::KeyValue {
                key: key.as_str(),
                val: val.as_str(),
            }),
            Kind::Function(func) => Part::Function(*func),
        }
    }

    fn try_clone(&self, alloc: Global) -> Result<Kind, AllocError>
        ensures { IfOk result (λ copy. label_of copy ≡ label_of self.now) }
    {
        match self {
            Kind::Flag(key) => {
                let key = String::from_str(alloc, key.as_str())?;
                Ok(Kind::Flag(key))
            }
            Kind::Pair(key, val) => {
                let key = String::from_str(alloc, key.as_str())?;
                let val = String::from_str(alloc, val.as_str())?;
                Ok(Kind::Pair(key, val))
            }
            Kind::Function(func) => Ok(Kind::Function(*func)),
        }
    }
}

// A node, and the place after its last descendant.
#[derive(Debug, Drop)]
pub(crate) struct Node {
    pub(crate) kind: Kind,
    pub(crate) end: usize,
}

/// A parsed cfg text: its predicates and functions, in source order (Rust Reference,
/// [Conditional compilation](https://doc.rust-lang.org/reference/conditional-compilation.html)).
#[derive(Debug, Drop)]
pub struct Expression {
    pub(crate) nodes: Vec<Node>,
    ghost table: { IsTable nodes.items (tree_from nodes.items) },
}

impl Expression {
    ghost use Rattle.cc2_cfg.specs.Shown.{tree_of, predicates_left};

    /// The predicates in source order, each as often as it occurs there (Rust Reference,
    /// [Conditional compilation](https://doc.rust-lang.org/reference/conditional-compilation.html)).
    /// It takes no memory.
    pub fn predicates(&self) -> Predicates<'_>
        ensures { predicates_left result ≡ predicates_of (tree_of self.now) }
    {
        Predicates {
            rest: self.nodes.as_slice(),
        }
    }

    /// An expression of the same tree. Fails with `CfgError::Memory` if memory
    /// runs out, and with no other error.
    pub fn try_clone(&self, alloc: Global) -> Result<Expression, CfgError>
        ensures same { IfOk result (λ copy. tree_of copy ≡ tree_of self.now) }
        ensures memory { IfErr result (λ e. e ≡ Memory) }
    {
        Ok(Expression {
            nodes: clone_nodes(alloc, self.nodes.as_slice())?,
        })
    }
}

fn clone_nodes(alloc: Global, nodes: &[Node]) -> Result<Vec<Node>, AllocError>
    ensures { IfOk result (λ copy. map row_of copy.items ≡ map row_of nodes.now) }
{
    let mut copy = Vec::new(alloc);
    'nodes: for node in nodes {
        let kind = node.kind.try_clone(alloc)?;
        copy.push(Node {
            kind,
            end: node.end,
        })?;
    }
    Ok(copy)
}

/// Goes over the predicates of an expression in source order.
#[derive(Debug, Drop)]
pub struct Predicates<'a> {
    rest: &'a [Node],
}

impl<'a> Iterator for Predicates<'a> {
    type Item = Predicate<'a>;

    ghost use Rattle.cc2_cfg.specs.Shown.{predicates_left};

    ghost next_gives = { YieldsFirstBy atom_of predicates_left };

    ghost remaining = { item_count predicates_left };

    fn next(&mut self) -> Option<Predicate<'a>> {
        'nodes: while let Some((node, rest)) = self.rest.split_first() {
            self.rest = rest;
            if let Part::Leaf(predicate) = node.kind.part() {
                return Some(predicate);
            }
        }
        None
    }
}

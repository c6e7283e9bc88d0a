//! The iterators over a path's ancestors and over its components.
ghost use Rattle.std.specs.Prelude.{◌≡◌, [], length, option_map};
ghost use Rattle.std.specs.Iterator.{at_most};
ghost use Rattle.cc2_base.specs.Paths.{components_of, ancestors_of};
ghost use Rattle.cc2_base.specs.PathSteps.{ancestors_left, components_left, TakesFirst};

use crate::path::parent;
use std::path::{Iter, Path};

/// Goes over a path, its parent, and so on, as `path::ancestors` says. It takes no memory.
#[derive(Drop)]
pub struct Ancestors<'a> {
    next: Option<&'a str>,
}

impl<'a> Ancestors<'a> {
    pub(crate) fn new(path: &'a str) -> Ancestors<'a>
        ensures { ancestors_left result ≡ ancestors_of path.now }
    {
        Ancestors { next: Some(path) }
    }

    // None at all.
    pub(crate) fn none() -> Ancestors<'a>
        ensures { ancestors_left result ≡ [] }
    {
        Ancestors { next: None }
    }
}

impl<'a> Iterator for Ancestors<'a> {
    type Item = &'a str;

    ghost next_gives = { λ s r t. TakesFirst (ancestors_left s) (option_map (λ p. p.now) r)
        (ancestors_left t) };

    ghost remaining = { λ s. at_most (length (ancestors_left s)) };

    fn next(&mut self) -> Option<&'a str> {
        let path = self.next?;
        self.next = parent(path);
        Some(path)
    }
}

/// Goes over the components of a path, each as its text, as `path::components` says. It takes no
/// memory.
#[derive(Drop)]
pub struct Components<'a> {
    inner: Iter<'a>,
}

impl<'a> Components<'a> {
    pub(crate) fn new(path: &'a str) -> Components<'a>
        ensures { components_left result ≡ components_of path.now }
    {
        Components {
            inner: Path::new(path).iter(),
        }
    }
}

impl<'a> Iterator for Components<'a> {
    type Item = &'a str;

    ghost next_gives = { λ s r t. TakesFirst (components_left s) (option_map (λ c. c.now) r)
        (components_left t) };

    ghost remaining = { λ s. at_most (length (components_left s)) };

    fn next(&mut self) -> Option<&'a str> {
        self.inner.next()
    }
}

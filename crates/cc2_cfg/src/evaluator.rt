//! The value of an expression, in any logic and in two-valued logic: one loop over the table.

ghost use Rattle.std.specs.Prelude.{◌≡◌, ◌≤◌, ◌⊎◌, IfOk, IfErr, reverse, true, false, Bool};
ghost use Rattle.cc2_cfg.specs.Answering.{AnswersBy};
ghost use Rattle.cc2_cfg.specs.Flat.{IsFlat};
ghost use Rattle.cc2_cfg.specs.Logic.{bool_operations};
ghost use Rattle.cc2_cfg.specs.Meaning.{Atom, meaning, predicates_of};
ghost use Rattle.cc2_cfg.specs.Table.{operator_of};
ghost use Rattle.cc2_cfg.specs.Running.{initial, add, closed, finished, IsDecided};
ghost use Rattle.cc2_cfg.specs.Shown.{tree_of};
ghost use Rattle.cc2_error.specs.declared.cfg_error.CfgError.TheVariants.{Memory};

use crate::expression::{Expression, Func, Part, Predicate};
use crate::logic::Logic;
use cc2_error::CfgError;
use std::alloc::{AllocError, Global};

// Identifies functions that no further predicate changes, which needn't be asked about any more.
pub(crate) trait Decides<T: Logic> {
    // Whether a function that has this value so far keeps it.
    fn is_decided(func: Func, value: &T) -> bool
        ensures { result ≡ true → IsDecided T.operations (operator_of func) value.now };
}

// Asks about every predicate.
pub(crate) struct Never;

impl<T: Logic> Decides<T> for Never {
    fn is_decided(_func: Func, _value: &T) -> bool {
        false
    }
}

// False decides `all`, and true decides `any`.
pub(crate) struct TwoValued;

impl Decides<bool> for TwoValued {
    fn is_decided(func: Func, value: &bool) -> bool {
        match func {
            Func::All => !*value,
            Func::Any => *value,
            Func::Not => false,
        }
    }
}

// An open function, up to where it goes, and the value of its predicates so far.
#[derive(Drop)]
pub(crate) struct Open<T> {
    pub(crate) func: Func,
    pub(crate) end: usize,
    pub(crate) value: T,
}

impl<T: Logic> Open<T> {
    fn new(func: Func, end: usize) -> Open<T>
        ensures func { result.func ≡ func }
        ensures end { result.end ≡ end }
        ensures value { result.value ≡ initial T.operations (operator_of func) }
    {
        let value = match func {
            Func::All => T::top(),
            Func::Any => T::bottom(),
            Func::Not => T::top(),
        };
        Open { func, end, value }
    }

    fn add(self, value: T) -> Open<T>
        ensures func { result.func ≡ self.func }
        ensures end { result.end ≡ self.end }
        ensures value { result.value ≡ add T.operations (operator_of self.func) self.value value }
    {
        let Open {
            func,
            end,
            value: before,
        } = self;
        let value = match func {
            Func::All => before.and(value),
            Func::Any => before.or(value),
            Func::Not => before.and(value),
        };
        Open { func, end, value }
    }

    fn close(self) -> T
        ensures { result ≡ closed T.operations (operator_of self.func) self.value }
    {
        let Open {
            func,
            end: _,
            value,
        } = self;
        match func {
            Func::All => value,
            Func::Any => value,
            Func::Not => value.not(),
        }
    }

    // Whether the function ends here, or no predicate that is left can change its value.
    fn is_over<D: Decides<T>>(&self, at: usize) -> bool
        ensures yes { result ≡ true → (at ≡ self.now.end)
            ⊎ IsDecided T.operations (operator_of self.now.func) self.now.value }
        ensures no { result ≡ false → at ≡ self.now.end → ⊥ }
    {
        at == self.end || D::is_decided(self.func, &self.value)
    }

    // The function's end, which isn't before this place.
    fn place_behind(&self, at: usize) -> usize
        ensures behind { at ≤ result }
        ensures end { at ≤ self.now.end → result ≡ self.now.end }
    {
        if at < self.end { self.end } else { at }
    }
}

// The value of the whole, where all functions that are open end here, `current` the innermost.
fn end_all<T: Logic>(mut stack: Vec<Open<T>>, current: Open<T>) -> T
    ensures { result ≡ finished T.operations (reverse stack.items)
        (closed T.operations (operator_of current.func) current.value) }
{
    let mut value = current.close();
    'outer: while let Some(outer) = stack.pop() {
        value = Open::add(outer, value).close();
    }
    value
}

impl Expression {
    // The value in the logic `T`; functions that are decided are left at once.
    // Functions inside of the outermost one alone take memory.
    fn evaluate<T: Logic, D: Decides<T>, F: FnMut(&Predicate<'_>) -> T>(
        &self,
        alloc: Global,
        mut ask: F,
    ) -> Result<T, AllocError>
        requires { F.IsAlwaysCallable ask }
        ensures value { (answers : Atom → T)
            → AnswersBy F.FnMut (predicates_of (tree_of self.now)) answers ask
            → IfOk result (λ v. v ≡ meaning T.operations answers (tree_of self.now)) }
        ensures flat { IsFlat (tree_of self.now) → IfErr result (λ e. ⊥) }
    {
        let root = &self.nodes[0];
        let mut current: Open<T> = match root.kind.part() {
            Part::Leaf(predicate) => return Ok(ask(&predicate)),
            Part::Function(func) => Open::new(func, root.end),
        };
        let mut stack = Vec::new(alloc);
        let mut at = 1;
        'nodes: while at < self.nodes.len() {
            if current.is_over::<D>(at) {
                at = current.place_behind(at);
                let value = current.close();
                let Some(outer) = stack.pop() else {
                    return Ok(value);
                };
                current = Open::add(outer, value);
                continue;
            }
            let node = &self.nodes[at];
            at += 1;
            match node.kind.part() {
                Part::Leaf(predicate) => {
                    let value = ask(&predicate);
                    current = current.add(value);
                }
                Part::Function(func) => {
                    let inner = Open::new(func, node.end);
                    stack.push(current)?;
                    current = inner;
                }
            }
        }
        Ok(end_all(stack, current))
    }

    /// The value of the expression in the logic `T`, from what `ask` answers for its predicates:
    /// a function's is that of its predicates, joined by `and` for `all` and by `or` for `any`
    /// (Rust Reference,
    /// [Conditional compilation](https://doc.rust-lang.org/reference/conditional-compilation.html)).
    /// `ask` is to answer a predicate alike each time.
    ///
    /// # Errors
    /// `CfgError::Memory` where memory ran out; `ask` may have been called by then. Only functions
    /// inside of the outermost one take memory.
    pub fn eval<T: Logic, F: FnMut(&Predicate<'_>) -> T>(
        &self,
        alloc: Global,
        ask: F,
    ) -> Result<T, CfgError>
        requires { F.IsAlwaysCallable ask }
        ensures value { (answers : Atom → T)
            → AnswersBy F.FnMut (predicates_of (tree_of self.now)) answers ask
            → IfOk result (λ v. v ≡ meaning T.operations answers (tree_of self.now)) }
        ensures memory { IfErr result (λ e. e ≡ Memory) }
        ensures flat { IsFlat (tree_of self.now) → IfErr result (λ e. ⊥) }
    {
        Ok(self.evaluate::<T, Never, F>(alloc, ask)?)
    }

    /// The value of the expression in two-valued logic, as `eval` gives it (Rust Reference,
    /// [Conditional compilation](https://doc.rust-lang.org/reference/conditional-compilation.html)).
    /// It asks in source order, and leaves a function at once whose value is decided: nothing
    /// after that in it is asked about.
    ///
    /// # Errors
    /// `CfgError::Memory` where memory ran out; `ask` may have been called by then. Only functions
    /// inside of the outermost one take memory.
    pub fn eval_bool<F: FnMut(&Predicate<'_>) -> bool>(
        &self,
        alloc: Global,
        ask: F,
    ) -> Result<bool, CfgError>
        requires { F.IsAlwaysCallable ask }
        ensures value { (answers : Atom → Bool)
            → AnswersBy F.FnMut (predicates_of (tree_of self.now)) answers ask
            → IfOk result (λ v. v ≡ meaning bool_operations answers (tree_of self.now)) }
        ensures memory { IfErr result (λ e. e ≡ Memory) }
        ensures flat { IsFlat (tree_of self.now) → IfErr result (λ e. ⊥) }
    {
        Ok(self.evaluate::<bool, TwoValued, F>(alloc, ask)?)
    }
}

// Promises.
ghost use Rattle.std.specs.Prelude.{◌≡◌, ◌<◌, ◌∷◌, ◌++◌, [], IfOk, IsTrue, length};

use crate::{Attribute, Expr, Value};
use cfa_base::{Name, NoMemory, Parts, Place};
use std::alloc::Global;
use std::marker::Model;
use std::rc::Rc;

/// A guard, which the promises that it holds for have in common.
#[derive(Drop)]
pub struct Guard {
    expr: Rc<Expr>,
}

impl Model for Guard {
    ghost use Rattle.cfa_tree.specs.declared.expressions.Expr.{Expr};
    ghost use Rattle.cfa_tree.specs.contracts.expressions.Expr as expr_row;

    ghost Value = { Expr };

    ghost coded = { expr_row.the_row.coded };

    ghost view = { λ g. g.expr.value };
}

impl Guard {
    /// A guard of its own.
    pub fn new(alloc: Global, expr: Expr) -> Result<Guard, NoMemory>
        ensures { IfOk result (λ g. g ≡ expr) }
    {
        let expr = Rc::new(alloc, expr)?;
        Ok(Guard { expr })
    }

    /// The class expression, without taking memory.
    pub fn expr(&self) -> &Expr
        ensures { result.now ≡ self.now }
    {
        self.expr.as_ref()
    }

    /// The same guard for one promise more, without a copy of the class expression.
    pub fn share(&self) -> Result<Guard, NoMemory>
        ensures { IfOk result (λ g. g ≡ self.now) }
    {
        let expr = self.expr.clone()?;
        Ok(Guard { expr })
    }
}

/// A promise, with the place of its promiser.
#[derive(Drop)]
pub struct Promise {
    /// The guard that stands before it in its section, `None` before the first.
    pub guard: Option<Guard>,
    pub promiser: Name,
    pub promisee: Option<Value>,
    pub attributes: Parts<Attribute>,
    pub place: Place,
}

/// Promises, in order, with a mark where one stands under the guard of the promise before it.
#[derive(Drop)]
pub struct Promises {
    items: Vec<Promise>,
    repeats: Vec<bool>,
}

impl Model for Promises {
    ghost use Rattle.std.specs.Prelude.{List};
    ghost use Rattle.cfa_tree.specs.declared.promises.Promise.{Promise};
    ghost use Rattle.cfa_tree.specs.contracts.expressions.Expr as expr_row;
    ghost use Rattle.cfa_tree.specs.contracts.values.Value as value_row;
    ghost use Rattle.std.specs.Coded.{codes};

    ghost Value = { List Promise };

    ghost coded = { Prim.hlevel (codes, expr_row.the_row.coded, value_row.the_row.coded) };

    ghost use Rattle.cfa_tree.specs.Repeats.{Marked};

    ghost view = { λ a. a.items.items };

    ghost invariant = { λ a. Marked a.items.items a.repeats.items };
}

impl Promises {
    ghost use Rattle.cfa_tree.specs.Repeats.{guard_at, guard_before};

    /// No promise.
    pub fn new(alloc: Global) -> Promises
        ensures { result ≡ [] }
    {
        Promises {
            items: Vec::new(alloc),
            repeats: Vec::new(alloc),
        }
    }

    /// One promise more, with a mark where it stands under the guard of the last.
    pub fn with(self, promise: Promise, repeats: bool) -> Result<Promises, NoMemory>
        requires { IsTrue repeats → promise.guard ≡ guard_before self (length self) }
        ensures { IfOk result (λ promises. promises ≡ self ++ promise ∷ []) }
    {
        let mut items = self.items;
        let mut marks = self.repeats;
        items.push(promise)?;
        marks.push(repeats)?;
        Ok(Promises {
            items,
            repeats: marks,
        })
    }

    /// The promises, without taking memory.
    pub fn as_slice(&self) -> &[Promise]
        ensures { result.now ≡ self.now }
    {
        self.items.as_slice()
    }

    /// Whether the promise at this index is known to stand under the guard of the one before it. A guard that is read is
    /// never compared with itself so.
    pub fn repeats_guard(&self, index: usize) -> bool
        requires { index < length self.now }
        ensures { IsTrue result → guard_at self.now index ≡ guard_before self.now index }
    {
        self.repeats[index]
    }
}

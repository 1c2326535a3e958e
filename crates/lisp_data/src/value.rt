//! Values, which share their parts.

ghost use Rattle.std.specs.Prelude.{◌≡◌, ◌↔◌, ◌≤◌, IsTrue, IfOk};
ghost use Rattle.std.specs.Option.{option_map, option_copied};
ghost use Rattle.lisp_data.specs.Values.{Val, path, pairs, car_of, cdr_of, same_val, IsSmall};
ghost use Rattle.lisp_data.specs.view.ValueView.{val_of, SaysPair};
ghost use Rattle.lisp_data.specs.declared.limits.TheConstants.{MAX_PATH, MAX_PAIRS};

use crate::limits::{MAX_PAIRS, MAX_PATH};
use crate::symbol::Symbol;
use lists::Memory;
use std::alloc::Global;
use std::marker::Model;
use std::rc::Rc;

/// An integer, a symbol, or a pair of values, whose parts are shared.
#[cycle(value)]
#[derive(Drop)]
pub enum Value {
    Int(i128),
    Sym(Symbol),
    Pair(Rc<PairNode>),
}

/// A pair: its two parts, the longest way down to an atom, and how many pairs it has. Contracts see the two parts.
#[cycle(value)]
#[derive(Drop)]
pub struct PairNode {
    car: Value,
    cdr: Value,
    path: u32,
    pairs: u32,
}

impl Model for PairNode {
    ghost use Rattle.lisp_data.specs.Values.{Val, val_code};
    ghost use Rattle.std.specs.Coded.{coded×};

    ghost Value = { Val × Val };

    ghost coded = { coded× val_code val_code };

    ghost use Rattle.lisp_data.specs.view.ValueView.{val_of, IsCounted, depth};

    ghost view = { λ a. (val_of a.car, val_of a.cdr) };

    ghost invariant = { IsCounted };

    ghost size = { λ p. depth p.0 p.1 };

    ghost use Rattle.lisp_data.specs.view.ValueFalls.{parts_below};

    ghost size_decreases = { λ a h. parts_below a };
}

/// Why a value can't be made.
#[derive(Clone, Copy, Debug, PartialEq, Eq)]
pub enum ValueError {
    /// It would pass the limits of a value, `MAX_PATH` or `MAX_PAIRS`.
    TooLarge,
    /// A text is in the form.
    NotAValue,
    Memory,
}

impl PairNode {
    pub fn car(&self) -> &Value
        ensures { val_of result.now ≡ self.now.0 }
    {
        &self.car
    }

    pub fn cdr(&self) -> &Value
        ensures { val_of result.now ≡ self.now.1 }
    {
        &self.cdr
    }

    /// An equal pair, which shares the parts of this one.
    pub fn copy(&self, _alloc: Global) -> Result<PairNode, Memory>
        ensures { IfOk result (λ p. p ≡ self.now) }
    {
        let car = self.car.share()?;
        let cdr = self.cdr.share()?;
        Ok(PairNode {
            car,
            cdr,
            path: self.path,
            pairs: self.pairs,
        })
    }
}

impl Value {
    /// The pair of two values; they are dropped where it would pass the limits.
    pub fn pair(alloc: Global, car: Value, cdr: Value) -> Result<Value, ValueError>
        ensures { SaysPair (val_of car) (val_of cdr) result }
    {
        let path = car.path().max(cdr.path()) + 1;
        let pairs = car.pairs() + cdr.pairs() + 1;
        if path > MAX_PATH || pairs > MAX_PAIRS {
            return Err(ValueError::TooLarge);
        }
        let node = PairNode {
            car,
            cdr,
            path,
            pairs,
        };
        match Rc::new(alloc, node) {
            Ok(pair) => Ok(Value::Pair(pair)),
            Err(_) => Err(ValueError::Memory),
        }
    }

    pub fn car(&self) -> Option<&Value>
        ensures { option_map val_of (option_copied result) ≡ car_of (val_of self.now) }
    {
        match self {
            Value::Pair(pair) => Some(pair.car()),
            _ => None,
        }
    }

    pub fn cdr(&self) -> Option<&Value>
        ensures { option_map val_of (option_copied result) ≡ cdr_of (val_of self.now) }
    {
        match self {
            Value::Pair(pair) => Some(pair.cdr()),
            _ => None,
        }
    }

    /// The longest way down to an atom: 0 for an atom.
    pub fn path(&self) -> u32
        ensures value { result ≡ path (val_of self.now) }
        ensures bound { path (val_of self.now) ≤ MAX_PATH }
    {
        match self {
            Value::Pair(pair) => {
                let node: &PairNode = pair;
                node.path
            }
            _ => 0,
        }
    }

    /// How many pairs the whole tree has.
    pub fn pairs(&self) -> u32
        ensures value { result ≡ pairs (val_of self.now) }
        ensures bound { pairs (val_of self.now) ≤ MAX_PAIRS }
    {
        match self {
            Value::Pair(pair) => {
                let node: &PairNode = pair;
                node.pairs
            }
            _ => 0,
        }
    }

    pub fn same(&self, other: &Value) -> bool
        ensures value { result ≡ same_val (val_of self.now) (val_of other.now) }
        ensures same { IsTrue result ↔ val_of self.now ≡ val_of other.now }
    {
        match (self, other) {
            (Value::Int(a), Value::Int(b)) => a == b,
            (Value::Sym(a), Value::Sym(b)) => a.same(b),
            (Value::Pair(a), Value::Pair(b)) => a.car().same(b.car()) && a.cdr().same(b.cdr()),
            _ => false,
        }
    }

    /// The same value, with one more owner.
    pub fn share(&self) -> Result<Value, Memory>
        ensures { IfOk result (λ v. val_of v ≡ val_of self.now) }
    {
        match self {
            Value::Int(number) => Ok(Value::Int(*number)),
            Value::Sym(symbol) => Ok(Value::Sym(symbol.share()?)),
            Value::Pair(pair) => Ok(Value::Pair(pair.clone()?)),
        }
    }
}

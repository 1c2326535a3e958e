//! Terms as shared trees (docs/MODEL.md, "Terms").

ghost use Rattle.std.specs.Prelude.{◌≡◌, ◌↔◌, IsTrue, IfOk};
ghost use Rattle.lisp_data.specs.ValueView.{val_of};
ghost use Rattle.terms.specs.Terms.{Var, Quote, Call, tms, same_tm, same_tms};
ghost use Rattle.terms.specs.view.TermView.{tm_of};

use lisp_data::{Memory, Seq, Share, Symbol, Value};
use std::alloc::Global;
use std::marker::Model;
use std::rc::Rc;

/// A term, shared. Contracts see it as plain data.
#[cycle(term)]
pub struct Term {
    node: Rc<Node>,
}

/// One level of a term: a variable, a quoted value, or a call of a name on arguments.
#[cycle(term)]
#[derive(Drop)]
pub enum Node {
    Var(Symbol),
    Quote(Value),
    Call(Symbol, Terms),
}

/// A list of terms.
pub type Terms = Seq<Term>;

impl Drop for Term {
    #[cycle(term)]
    fn drop(self) {
        let Term { node: _ } = self;
    }
}

impl Model for Term {
    ghost use Rattle.terms.specs.Terms.{Tm, tm_code, depth};

    ghost Value = { Tm };

    ghost coded = { tm_code };

    ghost use Rattle.terms.specs.view.TermView.{tm_of};

    ghost view = { λ a. tm_of a.node.value };

    ghost size = { depth };

    ghost use Rattle.terms.specs.view.TermFalls.{parts_below};

    ghost size_decreases = { λ a h. parts_below a.node.value };
}

impl Term {
    pub fn var(alloc: Global, name: Symbol) -> Result<Term, Memory>
        ensures { IfOk result (λ t. t ≡ Var name) }
    {
        let node = Rc::new(alloc, Node::Var(name))?;
        Ok(Term { node })
    }

    pub fn quote(alloc: Global, value: Value) -> Result<Term, Memory>
        ensures { IfOk result (λ t. t ≡ Quote (val_of value)) }
    {
        let node = Rc::new(alloc, Node::Quote(value))?;
        Ok(Term { node })
    }

    pub fn call(alloc: Global, name: Symbol, args: Terms) -> Result<Term, Memory>
        ensures { IfOk result (λ t. t ≡ Call name (tms args)) }
    {
        let node = Rc::new(alloc, Node::Call(name, args))?;
        Ok(Term { node })
    }

    pub fn node(&self) -> &Node
        ensures { tm_of result.now ≡ self.now }
    {
        &self.node
    }

    /// The same term, with one more owner.
    pub fn share(&self) -> Result<Term, Memory>
        ensures { IfOk result (λ t. t ≡ self.now) }
    {
        let node = self.node.clone()?;
        Ok(Term { node })
    }

    #[cycle(same)]
    #[tactic(auto, using(crate::proofs::Same::same))]
    pub fn same(&self, other: &Term) -> bool
        ensures value { result ≡ same_tm self.now other.now }
        ensures same { IsTrue result ↔ self.now ≡ other.now }
    {
        match (self.node(), other.node()) {
            (Node::Var(a), Node::Var(b)) => a.same(b),
            (Node::Quote(a), Node::Quote(b)) => a.same(b),
            (Node::Call(f, xs), Node::Call(g, ys)) => {
                f.same(g) && same_all(xs.as_slice(), ys.as_slice())
            }
            _ => false,
        }
    }
}

impl Share for Term {
    fn share(&self) -> Result<Term, Memory> {
        self.share()
    }
}

#[cycle(same)]
#[tactic(auto, using(crate::proofs::Same::same))]
fn same_all(xs: &[Term], ys: &[Term]) -> bool
    ensures value { result ≡ same_tms (tms xs.now) (tms ys.now) }
    ensures same { IsTrue result ↔ xs.now ≡ ys.now }
{
    if xs.len() != ys.len() {
        return false;
    }
    for i in 0..xs.len() {
        if !xs[i].same(&ys[i]) {
            return false;
        }
    }
    true
}

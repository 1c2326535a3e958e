//! Words that stand for other terms (docs/SYNTAX.md, "Terms").

ghost use Rattle.std.specs.Prelude.{◌≡◌, true, [], ◌∷◌, length, map, IfOk};
ghost use Rattle.std.specs.Option.{option_map};
ghost use Rattle.lisp_data.specs.Datum.{chain, nil_form};
ghost use Rattle.lisp_data.specs.FormView.{form_of, IsProper, AllProper};
ghost use Rattle.lisp_data.specs.Values.{Sym};
ghost use Rattle.terms.specs.Measures.{call1, call2, call3};
ghost use Rattle.term_forms.specs.Macros as spec;
ghost use Rattle.terms.specs.Terms.{Quote};
ghost use Rattle.term_forms.specs.Translation.{limited};
ghost use Rattle.term_forms.specs.view.TranslationView.{SaysOutcome};
ghost use Rattle.term_forms.specs.Words.{text_of, of_parts, joined, folded, of_part, of_pair, meaning};

use crate::counted::Counted;
use crate::translation::TermError;
use lisp_data::{Form, Memory, Symbol, Value};
use std::alloc::Global;

/// A symbol that stands in a term, but in no form of it.
#[derive(Clone, Copy)]
pub(crate) enum Known {
    T,
    Nil,
    If,
    Cons,
    Plus,
    Times,
    Minus,
    Less,
    Not,
    Equal,
    Car,
    Cdr,
    Append,
}

/// A word of any number of parts.
#[derive(Clone, Copy)]
pub(crate) enum Fold {
    And,
    Or,
    List,
    Sum,
    Product,
    Append,
}

/// A word of one part.
#[derive(Clone, Copy)]
pub(crate) enum Unary {
    Add(i128),
    Part(Known),
    PartOf(Known, Known),
}

/// A word of two parts.
#[derive(Clone, Copy)]
pub(crate) enum Binary {
    Greater,
    AtMost,
    AtLeast,
    Equal,
}

/// A word that stands for another term.
#[derive(Clone, Copy)]
pub(crate) enum Macro {
    Any(Fold),
    Minus,
    One(Unary),
    Two(Binary),
}

impl Known {
    fn text(self) -> &'static str
        ensures { result.now ≡ text_of self }
    {
        match self {
            Known::T => "T",
            Known::Nil => "NIL",
            Known::If => "IF",
            Known::Cons => "CONS",
            Known::Plus => "BINARY-+",
            Known::Times => "BINARY-*",
            Known::Minus => "UNARY--",
            Known::Less => "<",
            Known::Not => "NOT",
            Known::Equal => "EQUAL",
            Known::Car => "CAR",
            Known::Cdr => "CDR",
            Known::Append => "BINARY-APPEND",
        }
    }

    fn symbol(self, alloc: Global) -> Result<Symbol, Memory>
        ensures { IfOk result (λ s. s ≡ text_of self) }
    {
        Symbol::named(alloc, self.text())
    }

    /// The symbol as a quoted value.
    pub(crate) fn quoted(self, alloc: Global) -> Result<Counted, Memory>
        ensures { IfOk result (λ t. t ≡ Quote (Sym (text_of self))) }
    {
        let symbol = self.symbol(alloc)?;
        Counted::quote(alloc, Value::Sym(symbol))
    }

    fn call1(self, alloc: Global, a: &Counted) -> Result<Counted, TermError>
        ensures { SaysOutcome (limited (call1 (text_of self) a.now)) result }
    {
        let symbol = self.symbol(alloc)?;
        Counted::call(alloc, symbol, &[a.share()?])
    }

    fn call2(self, alloc: Global, a: &Counted, b: &Counted) -> Result<Counted, TermError>
        ensures { SaysOutcome (limited (call2 (text_of self) a.now b.now)) result }
    {
        let symbol = self.symbol(alloc)?;
        Counted::call(alloc, symbol, &[a.share()?, b.share()?])
    }

    pub(crate) fn call3(
        self,
        alloc: Global,
        a: &Counted,
        b: &Counted,
        c: &Counted,
    ) -> Result<Counted, TermError>
        ensures { SaysOutcome (limited (call3 (text_of self) a.now b.now c.now)) result }
    {
        let symbol = self.symbol(alloc)?;
        Counted::call(alloc, symbol, &[a.share()?, b.share()?, c.share()?])
    }
}

impl Unary {
    #[tactic(auto, using(crate::proofs::Growing::calls))]
    pub(crate) fn term(self, alloc: Global, a: &Counted) -> Result<Counted, TermError>
        ensures { SaysOutcome (limited (of_part self a.now)) result }
    {
        match self {
            Unary::Add(number) => {
                let number = Counted::quote(alloc, Value::Int(number))?;
                Known::Plus.call2(alloc, &number, a)
            }
            Unary::Part(f) => f.call1(alloc, a),
            Unary::PartOf(f, g) => {
                let part = g.call1(alloc, a)?;
                f.call1(alloc, &part)
            }
        }
    }
}

impl Binary {
    #[tactic(auto, using(crate::proofs::Growing::calls))]
    pub(crate) fn term(self, alloc: Global, a: &Counted, b: &Counted) -> Result<Counted, TermError>
        ensures { SaysOutcome (limited (of_pair self a.now b.now)) result }
    {
        match self {
            Binary::Greater => Known::Less.call2(alloc, b, a),
            Binary::AtMost => {
                let less = Known::Less.call2(alloc, b, a)?;
                Known::Not.call1(alloc, &less)
            }
            Binary::AtLeast => {
                let less = Known::Less.call2(alloc, a, b)?;
                Known::Not.call1(alloc, &less)
            }
            Binary::Equal => Known::Equal.call2(alloc, a, b),
        }
    }
}

impl Fold {
    /// The term of no parts.
    fn empty(self, alloc: Global) -> Result<Counted, Memory>
        ensures { IfOk result (λ t. t ≡ of_parts self []) }
    {
        match self {
            Fold::And => Known::T.quoted(alloc),
            Fold::Or | Fold::List | Fold::Append => Known::Nil.quoted(alloc),
            Fold::Sum => Counted::quote(alloc, Value::Int(0)),
            Fold::Product => Counted::quote(alloc, Value::Int(1)),
        }
    }

    /// A part before the term of the rest.
    fn join(self, alloc: Global, part: &Counted, rest: &Counted) -> Result<Counted, TermError>
        ensures { SaysOutcome (limited (joined self part.now rest.now)) result }
    {
        match self {
            Fold::And => {
                let nil = Known::Nil.quoted(alloc)?;
                Known::If.call3(alloc, part, rest, &nil)
            }
            Fold::Or => Known::If.call3(alloc, part, part, rest),
            Fold::List => Known::Cons.call2(alloc, part, rest),
            Fold::Sum => Known::Plus.call2(alloc, part, rest),
            Fold::Product => Known::Times.call2(alloc, part, rest),
            Fold::Append => Known::Append.call2(alloc, part, rest),
        }
    }

    /// Parts before the term of the rest. What is too large stays so, whatever comes before it.
    #[tactic(auto, using(crate::proofs::Folds::folds))]
    fn join_all(self, alloc: Global, parts: &[Counted], rest: Counted) -> Result<Counted, TermError>
        ensures { SaysOutcome (limited (folded (joined self) parts.now rest)) result }
    {
        let mut term = rest;
        let mut i = parts.len();
        'parts: while i > 0 {
            i -= 1;
            term = self.join(alloc, &parts[i], &term)?;
        }
        term.keeps_limits();
        Ok(term)
    }

    /// The term of one part.
    fn single(self, alloc: Global, part: &Counted) -> Result<Counted, TermError>
        ensures { SaysOutcome (limited (of_parts self (part.now ∷ []))) result }
    {
        match self {
            Fold::And | Fold::Or | Fold::Append => {
                part.keeps_limits();
                Ok(part.share()?)
            }
            Fold::List => {
                let nil = self.empty(alloc)?;
                self.join(alloc, part, &nil)
            }
            Fold::Sum | Fold::Product => {
                let unit = self.empty(alloc)?;
                self.join(alloc, &unit, part)
            }
        }
    }

    #[tactic(auto, using(crate::proofs::Folds::words))]
    pub(crate) fn term(self, alloc: Global, parts: &[Counted]) -> Result<Counted, TermError>
        ensures { SaysOutcome (limited (of_parts self parts.now)) result }
    {
        if let Fold::List = self {
            let nil = self.empty(alloc)?;
            return self.join_all(alloc, parts, nil);
        }
        match parts {
            [] => {
                let term = self.empty(alloc)?;
                term.keeps_limits();
                Ok(term)
            }
            [part] => self.single(alloc, part),
            [parts @ .., last] => self.join_all(alloc, parts, last.share()?),
        }
    }
}

/// The negated integer of a literal, where there is one.
#[tactic(auto, using(crate::proofs::Literals::literals))]
fn negated(form: &Form) -> Option<i128>
    requires { IsProper form.now }
    ensures { result ≡ spec.negated (form_of form.now) }
{
    match form {
        Form::Int(number) => number.checked_neg(),
        Form::Sym(_) | Form::Text(_) | Form::List(_, _) => None,
    }
}

/// A term less another, which is a literal with this negated integer, or another form.
#[tactic(auto, using(crate::proofs::Growing::calls))]
fn less_by(
    alloc: Global,
    a: &Counted,
    b: &Counted,
    negated: Option<i128>,
) -> Result<Counted, TermError>
    ensures { SaysOutcome (limited (spec.less_by a.now b.now negated)) result }
{
    match negated {
        Some(number) => {
            let number = Counted::quote(alloc, Value::Int(number))?;
            Known::Plus.call2(alloc, &number, a)
        }
        None => {
            let minus = Known::Minus.call1(alloc, b)?;
            Known::Plus.call2(alloc, a, &minus)
        }
    }
}

#[tactic(auto, using(crate::proofs::Literals::differences))]
fn difference(alloc: Global, forms: &[Form], parts: &[Counted]) -> Result<Counted, TermError>
    requires proper { AllProper forms.now }
    requires lengths { length forms.now ≡ length parts.now }
    requires number { spec.is_number spec.OneOrTwo (length parts.now) ≡ true }
    ensures { SaysOutcome (limited (spec.difference (chain (map form_of forms.now) nil_form) parts.now)) result }
{
    match parts {
        [a] => Known::Minus.call1(alloc, a),
        [a, b] => less_by(alloc, a, b, negated(&forms[1])),
        _ => unreachable!(),
    }
}

impl Macro {
    /// What a name stands for, if it is a word.
    pub(crate) fn of(name: &Symbol) -> Option<Macro>
        ensures { option_map meaning result ≡ spec.macro name.now }
    {
        match name.text() {
            "AND" => Some(Macro::Any(Fold::And)),
            "OR" => Some(Macro::Any(Fold::Or)),
            "LIST" => Some(Macro::Any(Fold::List)),
            "+" => Some(Macro::Any(Fold::Sum)),
            "*" => Some(Macro::Any(Fold::Product)),
            "APPEND" => Some(Macro::Any(Fold::Append)),
            "-" => Some(Macro::Minus),
            "1+" => Some(Macro::One(Unary::Add(1))),
            "1-" => Some(Macro::One(Unary::Add(-1))),
            ">" => Some(Macro::Two(Binary::Greater)),
            "<=" => Some(Macro::Two(Binary::AtMost)),
            ">=" => Some(Macro::Two(Binary::AtLeast)),
            "=" => Some(Macro::Two(Binary::Equal)),
            "EQ" => Some(Macro::Two(Binary::Equal)),
            "EQL" => Some(Macro::Two(Binary::Equal)),
            "FIRST" => Some(Macro::One(Unary::Part(Known::Car))),
            "REST" => Some(Macro::One(Unary::Part(Known::Cdr))),
            "CAAR" => Some(Macro::One(Unary::PartOf(Known::Car, Known::Car))),
            "CADR" => Some(Macro::One(Unary::PartOf(Known::Car, Known::Cdr))),
            "CDAR" => Some(Macro::One(Unary::PartOf(Known::Cdr, Known::Car))),
            "CDDR" => Some(Macro::One(Unary::PartOf(Known::Cdr, Known::Cdr))),
            _ => None,
        }
    }

    /// Whether it takes so many parts.
    pub(crate) fn takes(self, count: usize) -> bool
        ensures { result ≡ spec.is_number (meaning self).parts count }
    {
        match self {
            Macro::Any(_) => true,
            Macro::Minus => count == 1 || count == 2,
            Macro::One(_) => count == 1,
            Macro::Two(_) => count == 2,
        }
    }

    /// The term, from the parts as forms and as terms.
    #[tactic(auto, using(crate::proofs::Literals::parts))]
    pub(crate) fn term(
        self,
        alloc: Global,
        forms: &[Form],
        parts: &[Counted],
    ) -> Result<Counted, TermError>
        requires proper { AllProper forms.now }
        requires lengths { length forms.now ≡ length parts.now }
        requires number { spec.is_number (meaning self).parts (length parts.now) ≡ true }
        ensures { SaysOutcome (limited ((meaning self).term (chain (map form_of forms.now) nil_form) parts.now)) result }
    {
        match self {
            Macro::Any(fold) => fold.term(alloc, parts),
            Macro::Minus => difference(alloc, forms, parts),
            Macro::One(word) => match parts {
                [part] => word.term(alloc, part),
                _ => unreachable!(),
            },
            Macro::Two(word) => match parts {
                [a, b] => word.term(alloc, a, b),
                _ => unreachable!(),
            },
        }
    }
}

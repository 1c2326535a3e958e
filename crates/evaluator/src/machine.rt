//! The machine that evaluates: what waits and the values stand in vectors, so no term and no definition is too deep.

ghost use Rattle.std.specs.Prelude.{◌≡◌, ◌≤◌, ◌+◌, ◌<◌, List, map, length, drop, cond};
ghost use Rattle.lisp_data.specs.ValueView.{val_of};
ghost use Rattle.terms.specs.Terms.{tms};
ghost use Rattle.terms.specs.Primitives as primitives_of;
ghost use Rattle.terms.specs.Evaluation.{bind};
ghost use Rattle.terms.specs.declared.definition.Definition.{Definition};
ghost use Rattle.evaluator.specs.Counted.{gathered, taken, counted, steps, evaluated, entered, body_run};
ghost use Rattle.evaluator.specs.view.Callees.{Knows};
ghost use Rattle.evaluator.specs.view.Machines as spec;

use crate::callees::{Callee, Callees};
use crate::errors::Halt;
use crate::limits::MAX_CALLS;
use crate::primitives::{Truths, is_if, is_nil, perform};
use lisp_data::{Symbol, Value};
use std::alloc::Global;
use terms::{Definition, Node, Term};
use worlds::World;

/// Where the values of variables lie: from a place of the stack on, in the order of the formals.
#[derive(Clone, Copy)]
struct Scope<'a> {
    formals: &'a [Symbol],
    start: usize,
}

/// What waits for a value, with the height of the stack of values before it.
#[derive(Drop)]
enum Frame<'a> {
    /// A call, with the rest of its arguments. The values of the first ones lie from `start` on.
    Arguments {
        name: &'a Symbol,
        rest: &'a [Term],
        start: usize,
        height: usize,
        scope: Scope<'a>,
    },
    /// The branches of an `if`.
    Branches {
        yes: &'a Term,
        no: &'a Term,
        height: usize,
        scope: Scope<'a>,
    },
}

/// What the machine does next.
#[derive(Drop)]
enum Control<'a> {
    Evaluate(&'a Term, Scope<'a>),
    Give(Value),
}

/// Where a turn leads.
#[derive(Drop)]
enum Turn<'a> {
    Next(Control<'a>),
    Over(Value),
}

impl<'a> Frame<'a> {
    fn height(&self) -> usize
        ensures { result ≡ spec.height self.now }
    {
        match self {
            Frame::Arguments { height, .. } => *height,
            Frame::Branches { height, .. } => *height,
        }
    }
}

/// What waits, the values, how many calls are left, and what is known of names.
#[derive(Drop)]
struct Machine<'a> {
    frames: Vec<Frame<'a>>,
    values: Vec<Value>,
    calls: u32,
    callees: Callees<'a>,
}

/// The value of a variable.
fn value_of(name: &Symbol, formals: &[Symbol], values: &[Value]) -> Result<Value, Halt>
    requires { length formals.now ≤ length values.now }
    ensures { spec.SaysFound (bind formals.now (map val_of values.now) name.now) result }
{
    for i in 0..formals.len() {
        if formals[i].same(name) {
            return Ok(values[i].share()?);
        }
    }
    Err(Halt::NotWellFormed)
}

/// The branch that a test's value leads to.
fn chosen<'a>(test: Value, yes: &'a Term, no: &'a Term) -> &'a Term
    ensures { result.now ≡ cond (primitives_of.is_nil (val_of test)) no.now yes.now }
{
    let fails = is_nil(&test);
    if fails { no } else { yes }
}

impl<'a> Machine<'a> {
    /// Where the values that what waits uses end.
    fn floor(&self) -> usize
        ensures { result ≡ spec.top 0 self.now.frames.items }
    {
        match self.frames.last() {
            None => 0,
            Some(frame) => frame.height(),
        }
    }

    /// Lets go of the values between what waits and `start`, which a tail call is done with, and says where those from
    /// `start` on then begin.
    fn lower(&mut self, start: usize) -> usize
        requires stacked { spec.Stacked 0 self.old.frames.items start }
        requires start { start ≤ length self.old.values.items }
        ensures { spec.IsLowered self.old start self.new result }
    {
        let floor = self.floor();
        if floor == start {
            return floor;
        }
        drop(self.values.drain(floor..start));
        floor
    }

    /// Begins a call of a definition.
    fn enter(&mut self, definition: &'a Definition, start: usize) -> Result<Control<'a>, Halt>
        requires stacked { spec.Stacked 0 self.old.frames.items start }
        requires start { start ≤ length self.old.values.items }
        ensures goes { (ds : List Definition) → spec.weight definition.now.body ≤ spec.heaviest ds → spec.Goes ds (spec.whole ds self.old (entered (body_run ds) definition.now (drop start (spec.vals self.old)) self.old.calls)) (spec.effort ds self.old 1) self.new result }
        ensures known { self.new.callees ≡ self.old.callees }
    {
        if self.calls == 0 {
            return Err(Halt::TooManyCalls);
        }
        if definition.formals.len() != self.values.len() - start {
            return Err(Halt::NotWellFormed);
        }
        self.calls -= 1;
        let start = self.lower(start);
        let formals = definition.formals.as_slice();
        Ok(Control::Evaluate(&definition.body, Scope { formals, start }))
    }

    /// Calls a function on the values from `start` on.
    fn call(
        &mut self,
        alloc: Global,
        world: &'a World,
        truths: &Truths,
        name: &'a Symbol,
        start: usize,
    ) -> Result<Control<'a>, Halt>
        requires stacked { spec.Stacked 0 self.old.frames.items start }
        requires start { start ≤ length self.old.values.items }
        requires known { Knows world.now.functions.defs self.old.callees }
        ensures goes { spec.Goes world.now.functions.defs (spec.whole world.now.functions.defs self.old (spec.act_of world.now.functions.defs name.now (drop start (spec.vals self.old)) self.old.calls)) (spec.effort world.now.functions.defs self.old 1) self.new result }
        ensures known { Knows world.now.functions.defs self.new.callees }
    {
        match self.callees.find(world, name) {
            Callee::Primitive(primitive) => {
                match perform(alloc, truths, primitive, &self.values[start..]) {
                    Ok(value) => Ok(Control::Give(value)),
                    Err(halt) => Err(halt),
                }
            }
            Callee::Defined(definition) => self.enter(definition, start),
            Callee::Variable => Err(Halt::HasFunctionVariables(name.share()?)),
        }
    }

    /// Goes on with the rest of a call's arguments, or calls.
    fn proceed(
        &mut self,
        alloc: Global,
        world: &'a World,
        truths: &Truths,
        name: &'a Symbol,
        rest: &'a [Term],
        start: usize,
        scope: Scope<'a>,
    ) -> Result<Control<'a>, Halt>
        requires stacked { spec.Stacked 0 self.old.frames.items start }
        requires start { start ≤ length self.old.values.items }
        requires lies { spec.Lies scope (length self.old.values.items) }
        requires known { Knows world.now.functions.defs self.old.callees }
        ensures goes { spec.Goes world.now.functions.defs (spec.whole world.now.functions.defs self.old (gathered (spec.act_of world.now.functions.defs name.now) (drop start (spec.vals self.old)) (steps (spec.act_of world.now.functions.defs) (tms rest.now) (spec.env_of scope.entry (spec.vals self.old))) self.old.calls)) (spec.effort world.now.functions.defs self.old (1 + spec.weights (tms rest.now))) self.new result }
        ensures known { Knows world.now.functions.defs self.new.callees }
    {
        let [first, rest @ ..] = rest else {
            return self.call(alloc, world, truths, name, start);
        };
        let height = self.values.len();
        self.frames.push(Frame::Arguments {
            name,
            rest,
            start,
            height,
            scope,
        })?;
        Ok(Control::Evaluate(first, scope))
    }

    /// Begins with the test of an `if`.
    fn choose(&mut self, args: &'a [Term], scope: Scope<'a>) -> Result<Control<'a>, Halt>
        requires stacked { spec.Stacked 0 self.old.frames.items (length self.old.values.items) }
        requires lies { spec.Lies scope (length self.old.values.items) }
        ensures goes { (ds : List Definition) → spec.Goes ds (spec.whole ds self.old (taken (steps (spec.act_of ds) (tms args.now) (spec.env_of scope.entry (spec.vals self.old))) self.old.calls)) (spec.effort ds self.old (1 + spec.weights (tms args.now))) self.new result }
        ensures known { self.new.callees ≡ self.old.callees }
    {
        if args.len() != 3 {
            return Err(Halt::NotWellFormed);
        }
        let test = &args[0];
        let yes = &args[1];
        let no = &args[2];
        let height = self.values.len();
        self.frames.push(Frame::Branches {
            yes,
            no,
            height,
            scope,
        })?;
        Ok(Control::Evaluate(test, scope))
    }

    /// Evaluates a term as far as to what it needs first.
    fn evaluate(
        &mut self,
        alloc: Global,
        world: &'a World,
        truths: &Truths,
        term: &'a Term,
        scope: Scope<'a>,
    ) -> Result<Control<'a>, Halt>
        requires stacked { spec.Stacked 0 self.old.frames.items (length self.old.values.items) }
        requires lies { spec.Lies scope (length self.old.values.items) }
        requires known { Knows world.now.functions.defs self.old.callees }
        ensures goes { spec.Goes world.now.functions.defs (spec.whole world.now.functions.defs self.old (counted (spec.act_of world.now.functions.defs) term.now (spec.env_of scope.entry (spec.vals self.old)) self.old.calls)) (spec.effort world.now.functions.defs self.old (spec.weight term.now)) self.new result }
        ensures known { Knows world.now.functions.defs self.new.callees }
    {
        match term.node() {
            Node::Var(name) => {
                match value_of(name, scope.formals, &self.values[scope.start..]) {
                    Ok(value) => Ok(Control::Give(value)),
                    Err(halt) => Err(halt),
                }
            }
            Node::Quote(value) => {
                let value = value.share()?;
                Ok(Control::Give(value))
            }
            Node::Call(name, args) => {
                if is_if(name) {
                    return self.choose(args.as_slice(), scope);
                }
                let start = self.values.len();
                self.proceed(alloc, world, truths, name, args.as_slice(), start, scope)
            }
        }
    }

    /// Goes on with what waited for a value.
    fn resume(
        &mut self,
        alloc: Global,
        world: &'a World,
        truths: &Truths,
        frame: Frame<'a>,
        value: Value,
    ) -> Result<Control<'a>, Halt>
        requires stacked { spec.Stacked 0 self.old.frames.items (spec.base frame) }
        requires inside { spec.Inside frame }
        requires height { spec.height frame ≤ length self.old.values.items }
        requires known { Knows world.now.functions.defs self.old.callees }
        ensures goes { spec.Goes world.now.functions.defs (spec.whole world.now.functions.defs self.old (spec.continue (spec.act_of world.now.functions.defs) (spec.waiting (spec.vals self.old) frame.entry) (val_of value) self.old.calls)) (spec.effort world.now.functions.defs self.old (spec.load frame.entry)) self.new result }
        ensures known { Knows world.now.functions.defs self.new.callees }
    {
        match frame {
            Frame::Arguments {
                name,
                rest,
                start,
                height,
                scope,
            } => {
                self.values.truncate(height);
                self.values.push(value)?;
                self.proceed(alloc, world, truths, name, rest, start, scope)
            }
            Frame::Branches {
                yes,
                no,
                height,
                scope,
            } => {
                self.values.truncate(height);
                Ok(Control::Evaluate(chosen(value, yes, no), scope))
            }
        }
    }

    /// One turn.
    fn turn(
        &mut self,
        alloc: Global,
        world: &'a World,
        truths: &Truths,
        control: Control<'a>,
    ) -> Result<Turn<'a>, Halt>
        requires stacked { spec.Stacked 0 self.old.frames.items (length self.old.values.items) }
        requires lies { spec.LiesIn control (length self.old.values.items) }
        requires known { Knows world.now.functions.defs self.old.callees }
        ensures goes { spec.Turns world.now.functions.defs (spec.whole world.now.functions.defs self.old (spec.now world.now.functions.defs control.entry (spec.vals self.old) self.old.calls)) (spec.effort world.now.functions.defs self.old (spec.weight_of control.entry)) self.new result }
        ensures known { Knows world.now.functions.defs self.new.callees }
    {
        match control {
            Control::Evaluate(term, scope) => {
                match self.evaluate(alloc, world, truths, term, scope) {
                    Ok(next) => Ok(Turn::Next(next)),
                    Err(halt) => Err(halt),
                }
            }
            Control::Give(value) => match self.frames.pop() {
                None => Ok(Turn::Over(value)),
                Some(frame) => match self.resume(alloc, world, truths, frame, value) {
                    Ok(next) => Ok(Turn::Next(next)),
                    Err(halt) => Err(halt),
                },
            },
        }
    }
}

/// The value of a term in a world, or why it has none.
pub(crate) fn run(alloc: Global, world: &World, term: &Term) -> Result<Value, Halt>
    ensures { spec.Ends (evaluated world.now.functions.defs term.now) result }
{
    let truths = Truths::new(alloc)?;
    let mut machine = Machine {
        frames: Vec::new(alloc),
        values: Vec::new(alloc),
        calls: MAX_CALLS,
        callees: Callees::new(alloc)?,
    };
    let mut control = Control::Evaluate(
        term,
        Scope {
            formals: &[],
            start: 0,
        },
    );
    loop {
        match machine.turn(alloc, world, &truths, control) {
            Ok(Turn::Next(next)) => control = next,
            Ok(Turn::Over(value)) => return Ok(value),
            Err(halt) => return Err(halt),
        }
    }
}

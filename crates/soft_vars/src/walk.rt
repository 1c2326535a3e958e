//! The function variables on which terms and functions depend.

ghost use Rattle.std.specs.Prelude.{◌≡◌, [], ◌∷◌, ◌++◌, bytes_eq, not, IfOk, OnOk};
ghost use Rattle.std.specs.List.{list_any};
ghost use Rattle.std.specs.Option.{option_copied};
ghost use Rattle.terms.specs.Primitives.{lookup};
ghost use Rattle.terms.specs.Terms.{tms};
ghost use Rattle.terms.specs.Variables.{with_name};
ghost use Rattle.terms.specs.Dependence.{function_dependence};
ghost use Rattle.soft_vars.specs.Dependents as spec;
ghost use Rattle.soft_vars.specs.view.Walks.{is_but, visits, visits_all, measure_visits, after, AreReady, Follows, FollowsVisit};
ghost use Rattle.soft_vars.specs.declared.walk.Task.TheVariants.{Visit, Leave};

use indexmap::IndexSet;
use lisp_data::{Memory, Symbol, Symbols};
use std::alloc::Global;
use terms::{Definition, Node, Term, Terms};
use worlds::{Named, World};

/// What is left to do.
#[derive(Drop)]
enum Task {
    /// To find the function variables on which the function depends.
    Visit(Symbol),
    /// To note that all of them are found.
    Leave(Symbol),
}

/// A walk through the definitions of functions.
#[derive(Drop)]
struct Walk {
    /// What is left to do, what comes next at the end.
    left: Vec<Task>,
    /// The functions with definitions all of whose variables are found.
    done: IndexSet<Symbol>,
    /// The function variables that were met, in this order.
    found: Symbols,
}

/// How many arguments the function variable of this name takes.
pub(crate) fn variable_arity(world: &World, name: &Symbol) -> Option<usize>
    ensures { result ≡ lookup world.now.functions.vars name.now }
{
    match world.named(name) {
        Some(Named::Variable(arity)) => Some(arity as usize),
        _ => None,
    }
}

/// Whether the name is another than this one.
fn is_other(but: Option<&Symbol>, name: &Symbol) -> bool
    ensures { result ≡ not (is_but (option_copied but.entry) name.now) }
{
    match but {
        None => true,
        Some(but) => !but.same(name),
    }
}

/// Adds visits of the functions that the term calls, but for one. The first of them comes next.
#[cycle(visits)]
#[tactic(auto, using(crate::proofs::Visits::added))]
fn add_visits(but: Option<&Symbol>, term: &Term, left: &mut Vec<Task>) -> Result<(), Memory>
    ensures { OnOk result (left.new.items ≡ left.old.items ++ visits (option_copied but.entry) term.now) }
{
    match term.node() {
        Node::Var(_) => Ok(()),
        Node::Quote(_) => Ok(()),
        Node::Call(called, args) => {
            add_all_visits(but, args.as_slice(), left)?;
            if is_other(but, called) {
                left.push(Task::Visit(called.share()?))?;
            }
            Ok(())
        }
    }
}

#[cycle(visits)]
#[tactic(auto, using(crate::proofs::Visits::added))]
fn add_all_visits(but: Option<&Symbol>, terms: &[Term], left: &mut Vec<Task>) -> Result<(), Memory>
    ensures { OnOk result (left.new.items ≡ left.old.items ++ visits_all (option_copied but.entry) (tms terms.now)) }
{
    for i in 0..terms.len() {
        add_visits(but, &terms[terms.len() - 1 - i], left)?;
    }
    Ok(())
}

fn add_visits_of_measure(
    but: Option<&Symbol>,
    measure: &Option<Term>,
    left: &mut Vec<Task>,
) -> Result<(), Memory>
    ensures { OnOk result (left.new.items ≡ left.old.items ++ measure_visits (option_copied but.entry) measure.now) }
{
    match measure {
        None => Ok(()),
        Some(measure) => add_visits(but, measure, left),
    }
}

/// Whether the name is among them.
pub(crate) fn has(found: &Symbols, name: &Symbol) -> bool
    ensures { result ≡ list_any (bytes_eq name.now) found.now }
{
    found.as_slice().iter().any(|x| name.same(x))
}

/// Adds the name at the end, where it is new.
fn add_name(name: Symbol, found: &mut Symbols) -> Result<(), Memory>
    ensures { OnOk result (found.new ≡ with_name name found.old) }
{
    if has(found, &name) {
        return Ok(());
    }
    found.push(name)
}

impl Walk {
    fn new(alloc: Global) -> Walk
        ensures left { result.left.items ≡ [] }
        ensures found { result.found ≡ [] }
        ensures done { result.done.keys ≡ [] }
    {
        Walk {
            left: Vec::new(alloc),
            done: IndexSet::new(alloc),
            found: Symbols::new(alloc),
        }
    }

    /// Visits what the definition calls, the body before the measure. A call of the function itself adds nothing.
    fn enter(&mut self, name: Symbol, definition: &Definition) -> Result<(), Memory>
        ensures left { OnOk result (self.new.left.items ≡ (self.old.left.items ++ Leave name ∷ []) ++ (measure_visits (Some name) definition.now.measure ++ visits (Some name) definition.now.body)) }
        ensures done { OnOk result (self.new.done ≡ self.old.done) }
        ensures found { OnOk result (self.new.found ≡ self.old.found) }
    {
        self.left.push(Task::Leave(name.share()?))?;
        add_visits_of_measure(Some(&name), &definition.measure, &mut self.left)?;
        add_visits(Some(&name), &definition.body, &mut self.left)
    }

    fn visit(&mut self, world: &World, name: Symbol) -> Result<(), Memory>
        ensures { OnOk result (FollowsVisit world.now name self.old self.new) }
    {
        world.soundness();
        if self.done.contains(&name) {
            return Ok(());
        }
        if let Some(definition) = world.find_definition(&name) {
            return self.enter(name, definition);
        }
        if variable_arity(world, &name).is_some() {
            return add_name(name, &mut self.found);
        }
        Ok(())
    }

    fn act(&mut self, world: &World, task: Task) -> Result<(), Memory>
        ensures { OnOk result (Follows world.now task self.old self.new) }
    {
        match task {
            Task::Visit(name) => self.visit(world, name),
            Task::Leave(name) => {
                self.done.insert(name)?;
                Ok(())
            }
        }
    }

    /// What is found once nothing is left to do.
    fn run(self, world: &World) -> Result<Symbols, Memory>
        requires ready { AreReady (function_dependence world.now) self.left.items self.found }
        requires done { self.done.keys ≡ [] }
        ensures { IfOk result (λ found. found ≡ after (function_dependence world.now) self.left.items self.found) }
    {
        let mut walk = self;
        for _step in 0..u64::MAX {
            let Some(task) = walk.left.pop() else {
                return Ok(walk.found);
            };
            walk.act(world, task)?;
        }
        Err(Memory)
    }
}

/// The function variables on which a function depends, each once.
pub(crate) fn dependence(alloc: Global, world: &World, name: &Symbol) -> Result<Symbols, Memory>
    ensures { IfOk result (λ xs. xs ≡ spec.each_once (function_dependence world.now name.now)) }
{
    let mut walk = Walk::new(alloc);
    walk.left.push(Task::Visit(name.share()?))?;
    walk.run(world)
}

/// The function variables on which the terms depend, directly or through definitions, each once, in the order in which
/// they are first met (docs/MODEL.md, "Function variables and instances").
pub fn variables_in(alloc: Global, world: &World, terms: &Terms) -> Result<Symbols, Memory>
    ensures { IfOk result (λ xs. xs ≡ spec.variables_in world.now terms.now) }
{
    if world.is_first_order() {
        return Ok(Symbols::new(alloc));
    }
    let mut walk = Walk::new(alloc);
    add_all_visits(None, terms.as_slice(), &mut walk.left)?;
    walk.run(world)
}

/// The function variables on which a function, its definition's body and then its measure, or a specification's matrix
/// depends; of a function variable that variable, and of another name none (docs/MODEL.md, "Function variables and
/// instances").
pub fn variables_of(alloc: Global, world: &World, name: &Symbol) -> Result<Symbols, Memory>
    ensures { IfOk result (λ xs. xs ≡ spec.variables_of world.now name.now) }
{
    if world.is_first_order() {
        return Ok(Symbols::new(alloc));
    }
    let Some(specification) = world.find_spec(name) else {
        return dependence(alloc, world, name);
    };
    let mut walk = Walk::new(alloc);
    add_visits(None, &specification.matrix, &mut walk.left)?;
    walk.run(world)
}

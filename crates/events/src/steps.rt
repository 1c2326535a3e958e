//! The handling of one event.

ghost use Rattle.std.specs.Prelude.{◌≡◌, IfOk};
ghost use Rattle.lisp_data.specs.FormView.{form_of, IsProper};
ghost use Rattle.event_forms.specs.Shapes.{event_of};
ghost use Rattle.events.specs.view.Halts.{Answers};
ghost use Rattle.events.specs.Steps.{IsStep};

use crate::halt::Halt;
use crate::handle::{EventProofs, handle};
use crate::kinds::defiso::Defiso;
use crate::kinds::defthm::Defthm;
use crate::kinds::defthm_inst::DefthmInst;
use crate::kinds::defun::Defun;
use crate::kinds::defun_inst::DefunInst;
use crate::kinds::defun_sk2::DefunSk2;
use crate::kinds::defunvar::Defunvar;
use crate::kinds::in_package::InPackage;
use crate::kinds::include_book::IncludeBook;
use crate::kinds::isodata::Isodata;
use crate::kinds::restrict::Restrict;
use crate::kinds::value_triple;
use crate::lines::refused_lines;
use crate::orders::Order;
use event_forms::{Event, read_event};
use lisp_data::{Form, Memory};
use lisp_reader::Located;
use lists::{Seq, Text};
use std::alloc::Global;
use worlds::World;

/// The lines of a report.
pub type Lines = Seq<Text>;

/// What the handling of an event answers (docs/EVENTS.md).
#[derive(Drop)]
pub enum StepAnswer {
    /// The world that it makes, its lines, and its proofs.
    Accepted(World, Lines, EventProofs),
    /// It was accepted before.
    Redundant(Lines),
    /// A value is printed.
    Printed(Lines),
    /// The number of the refusal's code, and its lines.
    Refused(u8, Lines),
}

/// The answer to an event, by its kind; a refusal has no line yet.
fn answer(alloc: Global, world: &World, form: &Form, show: bool) -> Result<StepAnswer, Halt>
    requires { IsProper form.now }
    ensures { Answers world.now (form_of form.now) (event_of (form_of form.now)) show result }
{
    match read_event(alloc, form)? {
        Event::InPackage => handle(alloc, world, form, &InPackage, show),
        Event::IncludeBook(book) => handle(alloc, world, form, &IncludeBook { book }, show),
        Event::Defun(function) => {
            let order = Order::First;
            handle(alloc, world, form, &Defun { order, function }, show)
        }
        Event::Defun2(function) => {
            let order = Order::Second;
            handle(alloc, world, form, &Defun { order, function }, show)
        }
        Event::Defthm(theorem) => handle(alloc, world, form, &Defthm { theorem }, show),
        Event::Defiso(iso) => handle(alloc, world, form, &Defiso { iso }, show),
        Event::Restrict(restriction) => {
            handle(alloc, world, form, &Restrict { restriction }, show)
        }
        Event::Isodata(representation) => {
            handle(alloc, world, form, &Isodata { representation }, show)
        }
        Event::Defunvar(variable) => handle(alloc, world, form, &Defunvar { variable }, show),
        Event::DefunSk2(specification) => {
            handle(alloc, world, form, &DefunSk2 { specification }, show)
        }
        Event::DefunInst(instance) => handle(alloc, world, form, &DefunInst { instance }, show),
        Event::DefthmInst(instance) => handle(alloc, world, form, &DefthmInst { instance }, show),
        Event::ValueTriple(part) => value_triple::print(alloc, world, part),
    }
}

/// Handles an event, which is the book's event of this index, counted from 1. What it makes is shown where that is asked for. The world stays
/// as it is.
pub fn step(
    alloc: Global,
    world: &World,
    located: &Located,
    index: u64,
    show: bool,
) -> Result<StepAnswer, Memory>
    requires { IsProper located.now.form }
    ensures { IfOk result (IsStep world.now (form_of located.now.form) located.now.place index show) }
{
    match answer(alloc, world, &located.form, show) {
        Ok(answer) => Ok(answer),
        Err(halt) => match halt {
            Halt::Refused(why) => {
                let lines = refused_lines(alloc, index, &why, located.place)?;
                Ok(StepAnswer::Refused(why.code().number(), lines))
            }
            Halt::Memory => Err(Memory),
        },
    }
}

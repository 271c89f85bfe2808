// An outsider's event.
#![tactic(auto)]

ghost use Rattle.std.specs.Prelude.{◌≡◌};
ghost use Rattle.book.specs.Outline.{shape_in};
ghost use Rattle.machine.specs.Histories.{sources};
ghost use Rattle.machine.specs.Events.{is_label, brought};
ghost use Rattle.acts.specs.Views.{stored_of, nearby, effect_of};
ghost use Rattle.outsiders.specs.Outside.{low_cell_shape, such_value, such, aimed_at, outside};

use acts::{Act, Actor, Near, Stored};
use book::{kind, value_kind};
use labels::Label;
use machine::Event;

// A cell shape of trust at or below C.
#[tactic(auto, unfolding(crate::specs::Outside::low_cell_shape, book::specs::Control::both))]
fn is_low_cell_shape(c: Label, shapes: &[u8], i: u8) -> bool
    ensures { result ≡ low_cell_shape c (shape_in shapes.now i) }
{
    let x = decode::shape_in(shapes, i);
    x.kind == kind::CELL_SHAPE && !x.trust.is_high(c)
}

// A value of this kind that names nothing, or what exists.
#[tactic(auto, unfolding(crate::specs::Outside::such_value, book::specs::Control::both, book::specs::Book::value_of, book::specs::Refusals::value_named))]
fn is_such_value(cells: usize, blocks: usize, kind: u8, number: u32) -> bool
    ensures { result ≡ such_value cells blocks kind number }
{
    match kind {
        value_kind::PLAIN => true,
        value_kind::CELL => (number as usize) < cells,
        value_kind::CODE => (number as usize) < blocks,
        _ => false,
    }
}

fn is_label(o: Label) -> bool
    ensures { result ≡ is_label o }
{
    Label::TOP.reaches(o)
}

// The event is not answered by 3.
#[tactic(auto, unfolding(book::specs::Control::both, crate::specs::Outside::such))]
pub fn is_such(c: Label, shapes: &[u8], blocks: usize, cells: usize, e: Event) -> bool
    ensures { result ≡ such c (shape_in shapes.now) blocks cells e }
{
    match e {
        Event::StepOf(_) => true,
        Event::WriteBy(q, k, v, n) => {
            c.reaches(q) && (k as usize) < cells && is_such_value(cells, blocks, v, n)
        }
        Event::RelabelBy(q, k, o) => c.reaches(q) && (k as usize) < cells && is_label(o),
        Event::NewBy(q, i, v, n) => {
            c.reaches(q) && is_low_cell_shape(c, shapes, i) && is_such_value(cells, blocks, v, n)
        }
        Event::ExecBy(q, k) => c.reaches(q) && (k as usize) < cells,
        Event::StartBy(q, b) => c.reaches(q) && (b as usize) < blocks,
    }
}

// The cell that an outsider reaches.
#[tactic(auto, unfolding(crate::specs::Outside::aimed_at))]
pub fn aimed_at(e: Event) -> usize
    ensures { result ≡ aimed_at e }
{
    match e {
        Event::WriteBy(_, k, _, _) | Event::RelabelBy(_, k, _) | Event::ExecBy(_, k) => k as usize,
        _ => 0,
    }
}

// The value that an outsider brings.
fn bring(q: Label, kind: u8, number: u32) -> Stored
    ensures { stored_of result ≡ brought sources q kind number }
{
    Stored {
        number,
        kind,
        source: q,
    }
}

// An outsider acts at its label, and its history is that label.
fn outsider(q: Label) -> Actor
    ensures { result ≡ record { label = q; source = q } }
{
    Actor {
        label: q,
        source: q,
    }
}

// What an outsider's event does.
pub fn act_outside(e: Event, near: Near) -> Act
    ensures { effect_of (aimed_at e) result ≡ outside (nearby near) e }
{
    match e {
        Event::StepOf(_) => Act::Blocked,
        Event::WriteBy(q, k, v, n) => outsider(q).write(near, k as u32, bring(q, v, n)),
        Event::RelabelBy(q, k, o) => outsider(q).relabel(near, k as u32, o),
        Event::NewBy(q, i, v, n) => outsider(q).make(near, 0, i, bring(q, v, n)),
        Event::ExecBy(q, k) => outsider(q).exec(near, k as u32),
        Event::StartBy(q, b) => outsider(q).start(near, b as u32),
    }
}

// The typing rules: of a declared cell, and of a step.
#![tactic(auto)]

mod declared;
mod registers;
mod rules;
mod shapes;
mod steps;

ghost use Rattle.book.specs.Outline.{shape_in};
ghost use Rattle.book.specs.Asked.{Sound};

use labels::Label;

// What typing asks of a book: C, the table of shapes, the shapes of the declared cells and the bounds of the blocks. Contents are lower-numbered.
#[derive(Clone, Copy)]
pub struct Tables<'a> {
    pub c: Label,
    pub shapes: &'a [u8],
    pub shaped: &'a [u8],
    pub bounds: &'a [u8],
    pub ghost sound: { Sound (shape_in shapes.now) },
}

// What is known of the value in a register.
#[derive(Clone, Copy)]
pub enum Known {
    Unknown,
    Plain,
    Code(Label),
    CellOf(u8),
}

// A register as typing sees it: a known shape and an effect.
#[derive(Clone, Copy)]
pub struct Register {
    pub known: Known,
    pub effect: Label,
}

// What is known before a step: P, whether a lower stands earlier in the block, the registers.
#[derive(Clone, Copy)]
pub struct State {
    pub p: Label,
    pub lowered: bool,
    pub registers: [Register; 8],
}

// What a step's rule says: the step passes, and nothing changes that typing sees, or a register or P does; it is stuck; or it breaks the
// rule.
#[derive(Clone, Copy)]
pub enum Stepped {
    Passes,
    Gives(u8, Register),
    Lowers(Label),
    Stuck,
    Breaks,
}

// The rows of what a record says, so that a book can be taken apart, and the tables of rows that one is written from.
#![tactic(auto)]

ghost use Rattle.std.specs.Prelude.{◌≡◌, ◌∷◌};
ghost use Rattle.book.specs.Records.{number_bytes};
ghost use Rattle.rows.specs.Parsed.{shape_row_of, cell_row_of, step_row_of, shape_row_bytes, cell_row_bytes, step_row_bytes};

use book::{Declared, Shape, Step, Value, kind, value_kind};
use labels::Label;

// The bytes of a row of each table.
pub const SHAPE_ROW: usize = 3;

pub const CELL_ROW: usize = 7;

pub const BLOCK_ROW: usize = 5;

pub const STEP_ROW: usize = 8;

// What a book is written from: C, and the lent rows of shapes, cells, blocks and steps.
#[derive(Clone, Copy)]
pub struct Tables<'a> {
    pub c: Label,
    pub shapes: &'a [u8],
    pub cells: &'a [u8],
    pub blocks: &'a [u8],
    pub steps: &'a [u8],
}

// The row of a shape.
#[tactic(auto, unfolding(crate::specs::Parsed::shape_row_of))]
pub fn shape_row(x: Shape) -> [u8; SHAPE_ROW]
    ensures { result ≡ shape_row_bytes (shape_row_of x) }
{
    match x.kind {
        kind::CODE_SHAPE => [kind::CODE_SHAPE, x.bound.0, 0],
        kind::CELL_SHAPE => [kind::CELL_SHAPE, x.content, x.trust.0],
        _ => [kind::PLAIN_SHAPE, 0, 0],
    }
}

// The row of a declared cell.
#[tactic(auto, unfolding(crate::specs::Parsed::cell_row_of))]
pub fn cell_row(d: Declared) -> [u8; CELL_ROW]
    ensures { result ≡ cell_row_bytes (cell_row_of d) }
{
    let (kind, number) = match d.value {
        Value::Plain(n) => (value_kind::PLAIN, n),
        Value::CellName(n) => (value_kind::CELL, n),
        Value::CodeName(n) => (value_kind::CODE, n),
    };
    let [n0, n1, n2, n3] = number.to_le_bytes();
    [d.shape, d.label.0, kind, n0, n1, n2, n3]
}

fn step_bytes(kind: u8, x: u8, y: u8, z: u8, n: u32) -> [u8; STEP_ROW]
    ensures { result ≡ kind ∷ x ∷ y ∷ z ∷ number_bytes n }
{
    let [n0, n1, n2, n3] = n.to_le_bytes();
    [kind, x, y, z, n0, n1, n2, n3]
}

// The row of a step.
#[tactic(auto, unfolding(crate::specs::Parsed::step_row_of))]
pub fn step_row(p: Step) -> [u8; STEP_ROW]
    ensures { result ≡ step_row_bytes (step_row_of p) }
{
    match p {
        Step::Put(r, n) => step_bytes(kind::PUT, r, 0, 0, n),
        Step::Name(r, k) => step_bytes(kind::NAME, r, k, 0, 0),
        Step::Code(r, b) => step_bytes(kind::CODE, r, b, 0, 0),
        Step::Add(r, a, b) => step_bytes(kind::ADD, r, a, b, 0),
        Step::New(r, i, a) => step_bytes(kind::NEW, r, i, a, 0),
        Step::Read(r, w) => step_bytes(kind::READ, r, w, 0, 0),
        Step::Write(w, a) => step_bytes(kind::WRITE, w, a, 0, 0),
        Step::Relabel(w, o) => step_bytes(kind::RELABEL, w, o.0, 0, 0),
        Step::Lower(q) => step_bytes(kind::LOWER, q.0, 0, 0, 0),
        Step::Start(b) => step_bytes(kind::START, b, 0, 0, 0),
        Step::Exec(w) => step_bytes(kind::EXEC, w, 0, 0, 0),
        Step::Choose(r, a, b) => step_bytes(kind::CHOOSE, r, a, b, 0),
    }
}

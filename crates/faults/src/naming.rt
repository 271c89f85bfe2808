// Refusal 6: a record names what the book does not have.
ghost use Rattle.std.specs.Prelude.{◌≡◌, ◌<◌, length};
ghost use Rattle.book.specs.Refusals.{cell_named, step_named, dangling, name_fault};
ghost use Rattle.book.specs.Asked.{Outlined, is_cell_shape_in};

use book::{Declared, Outline, Step, Value, group, kind};
use records::Reader;

// The shape of this number is a cell shape.
fn is_cell_shape(shapes: &[u8], i: u8) -> bool
    ensures { result ≡ is_cell_shape_in shapes.now i }
{
    let x = decode::shape_in(shapes, i);
    x.kind == kind::CELL_SHAPE
}

// A declared cell names a cell shape, and a cell or block that exists.
fn cell_named(cell: Declared, shapes: &[u8], cells: usize, blocks: usize) -> bool
    ensures { result ≡ cell_named (is_cell_shape_in shapes.now) cells blocks cell }
{
    let value = cell.value;
    if is_cell_shape(shapes, cell.shape) {
        return decode::value_named(value, cells, blocks);
    }
    false
}

// A step names a cell shape, a cell or a block that exists, where it names one.
fn step_named(step: Step, shapes: &[u8], cells: usize, blocks: usize) -> bool
    ensures { result ≡ step_named (is_cell_shape_in shapes.now) cells blocks step }
{
    match step {
        Step::Put(_, _) => true,
        Step::Name(_, k) => (k as usize) < cells,
        Step::Code(_, b) => (b as usize) < blocks,
        Step::Add(_, _, _) => true,
        Step::New(_, i, _) => is_cell_shape(shapes, i),
        Step::Read(_, _) => true,
        Step::Write(_, _) => true,
        Step::Relabel(_, _) => true,
        Step::Lower(_) => true,
        Step::Start(b) => (b as usize) < blocks,
        Step::Exec(_) => true,
        Step::Choose(_, a, b) => (a as usize) < blocks && (b as usize) < blocks,
    }
}

// The record at an offset, before which n shapes stand, names what the book does not have.
fn is_dangling(s: &[u8], o: usize, n: usize, shapes: &[u8], cells: usize, blocks: usize) -> bool
    requires { o < length s.now }
    ensures { result ≡ dangling (is_cell_shape_in shapes.now) cells blocks s.now n o }
{
    let k = s[o];
    if k == kind::CELL_SHAPE {
        let content = records::byte(s, o + 1);
        return n <= content as usize;
    }
    let g = records::group_of(k);
    if g == group::CELLS {
        let cell = decode::decode_cell(s, o);
        return !cell_named(cell, shapes, cells, blocks);
    }
    if g == group::STEPS {
        let step = decode::decode_step(s, o);
        return !step_named(step, shapes, cells, blocks);
    }
    false
}

// 6: the first record that names what the book does not have.
#[tactic(auto, using(crate::proofs::Sweeps::names))]
pub fn name_fault(s: &[u8], t: Outline) -> Option<usize>
    requires { Outlined s.now t }
    ensures { result ≡ name_fault s.now }
{
    let shapes = t.shapes;
    let cells = t.counts.cells;
    let blocks = t.counts.blocks;
    let mut n: usize = 0;
    for o in Reader::new(s) {
        if is_dangling(s, o, n, &shapes, cells, blocks) {
            return Some(o);
        }
        if records::group_of(s[o]) == group::SHAPES {
            n = n + 1;
        }
    }
    None
}

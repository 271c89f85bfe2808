// What a record says.
#![tactic(auto)]

ghost use Rattle.std.specs.Prelude.{◌≡◌, ◌<◌, length};
ghost use Rattle.book.specs.Book.{shape_at, value_of, declared_at, step_at};
ghost use Rattle.book.specs.Outline.{shape_in};
ghost use Rattle.book.specs.Refusals.{value_named};
ghost use Rattle.book.specs.Stretch.{step_found, step_end, cell_found};

use book::{Declared, Shape, Step, Value, group, kind, value_kind};
use labels::{Label, Trust};

// The shape at an offset.
pub fn decode_shape(s: &[u8], o: usize) -> Shape
    requires { o < length s.now }
    ensures { result ≡ shape_at s.now o }
{
    let k = s[o];
    let x = records::byte(s, o + 1);
    let y = records::byte(s, o + 2);
    if k == kind::CODE_SHAPE {
        return Shape {
            kind: kind::CODE_SHAPE,
            bound: Label(x),
            content: 0,
            trust: Trust(0),
        };
    }
    if k == kind::CELL_SHAPE {
        return Shape {
            kind: kind::CELL_SHAPE,
            bound: Label(0),
            content: x,
            trust: Trust(y),
        };
    }
    Shape {
        kind: kind::PLAIN_SHAPE,
        bound: Label(0),
        content: 0,
        trust: Trust(0),
    }
}

// A shape of a table of shapes; past its end none, whose kind is 0.
pub fn shape_in(shapes: &[u8], i: u8) -> Shape
    ensures { result ≡ shape_in shapes.now i }
{
    let at = 4 * (i as usize);
    let kind = records::byte(shapes, at);
    let bound = records::byte(shapes, at + 1);
    let content = records::byte(shapes, at + 2);
    let trust = records::byte(shapes, at + 3);
    Shape {
        kind: kind,
        bound: Label(bound),
        content: content,
        trust: Trust(trust),
    }
}

// A value by its kind and number.
pub fn value_of(kind: u8, number: u32) -> Value
    ensures { result ≡ value_of kind number }
{
    if kind == value_kind::PLAIN {
        return Value::Plain(number);
    }
    if kind == value_kind::CELL {
        return Value::CellName(number);
    }
    Value::CodeName(number)
}

// The declared cell at an offset.
pub fn decode_cell(s: &[u8], o: usize) -> Declared
    requires { o < length s.now }
    ensures { result ≡ declared_at s.now o }
{
    let shape = records::byte(s, o + 1);
    let label = records::byte(s, o + 2);
    let kind = records::byte(s, o + 3);
    let number = records::number(s, o + 4);
    let value = value_of(kind, number);
    Declared {
        shape: shape,
        label: Label(label),
        value: value,
    }
}

// The step at an offset.
pub fn decode_step(s: &[u8], o: usize) -> Step
    requires { o < length s.now }
    ensures { result ≡ step_at s.now o }
{
    let k = s[o];
    let x = records::byte(s, o + 1);
    let y = records::byte(s, o + 2);
    let z = records::byte(s, o + 3);
    match k {
        kind::PUT => Step::Put(x, records::number(s, o + 2)),
        kind::NAME => Step::Name(x, y),
        kind::CODE => Step::Code(x, y),
        kind::ADD => Step::Add(x, y, z),
        kind::NEW => Step::New(x, y, z),
        kind::READ => Step::Read(x, y),
        kind::WRITE => Step::Write(x, y),
        kind::RELABEL => Step::Relabel(x, Label(y)),
        kind::LOWER => Step::Lower(Label(x)),
        kind::START => Step::Start(x),
        kind::EXEC => Step::Exec(x),
        _ => Step::Choose(x, y, z),
    }
}

// The offset past the step that stands at an offset of a stretch; 0 where none does, as the table of a round's jobs keeps it in 16 bits.
pub fn step_end(stretch: &[u8], offset: usize) -> usize
    ensures { result ≡ step_end stretch.now offset }
{
    if offset < stretch.len() {
        let k = stretch[offset];
        if records::group_of(k) != group::STEPS {
            return 0;
        }
        let end = records::next_record(stretch, offset);
        if stretch.len() < end {
            return 0;
        }
        return end;
    }
    0
}

// The step that stands at an offset of a stretch, and the offset past it.
pub fn step_at(stretch: &[u8], offset: usize) -> Option<(Step, usize)>
    ensures { result ≡ step_found stretch.now offset }
{
    let end = step_end(stretch, offset);
    if end == 0 {
        return None;
    }
    let step = decode_step(stretch, offset);
    Some((step, end))
}

// The declared cell that stands at an offset of a book.
pub fn cell_at(book: &[u8], offset: usize) -> Option<Declared>
    ensures { result ≡ cell_found book.now offset }
{
    if offset < book.len() {
        let k = book[offset];
        if records::group_of(k) != group::CELLS {
            return None;
        }
        let end = records::next_record(book, offset);
        if book.len() < end {
            return None;
        }
        let cell = decode_cell(book, offset);
        return Some(cell);
    }
    None
}

// The cell or block that a value names is one of so many.
pub fn value_named(value: Value, cells: usize, blocks: usize) -> bool
    ensures { result ≡ value_named cells blocks value }
{
    match value {
        Value::Plain(_) => true,
        Value::CellName(n) => (n as usize) < cells,
        Value::CodeName(n) => (n as usize) < blocks,
    }
}

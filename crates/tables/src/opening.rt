// What a run starts from: the declared cells, and where a block starts.
ghost use Rattle.std.specs.Prelude.{◌≡◌, ◌≤◌, length, take};
ghost use Rattle.book.specs.Asked.{Listed};
ghost use Rattle.machine.specs.Records.{kind_of, number_of};
ghost use Rattle.tables.specs.Opening.{start_in, opened_by, opened_cells};

use acts::{StoredCell, StoredJob};
use book::{Declared, Value, value_kind};
use labels::Label;

fn kind_in(v: Value) -> u8
    ensures { result ≡ kind_of v }
{
    match v {
        Value::Plain(_) => value_kind::PLAIN,
        Value::CellName(_) => value_kind::CELL,
        Value::CodeName(_) => value_kind::CODE,
    }
}

fn number_in(v: Value) -> u32
    ensures { result ≡ number_of v }
{
    match v {
        Value::Plain(n) | Value::CellName(n) | Value::CodeName(n) => n,
    }
}

// A declared cell: its value's history is 15.
fn open_cell(d: Declared) -> StoredCell
    ensures { result ≡ opened_by d }
{
    StoredCell {
        number: number_in(d.value),
        kind: kind_in(d.value),
        source: Label::TOP,
        shape: d.shape,
        label: d.label,
    }
}

// The declared cells, from their offsets.
#[tactic(auto, unfolding(crate::specs::Opening::opened_cells))]
pub fn open_cells(book: &[u8], offsets: &[u16]) -> [StoredCell; StoredJob::TABLE_SIZE]
    requires { Listed book.now offsets.now × (length offsets.now ≤ 64) }
    ensures { take (length offsets.now) result ≡ opened_cells book.now offsets.now }
{
    let none = StoredCell {
        number: 0,
        kind: 0,
        source: Label(0),
        shape: 0,
        label: Label(0),
    };
    let mut cells = [none; StoredJob::TABLE_SIZE];
    for (i, offset) in offsets.iter().enumerate() {
        let Some(d) = decode::cell_at(book, usize::from(*offset)) else {
            return cells;
        };
        cells[i] = open_cell(d);
    }
    cells
}

// Where a block starts in the book; past the blocks the book's end.
pub fn start_of(starts: &[u16], block: u32, end: usize) -> usize
    ensures { result ≡ start_in starts.now block end }
{
    starts
        .get(block as usize)
        .map_or(end, |start| usize::from(*start))
}

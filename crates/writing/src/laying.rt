// The rows laid one after the other into a draft. A draft has 8 bytes more than may count, so that each row is laid as 8 bytes; what a row has
// more than its length is laid over by the next.
ghost use Rattle.std.specs.Prelude.{◌≡◌, ℕ, [], ◌∷◌, ◌+◌, ◌-◌, ◌/◌, ◌≤◌, ◌<◌, min, length};
ghost use Rattle.records.specs.Copies.{put_at};
ghost use Rattle.rows.specs.Rows.{row_of, rows, lent_tables};
ghost use Rattle.writing.specs.Asked.{noted, penned, clear_pen, Lays, LaysEach, steps_laid, blocks_laid};
ghost use Rattle.writing.specs.declared.entries.Entry.{Entry};

use crate::entries;
use crate::entries::Entry;
use book::kind;
use rows::Tables;

// How many bytes stand so far, the first row whose kind is none of its table's, and the first with a spare field.
#[derive(Clone, Copy)]
pub struct Pen {
    pub at: usize,
    pub strange: Option<usize>,
    pub spare: Option<usize>,
}

fn note(fault: Option<usize>, bad: bool, at: usize) -> Option<usize>
    ensures { result ≡ noted fault bad at }
{
    if bad { fault.or(Some(at)) } else { fault }
}

// The entry's eight bytes, of which as many count as its row has.
fn lay(draft: &mut [u8], pen: Pen, e: Entry) -> Pen
    requires { (pen.at + 8 ≤ length draft.old) × (length e.bytes ≡ 8) × (e.length ≤ 8) }
    ensures draft_after { draft.new ≡ put_at draft.old pen.at e.bytes }
    ensures value { result ≡ penned pen e }
{
    let at = pen.at;
    records::copy_in(draft, at, &e.bytes);
    Pen {
        at: at + e.length,
        strange: note(pen.strange, !e.known, at),
        spare: note(pen.spare, e.spare, at),
    }
}

// The rows of a table, by the entry that stands for the row of an index.
fn lay_rows<F: Fn(usize) -> Entry>(draft: &mut [u8], start: Pen, count: usize, entry: F) -> Pen
    requires room { 8 ≤ length draft.old }
    requires callable { (i : ℕ) → i < count → F.pre entry i }
    requires short { (i : ℕ) (e : Entry) → i < count → F.post entry i e → e.length ≤ 8 }
    ensures { LaysEach (F.post entry) count draft.old start draft.new result }
{
    let limit = draft.len() - 8;
    let mut pen = start;
    for i in 0..count {
        if limit < pen.at {
            return pen;
        }
        pen = lay(draft, pen, entry(i));
    }
    pen
}

// The step rows from one up to another.
fn lay_steps(draft: &mut [u8], start: Pen, steps: &[u8], from: usize, end: usize) -> Pen
    requires { (8 ≤ length draft.old) × (from ≤ end) × (end ≤ length steps.now / 8) }
    ensures { Lays (steps_laid steps.now (end - from) from) draft.old start draft.new result }
{
    let limit = draft.len() - 8;
    let mut pen = start;
    for i in from..end {
        if limit < pen.at {
            return pen;
        }
        let o = i * rows::STEP_ROW;
        if steps[o] == kind::PUT {
            pen = lay(draft, pen, entries::put_entry(steps, o));
        } else {
            pen = lay(draft, pen, entries::other_entry(steps, o));
        }
    }
    pen
}

// A block, and behind it the step rows from one up to another.
fn lay_block(draft: &mut [u8], start: Pen, bound: u8, steps: &[u8], from: usize, end: usize) -> Pen
    requires { (start.at + 8 ≤ length draft.old) × (from ≤ end) × (end ≤ length steps.now / 8) }
    ensures { Lays (row_of 4 48 (bound ∷ []) ∷ steps_laid steps.now (end - from) from) draft.old start draft.new result }
{
    let e = entries::block_entry(bound);
    let pen = lay(draft, start, e);
    lay_steps(draft, pen, steps, from, end)
}

// Each block, and behind it the steps that it counts; step rows that no block counts stand last.
fn lay_blocks(draft: &mut [u8], start: Pen, blocks: &[u8], steps: &[u8]) -> Pen
    requires { 8 ≤ length draft.old }
    ensures { Lays (blocks_laid blocks.now steps.now (length blocks.now / 5) 0 (length steps.now / 8) 0)
        draft.old start draft.new result }
{
    let n = blocks.len() / rows::BLOCK_ROW;
    let m = steps.len() / rows::STEP_ROW;
    let limit = draft.len() - 8;
    let mut pen = start;
    let mut j: usize = 0;
    for i in 0..n {
        if limit < pen.at {
            return pen;
        }
        let o = i * rows::BLOCK_ROW;
        let count = records::number(blocks, o + 1) as usize;
        let end = j + count.min(m - j);
        pen = lay_block(draft, pen, blocks[o], steps, j, end);
        j = end;
    }
    if j == m {
        return pen;
    }
    lay_steps(draft, pen, steps, j, m)
}

// The rows of all tables, in group order.
pub fn lay_tables(draft: &mut [u8], t: &Tables) -> Pen
    requires { 8 ≤ length draft.old }
    ensures { Lays (rows (lent_tables t.now)) draft.old clear_pen draft.new result }
{
    let start = Pen {
        at: 0,
        strange: None,
        spare: None,
    };
    let shapes = t.shapes;
    let cells = t.cells;
    let pen = lay(draft, start, entries::c_entry(t.c));
    let pen = lay_rows(
        draft,
        pen,
        shapes.len() / rows::SHAPE_ROW,
        |i| entries::shape_entry(shapes, i * rows::SHAPE_ROW),
    );
    let pen = lay_rows(
        draft,
        pen,
        cells.len() / rows::CELL_ROW,
        |i| entries::cell_entry(cells, i * rows::CELL_ROW),
    );
    lay_blocks(draft, pen, t.blocks, t.steps)
}

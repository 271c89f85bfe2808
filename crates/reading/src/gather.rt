// The outline of a book, in one pass over its records; a block's steps are passed over at once.
ghost use Rattle.std.specs.Prelude.{◌≡◌, ◌++◌, ◌+◌, ◌-◌, ◌*◌, ◌≤◌, ◌<◌, length, take, drop, set};
ghost use Rattle.book.specs.Records.{byte_at};
ghost use Rattle.book.specs.Outline.{shape_bytes, outline_of};
ghost use Rattle.book.specs.Asked.{Small, Blank, drawn};

use book::{Counts, Outline, Shape, group};
use labels::Label;

// Puts a shape into the table of shapes.
fn put_shape(shapes: &mut [u8; 128], i: usize, x: Shape)
    requires { (i < 32) × (length shapes.old ≡ 128) }
    ensures { shapes.new ≡ take (4 * i) shapes.old ++ shape_bytes x ++ drop (4 * i + 4) shapes.old }
{
    let at = 4 * i;
    shapes[at] = x.kind;
    shapes[at + 1] = x.bound.0;
    shapes[at + 2] = x.content;
    shapes[at + 3] = x.trust.0;
}

// Puts the cell at an offset into the tables of cells.
fn put_cell(offsets: &mut [u16; 32], shaped: &mut [u8; 32], i: usize, s: &[u8], o: usize)
    requires { (i < 32) × (o < 32768) }
    ensures offsets_after { offsets.new ≡ set offsets.old i o }
    ensures shaped_after { shaped.new ≡ set shaped.old i (byte_at s.now (o + 1)) }
{
    offsets[i] = o as u16;
    shaped[i] = records::byte(s, o + 1);
}

// Puts the block at an offset, whose steps stand from w up to e, into the tables of blocks.
fn put_block(
    bounds: &mut [u8; 64],
    starts: &mut [u16; 64],
    lengths: &mut [u16; 64],
    i: usize,
    s: &[u8],
    o: usize,
    w: usize,
    e: usize,
)
    requires { (i < 64) × (o ≤ w) × (w ≤ e) × (e ≤ 32768) }
    ensures bounds_after { bounds.new ≡ set bounds.old i (byte_at s.now (o + 1)) }
    ensures starts_after { starts.new ≡ set starts.old i w }
    ensures lengths_after { lengths.new ≡ set lengths.old i (e - w) }
{
    bounds[i] = records::byte(s, o + 1);
    starts[i] = w as u16;
    lengths[i] = (e - w) as u16;
}

// Fills an outline's tables, all zero before, from the records, and counts them.
fn fill(
    s: &[u8],
    shapes: &mut [u8; 128],
    offsets: &mut [u16; 32],
    shaped: &mut [u8; 32],
    bounds: &mut [u8; 64],
    starts: &mut [u16; 64],
    lengths: &mut [u16; 64],
) -> Counts
    requires { Small s.now × Blank shapes.old offsets.old shaped.old bounds.old starts.old lengths.old }
    ensures { drawn s.now result shapes.new offsets.new shaped.new bounds.new starts.new
        lengths.new ≡ outline_of s.now }
{
    let mut n = Counts::none();
    let mut o: usize = 0;
    // Not by the reader: `skip_steps` passes over a block's steps at once, and a reader would have to be told where to go on.
    while o < s.len() {
        let k = s[o];
        let g = records::group_of(k);
        let w = records::next_record(s, o);
        if g == group::SHAPES {
            let x = decode::decode_shape(s, o);
            put_shape(shapes, n.shapes, x);
            n.shapes = n.shapes + 1;
            o = w;
        } else if g == group::CELLS {
            put_cell(offsets, shaped, n.cells, s, o);
            n.cells = n.cells + 1;
            o = w;
        } else if g == group::BLOCKS {
            let r = records::skip_steps(s, w);
            put_block(bounds, starts, lengths, n.blocks, s, o, w, r.at);
            n.blocks = n.blocks + 1;
            n.steps = n.steps + r.count;
            o = r.at;
        } else {
            o = w;
        }
    }
    n
}

// The outline of a book that passed refusals 1, 2 and 4.
pub fn outline(s: &[u8]) -> Outline
    requires { Small s.now }
    ensures { result ≡ outline_of s.now }
{
    let mut shapes = [0u8; 128];
    let mut offsets = [0u16; 32];
    let mut shaped = [0u8; 32];
    let mut bounds = [0u8; 64];
    let mut starts = [0u16; 64];
    let mut lengths = [0u16; 64];
    let n = fill(
        s,
        &mut shapes,
        &mut offsets,
        &mut shaped,
        &mut bounds,
        &mut starts,
        &mut lengths,
    );
    Outline {
        c: Label(records::byte(s, 1)),
        counts: n,
        shapes: shapes,
        offsets: offsets,
        shaped: shaped,
        bounds: bounds,
        starts: starts,
        lengths: lengths,
    }
}

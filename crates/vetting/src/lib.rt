// Tables of which refusals 2 to 6 do not hold: a quick test, on the rows. Which holds first, and where, the writer's stages say.
#![tactic(auto)]

ghost use Rattle.std.specs.Prelude.{◌≡◌, true};
ghost use Rattle.rows.specs.Rows.{tables_in};
ghost use Rattle.vetting.specs.Asked.{shapes_of, cells_of, blocks_of, steps_of, SoundTables, CellShape, ShapeSound, ValueSound, StepSound, ShapesSound, CellsSound, BlocksSound, StepsSound};

use book::{kind, limit, value_kind};
use rows::{BLOCK_ROW, CELL_ROW, SHAPE_ROW, STEP_ROW, Tables};

// The most shapes, cells and blocks of a book, and the most steps of a block.
const MOST_SHAPES: usize = 32;

const MOST_CELLS: usize = 32;

const MOST_BLOCKS: usize = 64;

const MOST_STEPS: usize = 64;

fn is_cell_shape(shapes: &[[u8; SHAPE_ROW]], i: u8) -> bool
    ensures { result ≡ true → CellShape (shapes_of shapes.now) i }
{
    matches!(shapes.get(i as usize), Some([kind::CELL_SHAPE, ..]))
}

fn is_shape_sound(i: usize, k: u8, x: u8, y: u8) -> bool
    ensures { result ≡ true → ShapeSound i k x y }
{
    match k {
        kind::PLAIN_SHAPE => true,
        kind::CODE_SHAPE => x <= limit::LABEL,
        kind::CELL_SHAPE => (x as usize) < i && y <= limit::LABEL,
        _ => false,
    }
}

fn are_shapes_sound(shapes: &[[u8; SHAPE_ROW]]) -> bool
    ensures { result ≡ true → ShapesSound (shapes_of shapes.now) }
{
    shapes.len() <= MOST_SHAPES
        && shapes
            .iter()
            .enumerate()
            .all(|(i, &[k, x, y])| is_shape_sound(i, k, x, y))
}

fn is_value_sound(k: u8, n: u32, cells: usize, blocks: usize) -> bool
    ensures { result ≡ true → ValueSound cells blocks k n }
{
    match k {
        value_kind::PLAIN => true,
        value_kind::CELL => (n as usize) < cells,
        value_kind::CODE => (n as usize) < blocks,
        _ => false,
    }
}

fn are_cells_sound(cells: &[[u8; CELL_ROW]], shapes: &[[u8; SHAPE_ROW]], blocks: usize) -> bool
    ensures { result ≡ true → CellsSound (cells_of cells.now) (shapes_of shapes.now) blocks }
{
    cells.len() <= MOST_CELLS
        && cells.iter().all(|&[shape, label, k, n0, n1, n2, n3]| {
            let n = u32::from_le_bytes([n0, n1, n2, n3]);
            label <= limit::LABEL
                && is_cell_shape(shapes, shape)
                && is_value_sound(k, n, cells.len(), blocks)
        })
}

fn are_blocks_sound(blocks: &[[u8; BLOCK_ROW]], steps: usize) -> bool
    ensures { result ≡ true → BlocksSound (blocks_of blocks.now) steps }
{
    if blocks.is_empty() || MOST_BLOCKS < blocks.len() {
        return false;
    }
    let mut left = steps;
    for &[bound, n0, n1, n2, n3] in blocks {
        let count = u32::from_le_bytes([n0, n1, n2, n3]) as usize;
        if limit::LABEL < bound || MOST_STEPS < count || left < count {
            return false;
        }
        left -= count;
    }
    left == 0
}

fn is_step_sound(
    k: u8,
    x: u8,
    y: u8,
    z: u8,
    shapes: &[[u8; SHAPE_ROW]],
    cells: usize,
    blocks: usize,
) -> bool
    ensures { result ≡ true → StepSound (shapes_of shapes.now) cells blocks k x y z }
{
    match k {
        kind::PUT | kind::EXEC => x <= limit::REGISTER,
        kind::NAME => x <= limit::REGISTER && (y as usize) < cells,
        kind::CODE => x <= limit::REGISTER && (y as usize) < blocks,
        kind::ADD => x <= limit::REGISTER && y <= limit::REGISTER && z <= limit::REGISTER,
        kind::NEW => x <= limit::REGISTER && is_cell_shape(shapes, y) && z <= limit::REGISTER,
        kind::READ | kind::WRITE => x <= limit::REGISTER && y <= limit::REGISTER,
        kind::RELABEL => x <= limit::REGISTER && y <= limit::LABEL,
        kind::LOWER => x <= limit::LABEL,
        kind::START => (x as usize) < blocks,
        kind::CHOOSE => x <= limit::REGISTER && (y as usize) < blocks && (z as usize) < blocks,
        _ => false,
    }
}

fn are_steps_sound(
    steps: &[[u8; STEP_ROW]],
    shapes: &[[u8; SHAPE_ROW]],
    cells: usize,
    blocks: usize,
) -> bool
    ensures { result ≡ true → StepsSound (steps_of steps.now) (shapes_of shapes.now) cells blocks }
{
    steps.iter().all(|&[k, x, y, z, ..]| is_step_sound(k, x, y, z, shapes, cells, blocks))
}

// True only where the tables have none of these faults. A field that its kind does not use may be any.
pub fn are_sound(t: &Tables) -> bool
    ensures { result ≡ true → SoundTables (tables_in t.now.c t.now.shapes.now t.now.cells.now t.now.blocks.now t.now.steps.now) }
{
    let (shapes, _) = t.shapes.as_chunks::<SHAPE_ROW>();
    let (cells, _) = t.cells.as_chunks::<CELL_ROW>();
    let (blocks, _) = t.blocks.as_chunks::<BLOCK_ROW>();
    let (steps, _) = t.steps.as_chunks::<STEP_ROW>();
    t.c.0 <= limit::C
        && are_shapes_sound(shapes)
        && are_cells_sound(cells, shapes, blocks.len())
        && are_blocks_sound(blocks, steps.len())
        && are_steps_sound(steps, shapes, cells.len(), blocks.len())
}

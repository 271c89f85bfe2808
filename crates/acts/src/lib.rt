// One act of a run on what it reaches: who acts, and one cell, both by value.
#![tactic(auto)]

mod acts;
mod registers;

pub use acts::clamp;
use labels::Label;

// A stored value: kind 0 plain, 1 a cell, any other a block, as the book reads kinds. Its source is the lowest label of its history.
// The kind is a byte and no enum: one above 2 counts as a block too, as in the book.
#[derive(Clone, Copy)]
pub struct Stored {
    pub number: u32,
    pub kind: u8,
    pub source: Label,
}

// A cell: the number, kind and source of its content, its shape and its label. No byte is unused, so that a table of cells is cleared at once.
#[derive(Clone, Copy)]
pub struct StoredCell {
    pub number: u32,
    pub kind: u8,
    pub source: Label,
    pub shape: u8,
    pub label: Label,
}

// A job; its source is the lowest label of its history. Where its next step stands in the book is the run's to know.
#[derive(Clone, Copy)]
pub struct StoredJob {
    pub registers: [Stored; 8],
    pub at: usize,
    pub block: u32,
    pub position: u16,
    pub label: Label,
    pub source: Label,
}

// Who acts, a job or an outsider: its label, and the source of its history.
#[derive(Clone, Copy)]
pub struct Actor {
    pub label: Label,
    pub source: Label,
}

impl StoredCell {
    // The bytes of a cell in the table of cells, and those of the table.
    pub const BYTES: usize = 9;

    pub const TABLE_BYTES: usize = 576;
}

impl StoredJob {
    // How many cells, and how many jobs, a run may have.
    pub const TABLE_SIZE: usize = 64;

    // The bytes of a job in the table of jobs, and those of the table.
    pub const BYTES: usize = 52;

    pub const TABLE_BYTES: usize = 3328;
}

// What an act looks at: the cell that it reaches, and how many cells and jobs are in use.
#[derive(Clone, Copy)]
pub struct Near {
    pub cell: StoredCell,
    pub cells: usize,
    pub jobs: usize,
}

// What an act does: it is blocked; a register of the job that acts has this value; its label and its source are these; the cell that is reached
// now stands so; a cell is new, and a register of the job that acts names it; a job of this block, label and source is new.
#[derive(Clone, Copy)]
pub enum Act {
    Blocked,
    Give(u8, Stored),
    Lower(Label, Label),
    Store(StoredCell),
    Create(u8, StoredCell),
    Launch(u32, Label, Label),
}

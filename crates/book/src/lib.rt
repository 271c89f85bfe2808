// The words for what a job book says, and for what reading one gives.
#![tactic(auto)]

pub mod group;
pub mod kind;
pub mod limit;
pub mod value_kind;

ghost use Rattle.std.specs.Prelude.{◌≡◌};
ghost use Rattle.book.specs.Outcome.{Passed, ground_number, outcome};
ghost use Rattle.book.specs.Refusals.{or_refuse};
ghost use Rattle.book.specs.Outline.{no_counts, no_outline};
ghost use Rattle.book.specs.Stretch.{no_stretch};

use labels::{Label, Trust};

// A step of a block, its fields in the record's order.
#[derive(Clone, Copy)]
pub enum Step {
    Put(u8, u32),
    Name(u8, u8),
    Code(u8, u8),
    Add(u8, u8, u8),
    New(u8, u8, u8),
    Read(u8, u8),
    Write(u8, u8),
    Relabel(u8, Label),
    Lower(Label),
    Start(u8),
    Exec(u8),
    Choose(u8, u8, u8),
}

// A shape: 16 plain, 17 code of a bound, 18 cell of a content shape and a trust. What its kind does not have is 0. A struct and no enum: `shape_in`
// reads any four bytes of a table, also a kind that is none, and typing asks by the kind.
#[derive(Clone, Copy)]
pub struct Shape {
    pub kind: u8,
    pub bound: Label,
    pub content: u8,
    pub trust: Trust,
}

// A declared value: a plain number, a cell's number, a block's number.
#[derive(Clone, Copy)]
pub enum Value {
    Plain(u32),
    CellName(u32),
    CodeName(u32),
}

// A declared cell.
#[derive(Clone, Copy)]
pub struct Declared {
    pub shape: u8,
    pub label: Label,
    pub value: Value,
}

// Why a call is refused, by the number of the refusal.
#[derive(Clone, Copy, PartialEq, Eq, PartialOrd, Ord)]
pub enum Ground {
    LongBook = 1,
    Cut = 2,
    OutOfOrder = 3,
    TooMany = 4,
    OutOfRange = 5,
    Dangling = 6,
    CellRule = 7,
    StepRule = 8,
    BadList = 9,
    WrongTables = 10,
    FewAnswers = 11,
    NoBlock = 12,
    ShortBuffer = 13,
    HighLaunch = 14,
    ManyTurns = 15,
}

// A refusal: its ground, and its place.
#[derive(Clone, Copy, PartialEq, Eq)]
pub struct Refused {
    pub why: Ground,
    pub place: usize,
}

// How many shapes, cells and blocks stand so far, and how many steps in the block. A type of its own beside Counts, whose steps are those of the book.
#[derive(Clone, Copy)]
pub struct Tally {
    pub shapes: usize,
    pub cells: usize,
    pub blocks: usize,
    pub steps: usize,
}

// How many shapes, cells, blocks and steps a book has.
#[derive(Clone, Copy)]
pub struct Counts {
    pub shapes: usize,
    pub cells: usize,
    pub blocks: usize,
    pub steps: usize,
}

// Where a run of steps ends, and how many they are.
#[derive(Clone, Copy)]
pub struct Skipped {
    pub at: usize,
    pub count: usize,
}

// What a book says apart from its steps and its cells' values, in tables of numbers that can be lent. Unused entries are 0. Arrays with counts beside them:
// the library runs in fixed memory, and `outline_of` fixes each entry.
#[derive(Clone, Copy)]
pub struct Outline {
    pub c: Label,
    pub counts: Counts,
    // Of each shape four bytes: kind, bound, content shape, trust.
    pub shapes: [u8; 128],
    // Of each declared cell the offset of its record, and its shape.
    pub offsets: [u16; 32],
    pub shaped: [u8; 32],
    // Of each block its bound, the offset of its first step, and the length of its steps in bytes.
    pub bounds: [u8; 64],
    pub starts: [u16; 64],
    pub lengths: [u16; 64],
}

// A block's stretch: where it starts in the book, and its length.
#[derive(Clone, Copy)]
pub struct Stretch {
    pub start: usize,
    pub length: usize,
}

impl Counts {
    pub fn none() -> Counts
        ensures { result ≡ no_counts }
    {
        Counts {
            shapes: 0,
            cells: 0,
            blocks: 0,
            steps: 0,
        }
    }
}

impl Outline {
    // All zero: what stands for the outline of a book that is refused. The counts are written out: with a call for them LLVM copies an outline once more.
    pub fn empty() -> Outline
        ensures { result ≡ no_outline }
    {
        Outline {
            c: Label(0),
            counts: Counts {
                shapes: 0,
                cells: 0,
                blocks: 0,
                steps: 0,
            },
            shapes: [0u8; 128],
            offsets: [0u16; 32],
            shaped: [0u8; 32],
            bounds: [0u8; 64],
            starts: [0u16; 64],
            lengths: [0u16; 64],
        }
    }
}

impl Stretch {
    // What stands for a stretch that was not found.
    pub fn none() -> Stretch
        ensures { result ≡ no_stretch }
    {
        Stretch {
            start: 0,
            length: 0,
        }
    }
}

impl Ground {
    // The number of the refusal.
    pub fn number(self) -> u8
        ensures { result ≡ ground_number self }
    {
        self as u8
    }

    // A refusal at a place.
    pub fn at(self, place: usize) -> Refused
        ensures { result ≡ record { why = self; place = place } }
    {
        Refused { why: self, place }
    }

    // Refuses a book of which a record is at fault.
    pub fn refuse(self, fault: Option<usize>) -> Result<(), Refused>
        ensures { outcome result ≡ or_refuse (ground_number self) fault Passed }
    {
        match fault {
            Some(place) => Err(self.at(place)),
            None => Ok(()),
        }
    }
}

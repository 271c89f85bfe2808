// What stands for a row in the book.
ghost use Rattle.std.specs.Prelude.{◌≡◌, true, false, [], ◌∷◌, ◌+◌, ◌≤◌, length};
ghost use Rattle.book.specs.Records.{byte_at};
ghost use Rattle.rows.specs.Rows.{row_of, c_row, shape_row, cell_row, step_row, shape_row_in, cell_row_in, step_row_in, some_nonzero};
ghost use Rattle.writing.specs.Asked.{Enters, behind};

use book::{group, kind};
use labels::Label;

// The bytes of a record, of which length count, and what is wrong with its row: its kind is none of its table's; a field that its kind does
// not use is not 0.
#[derive(Clone, Copy)]
pub struct Entry {
    pub bytes: [u8; 8],
    pub length: usize,
    pub known: bool,
    pub spare: bool,
}

// A row whose kind is none of its table's counts as one byte.
const STRANGE_LENGTH: usize = 1;

impl Entry {
    fn known(bytes: [u8; 8], length: usize, spare: bool) -> Entry
        ensures { result ≡ record { bytes = bytes; length = length; known = true; spare = spare } }
    {
        Entry {
            bytes,
            length,
            known: true,
            spare,
        }
    }

    fn strange(bytes: [u8; 8]) -> Entry
        ensures { result ≡ record { bytes = bytes; length = 1; known = false; spare = false } }
    {
        Entry {
            bytes,
            length: STRANGE_LENGTH,
            known: false,
            spare: false,
        }
    }
}

// One of two fields is not 0.
#[tactic(auto, unfolding(rows::specs::Rows::some_nonzero, book::specs::Control::either))]
fn some_nonzero(x: u8, y: u8) -> bool
    ensures { result ≡ some_nonzero (x ∷ y ∷ []) }
{
    x != 0 || y != 0
}

// C.
pub fn c_entry(c: Label) -> Entry
    ensures { Enters result (c_row c) }
{
    Entry::known([kind::C, c.0, 0, 0, 0, 0, 0, 0], 2, false)
}

// The shape row at an offset.
pub fn shape_entry(t: &[u8], o: usize) -> Entry
    requires { o + 3 ≤ length t.now }
    ensures { Enters result (shape_row (shape_row_in t.now o)) }
{
    let k = t[o];
    let x = t[o + 1];
    let y = t[o + 2];
    let bytes = [k, x, y, 0, 0, 0, 0, 0];
    match k {
        kind::CELL_SHAPE => Entry::known(bytes, 3, false),
        kind::CODE_SHAPE => Entry::known(bytes, 2, some_nonzero(0, y)),
        kind::PLAIN_SHAPE => Entry::known(bytes, 1, some_nonzero(x, y)),
        _ => Entry::strange(bytes),
    }
}

// The cell row at an offset.
pub fn cell_entry(t: &[u8], o: usize) -> Entry
    requires { o + 7 ≤ length t.now }
    ensures { Enters result (cell_row (cell_row_in t.now o)) }
{
    let n = o + 3;
    Entry::known(
        [
            kind::CELL,
            t[o],
            t[o + 1],
            t[o + 2],
            t[n],
            t[n + 1],
            t[n + 2],
            t[n + 3],
        ],
        8,
        false,
    )
}

// A block of a bound.
pub fn block_entry(bound: u8) -> Entry
    ensures { Enters result (row_of 4 48 (bound ∷ [])) }
{
    Entry::known([kind::BLOCK, bound, 0, 0, 0, 0, 0, 0], 2, false)
}

// The step row at an offset, of kind put: a register and the number.
pub fn put_entry(t: &[u8], o: usize) -> Entry
    requires { (o + 8 ≤ length t.now) × (byte_at t.now o ≡ 64) }
    ensures { Enters result (step_row (step_row_in t.now o)) }
{
    let y = t[o + 2];
    let z = t[o + 3];
    let m = o + 4;
    let last = t[m + 3];
    Entry::known(
        [kind::PUT, t[o + 1], t[m], t[m + 1], t[m + 2], last, y, z],
        6,
        some_nonzero(y, z),
    )
}

// A field behind the first n bytes of a step other than put is not 0; whether its number is not is known.
#[tactic(auto, unfolding(crate::specs::Asked::behind, book::specs::Control::either, book::specs::Control::both))]
fn is_spare(n: u8, y: u8, z: u8, number: bool) -> bool
    ensures { result ≡ behind n y z number }
{
    number || (n < 4 && z != 0) || (n < 3 && y != 0)
}

// The step row at an offset, of any other kind. Whatever the kind, the same bytes are laid, so that they are moved at once.
pub fn other_entry(t: &[u8], o: usize) -> Entry
    requires { (o + 8 ≤ length t.now) × (byte_at t.now o ≡ 64 → ⊥) }
    ensures { Enters result (step_row (step_row_in t.now o)) }
{
    let k = t[o];
    let y = t[o + 2];
    let z = t[o + 3];
    let m = o + 4;
    let bytes = [k, t[o + 1], y, z, t[m], t[m + 1], t[m + 2], t[m + 3]];
    if records::group_of(k) != group::STEPS {
        return Entry::strange(bytes);
    }
    let n = records::span_of(k);
    let number = u32::from_le_bytes([t[m], t[m + 1], t[m + 2], t[m + 3]]) != 0;
    Entry::known(bytes, n as usize, is_spare(n, y, z, number))
}

// Bytes and numbers of a book, and what a kind fixes.
ghost use Rattle.std.specs.Prelude.{◌≡◌, ◌+◌, ◌*◌, ◌≤◌, length};
ghost use Rattle.book.specs.Kinds.{span, group};
ghost use Rattle.book.specs.Records.{byte_at, number_at};

use book::{group, kind};

// The byte at an offset; 0 past the end.
pub fn byte(s: &[u8], i: usize) -> u8
    ensures { result ≡ byte_at s.now i }
{
    s.get(i).copied().unwrap_or(0)
}

// An offset of an outline's tables.
pub fn offset_of(x: u16) -> usize
    ensures { result ≡ x }
{
    usize::from(x)
}

// A number of 4 bytes, little-endian. Inside the book one test serves all four; `s.get(o..o + 4)` compares its ends too, and took 108
// instructions for 103 at each event of the bench's run `writes`.
#[tactic(auto, unfolding(book::specs::Records::number_at))]
pub fn number(s: &[u8], o: usize) -> u32
    requires { o ≤ length s.now + 4 }
    ensures { result ≡ number_at s.now o }
{
    if o + 4 <= s.len() {
        return u32::from_le_bytes([s[o], s[o + 1], s[o + 2], s[o + 3]]);
    }
    u32::from_le_bytes([byte(s, o), byte(s, o + 1), byte(s, o + 2), byte(s, o + 3)])
}

// The bytes of a step of a kind. Put is asked for first: the longest books are full of it.
fn step_span(kind: u8) -> u8
    requires { 64 ≤ kind }
    ensures { result ≡ span kind }
{
    if kind == kind::PUT {
        return 6;
    }
    if kind::LOWER <= kind {
        if kind <= kind::EXEC {
            return 2;
        }
        if kind <= kind::CHOOSE {
            return 4;
        }
        return 0;
    }
    if kind::READ <= kind {
        return 3;
    }
    if kind::ADD <= kind {
        return 4;
    }
    3
}

// The bytes of a record of a kind; 0 where no record has the kind.
pub fn span_of(kind: u8) -> u8
    ensures { result ≡ span kind }
{
    if kind::PUT <= kind {
        return step_span(kind);
    }
    if kind::BLOCK < kind {
        return 0;
    }
    if kind::BLOCK <= kind {
        return 2;
    }
    if kind::CELL < kind {
        return 0;
    }
    if kind::CELL <= kind {
        return 8;
    }
    if kind::CELL_SHAPE < kind {
        return 0;
    }
    if kind::CELL_SHAPE <= kind {
        return 3;
    }
    if kind::CODE_SHAPE <= kind {
        return 2;
    }
    if kind::PLAIN_SHAPE <= kind {
        return 1;
    }
    if kind::C < kind {
        return 0;
    }
    if kind::C <= kind {
        return 2;
    }
    0
}

// The group of a kind.
pub fn group_of(kind: u8) -> u8
    ensures { result ≡ group kind }
{
    if kind::PUT <= kind {
        if kind <= kind::CHOOSE {
            return group::STEPS;
        }
        return group::NONE;
    }
    if kind == kind::BLOCK {
        return group::BLOCKS;
    }
    if kind == kind::CELL {
        return group::CELLS;
    }
    if kind::PLAIN_SHAPE <= kind {
        if kind <= kind::CELL_SHAPE {
            return group::SHAPES;
        }
        return group::NONE;
    }
    if kind == kind::C {
        return group::C;
    }
    group::NONE
}

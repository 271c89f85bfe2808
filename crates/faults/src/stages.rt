// Refusals 2 to 5: each the first record at fault. Refusal 6 needs the outline, and stands in naming.rt.
ghost use Rattle.std.specs.Prelude.{◌≡◌, false, ◌<◌, min, length};
ghost use Rattle.book.specs.Refusals.{cut_fault, in_order, order_fault, counted, too_many, count_fault, out_of_range, range_fault};
ghost use Rattle.book.specs.Asked.{Whole, limit};
ghost use Rattle.book.specs.Records.{cut};

use book::{Tally, group, kind, limit};
use records::Reader;

// The record at an offset is of a kind that is none, or the book ends in its body.
#[tactic(auto, using(crate::proofs::Sweeps::cuts))]
fn is_cut(s: &[u8], o: usize) -> bool
    requires { o < length s.now }
    ensures { result ≡ cut s.now o }
{
    let end = records::next_record(s, o);
    end == o || s.len() < end
}

// 2: a kind that is none, or a body that the book ends in.
pub fn cut_fault(s: &[u8]) -> Option<usize>
    ensures { result ≡ cut_fault s.now }
{
    Reader::new(s).find(|&o| is_cut(s, o))
}

// A record of group g may stand after one of group p.
pub fn in_order(p: u8, g: u8) -> bool
    ensures { result ≡ in_order p g }
{
    if p == group::NONE {
        return g == group::C;
    }
    if g == group::STEPS {
        return p == group::BLOCKS;
    }
    if group::C < g {
        return p <= g;
    }
    false
}

// A step counts as of its block's group.
pub fn block_group(g: u8) -> u8
    ensures { result ≡ min g 4 }
{
    if g < group::BLOCKS { g } else { group::BLOCKS }
}

// 3: the first record is not C, a record is out of order, or no block stands.
#[tactic(auto, using(crate::proofs::Sweeps::orders))]
pub fn order_fault(s: &[u8]) -> Option<usize>
    requires { Whole s.now 0 }
    ensures { result ≡ order_fault s.now }
{
    let mut p = group::NONE;
    for o in Reader::new(s) {
        let g = records::group_of(s[o]);
        if !in_order(p, g) {
            return Some(o);
        }
        p = block_group(g);
    }
    if p == group::BLOCKS {
        None
    } else {
        Some(s.len())
    }
}

// One record more.
pub fn count(n: Tally, g: u8) -> Tally
    requires { too_many n ≡ false }
    ensures { result ≡ counted n g }
{
    let mut m = n;
    if g == group::SHAPES {
        m.shapes = n.shapes + 1;
        return m;
    }
    if g == group::CELLS {
        m.cells = n.cells + 1;
        return m;
    }
    if g == group::BLOCKS {
        m.blocks = n.blocks + 1;
        m.steps = 0;
        return m;
    }
    if g == group::STEPS {
        m.steps = n.steps + 1;
        return m;
    }
    m
}

pub fn too_many(n: Tally) -> bool
    ensures { result ≡ too_many n }
{
    if 32 < n.shapes {
        return true;
    }
    if 32 < n.cells {
        return true;
    }
    if 64 < n.blocks {
        return true;
    }
    64 < n.steps
}

// 4: a record beyond 32 shapes, 32 cells, 64 blocks or 64 steps in a block.
#[tactic(auto, using(crate::proofs::Sweeps::tallies))]
pub fn count_fault(s: &[u8]) -> Option<usize>
    requires { Whole s.now 0 }
    ensures { result ≡ count_fault s.now }
{
    let mut n = Tally {
        shapes: 0,
        cells: 0,
        blocks: 0,
        steps: 0,
    };
    for o in Reader::new(s) {
        n = count(n, records::group_of(s[o]));
        let many = too_many(n);
        if many {
            return Some(o);
        }
    }
    None
}

// The largest value of a record's first field; that of any byte where any will do, or none stands.
fn first_limit(kind: u8) -> u8
    ensures { result ≡ limit kind 0 }
{
    if kind::CHOOSE < kind {
        return limit::ANY;
    }
    if kind::EXEC <= kind {
        return limit::REGISTER;
    }
    if kind::START <= kind {
        return limit::ANY;
    }
    if kind::LOWER <= kind {
        return limit::LABEL;
    }
    if kind::PUT <= kind {
        return limit::REGISTER;
    }
    if kind::BLOCK < kind {
        return limit::ANY;
    }
    if kind::BLOCK <= kind {
        return limit::LABEL;
    }
    if kind::CELL_SHAPE <= kind {
        return limit::ANY;
    }
    if kind::CODE_SHAPE <= kind {
        return limit::LABEL;
    }
    if kind::C < kind {
        return limit::ANY;
    }
    if kind::C <= kind {
        return limit::C;
    }
    limit::ANY
}

// That of its second.
fn second_limit(kind: u8) -> u8
    ensures { result ≡ limit kind 1 }
{
    if kind::LOWER <= kind {
        return limit::ANY;
    }
    if kind::RELABEL <= kind {
        return limit::LABEL;
    }
    if kind::READ <= kind {
        return limit::REGISTER;
    }
    if kind::NEW <= kind {
        return limit::ANY;
    }
    if kind::ADD <= kind {
        return limit::REGISTER;
    }
    if kind::CELL < kind {
        return limit::ANY;
    }
    if kind::CELL <= kind {
        return limit::LABEL;
    }
    if kind::CELL_SHAPE < kind {
        return limit::ANY;
    }
    if kind::CELL_SHAPE <= kind {
        return limit::LABEL;
    }
    limit::ANY
}

// That of its third.
fn third_limit(kind: u8) -> u8
    ensures { result ≡ limit kind 2 }
{
    if kind::READ <= kind {
        return limit::ANY;
    }
    if kind::ADD <= kind {
        return limit::REGISTER;
    }
    if kind::CELL < kind {
        return limit::ANY;
    }
    if kind::CELL <= kind {
        return limit::VALUE_KIND;
    }
    limit::ANY
}

// A field is above its largest value. No field after the third has one.
fn out_of_range(s: &[u8], o: usize) -> bool
    requires { o < length s.now }
    ensures { result ≡ out_of_range s.now o }
{
    let k = s[o];
    if first_limit(k) < records::byte(s, o + 1) {
        return true;
    }
    if second_limit(k) < records::byte(s, o + 2) {
        return true;
    }
    third_limit(k) < records::byte(s, o + 3)
}

// 5: a label, bound or trust above 15, C above 14, a register above 7, a value kind above 2.
pub fn range_fault(s: &[u8]) -> Option<usize>
    requires { Whole s.now 0 }
    ensures { result ≡ range_fault s.now }
{
    Reader::new(s).find(|&o| out_of_range(s, o))
}

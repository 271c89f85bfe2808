// The checker: the verdict on a book.
#![tactic(auto)]

mod blocks;
mod declared;

ghost use Rattle.std.specs.Prelude.{◌≡◌};
ghost use Rattle.book.specs.Outcome.{Passed};
ghost use Rattle.book.specs.Refusals.{unreadable};
ghost use Rattle.book.specs.Outline.{outline_of};
ghost use Rattle.typing.specs.Verdict.{verdict_by, typed, verdict};

use book::{Counts, Ground, Outline, Refused};
use typing::Tables;

// A readable book's verdict, from its outline.
#[tactic(auto, using(crate::proofs::Tables::fronts))]
fn type_book(book: &[u8], t: Outline) -> Result<Counts, Refused>
    requires { (unreadable book.now ≡ Passed) × (t ≡ outline_of book.now) }
    ensures { verdict_by result ≡ typed book.now }
{
    let n = t.counts;
    let tables = Tables {
        c: t.c,
        shapes: &t.shapes,
        shaped: &t.shaped[..n.cells],
        bounds: &t.bounds[..n.blocks],
    };
    let offsets = &t.offsets[..n.cells];
    Ground::CellRule.refuse(declared::cell_fault(book, &tables, offsets))?;
    let starts = &t.starts[..n.blocks];
    let lengths = &t.lengths[..n.blocks];
    Ground::StepRule.refuse(blocks::step_fault(book, &tables, starts, lengths))?;
    Ok(n)
}

// Checks a book: refused by 1 to 8, or accepted with its counts. Writes nothing.
pub fn check(book: &[u8]) -> Result<Counts, Refused>
    ensures { verdict_by result ≡ verdict book.now }
{
    let t = reading::read(book)?;
    type_book(book, t)
}

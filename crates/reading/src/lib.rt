// Reading a job book: refusals 1 to 6, the outline, a block's stretch.
#![tactic(auto)]

mod gather;

ghost use Rattle.std.specs.Prelude.{◌≡◌, ◌+◌, ◌≤◌, length};
ghost use Rattle.book.specs.Asked.{Clear};
ghost use Rattle.book.specs.Outline.{read_by, reading};
ghost use Rattle.book.specs.Stretch.{found_by, found_block, stretch};

use book::{Ground, Outline, Refused, Stretch};

// The bytes of the longest book that can be read.
const LONGEST: usize = 32768;

// Reads a book that refusals 1 to 5 do not hold of: refused by 6, or its outline.
fn read_clear(book: &[u8]) -> Result<Outline, Refused>
    requires { (length book.now ≤ 32768) × Clear book.now }
    ensures { read_by result ≡ reading book.now }
{
    let outline = gather::outline(book);
    Ground::Dangling.refuse(faults::name_fault(book, outline))?;
    Ok(outline)
}

// Reads a book: its refusal by 1 to 6, or its outline. The stages of 2 to 5 are gone through only where one of them may hold.
pub fn read(book: &[u8]) -> Result<Outline, Refused>
    ensures { read_by result ≡ reading book.now }
{
    if LONGEST < book.len() {
        return Err(Ground::LongBook.at(0));
    }
    let clear = screening::is_clear(book);
    if !clear {
        Ground::Cut.refuse(faults::cut_fault(book))?;
        Ground::OutOfOrder.refuse(faults::order_fault(book))?;
        Ground::TooMany.refuse(faults::count_fault(book))?;
        Ground::OutOfRange.refuse(faults::range_fault(book))?;
    }
    read_clear(book)
}

// Where a block's stretch stands: its refusal by 1 to 6 or 12, or its start and length.
pub fn find_block(book: &[u8], block: usize) -> Result<Stretch, Refused>
    ensures { found_by result ≡ found_block book.now block }
{
    let t = read(book)?;
    if block < t.counts.blocks {
        let start = t.starts[block];
        let length = t.lengths[block];
        return Ok(Stretch {
            start: start as usize,
            length: length as usize,
        });
    }
    Err(Ground::NoBlock.at(0))
}

// A block's stretch of the book, steps only; empty after a refusal, which find_block gives. It lies in the lent book, where the block's record says,
// also where it is empty; after a refusal at the book's first byte. (A pointer is a piece of memory and an offset in it.)
pub fn block_stretch(book: &[u8], block: usize) -> &[u8]
    ensures result_value { result.now ≡ stretch book.now block }
    ensures ref_ptr_value { result.ref_ptr ≡ (book.entry.ref_ptr.0, (found_block book.now block).start + book.entry.ref_ptr.1) }
{
    let f = find_block(book, block).unwrap_or(Stretch::none());
    let start = f.start;
    let end = start + f.length;
    &book[start..end]
}

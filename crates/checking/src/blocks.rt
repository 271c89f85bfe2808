// The steps of a book, block by block: refusal 8.
ghost use Rattle.std.specs.Prelude.{◌≡◌, ◌+◌, ◌≤◌, length};
ghost use Rattle.book.specs.Book.{blocks_of};
ghost use Rattle.book.specs.Asked.{Whole, Laid};
ghost use Rattle.typing.specs.Verdict.{step_fault};
ghost use Rattle.typing.specs.Asked.{viewed};
ghost use Rattle.checking.specs.Asked.{stretch_fault};

use labels::Label;
use typing::{State, Stepped, Tables};

// The first step of a block's stretch that breaks its rule, by its offset in the book, where the stretch starts at start.
pub fn check_block(tables: &Tables, stretch: &[u8], start: usize, bound: Label) -> Option<usize>
    requires { Whole stretch.now 0 × (start + length stretch.now ≤ 65536) }
    ensures { result ≡ stretch_fault (viewed tables.now) stretch.now start bound }
{
    let mut t = State::fresh(bound);
    let mut o: usize = 0;
    // By the offset that `step_at` hands out with each step, and so no `for`.
    while o < stretch.len() {
        let Some((p, next)) = decode::step_at(stretch, o) else {
            return None;
        };
        match tables.type_step(t, p) {
            Stepped::Passes => o = next,
            Stepped::Gives(r, given) => {
                let i = r as usize;
                if i < 8 {
                    t.registers[i] = given;
                }
                o = next;
            }
            Stepped::Lowers(q) => {
                t.p = q;
                t.lowered = true;
                o = next;
            }
            Stepped::Stuck => return None,
            Stepped::Breaks => return Some(start + o),
        }
    }
    None
}

// The first step of a book that breaks its rule: each block's stretch, one after the other.
pub fn step_fault(book: &[u8], tables: &Tables, starts: &[u16], lengths: &[u16]) -> Option<usize>
    requires { Laid book.now tables.now.bounds.now starts.now lengths.now }
    ensures { result ≡ step_fault (viewed tables.now) book.now (blocks_of book.now) }
{
    for (i, bound) in tables.bounds.iter().enumerate() {
        let start = records::offset_of(starts[i]);
        let length = records::offset_of(lengths[i]);
        let stretch = &book[start..start + length];
        if let Some(o) = check_block(tables, stretch, start, Label(*bound)) {
            return Some(o);
        }
    }
    None
}

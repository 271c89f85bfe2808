// The declared cells of a book: refusal 7.
ghost use Rattle.std.specs.Prelude.{◌≡◌};
ghost use Rattle.book.specs.Asked.{Listed};
ghost use Rattle.typing.specs.Verdict.{cell_fault};
ghost use Rattle.typing.specs.Asked.{viewed};

use typing::Tables;

// The first declared cell that breaks its rule.
#[tactic(auto, using(crate::proofs::DeclaredCells::cells))]
pub fn cell_fault(book: &[u8], tables: &Tables, offsets: &[u16]) -> Option<usize>
    requires { Listed book.now offsets.now }
    ensures { result ≡ cell_fault (viewed tables.now) book.now offsets.now }
{
    for offset in offsets {
        let o = records::offset_of(*offset);
        let Some(d) = decode::cell_at(book, o) else {
            return None;
        };
        if !tables.is_declared_ok(d) {
            return Some(o);
        }
    }
    None
}

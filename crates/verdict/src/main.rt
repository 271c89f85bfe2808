// Reads a book on standard input and prints its verdict. Where the input cannot be read, standard error has the reason, and standard output
// nothing. One byte more than the limit is enough to refuse a longer book; what cannot be read up to the byte behind that one is no book.
#![tactic(auto)]

mod words;

ghost use Rattle.std.specs.Prelude.{◌<◌, ◌≤◌, IfOk, length, take};
ghost use Rattle.std.specs.Io.KnownBytes.{Consumes, IsAtEnd};

use std::io;
use std::io::Read;
use words::Words;

// Fills the space as far as the input goes, and gives the number of its bytes.
fn fill<R: Read>(input: &mut R, space: &mut [u8]) -> io::Result<usize>
    ensures within { IfOk result (λ n. n ≤ length space.new) }
    ensures bytes { IfOk result (λ n. Consumes (R.remaining input.old) (R.remaining input.new) (take n space.new)) }
    ensures all { IfOk result (λ n. n < length space.new → IsAtEnd (R.remaining input.new)) }
{
    let mut n: usize = 0;
    // As many bytes at once as the input gives, and so no `for`.
    while n < space.len() {
        let more = input.read(&mut space[n..])?;
        if more == 0 {
            return Ok(n);
        }
        n = n + more;
    }
    Ok(n)
}

fn main(rt: HostRuntime) -> io::Result<()> {
    let mut space = [0u8; 32770];
    let n = fill(&mut rt.stdin(), &mut space)?;
    println!(&rt; "{}", Words(checking::check(&space[..n])))
}

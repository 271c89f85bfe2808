// From one record to the next.
ghost use Rattle.std.specs.Prelude.{◌≡◌, ◌<◌, ◌≤◌, length};
ghost use Rattle.book.specs.Records.{next};
ghost use Rattle.book.specs.Asked.{Whole, skipped};

use crate::reader::Reader;
use crate::{fields, reader};
use book::{Skipped, group};

// The offset past the record at an offset, for callers that see no reader.
pub fn next_record(s: &[u8], o: usize) -> usize
    requires { o < length s.now }
    ensures { result ≡ next s.now o }
{
    reader::record_end(s, o)
}

// Past the steps that stand from an offset on.
pub fn skip_steps(s: &[u8], from: usize) -> Skipped
    requires { (from ≤ length s.now) × Whole s.now from }
    ensures { result ≡ skipped s.now from }
{
    let mut n: usize = 0;
    for o in Reader::new(s).moved(from) {
        if fields::group_of(s[o]) != group::STEPS {
            return Skipped { at: o, count: n };
        }
        n = n + 1;
    }
    Skipped {
        at: s.len(),
        count: n,
    }
}

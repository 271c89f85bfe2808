// The reader of a book: "A book is read record by record from its first byte." It holds the lent book and an offset, and gives the records one by one; the work
// is in `record_end`, on slice and offset.
ghost use Rattle.std.specs.Prelude.{◌≡◌, ◌<◌, length};
ghost use Rattle.book.specs.Records.{next};
ghost use Rattle.records.specs.Readers.{reader_at, records_left, ReadsOn};
ghost use Rattle.std.specs.Iterator.{item_count};

use crate::fields;

// The book, and the offset of the record at hand.
#[derive(Clone, Copy)]
pub struct Reader<'a> {
    pub book: &'a [u8],
    pub at: usize,
}

// The offset past the record at an offset.
pub fn record_end(s: &[u8], o: usize) -> usize
    requires { o < length s.now }
    ensures { result ≡ next s.now o }
{
    let k = s[o];
    let w = fields::span_of(k);
    o + w as usize
}

impl<'a> Reader<'a> {
    // At the book's first byte.
    pub fn new(book: &'a [u8]) -> Reader<'a>
        ensures { result ≡ reader_at book.entry 0 }
    {
        Reader { book, at: 0 }
    }

    // The same book, at another offset.
    pub fn moved(self, to: usize) -> Reader<'a>
        ensures { result ≡ reader_at self.entry.book to }
    {
        Reader {
            book: self.book,
            at: to,
        }
    }
}

// The records from the offset on, each by its own. One that refusal 2 holds of is the last.
impl<'a> Iterator for Reader<'a> {
    type Item = usize;

    ghost next_gives = { ReadsOn };

    ghost remaining = { item_count records_left };

    fn next(&mut self) -> Option<usize> {
        let o = self.at;
        if self.book.len() <= o {
            return None;
        }
        let end = record_end(self.book, o);
        self.at = if end == o { self.book.len() } else { end };
        Some(o)
    }
}

// The fields of the record or the event at an offset, for a reader that goes through bytes one by one.
#![tactic(auto)]

ghost use Rattle.std.specs.Prelude.{◌≡◌, ◌≤◌, ◌<◌, length};
ghost use Rattle.listing.specs.Fields.{field_at, fields_end, number_if, no_fields, fields_to};
ghost use Rattle.listing.specs.Fields.{has_number, record_fields, event_has_number, event_fields};

use book::kind;
use machine::kind as event;

// What stands at an offset: the kind, the fields of one byte in their order, the number, and the offset of what follows. What the kind
// does not have is 0; the kind is 0, and all else, where nothing whole stands. No Option: C is told by the kind, and `no_fields` says all of it.
#[derive(Clone, Copy)]
pub struct Fields {
    pub kind: u8,
    pub first: u8,
    pub second: u8,
    pub third: u8,
    pub number: u32,
    pub next: usize,
}

impl Fields {
    fn none() -> Fields
        ensures { result ≡ no_fields }
    {
        Fields {
            kind: 0,
            first: 0,
            second: 0,
            third: 0,
            number: 0,
            next: 0,
        }
    }
}

// The field of one byte at an offset, where these fields end; 0 behind them.
fn field_at(s: &[u8], i: usize, end: usize) -> u8
    ensures { result ≡ field_at s.now i end }
{
    if i < end { records::byte(s, i) } else { 0 }
}

// Where the fields of one byte end: a number is the last 4 bytes of its record.
fn fields_end(next: usize, numbered: bool) -> usize
    ensures { result ≡ fields_end next numbered }
{
    if numbered {
        if next < 4 {
            return 0;
        }
        return next - 4;
    }
    next
}

// The number behind the fields of one byte; 0 where the kind has none.
fn number_at(s: &[u8], end: usize, numbered: bool) -> u32
    requires { end ≤ length s.now }
    ensures { result ≡ number_if numbered s.now end }
{
    if numbered { records::number(s, end) } else { 0 }
}

// The fields of what stands whole from an offset to the next.
fn fields_to(s: &[u8], o: usize, next: usize, numbered: bool) -> Fields
    requires { (o < length s.now) × (next ≤ length s.now) }
    ensures { result ≡ fields_to s.now o next numbered }
{
    let end = fields_end(next, numbered);
    let kind = s[o];
    let first = field_at(s, o + 1, end);
    let second = field_at(s, o + 2, end);
    let third = field_at(s, o + 3, end);
    let number = number_at(s, end, numbered);
    Fields {
        kind: kind,
        first: first,
        second: second,
        third: third,
        number: number,
        next: next,
    }
}

// A record of the kind has a number.
fn has_number(kind: u8) -> bool
    ensures { result ≡ has_number kind }
{
    if kind == kind::CELL {
        return true;
    }
    kind == kind::PUT
}

// An event of the kind has a number.
fn event_has_number(kind: u8) -> bool
    ensures { result ≡ event_has_number kind }
{
    if kind == event::WRITE {
        return true;
    }
    kind == event::NEW
}

// The record at an offset of a book.
pub fn record(book: &[u8], offset: usize) -> Fields
    ensures { result ≡ record_fields book.now offset }
{
    if book.len() <= offset {
        return Fields::none();
    }
    let next = records::next_record(book, offset);
    if next == offset {
        return Fields::none();
    }
    if book.len() < next {
        return Fields::none();
    }
    fields_to(book, offset, next, has_number(book[offset]))
}

// The event at an offset of a list.
pub fn event(list: &[u8], offset: usize) -> Fields
    ensures { result ≡ event_fields list.now offset }
{
    if list.len() <= offset {
        return Fields::none();
    }
    let past = events::next_event(list, offset);
    if past == offset {
        return Fields::none();
    }
    if list.len() < past {
        return Fields::none();
    }
    fields_to(list, offset, past, event_has_number(list[offset]))
}

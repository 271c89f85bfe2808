// Writing a job book from its tables: refusals 1 to 6 and 13, or the bytes.
#![tactic(auto)]

mod counts;
mod entries;
mod laying;

ghost use Rattle.std.specs.Prelude.{◌≡◌, ◌+◌, ◌≤◌, ◌<◌, length, MatchOption};
ghost use Rattle.book.specs.Outcome.{outcome};
ghost use Rattle.std.specs.Prelude.{None};
ghost use Rattle.book.specs.Refusals.{cut_fault};
ghost use Rattle.records.specs.Copies.{put_at};
ghost use Rattle.rows.specs.Rows.{bytes_of, lent_tables};
ghost use Rattle.rows.specs.Write.{write_by, written_of, written};
ghost use Rattle.writing.specs.Asked.{Drafted, earlier_of, joined, judged, unsound, roomed};

use book::{Ground, Refused};
use laying::Pen;
use rows::Tables;

// The bytes of a draft: 8 more than a book in it may have.
const SHORT_DRAFT: usize = 136;

const LONG_DRAFT: usize = 32776;

// The place of refusal 5 where a spare field stands at o, and the reader refuses by 5 or a later number at a place.
fn earlier_of(number: u8, place: usize, o: usize) -> usize
    ensures { result ≡ earlier_of number place o }
{
    if number == 5 {
        if place < o {
            return place;
        }
    }
    o
}

// The reader's refusal of what would be written, with the first spare field: both are of the stage of refusal 5, and the earlier place counts.
fn with_spare(read: Result<(), Refused>, spare: Option<usize>) -> Result<(), Refused>
    ensures { outcome result ≡ joined (outcome read) spare }
{
    let Some(o) = spare else {
        return read;
    };
    match read {
        Ok(_) => Err(Ground::OutOfRange.at(o)),
        Err(e) => {
            let number = e.why.number();
            if number < 5 {
                return read;
            }
            Err(Ground::OutOfRange.at(earlier_of(number, e.place, o)))
        }
    }
}

// Refusals 3 to 6 of a draft whose rows are all known.
fn judge(draft: &[u8], spare: Option<usize>) -> Result<(), Refused>
    requires { (length draft.now ≤ 32768) × (cut_fault draft.now ≡ None) }
    ensures { outcome result ≡ judged draft.now spare }
{
    let read = reading::read(draft).and(Ok(()));
    with_spare(read, spare)
}

// Refusals 2 to 6 of tables, with their draft. It is read only where the rows are not sound at first sight.
fn refusal_of(draft: &[u8], pen: Pen, t: &Tables) -> Result<(), Refused>
    requires { Drafted (lent_tables t.now) draft.now pen }
    ensures { outcome result ≡ unsound (lent_tables t.now) }
{
    let spare = pen.spare;
    if vetting::are_sound(t) {
        return with_spare(Ok(()), spare);
    }
    if !counts::agree(t.blocks, t.steps.len() / rows::STEP_ROW) {
        return Err(Ground::Cut.at(0));
    }
    match pen.strange {
        Some(o) => Err(Ground::Cut.at(o)),
        None => judge(draft, spare),
    }
}

// Copies src into dst, from index at on. A loop beside `records::copy_in`: by that, of a length that is not known, the library would ask for memmove, and
// it asks for memcpy and memset alone.
fn copy_long(dst: &mut [u8], at: usize, src: &[u8])
    requires { at + length src.now ≤ length dst.old }
    ensures { dst.new ≡ put_at dst.old at src.now }
{
    for j in 0..src.len() {
        dst[at + j] = src[j];
    }
}

// The draft into the buffer, if it is not refused and fits.
#[tactic(auto, using(crate::proofs::Judged::delivers))]
fn deliver(refusal: Result<(), Refused>, draft: &[u8], out: &mut [u8]) -> Result<usize, Refused>
    ensures { write_by result out.new
        ≡ written_of (roomed (outcome refusal) (length draft.now) (length out.old)) draft.now out.old }
{
    refusal?;
    if out.len() < draft.len() {
        return Err(Ground::ShortBuffer.at(0));
    }
    copy_long(out, 0, draft);
    Ok(draft.len())
}

// From the draft of tables that refusal 1 does not hold of.
fn finish(draft: &[u8], pen: Pen, t: &Tables, out: &mut [u8]) -> Result<usize, Refused>
    requires { Drafted (lent_tables t.now) draft.now pen }
    ensures { write_by result out.new ≡ written (lent_tables t.now) out.old }
{
    let refusal = refusal_of(draft, pen, t);
    deliver(refusal, draft, out)
}

// By a draft of so many bytes, unless the book is longer than a draft of that size holds.
fn draft_by<const ROOM: usize>(t: &Tables, out: &mut [u8]) -> Option<Result<usize, Refused>>
    requires { (8 ≤ ROOM) × (ROOM ≤ 32776) }
    ensures { MatchOption result ((ROOM < 8 + length (bytes_of (lent_tables t.now))) × (out.new ≡ out.old))
        (λ w. write_by w out.new ≡ written (lent_tables t.now) out.old) }
{
    let mut draft = [0u8; ROOM];
    let pen = laying::lay_tables(&mut draft, t);
    let n = pen.at;
    if ROOM - 8 < n {
        return None;
    }
    Some(finish(&draft[..n], pen, t, out))
}

// Writes the book of the tables into the buffer: refused by 1 to 6 or 13, and then nothing is written; else the length of the book. A short book needs a
// short draft alone.
pub fn write(t: &Tables, out: &mut [u8]) -> Result<usize, Refused>
    ensures { write_by result out.new ≡ written (lent_tables t.now) out.old }
{
    if let Some(w) = draft_by::<SHORT_DRAFT>(t, out) {
        return w;
    }
    if let Some(w) = draft_by::<LONG_DRAFT>(t, out) {
        return w;
    }
    Err(Ground::LongBook.at(0))
}

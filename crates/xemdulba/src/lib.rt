// The library for other languages: include/xemdulba.h declares it.
#![tactic(auto)]

ghost use Rattle.std.specs.Prelude.{◌≡◌};
ghost use Rattle.book.specs.Stretch.{found_block};
ghost use Rattle.typing.specs.Verdict.{verdict};
ghost use Rattle.interpreter.specs.Run.{ran};
ghost use Rattle.scheduler.specs.Rounds.{rounded};
ghost use Rattle.listing.specs.Fields.{record_fields, event_fields};
ghost use Rattle.rows.specs.Rows.{tables_in};
ghost use Rattle.rows.specs.Write.{written};
ghost use Rattle.xemdulba.specs.Calls.{checked, found, Call, called, RoundCall, round_called, fields_told, label_of, launch_of, WriteCall, wrote};

use labels::Label;
use listing::Fields;
use rows::Tables;

// The verdict on a book: refusal 0 where it is accepted. On a refusal the counts are 0.
#[repr(C)]
#[derive(Clone, Copy)]
pub struct Checked {
    pub refusal: u32,
    pub place: u32,
    pub shapes: u32,
    pub cells: u32,
    pub blocks: u32,
    pub steps: u32,
}

// A block's stretch, as an offset and a length of the lent book. On a refusal both are 0.
#[repr(C)]
#[derive(Clone, Copy)]
pub struct Stretch {
    pub refusal: u32,
    pub place: u32,
    pub start: u32,
    pub length: u32,
}

// What a run gives: refusal 0 where the events ran. On a refusal the cells and jobs in use are 0.
#[repr(C)]
#[derive(Clone, Copy)]
pub struct Ran {
    pub refusal: u32,
    pub place: u32,
    pub cells: u32,
    pub jobs: u32,
}

// What stands at an offset: its kind, its fields of one byte in their order, its number, and the offset of what follows. What the kind
// does not have is 0, and all is 0 where nothing whole stands.
#[repr(C)]
#[derive(Clone, Copy)]
pub struct Told {
    pub kind: u32,
    pub first: u32,
    pub second: u32,
    pub third: u32,
    pub number: u32,
    pub next: usize,
}

// Checks a book. Writes nothing.
#[unsafe(no_mangle)]
pub extern "C" fn xemdulba_check(book: &[u8]) -> Checked
    ensures { result ≡ checked (verdict book.now) }
{
    match checking::check(book) {
        Ok(counts) => {
            let i = counts.shapes as u32;
            let k = counts.cells as u32;
            let b = counts.blocks as u32;
            let p = counts.steps as u32;
            Checked {
                refusal: 0,
                place: 0,
                shapes: i,
                cells: k,
                blocks: b,
                steps: p,
            }
        }
        Err(e) => {
            let n = e.why.number() as u32;
            Checked {
                refusal: n,
                place: e.place as u32,
                shapes: 0,
                cells: 0,
                blocks: 0,
                steps: 0,
            }
        }
    }
}

// Finds a block's stretch. Writes nothing.
#[unsafe(no_mangle)]
pub extern "C" fn xemdulba_block(book: &[u8], block: u32) -> Stretch
    ensures { result ≡ found (found_block book.now block) }
{
    match reading::find_block(book, block as usize) {
        Ok(f) => {
            let start = f.start as u32;
            let length = f.length as u32;
            Stretch {
                refusal: 0,
                place: 0,
                start: start,
                length: length,
            }
        }
        Err(e) => {
            let by = e.why.number() as u32;
            Stretch {
                refusal: by,
                place: e.place as u32,
                start: 0,
                length: 0,
            }
        }
    }
}

// A number as a label: what is larger than a byte counts as 255, which no field and no bound allows.
fn label_of(n: u32) -> Label
    ensures { result ≡ label_of n }
{
    if n < 256 {
        return Label(n as u8);
    }
    Label(255)
}

// XEMDULBA_DEFAULT_LAUNCH of include/xemdulba.h: no launch label.
const DEFAULT_LAUNCH: u32 = 4294967295;

// A number as what a run is given for job 0.
fn launch_of(n: u32) -> Option<Label>
    ensures { result ≡ launch_of n }
{
    if n == DEFAULT_LAUNCH {
        return None;
    }
    Some(label_of(n))
}

// Runs the events of a list on a book, job 0 at a launch label. On a refusal nothing is written.
#[unsafe(no_mangle)]
pub extern "C" fn xemdulba_run(
    book: &[u8],
    launch: u32,
    list: &[u8],
    cells: &mut [u8],
    jobs: &mut [u8],
    answers: &mut [u8],
) -> Ran
    ensures { ◌≡◌ {A = Call} (record { result = result; cells = cells.new; jobs = jobs.new; answered = answers.new })
        (called (ran book.now (launch_of launch) list.now cells.old jobs.old answers.old)) }
{
    let given = launch_of(launch);
    match running::run(book, given, list, cells, jobs, answers) {
        Ok(used) => {
            let held = used.cells as u32;
            let begun = used.jobs as u32;
            Ran {
                refusal: 0,
                place: 0,
                cells: held,
                jobs: begun,
            }
        }
        Err(e) => {
            let code = e.why.number() as u32;
            Ran {
                refusal: code,
                place: e.place as u32,
                cells: 0,
                jobs: 0,
            }
        }
    }
}

// What a round gives: refusal 0 where the turns were taken. On a refusal the cells and jobs in use and the turns used are 0.
#[repr(C)]
#[derive(Clone, Copy)]
pub struct Rounded {
    pub refusal: u32,
    pub place: u32,
    pub cells: u32,
    pub jobs: u32,
    pub turns: u32,
}

// Steps the next job of a book that has a step left, so many times, job 0 at a launch label. On a refusal nothing is written.
#[unsafe(no_mangle)]
pub extern "C" fn xemdulba_round(
    book: &[u8],
    launch: u32,
    cells: &mut [u8],
    jobs: &mut [u8],
    answers: &mut [u8],
    turns: u32,
) -> Rounded
    ensures { ◌≡◌ {A = RoundCall} (record { result = result; cells = cells.new; jobs = jobs.new; answered = answers.new })
        (round_called (rounded book.now (launch_of launch) cells.old jobs.old answers.old turns)) }
{
    let given = launch_of(launch);
    match rounds::round(book, given, cells, jobs, answers, turns as usize) {
        Ok(spent) => {
            let kept = spent.cells as u32;
            let stepped = spent.jobs as u32;
            let used = spent.turns as u32;
            Rounded {
                refusal: 0,
                place: 0,
                cells: kept,
                jobs: stepped,
                turns: used,
            }
        }
        Err(e) => {
            let ground = e.why.number() as u32;
            Rounded {
                refusal: ground,
                place: e.place as u32,
                cells: 0,
                jobs: 0,
                turns: 0,
            }
        }
    }
}

// What writing gives: refusal 0 where the book was written, and its length. On a refusal the length is 0.
#[repr(C)]
#[derive(Clone, Copy)]
pub struct Written {
    pub refusal: u32,
    pub place: u32,
    pub length: u32,
}

// Writes the book of the tables into a buffer. On a refusal nothing is written.
#[unsafe(no_mangle)]
pub extern "C" fn xemdulba_write(
    c: u32,
    shapes: &[u8],
    cells: &[u8],
    blocks: &[u8],
    steps: &[u8],
    out: &mut [u8],
) -> Written
    ensures { ◌≡◌ {A = WriteCall} (record { result = result; out = out.new })
        (wrote (written (tables_in (label_of c) shapes.now cells.now blocks.now steps.now) out.old)) }
{
    let t = Tables {
        c: label_of(c),
        shapes,
        cells,
        blocks,
        steps,
    };
    match writing::write(&t, out) {
        Ok(length) => {
            let size = length as u32;
            Written {
                refusal: 0,
                place: 0,
                length: size,
            }
        }
        Err(e) => {
            let cause = e.why.number() as u32;
            Written {
                refusal: cause,
                place: e.place as u32,
                length: 0,
            }
        }
    }
}

fn tell(f: Fields) -> Told
    ensures { result ≡ fields_told f }
{
    let kind = f.kind as u32;
    let first = f.first as u32;
    let second = f.second as u32;
    let third = f.third as u32;
    Told {
        kind: kind,
        first: first,
        second: second,
        third: third,
        number: f.number,
        next: f.next,
    }
}

// Tells the record at an offset of a book. Writes nothing.
#[unsafe(no_mangle)]
pub extern "C" fn xemdulba_record(book: &[u8], offset: usize) -> Told
    ensures { result ≡ fields_told (record_fields book.now offset) }
{
    let f = listing::record(book, offset);
    tell(f)
}

// Tells the event at an offset of a list. Writes nothing.
#[unsafe(no_mangle)]
pub extern "C" fn xemdulba_event(list: &[u8], offset: usize) -> Told
    ensures { result ≡ fields_told (event_fields list.now offset) }
{
    let f = listing::event(list, offset);
    tell(f)
}

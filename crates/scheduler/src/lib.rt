// The turns of a round, one after the other, from the fresh state to the saved tables.
#![tactic(auto)]

ghost use Rattle.std.specs.Prelude.{◌≡◌, ◌≤◌, length, Ok};
ghost use Rattle.book.specs.Spans.{byte_at};
ghost use Rattle.book.specs.Book.{step_at};
ghost use Rattle.book.specs.Outcome.{Passed};
ghost use Rattle.book.specs.Stretch.{step_end};
ghost use Rattle.acts.specs.Views.{stored_of, nearby, give_sort};
ghost use Rattle.turns.specs.Turns.{target_in, Takes, Gives};
ghost use Rattle.scheduler.specs.Rounds.{round_by, rounded_of};
ghost use Rattle.scheduler.specs.Scheduled.{Schedulable};

use acts::{Act, Near, Stored, StoredJob};
use book::{kind, value_kind};
use labels::Label;
use machine::answer;
use rotation::Pending;

// The cells and jobs in use after a round, and the turns used.
#[derive(Clone, Copy)]
pub struct TurnsUsed {
    pub cells: usize,
    pub jobs: usize,
    pub turns: usize,
}

// A job whose next step stands at an offset of the book, if one does.
fn pend(book: &[u8], at: usize) -> Pending
    requires { length book.now ≤ 32768 }
    ensures { result.past ≡ step_end book.now at }
{
    let past = decode::step_end(book, at);
    Pending { past: past as u16 }
}

// The step at an offset, where it gives a register a value: put, name, code, add, read. `turns::give` is the run's: the compiler puts a function of this size in
// its caller's place only where it has one.
fn give(s: &[u8], o: usize, j: &StoredJob, near: Near, u: Stored) -> Act
    requires { Gives (byte_at s.now o) × (o ≤ length s.now) × (stored_of u ≡ target_in (step_at s.now o) j.now.source j.now.registers) }
    ensures { Takes give_sort (nearby near) (step_at s.now o) j.now.label j.now.source j.now.registers result }
{
    let k = records::byte(s, o);
    let r = records::byte(s, o + 1);
    if k == kind::PUT {
        return turns::given(r, value_kind::PLAIN, records::number(s, o + 2), j.source);
    }
    let y = records::byte(s, o + 2);
    if k == kind::NAME {
        return turns::given(r, value_kind::CELL, y as u32, j.source);
    }
    if k == kind::CODE {
        return turns::given(r, value_kind::CODE, y as u32, j.source);
    }
    if k == kind::ADD {
        return turns::add(j, near, r, y, records::byte(s, o + 3));
    }
    turns::read(j, near, u, r, y)
}

// Steps so many times the next job with a step left, from the fresh state, job 0 at the launch label, and saves the tables. Beside each job stands what the
// scan looks at. A step is carried out as in `interpreter::play`.
pub fn schedule(
    book: &[u8],
    shapes: &[u8],
    offsets: &[u16],
    starts: &[u16],
    launch: Label,
    cells: &mut [u8],
    jobs: &mut [u8],
    answers: &mut [u8],
    turns: usize,
) -> TurnsUsed
    requires { Schedulable book.now shapes.now offsets.now starts.now cells.old jobs.old answers.old turns }
    ensures answers_after { round_by (Ok result) cells.new jobs.new answers.new
        ≡ rounded_of Passed book.now launch cells.old jobs.old answers.old turns }
    ensures cells_bound { (result.cells ≤ 64) × (result.jobs ≤ 64) × (result.turns ≤ 4096) }
{
    // Arrays of 64 with how many are in use: the library runs in fixed memory.
    let mut held = tables::open_cells(book, offsets);
    let none = StoredJob::fresh(0, 0, Label(0), Label(0));
    let mut begun = [none; StoredJob::TABLE_SIZE];
    let start = tables::start_of(starts, 0, book.len());
    let first = StoredJob::fresh(0, start, launch, launch);
    begun[0] = first;
    let idle = Pending { past: 0 };
    let mut pending = [idle; StoredJob::TABLE_SIZE];
    let ready = pend(book, start);
    pending[0] = ready;
    let mut n = offsets.len();
    let mut m: usize = 1;
    let mut from: usize = 0;
    let mut at: usize = 0;
    let mut most = turns;
    // A blocked step uses a turn, and a round ends early where no job has a step left: `most` is then the turns so far.
    while at < most {
        let begin = rotation::first_place(from, m);
        let mut i = begin;
        // Most often that job has a step left, and the others are not looked at.
        if pending[begin].past == 0 {
            let found = rotation::next_of(pending, begin, m);
            match found {
                None => {
                    most = at;
                    continue;
                }
                Some(next) => {
                    i = next;
                }
            }
        }
        let slot = at;
        at = at + 1;
        from = i + 1;
        let past = records::offset_of(pending[i].past);
        let j = &begun[i];
        let place = j.at;
        let k = records::byte(book, place);
        let u = turns::target_of(book, place, j);
        let q = acts::clamp(u.number as usize);
        let cell = held[q];
        let near = Near {
            cell: cell,
            cells: n,
            jobs: m,
        };
        if k == kind::NEW {
            let x = turns::create(book, place, j, near);
            if let Act::Create(r, d) = x {
                let t = j.names(past, r, n);
                begun[i] = t;
                held[n] = d;
                n = n + 1;
                let p = pend(book, past);
                pending[i] = p;
                answers[slot] = answer::DONE;
            } else {
                answers[slot] = answer::BLOCKED;
            }
        } else if k < kind::WRITE {
            let x = give(book, place, j, near, u);
            if let Act::Give(r, v) = x {
                let t = j.gets(past, r, v);
                begun[i] = t;
                let p = pend(book, past);
                pending[i] = p;
                answers[slot] = answer::DONE;
            } else {
                answers[slot] = answer::BLOCKED;
            }
        } else if k < kind::LOWER {
            let x = turns::change(book, place, j, near, u);
            if let Act::Store(d) = x {
                let t = j.moved(past);
                begun[i] = t;
                held[q] = d;
                let p = pend(book, past);
                pending[i] = p;
                answers[slot] = answer::DONE;
            } else {
                answers[slot] = answer::BLOCKED;
            }
        } else if k == kind::LOWER {
            let x = turns::lower(book, place, j, near);
            if let Act::Lower(l, h) = x {
                let t = j.lowered(past, l, h);
                begun[i] = t;
                let p = pend(book, past);
                pending[i] = p;
                answers[slot] = answer::DONE;
            } else {
                answers[slot] = answer::BLOCKED;
            }
        } else {
            let x = turns::launch(book, place, j, near, u);
            if let Act::Launch(b, l, h) = x {
                let t = j.moved(past);
                begun[i] = t;
                let p = pend(book, past);
                pending[i] = p;
                let opens = tables::start_of(starts, b, book.len());
                let child = StoredJob::fresh(b, opens, l, h);
                begun[m] = child;
                let c = pend(book, opens);
                pending[m] = c;
                m = m + 1;
                answers[slot] = answer::DONE;
            } else {
                answers[slot] = answer::BLOCKED;
            }
        }
    }
    tables::save_cells(held, n, shapes, cells);
    for y in 0..m {
        tables::save_job(begun[y], y, jobs);
    }
    tables::clear_from(jobs, m * StoredJob::BYTES);
    TurnsUsed {
        cells: n,
        jobs: m,
        turns: at,
    }
}

// The events of a run, one after the other, from the fresh state to the saved tables.
#![tactic(auto)]

ghost use Rattle.std.specs.Prelude.{◌≡◌, ◌≤◌, Ok};
ghost use Rattle.book.specs.Outcome.{Passed};
ghost use Rattle.interpreter.specs.Loop.{Ready};
ghost use Rattle.interpreter.specs.Run.{run_by, ran_of};

use acts::{Act, Near, StoredJob};
use book::kind;
use labels::Label;
use machine::answer;

// The cells and jobs in use after a run.
#[derive(Clone, Copy)]
pub struct InUse {
    pub cells: usize,
    pub jobs: usize,
}

// Runs the events from the fresh state, job 0 at the launch label, and saves the tables. A step that is not answered at once is told apart by what it can do, so that each arm
// has one effect to carry out; an outsider's act has an arm of its own.
pub fn play(
    book: &[u8],
    c: Label,
    shapes: &[u8],
    offsets: &[u16],
    starts: &[u16],
    launch: Label,
    list: &[u8],
    cells: &mut [u8],
    jobs: &mut [u8],
    answers: &mut [u8],
) -> InUse
    requires { Ready book.now c shapes.now offsets.now starts.now list.now cells.old jobs.old answers.old }
    ensures answers_after { run_by (Ok result) cells.new jobs.new answers.new
        ≡ ran_of Passed book.now launch list.now cells.old jobs.old answers.old }
    ensures cells_bound { (result.cells ≤ 64) × (result.jobs ≤ 64) }
{
    // Arrays of 64 with how many are in use: the library runs in fixed memory.
    let mut held = tables::open_cells(book, offsets);
    let none = StoredJob::fresh(0, 0, Label(0), Label(0));
    let mut begun = [none; StoredJob::TABLE_SIZE];
    let first = StoredJob::fresh(0, tables::start_of(starts, 0, book.len()), launch, launch);
    begun[0] = first;
    let mut n = offsets.len();
    let mut m: usize = 1;
    let mut o: usize = 0;
    let mut at: usize = 0;
    // By the bytes of each event, which its own arm knows, and so no `for`.
    while o < list.len() {
        let slot = at;
        at = at + 1;
        let kind = list[o];
        if kind == machine::kind::STEP {
            let i = list[o + 1] as usize;
            o = o + 2;
            if i < m {
                let place = begun[i].at;
                let past = decode::step_end(book, place);
                if past == 0 {
                    answers[slot] = answer::NO_STEP_LEFT;
                    continue;
                }
                let k = records::byte(book, place);
                let j = &begun[i];
                let u = turns::target_of(book, place, j);
                let q = acts::clamp(u.number as usize);
                let cell = held[q];
                let near = Near {
                    cell: cell,
                    cells: n,
                    jobs: m,
                };
                if k == kind::NEW {
                    let x = turns::create(book, place, j, near);
                    if let Act::Create(r, d) = x {
                        let t = j.names(past, r, n);
                        begun[i] = t;
                        held[n] = d;
                        n = n + 1;
                        answers[slot] = answer::DONE;
                    } else {
                        answers[slot] = answer::BLOCKED;
                    }
                } else if k < kind::WRITE {
                    let x = turns::give(book, place, j, near, u);
                    if let Act::Give(r, v) = x {
                        let t = j.gets(past, r, v);
                        begun[i] = t;
                        answers[slot] = answer::DONE;
                    } else {
                        answers[slot] = answer::BLOCKED;
                    }
                } else if k < kind::LOWER {
                    let x = turns::change(book, place, j, near, u);
                    if let Act::Store(d) = x {
                        let t = j.moved(past);
                        begun[i] = t;
                        held[q] = d;
                        answers[slot] = answer::DONE;
                    } else {
                        answers[slot] = answer::BLOCKED;
                    }
                } else if k == kind::LOWER {
                    let x = turns::lower(book, place, j, near);
                    if let Act::Lower(l, h) = x {
                        let t = j.lowered(past, l, h);
                        begun[i] = t;
                        answers[slot] = answer::DONE;
                    } else {
                        answers[slot] = answer::BLOCKED;
                    }
                } else {
                    let x = turns::launch(book, place, j, near, u);
                    if let Act::Launch(b, l, h) = x {
                        let t = j.moved(past);
                        begun[i] = t;
                        let child = StoredJob::fresh(
                            b,
                            tables::start_of(starts, b, book.len()),
                            l,
                            h,
                        );
                        begun[m] = child;
                        m = m + 1;
                        answers[slot] = answer::DONE;
                    } else {
                        answers[slot] = answer::BLOCKED;
                    }
                }
            } else {
                answers[slot] = answer::NO_SUCH;
            }
        } else {
            let e = events::event_at(list, o);
            o = events::next_event(list, o);
            let such = outsiders::is_such(c, shapes, starts.len(), n, e);
            if such {
                let k = outsiders::aimed_at(e);
                let q = acts::clamp(k);
                let cell = held[q];
                let x = outsiders::act_outside(
                    e,
                    Near {
                        cell: cell,
                        cells: n,
                        jobs: m,
                    },
                );
                answers[slot] = x.answer();
                match x {
                    Act::Blocked => {}
                    Act::Give(_, _) => {}
                    Act::Lower(_, _) => {}
                    Act::Store(d) => {
                        held[q] = d;
                    }
                    Act::Create(_, d) => {
                        held[n] = d;
                        n = n + 1;
                    }
                    Act::Launch(b, l, h) => {
                        let child = StoredJob::fresh(
                            b,
                            tables::start_of(starts, b, book.len()),
                            l,
                            h,
                        );
                        begun[m] = child;
                        m = m + 1;
                    }
                }
            } else {
                answers[slot] = answer::NO_SUCH;
            }
        }
    }
    tables::save_cells(held, n, shapes, cells);
    for y in 0..m {
        tables::save_job(begun[y], y, jobs);
    }
    tables::clear_from(jobs, m * StoredJob::BYTES);
    InUse { cells: n, jobs: m }
}

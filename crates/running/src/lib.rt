// The run of a book: refusals, then the events, then the lent tables.
#![tactic(auto)]

ghost use Rattle.std.specs.Prelude.{◌≡◌, ◌≤◌, Ok, IfOk};
ghost use Rattle.book.specs.Outcome.{Passed, outcome};
ghost use Rattle.machine.specs.Events.{launched_at};
ghost use Rattle.interpreter.specs.Run.{run_by, memory_refusal, unlaunched, ran_of, ran};
ghost use Rattle.running.specs.Runnable.{Runnable};

use acts::{StoredCell, StoredJob};
use book::{Ground, Outline, Refused};
use interpreter::InUse;
use labels::Label;

// Refuses lent memory: the tables, then the answer buffer.
pub fn refuse_memory(count: usize, cells: usize, jobs: usize, room: usize) -> Result<(), Refused>
    ensures { outcome result ≡ memory_refusal count cells jobs room }
{
    if cells != StoredCell::TABLE_BYTES {
        return Err(Ground::WrongTables.at(0));
    }
    if jobs != StoredJob::TABLE_BYTES {
        return Err(Ground::WrongTables.at(0));
    }
    if room < count {
        return Err(Ground::FewAnswers.at(0));
    }
    Ok(())
}

// Refuses a launch label that is given: above block 0's bound.
#[tactic(auto, using(crate::proofs::Refusing::launches))]
pub fn refuse_launch(bound: Label, launch: Option<Label>) -> Result<(), Refused>
    ensures { outcome result ≡ unlaunched bound launch }
{
    if let Some(l) = launch {
        if l.is_above(bound) {
            return Err(Ground::HighLaunch.at(0));
        }
    }
    Ok(())
}

// The label of job 0: the one that is given, or the smaller of C plus 1 and block 0's bound.
pub fn launch_label(c: Label, bound: Label, launch: Option<Label>) -> Label
    ensures { result ≡ launched_at c bound launch }
{
    if let Some(l) = launch {
        return l;
    }
    // C plus 1 is a byte where the bound is above C, and need not be one else.
    if bound.is_above(c) {
        let low = Label(c.0 + 1);
        return low;
    }
    bound
}

// Runs what refusals 1 to 6 and 9 to 11 do not hold of, job 0 at the launch label.
fn finish(
    book: &[u8],
    t: Outline,
    launch: Label,
    list: &[u8],
    cells: &mut [u8],
    jobs: &mut [u8],
    answers: &mut [u8],
) -> InUse
    requires { Runnable book.now t list.now cells.old jobs.old answers.old }
    ensures answers_after { run_by (Ok result) cells.new jobs.new answers.new
        ≡ ran_of Passed book.now launch list.now cells.old jobs.old answers.old }
    ensures cells_bound { (result.cells ≤ 64) × (result.jobs ≤ 64) }
{
    let shapes = t.shapes;
    let offsets = t.offsets;
    let starts = t.starts;
    let n = t.counts;
    let k = n.cells;
    let b = n.blocks;
    interpreter::play(
        book,
        t.c,
        &shapes,
        &offsets[0..k],
        &starts[0..b],
        launch,
        list,
        cells,
        jobs,
        answers,
    )
}

// Runs the events of a list on a book, job 0 at a launch label. Refused by 1 to 6, 9 to 11 and 14, and then nothing is written; else the answers, and the
// tables of cells and jobs, unused entries zero, answers beyond the events kept.
pub fn run(
    book: &[u8],
    launch: Option<Label>,
    list: &[u8],
    cells: &mut [u8],
    jobs: &mut [u8],
    answers: &mut [u8],
) -> Result<InUse, Refused>
    ensures answers_after { run_by result cells.new jobs.new answers.new
        ≡ ran book.now launch list.now cells.old jobs.old answers.old }
    ensures cells_bound { IfOk result (λ u. (u.cells ≤ 64) × (u.jobs ≤ 64)) }
{
    let t = reading::read(book)?;
    let count = events::scan(list)?;
    let bounds = t.bounds;
    let bound = Label(bounds[0]);
    let held = refuse_memory(count, cells.len(), jobs.len(), answers.len());
    let launched = refuse_launch(bound, launch);
    held.and(launched)?;
    let label = launch_label(t.c, bound, launch);
    let used = finish(book, t, label, list, cells, jobs, answers);
    Ok(used)
}

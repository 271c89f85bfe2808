// The round of a book: refusals, then the turns, then the lent tables.
#![tactic(auto)]

ghost use Rattle.std.specs.Prelude.{◌≡◌, ◌≤◌, Ok, IfOk};
ghost use Rattle.book.specs.Outcome.{Passed, outcome};
ghost use Rattle.scheduler.specs.Rounds.{overlong, round_by, rounded_of, rounded};
ghost use Rattle.rounds.specs.Roundable.{Roundable};

use book::{Ground, Outline, Refused};
use labels::Label;
use scheduler::TurnsUsed;

// How many turns a round may have.
const MOST_TURNS: usize = 4096;

// Refuses a number of turns.
fn refuse_turns(turns: usize) -> Result<(), Refused>
    ensures { outcome result ≡ overlong turns }
{
    if MOST_TURNS < turns {
        return Err(Ground::ManyTurns.at(0));
    }
    Ok(())
}

// Plays the turns of what no refusal holds of, job 0 at the launch label.
fn finish(
    book: &[u8],
    t: Outline,
    launch: Label,
    cells: &mut [u8],
    jobs: &mut [u8],
    answers: &mut [u8],
    turns: usize,
) -> TurnsUsed
    requires { Roundable book.now t cells.old jobs.old answers.old turns }
    ensures answers_after { round_by (Ok result) cells.new jobs.new answers.new
        ≡ rounded_of Passed book.now launch cells.old jobs.old answers.old turns }
    ensures cells_bound { (result.cells ≤ 64) × (result.jobs ≤ 64) × (result.turns ≤ 4096) }
{
    let shapes = t.shapes;
    let offsets = t.offsets;
    let starts = t.starts;
    let n = t.counts;
    let k = n.cells;
    let b = n.blocks;
    scheduler::schedule(
        book,
        &shapes,
        &offsets[0..k],
        &starts[0..b],
        launch,
        cells,
        jobs,
        answers,
        turns,
    )
}

// Steps so many times the next job of a book that has a step left, job 0 at a launch label; ends early where none has. Refused by 1 to 6, 10, 11, 14 and
// 15, and then nothing is written; else the answers, and the tables of cells and jobs, unused entries zero, answers beyond the turns used kept.
pub fn round(
    book: &[u8],
    launch: Option<Label>,
    cells: &mut [u8],
    jobs: &mut [u8],
    answers: &mut [u8],
    turns: usize,
) -> Result<TurnsUsed, Refused>
    ensures answers_after { round_by result cells.new jobs.new answers.new
        ≡ rounded book.now launch cells.old jobs.old answers.old turns }
    ensures cells_bound { IfOk result (λ u. (u.cells ≤ 64) × (u.jobs ≤ 64) × (u.turns ≤ 4096)) }
{
    let t = reading::read(book)?;
    let bounds = t.bounds;
    let bound = Label(bounds[0]);
    let held = running::refuse_memory(turns, cells.len(), jobs.len(), answers.len());
    let launched = running::refuse_launch(bound, launch);
    let few = refuse_turns(turns);
    held.and(launched).and(few)?;
    let label = running::launch_label(t.c, bound, launch);
    let used = finish(book, t, label, cells, jobs, answers, turns);
    Ok(used)
}

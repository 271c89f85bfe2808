// What an actor does.
ghost use Rattle.std.specs.Prelude.{◌≡◌, ◌<◌, ltb};
ghost use Rattle.labels.specs.Labels.{reaches};
ghost use Rattle.book.specs.Control.{both};
ghost use Rattle.machine.specs.Histories.{sources};
ghost use Rattle.machine.specs.Acts.{write_act, relabel_act, new_act, start_act, exec_act};
ghost use Rattle.machine.specs.Events.{table_size};
ghost use Rattle.acts.specs.Views.{clamped, stored_of, nearby, answer_of, Does, Makes, store_sort, launch_sort};

use crate::{Act, Actor, Near, Stored, StoredCell, StoredJob};
use book::value_kind;
use labels::Label;
use machine::answer;

impl Near {
    // The cell that is reached, number k, exists and can be written at label l.
    #[tactic(auto, unfolding(book::specs::Control::both))]
    pub fn is_open(self, l: Label, k: u32) -> bool
        ensures { result ≡ both (ltb k self.cells) (reaches l self.cell.label) }
    {
        (k as usize) < self.cells && l.reaches(self.cell.label)
    }
}

impl Actor {
    pub fn write(self, near: Near, k: u32, v: Stored) -> Act
        ensures { Does store_sort (nearby near) k (write_act sources (nearby near) self.label self.source k (stored_of v)) result }
    {
        if near.is_open(self.label, k) {
            let content = v.acted(self.source);
            return Act::Store(StoredCell::holding(content, near.cell.shape, near.cell.label));
        }
        Act::Blocked
    }

    pub fn relabel(self, near: Near, k: u32, o: Label) -> Act
        ensures { Does store_sort (nearby near) k (relabel_act sources (nearby near) self.label self.source k o) result }
    {
        if near.is_open(self.label, k) && self.label.reaches(o) {
            return Act::Store(StoredCell {
                label: o,
                ..near.cell
            });
        }
        Act::Blocked
    }

    // Register r of the job that acts gets the cell's name; where an outsider acts r says nothing.
    pub fn make(self, near: Near, r: u8, i: u8, v: Stored) -> Act
        ensures { Makes (nearby near) r (new_act sources table_size (nearby near) self.label self.source i (stored_of v)) result }
    {
        let free = near.cells < StoredJob::TABLE_SIZE;
        if free {
            let content = v.acted(self.source);
            return Act::Create(r, StoredCell::holding(content, i, self.label));
        }
        Act::Blocked
    }

    pub fn start(self, near: Near, b: u32) -> Act
        ensures { Does launch_sort (nearby near) 0 (start_act sources table_size (nearby near) self.label self.source b) result }
    {
        let free = near.jobs < StoredJob::TABLE_SIZE;
        if free {
            return Act::Launch(b, self.label, self.source);
        }
        Act::Blocked
    }

    pub fn exec(self, near: Near, k: u32) -> Act
        ensures { Does launch_sort (nearby near) k (exec_act sources table_size (nearby near) self.label self.source k) result }
    {
        let content = near.cell.content();
        if near.cells <= k as usize
            || content.kind < value_kind::CODE
            || StoredJob::TABLE_SIZE <= near.jobs
        {
            return Act::Blocked;
        }
        let low = self.label.lower_of(near.cell.label);
        let both = self.source.lower_of(content.source);
        Act::Launch(content.number, low, both.lower_of(low))
    }
}

impl Act {
    // The answer to an event of this act. Answers are bytes of the caller's buffer, in C too, and so constants and no enum.
    #[tactic(auto, unfolding(crate::specs::Views::answer_of))]
    pub fn answer(self) -> u8
        ensures { result ≡ answer_of self }
    {
        match self {
            Act::Blocked => answer::BLOCKED,
            _ => answer::DONE,
        }
    }
}

// A number in a table of 64.
pub fn clamp(k: usize) -> usize
    ensures { (result ≡ clamped k) × (result < 64) }
{
    if k < StoredJob::TABLE_SIZE { k } else { 0 }
}

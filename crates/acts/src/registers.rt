// The registers of a job, and a job whose step is done.
ghost use Rattle.std.specs.Prelude.{◌≡◌, ◌+◌, ◌<◌, ◌≤◌};
ghost use Rattle.book.specs.declared.Value.TheVariants.{CellName};
ghost use Rattle.machine.specs.Histories.{sources};
ghost use Rattle.machine.specs.Acts.{acted, zero_with, fresh_job};
ghost use Rattle.machine.specs.Steps.{moved, gets};
ghost use Rattle.machine.specs.Records.{kind_of};
ghost use Rattle.acts.specs.Views.{value_in, stored_of, stored_content, cell_with, job_of, register_in, lowered};

use crate::{Actor, Stored, StoredCell, StoredJob};
use book::value_kind;
use labels::Label;

impl Stored {
    // What registers start as, and what one past the eighth holds.
    #[tactic(auto, unfolding(book::specs::Book::value_of))]
    pub fn zero_with(h: Label) -> Stored
        ensures { stored_of result ≡ zero_with sources h }
    {
        Stored {
            number: 0,
            kind: value_kind::PLAIN,
            source: h,
        }
    }

    // The value after an act of source h.
    pub fn acted(self, h: Label) -> Stored
        ensures { stored_of result ≡ acted sources h (stored_of self) }
    {
        Stored {
            source: self.source.lower_of(h),
            ..self
        }
    }

    // The kind as the tables show it: 2 is the last.
    #[tactic(auto, using(crate::proofs::Acting::kinds))]
    pub fn shown_kind(self) -> u8
        ensures { result ≡ kind_of (value_in self) }
    {
        self.kind.min(value_kind::CODE)
    }
}

impl StoredCell {
    // A cell of this content.
    pub fn holding(content: Stored, shape: u8, l: Label) -> StoredCell
        ensures { result ≡ cell_with content shape l }
    {
        StoredCell {
            number: content.number,
            kind: content.kind,
            source: content.source,
            shape,
            label: l,
        }
    }

    pub fn content(self) -> Stored
        ensures { result ≡ stored_content self }
    {
        Stored {
            number: self.number,
            kind: self.kind,
            source: self.source,
        }
    }
}

impl StoredJob {
    // A job at the start of its block, which stands at an offset of the book.
    pub fn fresh(block: u32, at: usize, label: Label, source: Label) -> StoredJob
        ensures { (job_of result ≡ fresh_job sources block label source) × (result.at ≡ at) × (result.position ≡ 0) × (result.block ≡ block) }
    {
        StoredJob {
            registers: [Stored::zero_with(source); 8],
            at,
            block,
            position: 0,
            label,
            source,
        }
    }

    pub fn actor(&self) -> Actor
        ensures { result ≡ record { label = self.now.label; source = self.now.source } }
    {
        Actor {
            label: self.label,
            source: self.source,
        }
    }

    pub fn register(&self, r: u8) -> Stored
        ensures { stored_of result ≡ register_in self.now.source self.now.registers r }
    {
        let i = r as usize;
        if i < 8 {
            return self.registers[i];
        }
        Stored::zero_with(self.source)
    }

    // The same job past its step: the next one is at an offset of the book.
    fn past(self, next: usize) -> StoredJob
        requires { self.position < 65535 }
        ensures { result ≡ record self { at = next; position = self.position + 1 } }
    {
        StoredJob {
            at: next,
            position: self.position + 1,
            ..self
        }
    }

    // The step is done, and the next one is at an offset of the book.
    pub fn moved(self, next: usize) -> StoredJob
        requires { self.position < 65535 }
        ensures { (job_of result ≡ moved sources (job_of self)) × (result.at ≡ next) }
    {
        self.past(next)
    }

    // The step is done, and the job has this label and source.
    pub fn lowered(self, next: usize, q: Label, s: Label) -> StoredJob
        requires { self.position < 65535 }
        ensures { (job_of result ≡ lowered (job_of self) q s) × (result.at ≡ next) }
    {
        StoredJob {
            label: q,
            source: s,
            ..self.past(next)
        }
    }

    // The step is done, and register r has this value.
    pub fn gets(self, next: usize, r: u8, v: Stored) -> StoredJob
        requires { self.position < 65535 }
        ensures { (job_of result ≡ gets sources (job_of self) r (value_in v) v.source) × (result.at ≡ next) }
    {
        let i = r as usize;
        let mut filled = self.past(next);
        if i < 8 {
            filled.registers[i] = v;
        }
        filled
    }

    // The step is done, and register r names the cell k, with the job's history.
    #[tactic(auto, unfolding(book::specs::Book::value_of))]
    pub fn names(self, next: usize, r: u8, k: usize) -> StoredJob
        requires { (self.position < 65535) × (k ≤ 64) }
        ensures { (job_of result ≡ gets sources (job_of self) r (CellName k) self.source) × (result.at ≡ next) }
    {
        let name = Stored {
            number: k as u32,
            kind: value_kind::CELL,
            source: self.source,
        };
        self.gets(next, r, name)
    }
}

// The typing rule of a step: by P, and by the step's kind.
ghost use Rattle.std.specs.Prelude.{◌≡◌};
ghost use Rattle.book.specs.Outline.{shape_in};
ghost use Rattle.typing.specs.Rules.{low_rule, high_rule, step_rule};
ghost use Rattle.typing.specs.Asked.{viewed, told};

use crate::{Known, State, Stepped, Tables};
use book::Step;

impl Tables<'_> {
    // A step at P at or below C.
    #[tactic(auto, unfolding(crate::specs::Rules::low_rule, crate::specs::Rules::breaks_unless))]
    fn type_low(&self, t: State, p: Step) -> Stepped
        ensures { told t result ≡ low_rule self.now.c (shape_in self.now.shapes.now) t p }
    {
        match p {
            Step::New(_, i, _) if self.is_high(i) => Stepped::Breaks,
            Step::Put(r, _)
            | Step::Name(r, _)
            | Step::Code(r, _)
            | Step::Add(r, _, _)
            | Step::New(r, _, _)
            | Step::Read(r, _) => Stepped::gives_low(r),
            Step::Lower(q) => self.lower_step(t, q),
            Step::Write(_, _)
            | Step::Relabel(_, _)
            | Step::Start(_)
            | Step::Exec(_)
            | Step::Choose(_, _, _) => Stepped::Passes,
        }
    }

    // A step at P above C.
    #[tactic(auto, unfolding(crate::specs::Rules::high_rule))]
    fn type_high(&self, t: State, p: Step) -> Stepped
        ensures { told t result ≡ high_rule (viewed self.now) t p }
    {
        match p {
            Step::Put(r, _) => Stepped::gives(r, Known::Plain, t.p),
            Step::Name(r, k) => self.name_step(t, r, k),
            Step::Code(r, b) => self.code_step(t, r, b),
            Step::Add(r, a, b) => self.add_step(t, r, a, b),
            Step::New(r, i, a) => self.new_step(t, r, i, a),
            Step::Read(r, w) => self.read_step(t, r, w),
            Step::Write(w, a) => self.write_step(t, w, a),
            Step::Relabel(w, o) => self.relabel_step(t, w, o),
            Step::Lower(q) => self.lower_step(t, q),
            Step::Start(b) => self.start_step(t, b),
            Step::Exec(w) => self.exec_step(t, w),
            Step::Choose(r, a, b) => self.choose_step(t, r, a, b),
        }
    }

    // The typing rule of a step.
    #[tactic(auto, unfolding(crate::specs::Rules::step_rule))]
    pub fn type_step(&self, t: State, p: Step) -> Stepped
        ensures { told t result ≡ step_rule (viewed self.now) t p }
    {
        if self.c.reaches(t.p) {
            return self.type_low(t, p);
        }
        self.type_high(t, p)
    }
}

// The typing rules of the steps, at P above C; that of lower, at every P.
ghost use Rattle.std.specs.Prelude.{◌≡◌};
ghost use Rattle.std.proofs.Math.ListN.{get_elem?};
ghost use Rattle.book.specs.Outline.{shape_in};
ghost use Rattle.typing.specs.Rules.{lower_rule, add_rule, holds, name_rule, code_rule, new_rule, read_from, read_rule, write_rule};
ghost use Rattle.typing.specs.Rules.{relabel_rule, exec_rule, startable, start_rule, choose_rule};
ghost use Rattle.typing.specs.Asked.{as_label, told};

use crate::{Known, State, Stepped, Tables};
use book::kind;
use labels::Label;

impl Tables<'_> {
    #[tactic(auto, unfolding(crate::specs::Rules::lower_rule, crate::specs::Rules::stuck_unless, book::specs::Control::either))]
    pub(crate) fn lower_step(&self, t: State, q: Label) -> Stepped
        ensures { told t result ≡ lower_rule self.now.c t q }
    {
        if t.p.reaches(q) || self.c.reaches(q) {
            return Stepped::Lowers(q);
        }
        Stepped::Stuck
    }

    #[tactic(auto, unfolding(crate::specs::Rules::breaks_unless, book::specs::Control::both))]
    pub(crate) fn add_step(&self, t: State, r: u8, a: u8, b: u8) -> Stepped
        ensures { told t result ≡ add_rule self.now.c t r a b }
    {
        if t.is_plain_or_low(self.c, a) && t.is_plain_or_low(self.c, b) {
            let effect = t.used_effect(a).lower_of(t.used_effect(b));
            return Stepped::gives(r, Known::Plain, effect);
        }
        Stepped::Breaks
    }

    #[tactic(auto, using(book::proofs::Lists::at_some, book::proofs::Lists::at_none), unfolding(crate::specs::Rules::breaks_unless, book::specs::Control::on_some))]
    pub(crate) fn name_step(&self, t: State, r: u8, k: u8) -> Stepped
        ensures { told t result ≡ name_rule self.now.c (shape_in self.now.shapes.now) t r (get_elem? self.now.shaped.now k) }
    {
        if let Some(&i) = self.shaped.get(k as usize)
            && self.shape(i).kind == kind::CELL_SHAPE
        {
            return Stepped::gives(r, Known::CellOf(i), t.p);
        }
        Stepped::Breaks
    }

    #[tactic(auto, using(book::proofs::Lists::at_some, book::proofs::Lists::at_none), unfolding(book::specs::Control::on_some))]
    pub(crate) fn code_step(&self, t: State, r: u8, b: u8) -> Stepped
        ensures { told t result ≡ code_rule t r (as_label (get_elem? self.now.bounds.now b)) }
    {
        match self.bounds.get(b as usize) {
            Some(bound) => Stepped::gives(r, Known::Code(Label(*bound)), t.p),
            None => Stepped::Breaks,
        }
    }

    // The block's bound is at least P.
    #[tactic(auto, using(book::proofs::Lists::at_some, book::proofs::Lists::at_none), unfolding(crate::specs::Rules::startable))]
    fn is_startable(&self, p: Label, b: u8) -> bool
        ensures { result ≡ startable p (as_label (get_elem? self.now.bounds.now b)) }
    {
        match self.bounds.get(b as usize) {
            Some(bound) => Label(*bound).reaches(p),
            None => false,
        }
    }

    #[tactic(auto, unfolding(crate::specs::Rules::breaks_unless))]
    pub(crate) fn start_step(&self, t: State, b: u8) -> Stepped
        ensures { told t result ≡ start_rule t (as_label (get_elem? self.now.bounds.now b)) }
    {
        if self.is_startable(t.p, b) {
            Stepped::Passes
        } else {
            Stepped::Breaks
        }
    }

    #[tactic(auto, unfolding(crate::specs::Rules::breaks_unless, book::specs::Control::both))]
    pub(crate) fn choose_step(&self, t: State, r: u8, a: u8, b: u8) -> Stepped
        ensures { told t result
            ≡ choose_rule self.now.c t r (as_label (get_elem? self.now.bounds.now a)) (as_label (get_elem? self.now.bounds.now b)) }
    {
        let startable = self.is_startable(t.p, a) && self.is_startable(t.p, b);
        if startable && t.is_plain_or_low(self.c, r) {
            Stepped::Passes
        } else {
            Stepped::Breaks
        }
    }

    // Register a fits the content of shape i, and its used effect is at least the trust.
    #[tactic(auto, unfolding(crate::specs::Rules::holds, book::specs::Control::both))]
    #[inline(always)]
    fn does_hold(&self, t: State, a: u8, i: u8) -> bool
        ensures { result ≡ holds self.now.c (shape_in self.now.shapes.now) t a i }
    {
        let known = t.known(self.c, a);
        self.fits(known, self.shape(i).content) && self.trust_of(i).is_met(t.used_effect(a))
    }

    #[tactic(auto, unfolding(crate::specs::Rules::breaks_unless, book::specs::Control::both, book::specs::Control::either))]
    pub(crate) fn new_step(&self, t: State, r: u8, i: u8, a: u8) -> Stepped
        ensures { told t result ≡ new_rule self.now.c (shape_in self.now.shapes.now) t r i a }
    {
        let is_cell = self.shape(i).kind == kind::CELL_SHAPE;
        if is_cell && (!self.is_high(i) || t.lowered && self.does_hold(t, a, i)) {
            return Stepped::gives(r, Known::CellOf(i), t.p);
        }
        Stepped::Breaks
    }

    // Register r gets what a cell of shape i holds.
    fn read_cell(&self, t: State, r: u8, i: u8) -> Stepped
        ensures { told t result ≡ read_from self.now.c (shape_in self.now.shapes.now) t r i }
    {
        let known = self.known_of(self.shape(i).content);
        Stepped::gives(r, known, self.trust_of(i).capped(t.p))
    }

    #[tactic(auto, unfolding(crate::specs::Rules::on_known_cell))]
    pub(crate) fn read_step(&self, t: State, r: u8, w: u8) -> Stepped
        ensures { told t result ≡ read_rule self.now.c (shape_in self.now.shapes.now) t r w }
    {
        if self.c.reaches(t.register(w).effect) {
            return Stepped::gives_low(r);
        }
        match t.cell(self.c, w) {
            Some(i) => self.read_cell(t, r, i),
            None => Stepped::Breaks,
        }
    }

    #[tactic(auto, unfolding(crate::specs::Rules::on_known_cell, crate::specs::Rules::breaks_unless, crate::specs::Rules::stuck_unless, book::specs::Control::either))]
    pub(crate) fn write_step(&self, t: State, w: u8, a: u8) -> Stepped
        ensures { told t result ≡ write_rule self.now.c (shape_in self.now.shapes.now) t w a }
    {
        let Some(i) = t.cell(self.c, w) else {
            return Stepped::Breaks;
        };
        if !self.trust_of(i).is_met(t.p) {
            return Stepped::Stuck;
        }
        if !self.is_high(i) || self.does_hold(t, a, i) {
            Stepped::Passes
        } else {
            Stepped::Breaks
        }
    }

    #[tactic(auto, unfolding(crate::specs::Rules::on_known_cell, crate::specs::Rules::breaks_unless, crate::specs::Rules::stuck_unless, book::specs::Control::both))]
    pub(crate) fn relabel_step(&self, t: State, w: u8, o: Label) -> Stepped
        ensures { told t result ≡ relabel_rule self.now.c (shape_in self.now.shapes.now) t w o }
    {
        let Some(i) = t.cell(self.c, w) else {
            return Stepped::Breaks;
        };
        let trust = self.trust_of(i);
        if !trust.is_met(t.p) || !t.p.reaches(o) {
            return Stepped::Stuck;
        }
        if trust.is_met(o) {
            Stepped::Passes
        } else {
            Stepped::Breaks
        }
    }

    #[tactic(auto, unfolding(crate::specs::Rules::on_known_cell, crate::specs::Rules::on_known_code, crate::specs::Rules::breaks_unless, book::specs::Control::both))]
    pub(crate) fn exec_step(&self, t: State, w: u8) -> Stepped
        ensures { told t result ≡ exec_rule self.now.c (shape_in self.now.shapes.now) t w }
    {
        let Some(i) = t.cell(self.c, w) else {
            return Stepped::Breaks;
        };
        let trust = self.trust_of(i);
        match self.known_of(self.shape(i).content) {
            Known::Code(bound) if bound.reaches(t.p) && trust.covers(t.p) => Stepped::Passes,
            _ => Stepped::Breaks,
        }
    }
}

// Labels and trust. Document 001 has two kinds of label: the dynamic label of a cell or a job, and the static label of a cell's
// content, which the request calls its trust. They are types of their own, and only the functions here compare one with the other.
#![tactic(auto)]

ghost use Rattle.std.specs.Prelude.{◌≡◌};
ghost use Rattle.labels.specs.Labels.{lower, reaches, is_above, is_met, is_high, covers, normal, capped};

// A label: 0 to 15, higher is more trusted. Labels of cells and jobs, bounds, C and the members of histories.
#[derive(Clone, Copy, PartialEq, Eq, PartialOrd, Ord)]
pub struct Label(pub u8);

// The trust of a cell: fixed by its shape.
#[derive(Clone, Copy, PartialEq, Eq, PartialOrd, Ord)]
pub struct Trust(pub u8);

impl Label {
    // The most trusted label.
    pub const TOP: Label = Label(15);

    // The lower of two labels. No label is above 15; the contract holds of any two bytes, so that no caller has to show what it holds.
    #[tactic(auto, using(crate::proofs::Orders::lower_min))]
    pub fn lower_of(self, other: Label) -> Label
        ensures { result ≡ lower self other }
    {
        self.min(other)
    }

    // This label is at least the other.
    pub fn reaches(self, other: Label) -> bool
        ensures { result ≡ reaches self other }
    {
        self >= other
    }

    // This label is above the other.
    pub fn is_above(self, other: Label) -> bool
        ensures { result ≡ is_above self other }
    {
        self > other
    }
}

impl Trust {
    // The label is at least this trust.
    pub fn is_met(self, label: Label) -> bool
        ensures { result ≡ is_met self label }
    {
        self.0 <= label.0
    }

    // This trust is above the label C: not low.
    pub fn is_high(self, c: Label) -> bool
        ensures { result ≡ is_high self c }
    {
        c.0 < self.0
    }

    // This trust is at least the label.
    pub fn covers(self, label: Label) -> bool
        ensures { result ≡ covers self label }
    {
        label.0 <= self.0
    }

    // This trust as typing counts it: 0 if it is at or below C.
    pub fn normal(self, c: Label) -> Trust
        ensures { result ≡ normal c self }
    {
        if self.is_high(c) { self } else { Trust(0) }
    }

    // The smaller of this trust and a label, as an effect.
    #[tactic(auto, using(crate::proofs::Orders::capped_min))]
    pub fn capped(self, label: Label) -> Label
        ensures { result ≡ capped self label }
    {
        Label(self.0).min(label)
    }
}

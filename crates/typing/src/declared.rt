// The typing rule of a declared cell.
ghost use Rattle.std.specs.Prelude.{◌≡◌};
ghost use Rattle.typing.specs.Shapes.{declared_ok};
ghost use Rattle.typing.specs.Asked.{viewed, known_in};

use crate::{Known, Tables};
use book::{Declared, Value};
use labels::Label;

impl Tables<'_> {
    // What is known of a declared value.
    #[tactic(auto, using(book::proofs::Lists::at_some, book::proofs::Lists::at_none), unfolding(crate::specs::Shapes::known_value, book::specs::Control::on_some))]
    fn known_value(&self, v: Value) -> Known
        ensures { result ≡ known_in self.now.shaped.now self.now.bounds.now v }
    {
        match v {
            Value::Plain(_) => Known::Plain,
            Value::CellName(n) => match self.shaped.get(n as usize) {
                Some(i) => Known::CellOf(*i),
                None => Known::Unknown,
            },
            Value::CodeName(n) => match self.bounds.get(n as usize) {
                Some(bound) => Known::Code(Label(*bound)),
                None => Known::Unknown,
            },
        }
    }

    // A declared cell meets its rule.
    #[tactic(auto, unfolding(crate::specs::Shapes::declared_ok, book::specs::Control::both))]
    pub fn is_declared_ok(&self, d: Declared) -> bool
        ensures { result ≡ declared_ok (viewed self.now) d }
    {
        if !self.is_high(d.shape) {
            return true;
        }
        let met = self.trust_of(d.shape).is_met(d.label);
        met && self.fits(self.known_value(d.value), self.shape(d.shape).content)
    }
}

// What typing knows of the registers, and how a rule answers. It hands back what the step changes in the state, not the state: that is a
// tenth of the size.
ghost use Rattle.std.specs.Prelude.{◌≡◌};
ghost use Rattle.typing.specs.Rules.{plain_or_low, low_register, register_type, fresh, used, known};
ghost use Rattle.typing.specs.Asked.{cell_on};

use crate::{Known, Register, State, Stepped};
use labels::Label;

impl State {
    // The state at the start of a block.
    #[tactic(auto, unfolding(crate::specs::Rules::fresh))]
    pub fn fresh(bound: Label) -> State
        ensures { result ≡ fresh bound }
    {
        let register = Register {
            known: Known::Plain,
            effect: bound,
        };
        State {
            p: bound,
            lowered: false,
            registers: [register; 8],
        }
    }

    // A test and an index: by `get` a check took 1 % more instructions.
    pub(crate) fn register(self, r: u8) -> Register
        ensures { result ≡ register_type self r }
    {
        let i = r as usize;
        let registers = self.registers;
        if i < 8 {
            return registers[i];
        }
        Register {
            known: Known::Unknown,
            effect: Label(0),
        }
    }

    // A used effect: the smaller of effect and P.
    pub(crate) fn used_effect(self, r: u8) -> Label
        ensures { result ≡ used self r }
    {
        self.register(r).effect.lower_of(self.p)
    }

    // What is known of a register's shape: nothing if its effect is low.
    #[tactic(auto, unfolding(crate::specs::Rules::known))]
    pub(crate) fn known(self, c: Label, r: u8) -> Known
        ensures { result ≡ known c self r }
    {
        let register = self.register(r);
        if c.reaches(register.effect) {
            return Known::Unknown;
        }
        register.known
    }

    // The shape of a register that is a cell of effect above C.
    pub(crate) fn cell(self, c: Label, w: u8) -> Option<u8>
        ensures { result ≡ cell_on (known c self w) }
    {
        match self.known(c, w) {
            Known::CellOf(i) => Some(i),
            _ => None,
        }
    }

    // A register is plain, or its effect is low.
    #[tactic(auto, unfolding(crate::specs::Rules::plain_or_low, crate::specs::Rules::is_plainly, book::specs::Control::either))]
    pub(crate) fn is_plain_or_low(self, c: Label, a: u8) -> bool
        ensures { result ≡ plain_or_low c self a }
    {
        let register = self.register(a);
        c.reaches(register.effect) || matches!(register.known, Known::Plain)
    }
}

impl Stepped {
    // Register r gets this known shape and effect.
    pub(crate) fn gives(r: u8, known: Known, effect: Label) -> Stepped
        ensures { result ≡ Stepped.Gives r (record { known = known; effect = effect }) }
    {
        Stepped::Gives(r, Register { known, effect })
    }

    // Register r gets a low result.
    pub(crate) fn gives_low(r: u8) -> Stepped
        ensures { result ≡ Stepped.Gives r low_register }
    {
        Stepped::gives(r, Known::Unknown, Label(0))
    }
}

// The machine of a job book: what is done to it. What it then does is in specs/.
#![tactic(auto)]

pub mod answer;
pub mod kind;

use labels::Label;

// An event, its fields in the record's order: 80 step job; by an outsider at a label, 81 write cell, value kind, number; 82 relabel
// cell, label; 83 new shape, value kind, number; 84 exec cell; 85 start block.
#[derive(Clone, Copy)]
pub enum Event {
    StepOf(u8),
    WriteBy(Label, u8, u8, u32),
    RelabelBy(Label, u8, Label),
    NewBy(Label, u8, u8, u32),
    ExecBy(Label, u8),
    StartBy(Label, u8),
}

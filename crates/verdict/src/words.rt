// The words of a verdict.
use book::{Counts, Refused};
use std::fmt;

#[derive(Clone, Copy)]
pub struct Words(pub Result<Counts, Refused>);

impl fmt::Display for Words {
    fn fmt<W: fmt::Write>(&self, f: &mut fmt::Formatter<W>) -> fmt::Result {
        match self.0 {
            Ok(n) => write!(
                f,
                "accepted shapes {} cells {} blocks {} steps {}",
                n.shapes, n.cells, n.blocks, n.steps
            ),
            Err(e) => write!(f, "refused {} at {}", e.why.number(), e.place),
        }
    }
}

// Shapes: likeness, and what fits a content. A table of shapes is an outline's, four bytes to a shape. What is always inlined knows the table's length
// from the caller, and tests no bounds.
ghost use Rattle.std.specs.Prelude.{◌≡◌};
ghost use Rattle.book.specs.Outline.{shape_in};
ghost use Rattle.typing.specs.Shapes.{counted_trust, is_high_trust, alike, known_of, fits};
ghost use Rattle.typing.specs.Asked.{is_plain};

use crate::{Known, Tables};
use book::{Shape, kind};
use labels::Trust;

#[tactic(auto, unfolding(book::specs::Control::both))]
fn is_plain(x: Shape) -> bool
    ensures { result ≡ is_plain x }
{
    x.kind != kind::CODE_SHAPE && x.kind != kind::CELL_SHAPE
}

impl Tables<'_> {
    // The shape of a number.
    pub(crate) fn shape(&self, i: u8) -> Shape
        ensures { result ≡ shape_in self.now.shapes.now i }
    {
        decode::shape_in(self.shapes, i)
    }

    // The trust of a shape, as typing counts it.
    pub(crate) fn trust_of(&self, i: u8) -> Trust
        ensures { result ≡ counted_trust self.now.c (shape_in self.now.shapes.now) i }
    {
        self.shape(i).trust.normal(self.c)
    }

    // The trust of a shape is above C.
    pub(crate) fn is_high(&self, i: u8) -> bool
        ensures { result ≡ is_high_trust self.now.c (shape_in self.now.shapes.now) i }
    {
        self.trust_of(i).is_high(self.c)
    }

    // Two shapes are alike. The number falls with each call, since contents are lower-numbered.
    #[tactic(auto, using(crate::proofs::Likes::likes), unfolding(crate::specs::Shapes::alike, crate::specs::Shapes::alike_in, book::specs::Control::both, book::specs::Control::either))]
    #[inline(always)]
    pub(crate) fn are_alike(&self, i: u8, j: u8) -> bool
        ensures { result ≡ alike self.now.c (shape_in self.now.shapes.now) i j }
    {
        let a = self.shape(i);
        let b = self.shape(j);
        match a.kind {
            kind::CODE_SHAPE => b.kind == kind::CODE_SHAPE && a.bound == b.bound,
            kind::CELL_SHAPE => {
                b.kind == kind::CELL_SHAPE
                    && self.trust_of(i) == self.trust_of(j)
                    && self.are_alike(a.content, b.content)
            }
            _ => is_plain(b),
        }
    }

    // What is known of a value that has this shape.
    #[tactic(auto, unfolding(crate::specs::Shapes::known_of))]
    pub(crate) fn known_of(&self, i: u8) -> Known
        ensures { result ≡ known_of self.now.c (shape_in self.now.shapes.now) i }
    {
        let x = self.shape(i);
        match x.kind {
            kind::CODE_SHAPE => Known::Code(x.bound),
            kind::CELL_SHAPE => Known::CellOf(i),
            _ => Known::Plain,
        }
    }

    // A register of this known shape fits the content shape.
    #[tactic(auto, unfolding(crate::specs::Shapes::fits, book::specs::Control::both))]
    #[inline(always)]
    pub(crate) fn fits(&self, known: Known, i: u8) -> bool
        ensures { result ≡ fits self.now.c (shape_in self.now.shapes.now) known i }
    {
        match known {
            Known::Unknown => false,
            Known::Plain => is_plain(self.shape(i)),
            Known::Code(b) => {
                let x = self.shape(i);
                x.kind == kind::CODE_SHAPE && b.reaches(x.bound)
            }
            Known::CellOf(j) => self.are_alike(j, i),
        }
    }
}

// A routine as it lies in an image whose header and length are right.
ghost use Rattle.std.specs.Prelude.{◌≡◌, ◌<◌};
ghost use Rattle.image.specs.Accepted.{Accepted};
ghost use Rattle.image.specs.Check.{shape_of};
ghost use Rattle.image.specs.Records.{condition_record, node};
ghost use Rattle.image.specs.Inner.Whole.{Whole};

use super::accept::Shape;
use super::records::{ConditionRecord, Node, condition_at, node_at};

// The image, and C and P as its header has them, so that they are not read again for each node.
#[derive(Clone, Copy)]
pub struct Routine<'a> {
    pub image: &'a [u8],
    pub conditions: usize,
    pub nodes: usize,
    ghost whole: { Whole image.now conditions nodes },
}

impl<'a> Routine<'a> {
    // The routine of an image that the check accepts, of this shape.
    pub fn of(image: &'a [u8], shape: Shape) -> Self
        requires { Accepted image.now × (shape ≡ shape_of image.now) }
        ensures { (result.image.now ≡ image.now) × (result.conditions ≡ shape.conditions) × (result.nodes ≡ shape.nodes) }
    {
        Routine {
            image,
            conditions: shape.conditions,
            nodes: shape.nodes,
        }
    }

    pub fn condition(self, k: usize) -> ConditionRecord
        requires { k < self.conditions }
        ensures { result ≡ condition_record self.entry.image.now k }
    {
        condition_at(self.image, k)
    }

    pub fn node(self, n: usize) -> Node
        requires { n < self.nodes }
        ensures { result ≡ node self.entry.image.now n }
    {
        node_at(self.image, self.conditions, n)
    }
}

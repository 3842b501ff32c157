//! Which kinds of node are devices by their words.
ghost use Rattle.sd_device.specs.Living.{Life};
ghost use Rattle.sd_device.specs.Exact.{IsExact};

use crate::Node;

/// A kind of node that tells for which lives a node stands, each a making and the calls since then.
/// Of each such life it sends, reports and answers what the words on devices say.
pub trait ExactNode: Node {
    /// The node stands for this life.
    ghost stands: { Self → Life → Type 0 };

    /// It does nothing: its clause is what all that is said of such kinds follows from.
    fn exact()
        ensures { IsExact Self.Node stands };
}

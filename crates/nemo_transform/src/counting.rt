ghost use Rattle.std.specs.Prelude.{◌≡◌, count_by};
ghost use Rattle.nemo_transform.specs.Ports.{kinds_of, is_main, is_keyed, is_side};

use crate::shape::Ports;
use crate::transform::Transform;

/// The ports of a transform.
pub fn ports(transform: &Transform) -> Ports
    ensures main { result.main ≡ count_by is_main (kinds_of transform.now) }
    ensures keyed { result.keyed ≡ count_by is_keyed (kinds_of transform.now) }
    ensures side { result.side ≡ count_by is_side (kinds_of transform.now) }
{
    let (main, keyed, side) = match transform {
        Transform::Source { .. } => (0, 0, 0),
        Transform::Union { ports } => (*ports, 0, 0),
        Transform::Reduce { .. } | Transform::Distinct => (0, 1, 0),
        Transform::Join => (0, 2, 0),
        Transform::SideJoin => (1, 0, 1),
        Transform::Map { .. }
        | Transform::Filter { .. }
        | Transform::Emit { .. }
        | Transform::Words { .. }
        | Transform::Sink { .. } => (1, 0, 0),
    };
    Ports { main, keyed, side }
}

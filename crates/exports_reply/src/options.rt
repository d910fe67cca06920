// Rules of the ends and methods by their numbers.
ghost use Rattle.std.specs.Prelude.{◌≡◌};
ghost use Rattle.exports_reply.specs.Options.{method_of, way_of};

use inverse_order::EndsBy;
use inverse_segment::Method;

// The options' method by its number.
fn by_method(ends: EndsBy, n: u8) -> Option<(EndsBy, Method)>
    ensures { result ≡ method_of ends n }
{
    match n {
        0 => Some((ends, Method::AsCrate)),
        1 => Some((ends, Method::Taught)),
        2 => Some((ends, Method::Steady)),
        _ => None,
    }
}

// The rule of the ends and the method of two numbers; their order is that of specs/Options.antt.
pub fn way_of(ends: u8, method: u8) -> Option<(EndsBy, Method)>
    ensures { result ≡ way_of ends method }
{
    match ends {
        0 => by_method(EndsBy::Knots, method),
        1 => by_method(EndsBy::Curve, method),
        _ => None,
    }
}

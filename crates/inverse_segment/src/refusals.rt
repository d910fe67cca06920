// The refusals of a segment's inversion, in the table's order.
ghost use Rattle.std.specs.Prelude.{◌≡◌};
ghost use Rattle.error.specs.Refusals.{first};
ghost use Rattle.inverse_segment.specs.Answer.{inverse_segment_uses};

use error::Refusal;

// The refusals of inverting one segment, in the order of the table.
pub fn segment_verdict(y: f64, cv: &[f64], limit: u16, precision: f64) -> Result<(), Refusal>
    ensures { result ≡ first (inverse_segment_uses y cv.now limit precision) }
{
    checks::segment_length(cv.len())?;
    checks::asked(y, limit, precision)?;
    checks::knots(cv)
}

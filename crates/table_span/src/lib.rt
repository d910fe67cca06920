// A table's basis and its span in seconds from dusk, and the second of a place.
#![tactic(auto)]

ghost use Rattle.std.specs.Prelude.{◌≡◌, true, ◌∷◌, ◌≤◌, Err};
ghost use Rattle.error.specs.declared.Refusal.TheVariants.{BadSpan};
ghost use Rattle.error.specs.Refusals.{first};
ghost use Rattle.checks.specs.Checks.{curve_length};
ghost use Rattle.table_span.specs.Second.{day, good_span, second_of, seconds_of, seconds_in};

use basis::Basis;
use error::Refusal;

// A table without its knots, which are lent beside it. A span of 0 stands for none.
// No Option: refusal 14 and its theorems speak of every number that is no span, those above a day as well as 0.
#[derive(Clone, Copy)]
pub struct Table {
    pub basis: Basis,
    pub span: u32,
}

// Whether a span is good: 1 to 86,400 seconds.
pub fn is_span(span: u32) -> bool
    ensures { result ≡ good_span span }
{
    1 <= span && span <= 86400
}

// The largest whole second not above parameter × span, by comparing with whole numbers.
pub fn second(span: u32, parameter: f64) -> u32
    requires { span ≤ day }
    ensures answer { result ≡ second_of span parameter }
    ensures most { result ≤ span }
{
    doubles::whole::by_halving(span, parameter * (span as f64))
}

// The second to be told of a place: none without a good span.
pub fn seconds_of(span: u32, parameter: f64) -> Option<u32>
    ensures { seconds_in result ≡ seconds_of span parameter }
{
    if is_span(span) {
        return Some(second(span, parameter));
    }
    None
}

// The refusal of a table without a good span: that of its length, if there is one, comes before 14.
pub fn without_span(b: Basis, n: usize) -> Refusal
    ensures { Err result ≡ first ((BadSpan, true) ∷ curve_length b n) }
{
    match checks::curve_length(b, n) {
        Err(r) => r,
        Ok(()) => Refusal::BadSpan,
    }
}

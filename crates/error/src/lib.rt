// The refusals, each with its number. Rust: src/error.rs.
#![tactic(auto)]

ghost use Rattle.std.specs.Prelude.{◌≡◌};
ghost use Rattle.error.specs.Refusals.{number_of, where_of, place_of, reply_of};

#[derive(Clone, Copy)]
pub enum Refusal {
    TooFew,
    BadPattern,
    TooMany,
    BadSpan,
    NotANumber,
    BadPrecision,
    NoRounds,
    LinearOutput,
    BadAllowance,
    ShortBuffer,
    BadStep,
    NoSegment,
    BadKnot(u16),
    TurnsBack(u16),
    UnequalSegments,
    OffCurve,
    BadLine,
    BadSheet,
    NoComparison,
    LostSeam(u16),
}

// The refusal's number in the table.
// No From: docs/CALLS.md names it, `place` and `reply` as functions with these answers, and C gets them.
pub fn number(r: Refusal) -> u8
    ensures { result ≡ number_of r }
{
    match r {
        Refusal::TooFew => 1,
        Refusal::BadPattern => 2,
        Refusal::TooMany => 3,
        Refusal::BadSpan => 14,
        Refusal::NotANumber => 5,
        Refusal::BadPrecision => 6,
        Refusal::NoRounds => 7,
        Refusal::LinearOutput => 8,
        Refusal::BadAllowance => 17,
        Refusal::ShortBuffer => 9,
        Refusal::BadStep => 16,
        Refusal::NoSegment => 19,
        Refusal::BadKnot(_) => 4,
        Refusal::TurnsBack(_) => 10,
        Refusal::UnequalSegments => 18,
        Refusal::OffCurve => 11,
        Refusal::BadLine => 12,
        Refusal::BadSheet => 13,
        Refusal::NoComparison => 20,
        Refusal::LostSeam(_) => 15,
    }
}

// What a refusal tells besides its number: nothing, a knot or a segment, counted from 0.
// Three cases of one enum: an Option around an enum of two would be no plainer.
#[derive(Clone, Copy)]
pub enum Where {
    Nowhere,
    Knot(u16),
    Segment(u16),
}

// A bad knot and a turn back tell the knot, a lost seam its segment.
pub fn where_told(r: Refusal) -> Where
    ensures { result ≡ where_of r }
{
    match r {
        Refusal::BadKnot(i) | Refusal::TurnsBack(i) => Where::Knot(i),
        Refusal::LostSeam(i) => Where::Segment(i),
        _ => Where::Nowhere,
    }
}

// The knot or segment that it tells; 0 where it tells none.
pub fn place(r: Refusal) -> u16
    ensures { result ≡ place_of r }
{
    match where_told(r) {
        Where::Nowhere => 0,
        Where::Knot(i) | Where::Segment(i) => i,
    }
}

// Number and place in one: the number in the lowest eight bits, the place above them.
pub fn reply(r: Refusal) -> u32
    ensures { result ≡ reply_of r }
{
    number(r) as u32 + 256 * (place(r) as u32)
}

// The replies, and the text of each.
#![tactic(auto, using(text::proofs::Pens::pens))]

ghost use Rattle.std.specs.Prelude.{◌≡◌, ◌+◌, ◌*◌, ◌≤◌, length, [], ◌∷◌};
ghost use Rattle.basis.specs.Basis.{most_knots};
ghost use Rattle.error.specs.Refusals.{places_in};
ghost use Rattle.text.specs.Pens.{HasRoom, Writes};
ghost use Rattle.lines_record.specs.Record.{name_of};
ghost use Rattle.table_span.specs.Second.{seconds_in, spans_of};
ghost use Rattle.lines_reply.specs.Reply.{
  ground_name,
  places_text,
  refused_text,
  line_text,
  seconds_text,
  place_text,
  spans_text,
  knots_text,
  curve_text,
  text_of,
};
ghost use Rattle.lines_reply.specs.Contract.{longest, lent_of, reply_of};

use basis::Basis;
use error::{Refusal, Where};
use inverse_segment::Ground;
use table_span::Table;
use text::Pen;

// Room for the longest reply: a curve of 4,096 knots over CatmullRom with a span.
pub const LONGEST: usize = 90145;

// A reply to one line. The knots of a curve are the first ones, as many as it says, of a lent slice.
// A refusal is a reply like the others, which is printed as they are: a Result around them would be no plainer.
#[derive(Clone, Copy)]
pub enum LineReply {
    Nothing,
    Refused(Refusal),
    Value(f64),
    Place(f64, Ground, u32, Option<u32>),
    Curve(Table, usize),
}

// The number of a knot or a segment, after a tab.
fn put_number(pen: &mut Pen, i: u16)
    requires { HasRoom pen.old 6 }
    ensures { Writes pen.old (places_text (i ∷ [])) 6 pen.new }
{
    pen.byte(b'\t');
    pen.decimal(u64::from(i), 4);
}

// The knot or segment that a refusal tells.
fn put_places(pen: &mut Pen, w: Where)
    requires { HasRoom pen.old 6 }
    ensures { Writes pen.old (places_text (places_in w)) 6 pen.new }
{
    match w {
        Where::Nowhere => {}
        Where::Knot(i) => put_number(pen, i),
        Where::Segment(i) => put_number(pen, i),
    }
}

// The reply to a line that is refused.
pub fn put_refused(pen: &mut Pen, r: Refusal)
    requires { HasRoom pen.old 18 }
    ensures { Writes pen.old (refused_text r) 18 pen.new }
{
    pen.word(b"refused\t");
    pen.decimal(u64::from(error::number(r)), 2);
    put_places(pen, error::where_told(r));
    pen.byte(b'\n');
}

// A word and a double.
fn put_line(pen: &mut Pen, w: &[u8], x: f64)
    requires { HasRoom pen.old (length w.now + 17) }
    ensures { Writes pen.old (line_text w.now x) (length w.now + 17) pen.new }
{
    pen.word(w);
    pen.double(x);
    pen.byte(b'\n');
}

// The word for a ground.
fn put_ground(pen: &mut Pen, g: Ground)
    requires { HasRoom pen.old 5 }
    ensures { Writes pen.old (ground_name g) 5 pen.new }
{
    match g {
        Ground::End => pen.word(b"end"),
        Ground::Edge => pen.word(b"edge"),
        Ground::Value => pen.word(b"value"),
        Ground::Width => pen.word(b"width"),
        Ground::Spent => pen.word(b"spent"),
    }
}

// The second, behind a tab.
fn put_second(pen: &mut Pen, s: u32)
    requires { HasRoom pen.old 11 }
    ensures { Writes pen.old (seconds_text (s ∷ [])) 11 pen.new }
{
    pen.byte(b'\t');
    pen.decimal(u64::from(s), 9);
}

// The second of a place, after a tab.
fn put_seconds(pen: &mut Pen, s: Option<u32>)
    requires { HasRoom pen.old 11 }
    ensures { Writes pen.old (seconds_text (seconds_in s)) 11 pen.new }
{
    match s {
        Some(n) => put_second(pen, n),
        None => {}
    }
}

// The reply to `find`: parameter, ground, evaluations, and the second where the table has a span.
fn put_place(pen: &mut Pen, x: f64, g: Ground, n: u32, s: Option<u32>)
    requires { HasRoom pen.old 51 }
    ensures { Writes pen.old (place_text x g n (seconds_in s)) 51 pen.new }
{
    pen.word(b"place\t");
    pen.double(x);
    pen.byte(b'\t');
    put_ground(pen, g);
    pen.byte(b'\t');
    pen.decimal(u64::from(n), 9);
    put_seconds(pen, s);
    pen.byte(b'\n');
}

// The name of a basis.
pub fn put_basis(pen: &mut Pen, b: Basis)
    requires { HasRoom pen.old 10 }
    ensures { Writes pen.old (name_of b) 10 pen.new }
{
    match b {
        Basis::Bspline => pen.word(b"Bspline"),
        Basis::Bezier => pen.word(b"Bezier"),
        Basis::CatmullRom => pen.word(b"CatmullRom"),
        Basis::Hermite => pen.word(b"Hermite"),
        Basis::Linear => pen.word(b"Linear"),
        Basis::Power => pen.word(b"Power"),
    }
}

// A line for each knot.
#[tactic(auto, using(text::proofs::Pens::pens, crate::proofs::Knots::knots_none, crate::proofs::Knots::knots_more))]
fn put_knots(pen: &mut Pen, knots: &[f64])
    requires { HasRoom pen.old (22 * length knots.now) }
    ensures { Writes pen.old (knots_text knots.now) (22 * length knots.now) pen.new }
{
    for x in knots {
        put_line(pen, b"knot\t", *x);
    }
}

// The line of a span, where the table has one.
fn put_span(pen: &mut Pen, span: u32)
    requires { HasRoom pen.old 16 }
    ensures { Writes pen.old (spans_text (spans_of span)) 16 pen.new }
{
    if table_span::is_span(span) {
        pen.word(b"span\t");
        pen.decimal(u64::from(span), 9);
        pen.byte(b'\n');
    }
}

// The reply to `turn`: a whole listing.
fn put_curve(pen: &mut Pen, t: Table, knots: &[f64])
    requires most { length knots.now ≤ most_knots }
    requires room { HasRoom pen.old longest }
    ensures { Writes pen.old (curve_text t.basis (spans_of t.span) knots.now) longest pen.new }
{
    let b = t.basis;
    let span = t.span;
    pen.word(b"curve\t");
    put_basis(pen, b);
    pen.byte(b'\n');
    put_span(pen, span);
    put_knots(pen, knots);
}

// The text of a reply.
#[tactic(auto, using(text::proofs::Pens::pens), unfolding(crate::specs::Reply::text_of))]
pub fn put_reply(pen: &mut Pen, t: LineReply, converted: &[f64])
    requires lent { lent_of t ≤ length converted.now }
    requires converted { length converted.now ≡ most_knots }
    requires room { HasRoom pen.old longest }
    ensures { Writes pen.old (text_of (reply_of t converted.now)) longest pen.new }
{
    match t {
        LineReply::Nothing => {}
        LineReply::Refused(r) => put_refused(pen, r),
        LineReply::Value(x) => put_line(pen, b"value\t", x),
        LineReply::Place(x, g, n, s) => put_place(pen, x, g, n, s),
        LineReply::Curve(c, n) => put_curve(pen, c, &converted[0..n]),
    }
}

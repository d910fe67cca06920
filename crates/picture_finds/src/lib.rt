// The last eight targets asked, and what is drawn of each, the place or the refusal.
#![tactic(auto, using(text::proofs::Pens::pens))]

ghost use Rattle.std.specs.Prelude.{◌≡◌, [], ◌≤◌, ◌+◌, min, length};
ghost use Rattle.basis.specs.Basis.{most_knots};
ghost use Rattle.text.specs.Pens.{HasRoom, Writes};
ghost use Rattle.picture_scale.specs.Bounds.{Open};
ghost use Rattle.picture_finds.specs.Finds.{
  asked,
  place_column,
  mark_text,
  time_of,
  told_text,
  place_text,
  is_end,
  is_beyond,
  beyond_text,
  at_text,
  in_depths,
  find_in,
  find_text,
  finds_text,
};
ghost use Rattle.picture_finds.specs.Contract.{targets_of};

use basis::Basis;
use error::Refusal;
use inverse::Options;
use inverse_order::EndsBy;
use inverse_segment::{DEFAULT_PRECISION, Ground, Method, Miss, Place, STEADY_LIMIT};
use picture_scale::Extent;
use picture_scale::words::{put_label, put_number};
use text::Pen;

// The last targets asked, the latest first, at most eight: those up to the first empty place.
#[derive(Clone, Copy)]
pub struct Finds {
    pub ys: [Option<f64>; 8],
}

// None was asked.
#[tactic(auto, unfolding(crate::specs::Contract::leading))]
pub fn none() -> Finds
    ensures { targets_of result ≡ [] }
{
    Finds { ys: [None; 8] }
}

// y before the seven latest.
pub fn ask(y: f64, f: Finds) -> Finds
    ensures { targets_of result ≡ asked y (targets_of f) }
{
    let l = f.ys;
    let ys = [Some(y), l[0], l[1], l[2], l[3], l[4], l[5], l[6]];
    Finds { ys }
}

// The column of a parameter.
fn place_column(x: f64) -> u64
    ensures { result ≡ place_column x }
{
    1000 + table_span::second(8600, x) as u64
}

// A mark on the curve, with lines to both axes.
fn put_mark(pen: &mut Pen, x: u64, y: u64)
    requires { HasRoom pen.old 160 }
    ensures { Writes pen.old (mark_text x y) 160 pen.new }
{
    put_number(pen, b"<path class=\"f\" d=\"M1000,", y);
    put_number(pen, b"H", x);
    put_number(pen, b"V6400\"/><path class=\"p\" d=\"M", x);
    put_number(pen, b",", y);
    pen.word(b"h0\"/>\n");
}

// The time of a parameter, in thousandths.
fn time(span: u32, x: f64) -> u64
    ensures answer { result ≡ time_of span x }
    ensures most { result ≤ 4294967296 }
{
    if table_span::is_span(span) {
        return (table_span::second(span, x) as u64) * 10 / 36;
    }
    table_span::second(1000, x) as u64
}

// The depth and the time, at the two ends of the mark's line.
fn put_told(pen: &mut Pen, x: u64, y: u64, h: u64, v: u64)
    requires height { h ≤ 9000000000000000 }
    requires time { v ≤ 4294967296 }
    requires room { HasRoom pen.old 128 }
    ensures { Writes pen.old (told_text x y h v) 128 pen.new }
{
    let top = y.saturating_sub(50);
    let left = x.saturating_sub(50);
    put_number(pen, b"<text class=\"f\" x=\"1040\" y=\"", top);
    pen.word(b"\">");
    put_label(pen, h);
    put_number(pen, b"</text><text class=\"f e\" x=\"", left);
    pen.word(b"\" y=\"6350\">");
    put_label(pen, 2000000000000000 + v);
    pen.word(b"</text>\n");
}

// The mark of a place that was found, with its depth and its time.
fn put_place(pen: &mut Pen, span: u32, e: Extent, y: f64, p: Place)
    requires open { Open e }
    requires room { HasRoom pen.old 288 }
    ensures { Writes pen.old (place_text span e y p) 288 pen.new }
{
    let x = place_column(p.parameter);
    let h = picture_scale::height(y);
    let row = picture_scale::row(e, h);
    let v = time(span, p.parameter);
    put_mark(pen, x, row);
    put_told(pen, x, row, h, v);
}

// Whether a place stands for what lies at or beyond an end.
fn is_end(g: Ground) -> bool
    ensures { result ≡ is_end g }
{
    match g {
        Ground::End => true,
        Ground::Edge => false,
        Ground::Value => false,
        Ground::Width => false,
        Ground::Spent => false,
    }
}

// Whether the place is an end of the curve, and the curve does not come to y there.
fn is_beyond(b: Basis, knots: &[f64], y: f64, p: Place) -> bool
    ensures { result ≡ is_beyond b knots.now y p }
{
    let g = p.ground;
    let i = table_span::second(1, p.parameter);
    let h = picture_scale::curve_height(b, knots, 1, i as usize);
    let asked = picture_scale::height(y);
    if h == asked {
        return false;
    }
    is_end(g)
}

// The line of text that the depth of height h lies beyond the curve.
fn put_beyond(pen: &mut Pen, slot: u64, h: u64)
    requires slot { slot ≤ 9 }
    requires height { h ≤ 9000000000000000 }
    requires room { HasRoom pen.old 96 }
    ensures { Writes pen.old (beyond_text slot h) 96 pen.new }
{
    put_number(pen, b"<text class=\"r\" x=\"1100\" y=\"", 600 + 180 * slot);
    pen.word(b"\">find ");
    put_label(pen, h);
    pen.word(b" lies beyond the curve</text>\n");
}

// The place, unless it stands for a depth beyond an end.
fn put_at(pen: &mut Pen, span: u32, b: Basis, knots: &[f64], e: Extent, slot: u64, y: f64, p: Place)
    requires open { Open e }
    requires slot { slot ≤ 9 }
    requires room { HasRoom pen.old 288 }
    ensures { Writes pen.old (at_text span b knots.now e slot y p) 288 pen.new }
{
    if is_beyond(b, knots, y, p) {
        put_beyond(pen, slot, picture_scale::height(y));
    } else {
        put_place(pen, span, e, y, p);
    }
}

// Whether every knot of a basis is a depth, so that the order check compares like with like.
fn is_in_depths(b: Basis) -> bool
    ensures { result ≡ in_depths b }
{
    match b {
        Basis::Bspline => true,
        Basis::Bezier => true,
        Basis::CatmullRom => true,
        Basis::Hermite => false,
        Basis::Linear => true,
        Basis::Power => false,
    }
}

// The find of y: the place, or the refusal.
fn put_found(
    pen: &mut Pen,
    span: u32,
    b: Basis,
    knots: &[f64],
    e: Extent,
    slot: u64,
    y: f64,
    i: Result<Place, Miss>,
)
    requires most { length knots.now ≤ most_knots }
    requires open { Open e }
    requires slot { slot ≤ 9 }
    requires room { HasRoom pen.old 288 }
    ensures { Writes pen.old (find_in span b knots.now e slot y i) 288 pen.new }
{
    let n = knots.len();
    match i {
        Err(Miss::Refused(r)) => picture_notes::put_note(pen, b, n as u64, slot, b"find", r),
        Err(Miss::OffCurve(_)) => picture_notes::put_note(
            pen,
            b,
            n as u64,
            slot,
            b"find",
            Refusal::OffCurve,
        ),
        Ok(p) => put_at(pen, span, b, knots, e, slot, y, p),
    }
}

// Finds the depth y by the steady method, and draws what comes of it.
fn put_find(
    pen: &mut Pen,
    span: u32,
    m: EndsBy,
    b: Basis,
    knots: &[f64],
    e: Extent,
    slot: u64,
    y: f64,
)
    requires most { length knots.now ≤ most_knots }
    requires open { Open e }
    requires slot { slot ≤ 9 }
    requires room { HasRoom pen.old 288 }
    ensures { Writes pen.old (find_text span m b knots.now e slot y) 288 pen.new }
{
    let o = Options {
        check: is_in_depths(b),
        limit: STEADY_LIMIT,
        precision: DEFAULT_PRECISION,
        ends: m,
        method: Method::Steady,
    };
    put_found(
        pen,
        span,
        b,
        knots,
        e,
        slot,
        y,
        inverse::spline_inverse_by(o, b, y, knots),
    );
}

// The finds that were asked, one after another.
#[tactic(auto, using(text::proofs::Pens::pens, crate::proofs::Targets::no_finds, crate::proofs::Targets::finds_go_on))]
pub fn put_finds(pen: &mut Pen, span: u32, m: EndsBy, b: Basis, knots: &[f64], e: Extent, f: Finds)
    requires most { length knots.now ≤ most_knots }
    requires open { Open e }
    requires room { HasRoom pen.old 2304 }
    ensures { Writes pen.old (finds_text span m b knots.now e (targets_of f) (length (targets_of f))) 2304 pen.new }
{
    for (i, place) in f.ys.iter().enumerate() {
        let Some(y) = *place else {
            return;
        };
        put_find(pen, span, m, b, knots, e, (i + 2) as u64, y);
    }
}

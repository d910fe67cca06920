// The curve, its knots, and the whole picture.
#![tactic(auto, using(text::proofs::Pens::pens))]

ghost use Rattle.std.specs.Prelude.{◌≤◌, ◌<◌, ◌+◌, ◌*◌, length};
ghost use Rattle.basis.specs.Basis.{most_knots};
ghost use Rattle.text.specs.Pens.{HasRoom, Writes};
ghost use Rattle.lines_reply.specs.Contract.{longest};
ghost use Rattle.picture_scale.specs.Bounds.{Open};
ghost use Rattle.picture_finds.specs.Contract.{targets_of};
ghost use Rattle.picture.specs.Picture.{points_text, knot_text, knots_text, curve_text, body_in, head_text, picture_text};

use basis::Basis;
use error::Refusal;
use inverse_order::EndsBy;
use picture_finds::Finds;
use picture_scale::Extent;
use table_span::Table;
use text::Pen;

// The points of the curve, at the parameters 0/p to p/p.
#[tactic(auto, using(text::proofs::Pens::pens, crate::proofs::Steps::no_points, crate::proofs::Steps::points_go_on))]
fn put_points(pen: &mut Pen, b: Basis, knots: &[f64], e: Extent, p: usize)
    requires open { Open e }
    requires parts { p ≤ 2048 }
    requires room { HasRoom pen.old 20490 }
    ensures { Writes pen.old (points_text b knots.now e p (p + 1)) 20490 pen.new }
{
    for i in 0..p + 1 {
        let x = picture_scale::column(i as u64, p as u64);
        let h = picture_scale::curve_height(b, knots, p, i);
        picture_scale::words::put_point(pen, e, x, h);
    }
}

// Knot j of n, if it is shown.
fn put_knot(pen: &mut Pen, b: Basis, n: usize, e: Extent, j: usize, x: f64)
    requires knot { j < n }
    requires most { n ≤ most_knots }
    requires open { Open e }
    requires room { HasRoom pen.old 12 }
    ensures { Writes pen.old (knot_text b n e j x) 12 pen.new }
{
    if picture_scale::is_shown(b, n, j) {
        let c = picture_scale::knot_column(b, n as u64, j as u64);
        picture_scale::words::put_dot(pen, e, c, picture_scale::height(x));
    }
}

// A dot for each knot.
#[tactic(auto, using(text::proofs::Pens::pens, crate::proofs::Steps::no_knots, crate::proofs::Steps::knots_go_on))]
fn put_knots(pen: &mut Pen, b: Basis, knots: &[f64], e: Extent)
    requires most { length knots.now ≤ most_knots }
    requires open { Open e }
    requires room { HasRoom pen.old 49152 }
    ensures { Writes pen.old (knots_text b knots.now e (length knots.now)) 49152 pen.new }
{
    for (j, x) in knots.iter().enumerate() {
        put_knot(pen, b, knots.len(), e, j, *x);
    }
}

// What is drawn of a table that is not refused: the depth axis, the curve, the knots above it, and the finds.
fn put_curve(pen: &mut Pen, span: u32, m: EndsBy, b: Basis, knots: &[f64], f: Finds)
    requires most { length knots.now ≤ most_knots }
    requires room { HasRoom pen.old 75000 }
    ensures { Writes pen.old (curve_text span m b knots.now (targets_of f)) 75000 pen.new }
{
    let e = picture_scale::extent_of(b, knots);
    picture_axes::put_depth_axis(pen, e);
    pen.word(b"<polyline class=\"c\" points=\"");
    put_points(pen, b, knots, e, picture_scale::pieces(b, knots.len()));
    pen.word(b"\"/>\n<path class=\"k\" d=\"");
    put_knots(pen, b, knots, e);
    pen.word(b"\"/>\n");
    picture_finds::put_finds(pen, span, m, b, knots, e, f);
}

// The curve; or, where it cannot be evaluated, a note that says why.
fn put_body(
    pen: &mut Pen,
    span: u32,
    m: EndsBy,
    b: Basis,
    knots: &[f64],
    f: Finds,
    v: Result<f64, Refusal>,
)
    requires most { length knots.now ≤ most_knots }
    requires room { HasRoom pen.old 75000 }
    ensures { Writes pen.old (body_in span m b knots.now (targets_of f) v) 75000 pen.new }
{
    match v {
        Ok(_) => put_curve(pen, span, m, b, knots, f),
        Err(r) => picture_notes::put_note(pen, b, knots.len() as u64, 0, b"table", r),
    }
}

// The picture's size and its style.
fn put_head(pen: &mut Pen)
    requires { HasRoom pen.old 900 }
    ensures { Writes pen.old head_text 900 pen.new }
{
    pen.word(
        b"<svg xmlns=\"http://www.w3.org/2000/svg\" width=\"1000\" height=\"700\" viewBox=\"0 0 10000 7000\">\n",
    );
    pen.word(
        b"<style>svg{font-family:sans-serif;font-size:160px}text{fill:#7a7a7a}path,polyline{fill:none;stroke:#7a7a7a;stroke-width:15}",
    );
    pen.word(
        b".g{opacity:.3}.e{text-anchor:end}.s{font-size:70px}.t{text-anchor:middle}.c{stroke:#3b82d6;stroke-width:25}.f{stroke:#2e9e5b;stroke-width:20}",
    );
    pen.word(
        b".k{stroke:#d9730d;stroke-width:100;stroke-linecap:round}.p{stroke:#2e9e5b;stroke-width:120;stroke-linecap:round}.r{stroke:#e5484d;stroke-dasharray:60 40}text.f{fill:#2e9e5b;stroke:none}text.r{fill:#e5484d;stroke:none}</style>\n",
    );
    pen.word(
        b"<path d=\"M1000,400V6400H9600\"/><text x=\"1000\" y=\"300\">depth</text><text class=\"e\" x=\"9600\" y=\"6850\">",
    );
}

// The picture of a table, the finds asked of it, and the last fault.
pub fn put_picture(
    pen: &mut Pen,
    t: Table,
    m: EndsBy,
    knots: &[f64],
    f: Finds,
    fault: Option<Refusal>,
)
    requires most { length knots.now ≤ most_knots }
    requires room { HasRoom pen.old longest }
    ensures { Writes pen.old (picture_text t m knots.now (targets_of f) fault) longest pen.new }
{
    let b = t.basis;
    let span = t.span;
    put_head(pen);
    picture_axes::put_time_name(pen, span);
    picture_axes::put_time_axis(pen, span);
    put_body(pen, span, m, b, knots, f, spline::spline(b, 0.0, knots));
    picture_notes::put_fault(pen, b, knots.len() as u64, fault);
    pen.word(b"</svg>\n");
}

// Numbers, points, dots and labels.
#![tactic(auto, using(text::proofs::Pens::pens))]

ghost use Rattle.std.specs.Prelude.{◌≡◌, ◌≤◌, ◌+◌, length};
ghost use Rattle.text.specs.Pens.{HasRoom, Writes};
ghost use Rattle.picture_scale.specs.Bounds.{highest, Open};
ghost use Rattle.picture_scale.specs.Words.{numbered, point_text, dot_text, trimmed_text, label_text, is_long};

use crate::Extent;
use text::Pen;

// A word, and a number of at most four digits.
pub fn put_number(pen: &mut Pen, w: &[u8], n: u64)
    requires { HasRoom pen.old (length w.now + 4) }
    ensures { Writes pen.old (numbered w.now n) (length w.now + 4) pen.new }
{
    pen.word(w);
    pen.decimal(n.min(9999), 3);
}

// A point of a polyline.
pub fn put_point(pen: &mut Pen, e: Extent, x: u64, h: u64)
    requires open { Open e }
    requires height { h ≤ highest }
    requires room { HasRoom pen.old 10 }
    ensures { Writes pen.old (point_text e x h) 10 pen.new }
{
    put_number(pen, b" ", x);
    put_number(pen, b",", crate::row(e, h));
}

// A dot: a line of no length with a round end.
pub fn put_dot(pen: &mut Pen, e: Extent, x: u64, h: u64)
    requires open { Open e }
    requires height { h ≤ highest }
    requires room { HasRoom pen.old 12 }
    ensures { Writes pen.old (dot_text e x h) 12 pen.new }
{
    put_number(pen, b"M", x);
    put_number(pen, b",", crate::row(e, h));
    pen.word(b"h0");
}

// So many thousandths, with no more digits than it takes.
#[tactic(auto, using(text::proofs::Pens::pens), unfolding(crate::specs::Words::trimmed_text))]
fn put_trimmed(pen: &mut Pen, n: u64)
    requires most { n ≤ 9000000000000000 }
    requires room { HasRoom pen.old 17 }
    ensures { Writes pen.old (trimmed_text n) 17 pen.new }
{
    if n % 1000 == 0 {
        pen.decimal(n / 1000, 12);
    } else if n % 100 == 0 {
        text_rounded::put_fixed(pen, n / 100, 1);
    } else if n % 10 == 0 {
        text_rounded::put_fixed(pen, n / 10, 2);
    } else {
        text_rounded::put_fixed(pen, n, 3);
    }
}

// A height, as the depth that it is of.
pub fn put_label(pen: &mut Pen, h: u64)
    requires height { h ≤ 9000000000000000 }
    requires room { HasRoom pen.old 18 }
    ensures { Writes pen.old (label_text h) 18 pen.new }
{
    if h < 2000000000000000 {
        pen.word(b"-");
        put_trimmed(pen, 2000000000000000 - h);
    } else {
        put_trimmed(pen, h - 2000000000000000);
    }
}

// Whether a label may have more than eight characters.
pub fn is_long(h: u64) -> bool
    ensures { result ≡ is_long h }
{
    let u = 2000000000000000u64.abs_diff(h);
    if u % 1000 == 0 {
        return 10000000000 <= u;
    }
    1000000 <= u
}

// The axes of the picture, a line and a label at round depths and times.
#![tactic(auto, using(text::proofs::Pens::pens))]

ghost use Rattle.std.specs.Prelude.{◌≡◌, ◌≤◌, ◌+◌, length};
ghost use Rattle.text.specs.Pens.{HasRoom, Writes};
ghost use Rattle.picture_scale.specs.Bounds.{highest, Open};
ghost use Rattle.picture_axes.specs.Axes.{
  size_text,
  depth_text,
  depth_label,
  depths_text,
  depth_axis,
  stretch_of,
  time_column,
  time_text,
  time_label,
  times_text,
  time_axis,
  time_name,
};

use picture_scale::Extent;
use picture_scale::words::{put_label, put_number};
use text::Pen;

// A label that may be long is small.
fn put_size(pen: &mut Pen, h: u64)
    requires { HasRoom pen.old 2 }
    ensures { Writes pen.old (size_text h) 2 pen.new }
{
    if picture_scale::words::is_long(h) {
        pen.word(b" s");
    }
}

// A line across at the depth h, and its label at the left.
fn put_depth(pen: &mut Pen, e: Extent, h: u64)
    requires open { Open e }
    requires height { h ≤ highest }
    requires room { HasRoom pen.old 128 }
    ensures { Writes pen.old (depth_text e h) 128 pen.new }
{
    let y = picture_scale::row(e, h);
    put_number(pen, b"<path class=\"g\" d=\"M950,", y);
    pen.word(b"H9600\"/><text class=\"e");
    put_size(pen, h);
    put_number(pen, b"\" x=\"900\" y=\"", y);
    pen.word(b"\" dy=\"50\">");
    put_label(pen, h);
    pen.word(b"</text>\n");
}

// The same for a depth that the picture shows; nothing for one above it.
fn put_depth_label(pen: &mut Pen, e: Extent, last: u64, h: u64)
    requires open { Open e }
    requires last { last ≤ highest }
    requires room { HasRoom pen.old 128 }
    ensures { Writes pen.old (depth_label e last h) 128 pen.new }
{
    if h <= last {
        put_depth(pen, e, h);
    }
}

// The labels of the depths, at most seven: from the height h on, a step s apart, up to the last.
fn put_depths(pen: &mut Pen, e: Extent, last: u64, s: u64, h: u64)
    requires open { Open e }
    requires last { last ≤ highest }
    requires stride { s ≤ highest }
    requires height { h ≤ highest + highest }
    requires room { HasRoom pen.old 896 }
    ensures { Writes pen.old (depths_text e last s h) 896 pen.new }
{
    put_depth_label(pen, e, last, h);
    put_depth_label(pen, e, last, h + s);
    put_depth_label(pen, e, last, h + 2 * s);
    put_depth_label(pen, e, last, h + 3 * s);
    put_depth_label(pen, e, last, h + 4 * s);
    put_depth_label(pen, e, last, h + 5 * s);
    put_depth_label(pen, e, last, h + 6 * s);
}

// The depth axis: round depths, and the greatest.
pub fn put_depth_axis(pen: &mut Pen, e: Extent)
    requires open { Open e }
    requires room { HasRoom pen.old 1024 }
    ensures { Writes pen.old (depth_axis e) 1024 pen.new }
{
    let lo = e.lo;
    let hi = e.hi;
    let s = picture_scale::step(16, hi - lo);
    let first = picture_scale::multiple_above(lo, s);
    put_depths(pen, e, hi - 1 - (s + 1) / 2, s, first);
    put_depth(pen, e, hi - 1);
}

// How long the time axis is: the parameter in thousandths, or thousandths of hours.
fn stretch(span: u32) -> u64
    ensures answer { result ≡ stretch_of span }
    ensures most { result ≤ 2000000000 }
{
    if span == 0 {
        return 1000;
    }
    (span as u64) * 10 / 36
}

// The column of the time v, or of the parameter v where the table has no span.
fn time_column(span: u32, v: u64) -> u64
    requires { v ≤ 4294967296 }
    ensures { result ≡ time_column span v }
{
    if span == 0 {
        return picture_scale::column(v, 1000);
    }
    picture_scale::column(v * 36, (span as u64) * 10)
}

// A line from top to bottom at the time v, and its label below.
fn put_time(pen: &mut Pen, span: u32, v: u64)
    requires value { v ≤ 4294967296 }
    requires room { HasRoom pen.old 128 }
    ensures { Writes pen.old (time_text span v) 128 pen.new }
{
    let x = time_column(span, v);
    put_number(pen, b"<path class=\"g\" d=\"M", x);
    put_number(pen, b",400V6450\"/><text class=\"t\" x=\"", x);
    pen.word(b"\" y=\"6630\">");
    put_label(pen, 2000000000000000 + v);
    pen.word(b"</text>\n");
}

// The same for a time within the span; nothing for one after it.
fn put_time_label(pen: &mut Pen, span: u32, last: u64, v: u64)
    requires last { last ≤ 2000000000 }
    requires room { HasRoom pen.old 128 }
    ensures { Writes pen.old (time_label span last v) 128 pen.new }
{
    if v <= last {
        put_time(pen, span, v);
    }
}

// The labels of the times, at most seven: from 0 on, a step s apart, up to the last.
fn put_times(pen: &mut Pen, span: u32, last: u64, s: u64)
    requires last { last ≤ 2000000000 }
    requires stride { s ≤ 4294967296 }
    requires room { HasRoom pen.old 896 }
    ensures { Writes pen.old (times_text span last s) 896 pen.new }
{
    put_time_label(pen, span, last, 0);
    put_time_label(pen, span, last, s);
    put_time_label(pen, span, last, 2 * s);
    put_time_label(pen, span, last, 3 * s);
    put_time_label(pen, span, last, 4 * s);
    put_time_label(pen, span, last, 5 * s);
    put_time_label(pen, span, last, 6 * s);
}

// The time axis: round times, and the last.
pub fn put_time_axis(pen: &mut Pen, span: u32)
    requires { HasRoom pen.old 1024 }
    ensures { Writes pen.old (time_axis span) 1024 pen.new }
{
    let end = stretch(span);
    let s = picture_scale::step(16, end);
    put_times(pen, span, end.saturating_sub((s + 1) / 2), s);
    put_time(pen, span, end);
}

// What the time axis counts.
pub fn put_time_name(pen: &mut Pen, span: u32)
    requires { HasRoom pen.old 24 }
    ensures { Writes pen.old (time_name span) 24 pen.new }
{
    if span == 0 {
        pen.word(b"parameter</text>\n");
    } else {
        pen.word(b"hours from dusk</text>\n");
    }
}

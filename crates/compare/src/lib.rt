// What differs between two tables, as text. A knot is its 64 bits, so that zero and minus zero differ, and so do two patterns of NaN.
#![tactic(auto, using(text::proofs::Pens::pens))]

ghost use Rattle.std.specs.Prelude.{◌≡◌, [], ◌∷◌, ◌++◌, ◌+◌, ◌≤◌, ◌<◌, length};
ghost use Rattle.text.specs.Text.{dec_text, hex_text};
ghost use Rattle.text.specs.Pens.{HasRoom, Writes};
ghost use Rattle.compare.specs.Differences.{knot, only, rank_of, basis_difference, span_difference, knots_from, places_in};
ghost use Rattle.compare.specs.Comparison.{difference_text, lines_text, comparison_text};
ghost use Rattle.compare.specs.Contract.{most, longest, at_place, last_line};

use basis::Basis;
use table_span::Table;
use text::Pen;

// Room for the longest comparison: every one of 4,096 places differs, and so do basis and span.
pub const LONGEST: usize = 180284;

// The number of a basis among the six.
fn rank(b: Basis) -> u32
    ensures { result ≡ rank_of b }
{
    match b {
        Basis::Bspline => 0,
        Basis::Bezier => 1,
        Basis::CatmullRom => 2,
        Basis::Hermite => 3,
        Basis::Linear => 4,
        Basis::Power => 5,
    }
}

// The line of the bases, where they differ.
#[tactic(auto, using(text::proofs::Pens::pens), unfolding(crate::specs::Differences::basis_difference, crate::specs::Comparison::lines_text))]
fn put_bases(pen: &mut Pen, b: Basis, c: Basis)
    requires { HasRoom pen.old 28 }
    ensures { Writes pen.old (lines_text (basis_difference b c)) 28 pen.new }
{
    if rank(b) != rank(c) {
        pen.word(b"basis\t");
        lines_reply::put_basis(pen, b);
        pen.byte(b'\t');
        lines_reply::put_basis(pen, c);
        pen.byte(b'\n');
    }
}

// The line of the spans, where they differ.
#[tactic(auto, using(text::proofs::Pens::pens), unfolding(crate::specs::Differences::span_difference, crate::specs::Comparison::lines_text))]
fn put_spans(pen: &mut Pen, r: u32, s: u32)
    requires { HasRoom pen.old 27 }
    ensures { Writes pen.old (lines_text (span_difference r s)) 27 pen.new }
{
    if r != s {
        pen.word(b"span\t");
        pen.decimal(u64::from(r), 9);
        pen.byte(b'\t');
        pen.decimal(u64::from(s), 9);
        pen.byte(b'\n');
    }
}

// A word, a place and the knot there.
fn put_start(pen: &mut Pen, w: &[u8], i: usize, knot: u64)
    requires number { i < most }
    requires room { HasRoom pen.old (length w.now + 21) }
    ensures { Writes pen.old (w.now ++ dec_text 3 i ++ (9 ∷ []) ++ hex_text 16 knot) (length w.now + 21) pen.new }
{
    pen.word(w);
    pen.decimal(i as u64, 3);
    pen.byte(b'\t');
    pen.hex(knot, 16);
}

// The line of a place where both have a knot.
fn put_knot(pen: &mut Pen, i: usize, old: u64, new: u64)
    requires number { i < most }
    requires room { HasRoom pen.old 44 }
    ensures { Writes pen.old (difference_text (knot i old new)) 44 pen.new }
{
    put_start(pen, b"knot\t", i, old);
    pen.byte(b'\t');
    pen.hex(new, 16);
    pen.byte(b'\n');
}

// The line of a place that one table alone has.
fn put_only(pen: &mut Pen, i: usize, knot: u64)
    requires number { i < most }
    requires room { HasRoom pen.old 44 }
    ensures { Writes pen.old (difference_text (only i knot)) 44 pen.new }
{
    put_start(pen, b"only\t", i, knot);
    pen.byte(b'\n');
}

// The line of place i, which one of the tables has at least, where they differ there; whether it was told, as 0 or 1.
#[tactic(auto, using(crate::proofs::Writing::places), unfolding(crate::specs::Differences::places_in, crate::specs::Comparison::lines_text))]
fn put_place(pen: &mut Pen, i: usize, old: &[u64], new: &[u64]) -> u32
    requires number { i < most }
    requires room { HasRoom pen.old 44 }
    requires either { length old.now ≤ i → i < length new.now }
    ensures wrote { Writes pen.old (lines_text (at_place i old.now new.now)) 44 pen.new }
    ensures count { result ≡ places_in (at_place i old.now new.now) }
    ensures most { result ≤ 1 }
{
    if old.len() <= i {
        put_only(pen, i, new[i]);
        return 1;
    }
    if new.len() <= i {
        put_only(pen, i, old[i]);
        return 1;
    }
    if old[i] == new[i] {
        return 0;
    }
    put_knot(pen, i, old[i], new[i]);
    1
}

// The lines of all places, lowest first; how many were told.
fn put_places(pen: &mut Pen, old: &[u64], new: &[u64]) -> u32
    requires old { length old.now ≤ most }
    requires new { length new.now ≤ most }
    requires room { HasRoom pen.old 180224 }
    ensures wrote { Writes pen.old (lines_text (knots_from 0 old.now new.now)) 180224 pen.new }
    ensures count { result ≡ places_in (knots_from 0 old.now new.now) }
    ensures places { result ≤ most }
{
    let end = old.len().max(new.len());
    let mut told = 0;
    for i in 0..end {
        told += put_place(pen, i, old, new);
    }
    told
}

// The last line: `same` where nothing was written before it, else how many places were told.
fn put_last(pen: &mut Pen, same: bool, places: u32)
    requires places { places ≤ most }
    requires room { HasRoom pen.old 5 }
    ensures { Writes pen.old (last_line same places) 5 pen.new }
{
    if same {
        pen.word(b"same\n");
    } else {
        pen.decimal(u64::from(places), 3);
        pen.byte(b'\n');
    }
}

// What differs between the table t with its knots and the table u with its own: a line for each difference, and the last line.
pub fn put_comparison(pen: &mut Pen, t: Table, old: &[u64], u: Table, new: &[u64])
    requires old { length old.now ≤ most }
    requires new { length new.now ≤ most }
    requires room { HasRoom pen.old longest }
    ensures { Writes pen.old (comparison_text t old.now u new.now) longest pen.new }
{
    let start = pen.at();
    put_bases(pen, t.basis, u.basis);
    put_spans(pen, t.span, u.span);
    let places = put_places(pen, old, new);
    let same = pen.at() == start;
    put_last(pen, same, places);
}

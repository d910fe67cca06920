// The verdict on a sheet: the line at fault, each fault of the curve in the order of the lines, or that it is fine.
#![tactic(auto, using(text::proofs::Pens::pens))]

ghost use Rattle.std.specs.Prelude.{◌≡◌, true, List, [], map, ℕ, suc, ◌+◌, ◌*◌, ◌≤◌, ◌<◌, ℤ, pos, nat_abs, Float, length, take, get_or};
ghost use Rattle.basis.specs.Basis.{most_knots, step_of, segments_of};
ghost use Rattle.inverse.specs.declared.Ends.{Ends};
ghost use Rattle.text.specs.Text.{same};
ghost use Rattle.text.specs.Pens.{HasRoom, Writes};
ghost use Rattle.text.specs.Wrote.{Wrote};
ghost use Rattle.whole.specs.Held.{held, held_all, turned_all, Small};
ghost use Rattle.sheet.specs.Sheet.{most};
ghost use Rattle.turns_back.specs.Call as turns;
ghost use Rattle.ask_sheet.specs.declared.Kind.TheVariants.{Monotone};
ghost use Rattle.ask_sheet.specs.Sheet.{most_in};
ghost use Rattle.ask_sheet.specs.Contract.{cells, label_at, labels_to, sheet_of, line_in, last_line, Sound};
ghost use Rattle.ask_verdict.specs.Curve.{basis_of, knots_of, suits, first_row, row_step, through_rows, double_of, doubles_of};
ghost use Rattle.ask_verdict.specs.Faults.{
  first_same,
  twice_at,
  turns_at,
  falls_at,
  bend_of,
  bend_at,
  bent_at,
  faults_to,
  flat_by,
  way_in,
  faults_of,
};
ghost use Rattle.ask_verdict.specs.Told.{
  number_text,
  faults_text,
  reason_text,
  line_text,
  depth_text,
  ends_in,
  fine_text,
  told_of,
  verdict_of,
  asked_by,
  asked_of,
};
ghost use Rattle.ask_verdict.specs.Contract.{longest, Drawing, Askable, asked_in};

use ask_sheet::{Kind, Reason, SheetHeld};
use basis::Basis;
use inverse::Ends;
use text::Pen;
use turns_back::Way;

// ---- the curve that a sheet draws
pub fn basis_of(k: Kind) -> Basis
    ensures { result ≡ basis_of k }
{
    match k {
        Kind::Drawn(b) => b,
        Kind::Monotone => Basis::Hermite,
    }
}

// Whether n rows make a curve of this kind.
pub fn is_suited(k: Kind, n: usize) -> bool
    ensures { result ≡ suits k n }
{
    match k {
        Kind::Drawn(b) => basis::is_len_ok(b, n),
        Kind::Monotone => { 2 <= n && n <= 2048 }
    }
}

// The row at which the curve starts.
pub fn first_row(k: Kind) -> usize
    ensures answer { result ≡ first_row k }
    ensures most { result ≤ 1 }
{
    match k {
        Kind::Drawn(b) => {
            if basis::step(b) == 1 {
                return 1;
            }
            0
        }
        Kind::Monotone => 0,
    }
}

// Rows from one segment's start to the next one's.
pub fn row_step(k: Kind) -> usize
    ensures answer { result ≡ row_step k }
    ensures positive { 0 < result }
    ensures most { result ≤ 4 }
{
    match k {
        Kind::Drawn(b) => basis::step(b),
        Kind::Monotone => 1,
    }
}

// Whether the curve goes through its rows, so that a row that turns back is a fault of the row itself.
fn is_through_rows(k: Kind) -> bool
    ensures { result ≡ through_rows k }
{
    match k {
        Kind::Drawn(b) => match b {
            Basis::Bspline => false,
            Basis::Bezier => false,
            Basis::CatmullRom => true,
            Basis::Hermite => false,
            Basis::Linear => true,
            Basis::Power => false,
        },
        Kind::Monotone => true,
    }
}

// ---- labels
// Whether two labels are the same, byte by byte up to the first that differs. An index and not `==`: the library's takes several bytes at a
// time, and `label_tests` counts the bytes that this loop compares.
fn is_same_text(s: &[u8], w: &[u8]) -> bool
    ensures { result ≡ same s.now w.now }
{
    if s.len() != w.len() {
        return false;
    }
    for i in 0..s.len() {
        if s[i] != w[i] {
            return false;
        }
    }
    true
}

// Whether labels i and j are the same.
fn is_same(labels: &[u8], i: usize, j: usize) -> bool
    requires first { i < most }
    requires second { j < most }
    requires labels { length labels.now ≡ cells }
    ensures { result ≡ same (label_at labels.now i) (label_at labels.now j) }
{
    let a = 17 * i + 1;
    let b = 17 * j + 1;
    let m = a + ask_sheet::label_len(labels, i);
    let n = b + ask_sheet::label_len(labels, j);
    is_same_text(&labels[a..m], &labels[b..n])
}

// The first of n labels that is that of row i.
fn first_same(labels: &[u8], n: usize, i: usize) -> usize
    requires inside { i < n }
    requires few { n ≤ most }
    requires labels { length labels.now ≡ cells }
    ensures first { result ≡ first_same (labels_to labels.now n) i }
    ensures within { result ≤ i }
{
    for j in 0..i {
        if is_same(labels, j, i) {
            return j;
        }
    }
    i
}

// ---- text
fn put_number(pen: &mut Pen, w: &[u8], n: usize)
    requires word { length w.now ≤ 7 }
    requires number { n ≤ 4098 }
    requires room { HasRoom pen.old 13 }
    ensures { Writes pen.old (number_text w.now n) (length w.now + 6) pen.new }
{
    pen.word(w);
    pen.decimal(n as u64, 4);
    pen.byte(b'\n');
}

// A label that an earlier row has too: both rows' lines in the sheet.
fn put_twice(pen: &mut Pen, labels: &[u8], n: usize, i: usize)
    requires inside { i < n }
    requires few { n ≤ most }
    requires labels { length labels.now ≡ cells }
    requires room { HasRoom pen.old 24 }
    ensures { Writes pen.old (faults_text (twice_at (labels_to labels.now n) i)) 18 pen.new }
{
    let j = first_same(labels, n, i);
    if j < i {
        pen.word(b"twice\t");
        pen.decimal((j + 2) as u64, 4);
        put_number(pen, b"\t", i + 2);
    }
}

// ---- depths
// Whether the depths of row i and of the next go against the direction.
fn is_turning(k: Kind, up: bool, rows: &[i64], i: usize) -> bool
    requires { i < length rows.now }
    ensures { result ≡ turns_at k up (held_all rows.now) i }
{
    if !is_through_rows(k) {
        return false;
    }
    let next = i + 1;
    if next < rows.len() {
        if up {
            return rows[next] < rows[i];
        }
        return rows[i] < rows[next];
    }
    false
}

// Whether segment s goes against the direction, or the next one starts against it.
fn is_falling(b: Basis, up: bool, knots: &[i64], s: usize) -> bool
    requires enough { 4 ≤ length knots.now }
    requires few { length knots.now ≤ most_knots }
    requires small { Small turns.most (held_all knots.now) }
    requires segment { s < segments_of b (length knots.now) }
    ensures { result ≡ falls_at b (turned_all up (held_all knots.now)) s }
{
    if !turns_back::is_never_falling_at(b, up, knots, s * basis::step(b)) {
        return true;
    }
    let last = basis::segments(b, knots.len()) - 1;
    if s < last {
        return !turns_back::is_start_no_lower(b, up, knots, s + 1);
    }
    false
}

// Segment s, which begins at row i.
fn put_bend_of(pen: &mut Pen, k: Kind, up: bool, rows: &[i64], knots: &[i64], i: usize, s: usize)
    requires inside { i < length rows.now }
    requires curve { Drawing k (held_all rows.now) (held_all knots.now) }
    requires segment { s < segments_of (basis_of k) (length knots.now) }
    requires room { HasRoom pen.old 13 }
    ensures { Writes pen.old (faults_text (bend_of k up (held_all rows.now) i s)) 12 pen.new }
{
    if is_turning(k, up, rows, i) {
        return put_number(pen, b"turns\t", i + 2);
    }
    if is_falling(basis_of(k), up, knots, s) {
        put_number(pen, b"falls\t", i + 2);
    }
}

// The segment that begins at row i, if one does.
fn put_bend(pen: &mut Pen, k: Kind, up: bool, rows: &[i64], knots: &[i64], i: usize)
    requires inside { i < length rows.now }
    requires curve { Drawing k (held_all rows.now) (held_all knots.now) }
    requires room { HasRoom pen.old 13 }
    ensures { Writes pen.old (faults_text (bend_at k up (held_all rows.now) i)) 12 pen.new }
{
    let first = first_row(k);
    if i < first {
        return;
    }
    let step = row_step(k);
    if (i - first) % step != 0 {
        return;
    }
    let s = (i - first) / step;
    if s < basis::segments(basis_of(k), knots.len()) {
        put_bend_of(pen, k, up, rows, knots, i, s);
    }
}

// By the curve's direction, if it has one.
fn put_bent(pen: &mut Pen, k: Kind, w: Way, rows: &[i64], knots: &[i64], i: usize)
    requires inside { i < length rows.now }
    requires curve { Drawing k (held_all rows.now) (held_all knots.now) }
    requires room { HasRoom pen.old 13 }
    ensures { Writes pen.old (faults_text (bent_at k w (held_all rows.now) i)) 12 pen.new }
{
    match w {
        Way::Rising => put_bend(pen, k, true, rows, knots, i),
        Way::Falling => put_bend(pen, k, false, rows, knots, i),
        Way::Level => {}
    }
}

// The faults of every row.
fn put_rows(pen: &mut Pen, k: Kind, w: Way, rows: &[i64], knots: &[i64], labels: &[u8])
    requires curve { Drawing k (held_all rows.now) (held_all knots.now) }
    requires labels { length labels.now ≡ cells }
    requires room { HasRoom pen.old 122900 }
    ensures { Writes pen.old (faults_text (faults_to k w (held_all rows.now)
        (labels_to labels.now (length rows.now)) (length rows.now))) (30 * length rows.now) pen.new }
{
    for i in 0..rows.len() {
        put_twice(pen, labels, rows.len(), i);
        put_bent(pen, k, w, rows, knots, i);
    }
}

// A curve that starts and ends at one depth.
fn put_flat(pen: &mut Pen, w: Way)
    requires { HasRoom pen.old 5 }
    ensures { Writes pen.old (faults_text (flat_by w)) 5 pen.new }
{
    match w {
        Way::Rising => {}
        Way::Falling => {}
        Way::Level => pen.word(b"flat\n"),
    }
}

// Every fault of the rows, row by row, and then of the curve as a whole.
fn put_faults(pen: &mut Pen, k: Kind, rows: &[i64], knots: &[i64], labels: &[u8])
    requires curve { Drawing k (held_all rows.now) (held_all knots.now) }
    requires labels { length labels.now ≡ cells }
    requires room { HasRoom pen.old longest }
    ensures { Writes pen.old (faults_text (faults_of k (held_all rows.now)
        (labels_to labels.now (length rows.now)))) longest pen.new }
{
    let w = turns_back::way_taken(basis_of(k), knots);
    put_rows(pen, k, w, rows, knots, labels);
    put_flat(pen, w);
}

// ---- a fine sheet
fn double_of(z: i64) -> f64
    requires { nat_abs z ≤ 1000000000000 }
    ensures { result ≡ double_of z }
{
    let n = whole::size(z);
    if n == 0 {
        return 0.0;
    }
    if 0 <= z {
        return n as f64 / 1000.0;
    }
    -(n as f64) / 1000.0
}

// The knots as doubles, into the first places.
fn fill(whole: &[i64], knots: &mut [f64])
    requires small { Small turns.most (held_all whole.now) }
    requires few { length whole.now ≤ length knots.old }
    ensures knots { take (length whole.now) knots.new ≡ map double_of (held_all whole.now) }
    ensures long { length knots.new ≡ length knots.old }
{
    for (i, z) in whole.iter().enumerate() {
        knots[i] = double_of(*z);
    }
}

// A depth with three digits.
fn put_depth(pen: &mut Pen, x: f64)
    requires { HasRoom pen.old 21 }
    ensures { Writes pen.old (depth_text x) 21 pen.new }
{
    text_rounded::put_rounded(pen, text::to_bits(x), 3);
}

// The verdict on a sheet without a fault: its number of rows, and the depths at its ends.
fn put_fine(pen: &mut Pen, n: usize, e: Ends)
    requires number { n ≤ most_knots }
    requires room { HasRoom pen.old longest }
    ensures { Writes pen.old (fine_text n e) longest pen.new }
{
    pen.word(b"fine\t");
    pen.decimal(n as u64, 4);
    pen.byte(b'\t');
    put_depth(pen, e.low);
    pen.byte(b'\t');
    put_depth(pen, e.high);
    pen.byte(b'\n');
}

// What may be asked after the verdict: nothing; or of a kind of curve, over so many rows and knots, its span in whole seconds, 0 where none
// was given.
#[derive(Clone, Copy)]
pub enum AskedHeld {
    Bad,
    Fine(Kind, usize, usize, u32),
}

// The place behind the verdict's text, and what may be asked.
#[derive(Clone, Copy)]
pub struct Told {
    pub at: usize,
    pub held: AskedHeld,
}

// A sheet that draws a curve: its faults, or that it is fine. What may be asked after it.
fn told_of(
    pen: &mut Pen,
    k: Kind,
    rows: &[i64],
    whole: &[i64],
    labels: &[u8],
    knots: &mut [f64],
) -> AskedHeld
    requires curve { Drawing k (held_all rows.now) (held_all whole.now) }
    requires labels { length labels.now ≡ cells }
    requires knots { length knots.old ≡ most }
    requires room { HasRoom pen.old longest }
    ensures text { Writes pen.old (told_of k (held_all rows.now) (faults_of k (held_all rows.now)
        (labels_to labels.now (length rows.now)))) longest pen.new }
    ensures held { asked_in result knots.new labels.now ≡ asked_by k (held_all rows.now)
        (labels_to labels.now (length rows.now)) }
    ensures few { Askable result }
{
    let start = pen.at();
    put_faults(pen, k, rows, whole, labels);
    let end = pen.at();
    if start < end {
        return AskedHeld::Bad;
    }
    fill(whole, &mut *knots);
    let m = whole.len();
    let b = basis_of(k);
    let e = inverse::curve_ends(b, &knots[0..m], basis::segments(b, m));
    put_fine(pen, rows.len(), e);
    AskedHeld::Fine(k, rows.len(), m, 0)
}

// Why a line of the sheet cannot be read, in one word.
fn put_reason(pen: &mut Pen, r: Reason)
    requires { HasRoom pen.old 9 }
    ensures { Writes pen.old (reason_text r) 9 pen.new }
{
    match r {
        Reason::Long => pen.word(b"\tlong\n"),
        Reason::NoBasis => pen.word(b"\tbasis\n"),
        Reason::NoLabel => pen.word(b"\tlabel\n"),
        Reason::NoDepth => pen.word(b"\tdepth\n"),
        Reason::Many => pen.word(b"\tmany\n"),
        Reason::Missing => pen.word(b"\tmissing\n"),
    }
}

// A line at fault.
fn put_line(pen: &mut Pen, n: usize, r: Reason)
    requires number { n ≤ last_line }
    requires room { HasRoom pen.old longest }
    ensures { Writes pen.old (line_text n r) longest pen.new }
{
    pen.word(b"line\t");
    pen.decimal(n as u64, 4);
    put_reason(pen, r);
}

// A sheet of n depths through which Monotone's curve is drawn, over the table that it makes of them.
fn told_monotone(
    pen: &mut Pen,
    n: usize,
    rows: &[i64],
    whole: &mut [i64],
    labels: &[u8],
    knots: &mut [f64],
) -> AskedHeld
    requires few { n ≤ most }
    requires suited { suits Monotone n ≡ true }
    requires rows { length rows.now ≡ most }
    requires sound { Small (most_in Monotone) (held_all (take n rows.now)) }
    requires whole { length whole.old ≡ most_knots }
    requires labels { length labels.now ≡ cells }
    requires knots { length knots.old ≡ most }
    requires room { HasRoom pen.old longest }
    ensures text { Writes pen.old (told_of Monotone (held_all (take n rows.now))
        (faults_of Monotone (held_all (take n rows.now)) (labels_to labels.now n))) longest pen.new }
    ensures held { asked_in result knots.new labels.now ≡ asked_by Monotone
        (held_all (take n rows.now))
        (labels_to labels.now n) }
    ensures few { Askable result }
{
    let _ = monotone::monotone(&rows[0..n], &mut *whole);
    let m = 2 * n;
    told_of(
        pen,
        Kind::Monotone,
        &rows[0..n],
        &whole[0..m],
        labels,
        knots,
    )
}

// A sheet of n depths, if these suit its curve.
fn told_if(
    pen: &mut Pen,
    k: Kind,
    n: usize,
    rows: &[i64],
    labels: &[u8],
    knots: &mut [f64],
) -> AskedHeld
    requires few { n ≤ most }
    requires suited { suits k n ≡ true }
    requires rows { length rows.now ≡ most }
    requires sound { Small (most_in k) (held_all (take n rows.now)) }
    requires labels { length labels.now ≡ cells }
    requires knots { length knots.old ≡ most }
    requires room { HasRoom pen.old longest }
    ensures text { Writes pen.old (told_of k (held_all (take n
        rows.now)) (faults_of k (held_all (take n rows.now))
        (labels_to labels.now n))) longest pen.new }
    ensures held { asked_in result knots.new labels.now ≡ asked_by k (held_all (take n rows.now))
        (labels_to labels.now n) }
    ensures few { Askable result }
{
    match k {
        Kind::Drawn(b) => told_of(pen, k, &rows[0..n], &rows[0..n], labels, knots),
        Kind::Monotone => {
            let mut whole = [0i64; basis::MOST_KNOTS];
            told_monotone(pen, n, rows, &mut whole, labels, knots)
        }
    }
}

// The verdict on what was read, and what may be asked after it.
fn put_verdict(
    pen: &mut Pen,
    h: SheetHeld,
    rows: &[i64],
    labels: &[u8],
    knots: &mut [f64],
) -> AskedHeld
    requires held { line_in h ≤ last_line }
    requires rows { length rows.now ≡ most }
    requires sound { Sound (sheet_of h rows.now labels.now) }
    requires labels { length labels.now ≡ cells }
    requires knots { length knots.old ≡ most }
    requires room { HasRoom pen.old longest }
    ensures text { Writes pen.old (verdict_of (sheet_of h rows.now labels.now)) longest pen.new }
    ensures asked { asked_in result knots.new labels.now ≡ asked_of (sheet_of h rows.now labels.now) }
    ensures few { Askable result }
{
    match h {
        SheetHeld::Unbegun => {
            put_line(pen, 1, Reason::Missing);
            AskedHeld::Bad
        }
        SheetHeld::On(k, n) => {
            if is_suited(k, n) {
                return told_if(pen, k, n, rows, labels, knots);
            }
            put_number(pen, b"length\t", n);
            AskedHeld::Bad
        }
        SheetHeld::Faulty(n, r) => {
            put_line(pen, n, r);
            AskedHeld::Bad
        }
    }
}

// The verdict on what was read: its text from place `at` of `out` on, the knots as doubles where it is fine, and what may be asked.
#[tactic(auto, using(text::proofs::Pens::lands))]
pub fn verdict(
    h: SheetHeld,
    rows: &[i64],
    labels: &[u8],
    knots: &mut [f64],
    out: &mut [u8],
    at: usize,
) -> Told
    requires held { line_in h ≤ last_line }
    requires rows { length rows.now ≡ most }
    requires sound { Sound (sheet_of h rows.now labels.now) }
    requires labels { length labels.now ≡ cells }
    requires knots { length knots.old ≡ most }
    requires room { at + longest ≤ length out.old }
    ensures text { Wrote out.old at (verdict_of (sheet_of h rows.now labels.now))
        out.new result.at }
    ensures short { result.at ≤ at + longest }
    ensures asked { asked_in result.held knots.new labels.now ≡ asked_of
        (sheet_of h rows.now labels.now) }
    ensures few { Askable result.held }
{
    let mut pen = Pen::new(out, at);
    let held = put_verdict(&mut pen, h, rows, labels, knots);
    Told {
        at: pen.at(),
        held: held,
    }
}

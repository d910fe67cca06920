// What a line after the verdict of a fine sheet asks, what it prints, and the span after it.
#![tactic(auto, using(text::proofs::Pens::pens))]

ghost use Rattle.std.specs.Prelude.{◌≡◌, List, [], ◌+◌, ◌*◌, ◌≤◌, ◌<◌, Float, length, take, get_or};
ghost use Rattle.std.specs.Float.Ieee.{to_bits};
ghost use Rattle.std.specs.Float.{binary64};
ghost use Rattle.basis.specs.Basis.{most_knots, segments_of};
ghost use Rattle.text.specs.Pens.{HasRoom, Writes};
ghost use Rattle.text.specs.Wrote.{Wrote};
ghost use Rattle.text_rounded.specs.Rounded.{rounded_text};
ghost use Rattle.table_span.specs.Second.{day, good_span};
ghost use Rattle.sheet.specs.Sheet.{most, depth_in};
ghost use Rattle.lines_machine.specs.Program.{so};
ghost use Rattle.lines_machine.specs.Contract.{said_of};
ghost use Rattle.ask_sheet.specs.Contract.{cells, labels_to};
ghost use Rattle.ask_verdict.specs.Curve.{basis_of};
ghost use Rattle.ask_verdict.specs.Contract.{longest};
ghost use Rattle.ask_answers.specs.Question as question;
ghost use Rattle.ask_answers.specs.Answers.{
  value_text,
  moment_text,
  at_text,
  multiples_below,
  multiples_text,
  every_text,
  start_text,
  rows_text,
  side_text,
  when_text,
  reached_text,
  job_text,
  table_by,
  find_text,
  row_text,
  text_by,
  span_by,
  answer_text,
  span_after,
};
ghost use Rattle.ask_answers.specs.Contract.{Placed};

use ask_sheet::Kind;
use basis::Basis;
use error::Refusal;
use inverse_segment::{Miss, Place};
use lines_reply::{LineReply, put_refused, put_reply};
use stopped::Job;
use table_span::Table;
use text::Pen;

// What is asked: the table; a row's seconds; a depth; the depth at a second; the depths at every so many seconds; or nothing.
#[derive(Clone, Copy)]
pub enum Question {
    Table,
    Row(u32),
    Find(f64),
    At(u32),
    Every(u32),
    Nothing,
}

// ---- the question
// A word and a number.
fn by_number(w: &[u8], n: u32) -> Question
    ensures { result ≡ question.by_number w.now n }
{
    if text::is_word(w, b"row") {
        return Question::Row(n);
    }
    if text::is_word(w, b"at") {
        return Question::At(n);
    }
    if text::is_word(w, b"every") {
        return Question::Every(n);
    }
    Question::Nothing
}

// A decimal as in a sheet.
fn sought(s: &[u8]) -> Question
    ensures { result ≡ question.sought (depth_in s.now) }
{
    let Some((minus, n)) = sheet::depth_in(s) else {
        return Question::Nothing;
    };
    Question::Find(sheet_depth::depth(minus, n))
}

// A word, and what stands behind its tab.
fn by_word(w: &[u8], s: &[u8]) -> Question
    ensures { result ≡ question.by_word w.now s.now }
{
    if text::is_word(w, b"find") {
        return sought(s);
    }
    let Some(n) = text_decimals::number_in(s, 5) else {
        return Question::Nothing;
    };
    by_number(w, n as u32)
}

// The question that a whole line asks.
fn by_line(l: &[u8]) -> Question
    ensures { result ≡ question.question_of (so l.now) }
{
    if text::is_word(l, b"table") {
        return Question::Table;
    }
    let t = text::place_of(l, b'\t');
    if t < l.len() {
        let from = t + 1;
        return by_word(&l[0..t], &l[from..]);
    }
    Question::Nothing
}

// The question of a line; one that is too long asks nothing.
fn asked(line: Option<&[u8]>) -> Question
    ensures { result ≡ question.question_of (said_of line.entry) }
{
    match line {
        Some(l) => by_line(l),
        None => Question::Nothing,
    }
}

// ---- row
// The seconds of a curve of n knots, m from a row on it to the next.
fn curve_seconds(k: Kind, n: usize, m: u32) -> u64
    requires enough { 4 ≤ n }
    requires few { n ≤ most }
    ensures { result ≡ m * segments_of (basis_of k) n }
{
    let s = basis::segments(ask_verdict::basis_of(k), n);
    m as u64 * s as u64
}

// A span is from a second to a day.
fn is_good(t: u64) -> bool
    ensures { result ≡ good_span t }
{
    1 <= t && t <= 86400
}

// The answer to `row`: nothing for a good time between rows, and a refusal for one that makes the span too long.
fn put_row(pen: &mut Pen, k: Kind, n: usize, m: u32)
    requires enough { 4 ≤ n }
    requires few { n ≤ most }
    requires room { HasRoom pen.old 18 }
    ensures { (ks : List Float) → length ks ≡ n → Writes pen.old (row_text k ks m) 18 pen.new }
{
    if is_good(curve_seconds(k, n, m)) {
        return;
    }
    put_refused(pen, Refusal::BadSpan);
}

// The span after a question.
fn span_by(k: Kind, n: usize, span: u32, q: Question) -> u32
    requires enough { 4 ≤ n }
    requires few { n ≤ most }
    requires span { span ≤ day }
    ensures span_after { (ks : List Float) → length ks ≡ n → result ≡ span_by k ks span q }
    ensures most { result ≤ day }
{
    match q {
        Question::Table => span,
        Question::Row(m) => {
            let t = curve_seconds(k, n, m);
            if is_good(t) {
                return t as u32;
            }
            span
        }
        Question::Find(_) => span,
        Question::At(_) => span,
        Question::Every(_) => span,
        Question::Nothing => span,
    }
}

// ---- at, every
// A double with d digits behind the point.
fn put_digits(pen: &mut Pen, x: f64, d: usize)
    requires digits { d ≤ 6 }
    requires room { HasRoom pen.old 21 }
    ensures { Writes pen.old (rounded_text d (to_bits binary64 x)) 21 pen.new }
{
    text_rounded::put_rounded(pen, text::to_bits(x), d);
}

// A word with its tab, and a depth.
fn put_side(pen: &mut Pen, w: &[u8], y: f64)
    requires word { length w.now ≤ 9 }
    requires room { HasRoom pen.old 31 }
    ensures { Writes pen.old (side_text w.now y) (length w.now + 22) pen.new }
{
    pen.word(w);
    put_digits(pen, y, 3);
    pen.byte(b'\n');
}

// The depth at a second.
fn put_value(pen: &mut Pen, n: u32, y: f64)
    requires second { n ≤ day }
    requires room { HasRoom pen.old 40 }
    ensures { Writes pen.old (value_text n y) 40 pen.new }
{
    pen.word(b"at\t");
    pen.decimal(n as u64, 4);
    put_side(pen, b"\t", y);
}

// The depth at second n of the span.
fn put_moment(pen: &mut Pen, b: Basis, knots: &[f64], span: u32, n: u32)
    requires second { n ≤ day }
    requires room { HasRoom pen.old 40 }
    ensures { Writes pen.old (moment_text b knots.now span n) 40 pen.new }
{
    let e = spline::spline(b, n as f64 / span as f64, knots);
    match e {
        Ok(y) => put_value(pen, n, y),
        Err(r) => put_refused(pen, r),
    }
}

// The answer to `at`: the depth at second n, where there is a span and n lies in it.
fn put_at(pen: &mut Pen, b: Basis, knots: &[f64], span: u32, n: u32)
    requires span { span ≤ day }
    requires room { HasRoom pen.old 40 }
    ensures { Writes pen.old (at_text b knots.now span n) 40 pen.new }
{
    if span < 1 {
        put_refused(pen, Refusal::BadSpan);
    } else if span < n {
        put_refused(pen, Refusal::BadSpan);
    } else {
        put_moment(pen, b, knots, span, n);
    }
}

// The multiples of n below the span.
fn put_multiples(pen: &mut Pen, b: Basis, knots: &[f64], span: u32, n: u32)
    requires some { 1 ≤ span }
    requires span { span ≤ day }
    requires step { 60 ≤ n }
    requires room { HasRoom pen.old 57600 }
    ensures { Writes pen.old (multiples_text b knots.now span n (multiples_below span n)) 57600 pen.new }
{
    let m = (span - 1) / n + 1;
    for i in 0..m {
        let second = i * n;
        put_moment(pen, b, knots, span, second);
    }
}

// The answer to `every`: the depth at each multiple of n seconds, and at the end.
fn put_every(pen: &mut Pen, b: Basis, knots: &[f64], span: u32, n: u32)
    requires span { span ≤ day }
    requires room { HasRoom pen.old 57640 }
    ensures { Writes pen.old (every_text b knots.now span n) 57640 pen.new }
{
    if n < 60 {
        put_refused(pen, Refusal::BadLine);
    } else if span < 1 {
        put_refused(pen, Refusal::BadSpan);
    } else {
        put_multiples(pen, b, knots, span, n);
        put_moment(pen, b, knots, span, span);
    }
}

// ---- find
// The label of row i, where there is one.
fn put_label(pen: &mut Pen, rows: usize, i: usize, labels: &[u8])
    requires rows { rows ≤ most }
    requires labels { length labels.now ≡ cells }
    requires room { HasRoom pen.old 16 }
    ensures { Writes pen.old (get_or (labels_to labels.now rows) i []) 16 pen.new }
{
    if i < rows {
        let a = 17 * i + 1;
        let e = a + ask_sheet::label_len(labels, i);
        pen.word(&labels[a..e]);
    }
}

// The label of the row at which segment s begins, behind a tab.
fn put_start(pen: &mut Pen, k: Kind, rows: usize, s: usize, labels: &[u8])
    requires rows { rows ≤ most }
    requires segment { s ≤ most_knots }
    requires labels { length labels.now ≡ cells }
    requires room { HasRoom pen.old 17 }
    ensures { Writes pen.old (start_text k (labels_to labels.now rows) s) 17 pen.new }
{
    let i = ask_verdict::first_row(k) + s * ask_verdict::row_step(k);
    pen.byte(b'\t');
    put_label(pen, rows, i, labels);
}

// The two rows between which segment s lies.
fn put_rows(pen: &mut Pen, k: Kind, rows: usize, s: usize, labels: &[u8])
    requires rows { rows ≤ most }
    requires segment { s < most_knots }
    requires labels { length labels.now ≡ cells }
    requires room { HasRoom pen.old 35 }
    ensures { Writes pen.old (rows_text k (labels_to labels.now rows) s) 35 pen.new }
{
    put_start(pen, k, rows, s, labels);
    put_start(pen, k, rows, s + 1, labels);
    pen.byte(b'\n');
}

// The whole second; where there is no span, the parameter.
fn put_when(pen: &mut Pen, span: u32, s: u32, x: f64)
    requires second { s ≤ day }
    requires room { HasRoom pen.old 21 }
    ensures { Writes pen.old (when_text span s x) 21 pen.new }
{
    if 1 <= span {
        pen.decimal(s as u64, 4);
    } else {
        put_digits(pen, x, 6);
    }
}

// One depth's place: when it is reached, and between which rows.
fn put_reached(
    pen: &mut Pen,
    k: Kind,
    rows: usize,
    span: u32,
    y: f64,
    s: u32,
    p: Place,
    labels: &[u8],
)
    requires rows { rows ≤ most }
    requires second { s ≤ day }
    requires segment { p.segment < most_knots }
    requires labels { length labels.now ≡ cells }
    requires room { HasRoom pen.old 86 }
    ensures { Writes pen.old (reached_text k (labels_to labels.now rows) span y s p) 86 pen.new }
{
    pen.word(b"reached\t");
    put_digits(pen, y, 3);
    pen.byte(b'\t');
    put_when(pen, span, s, p.parameter);
    put_rows(pen, k, rows, p.segment, labels);
}

// What `stopped` says of the depth, in the words of the answer.
fn put_job(
    pen: &mut Pen,
    k: Kind,
    rows: usize,
    span: u32,
    y: f64,
    j: Result<Job, Miss>,
    labels: &[u8],
)
    requires rows { rows ≤ most }
    requires job { Placed j }
    requires labels { length labels.now ≡ cells }
    requires room { HasRoom pen.old 86 }
    ensures { Writes pen.old (job_text k (labels_to labels.now rows) span y j) 86 pen.new }
{
    match j {
        Err(Miss::Refused(r)) => put_refused(pen, r),
        Err(Miss::OffCurve(_)) => put_refused(pen, Refusal::OffCurve),
        Ok(Job::Flat) => pen.word(b"flat\n"),
        Ok(Job::Before) => put_side(pen, b"before\t", y),
        Ok(Job::Start) => put_side(pen, b"start\t", y),
        Ok(Job::UnderWay(s, p)) => put_reached(pen, k, rows, span, y, s, p, labels),
        Ok(Job::End) => put_side(pen, b"end\t", y),
        Ok(Job::Beyond) => put_side(pen, b"beyond\t", y),
    }
}

// A span of one second where none was given.
fn table_by(k: Kind, span: u32) -> Table
    ensures { result ≡ table_by k span }
{
    let b = ask_verdict::basis_of(k);
    if 1 <= span {
        return Table {
            basis: b,
            span: span,
        };
    }
    Table { basis: b, span: 1 }
}

// The answer to `find`: how far a job had come that stopped at the depth y.
fn put_find(pen: &mut Pen, k: Kind, rows: usize, span: u32, y: f64, labels: &[u8], knots: &[f64])
    requires rows { rows ≤ most }
    requires span { span ≤ day }
    requires labels { length labels.now ≡ cells }
    requires few { length knots.now ≤ most }
    requires room { HasRoom pen.old 86 }
    ensures { Writes pen.old (find_text k knots.now (labels_to labels.now rows) span y) 86 pen.new }
{
    let j = stopped::stopped(table_by(k, span), y, knots, false);
    put_job(pen, k, rows, span, y, j, labels);
}

// ---- the answer to a question
fn put_answer(
    pen: &mut Pen,
    k: Kind,
    rows: usize,
    n: usize,
    span: u32,
    q: Question,
    labels: &[u8],
    knots: &[f64],
)
    requires rows { rows ≤ most }
    requires enough { 4 ≤ n }
    requires few { n ≤ most }
    requires span { span ≤ day }
    requires labels { length labels.now ≡ cells }
    requires knots { length knots.now ≡ most }
    requires room { HasRoom pen.old longest }
    ensures { Writes pen.old (text_by k (take n knots.now) (labels_to labels.now rows) span q) longest pen.new }
{
    let b = ask_verdict::basis_of(k);
    match q {
        Question::Table => {
            let bare = Table { basis: b, span: 0 };
            put_reply(pen, LineReply::Curve(bare, n), knots)
        }
        Question::Row(m) => put_row(pen, k, n, m),
        Question::Find(y) => put_find(pen, k, rows, span, y, labels, &knots[0..n]),
        Question::At(m) => put_at(pen, b, &knots[0..n], span, m),
        Question::Every(m) => put_every(pen, b, &knots[0..n], span, m),
        Question::Nothing => put_refused(pen, Refusal::BadLine),
    }
}

// The span held after a line, and the place behind what it printed.
#[derive(Clone, Copy)]
pub struct Answered {
    pub span: u32,
    pub at: usize,
}

// A line of len bytes, the first ones of the lent 64; 65 for one that is too long. The curve has the first n of the lent knots, the sheet
// as many labels as rows; a span of 0 stands for none. What the line prints is written from place `at` of `out` on.
pub fn answer(
    k: Kind,
    rows: usize,
    n: usize,
    span: u32,
    line: Option<&[u8]>,
    labels: &[u8],
    knots: &[f64],
    out: &mut [u8],
    at: usize,
) -> Answered
    requires rows { rows ≤ most }
    requires enough { 4 ≤ n }
    requires few { n ≤ most }
    requires span { span ≤ day }
    requires labels { length labels.now ≡ cells }
    requires knots { length knots.now ≡ most }
    requires room { at + longest ≤ length out.old }
    ensures text { Wrote out.old at (answer_text k (take n knots.now) (labels_to labels.now rows) span
        (said_of line.entry)) out.new result.at }
    ensures short { result.at ≤ at + longest }
    ensures span_after { result.span ≡ span_after k (take n knots.now) span (said_of line.entry) }
    ensures span_most { result.span ≤ day }
{
    let q = asked(line);
    let after = span_by(k, n, span, q);
    let mut pen = Pen::new(out, at);
    put_answer(&mut pen, k, rows, n, span, q, labels, knots);
    Answered {
        span: after,
        at: pen.at(),
    }
}

// A listing in, the picture of its last table out, as SVG.
#![tactic(auto)]

ghost use Rattle.std.specs.Prelude.{◌≡◌, List, [], ℕ, ◌≤◌, ◌+◌, Float, Option, length, take};
ghost use Rattle.error.specs.declared.Refusal.{Refusal};
ghost use Rattle.convert.specs.Conversion.{converted_of};
ghost use Rattle.text.specs.Pens.{HasRoom, Writes};
ghost use Rattle.text.specs.Wrote.{Wrote};
ghost use Rattle.lines_answer.specs.Answer.{places, none, on, curve_reply};
ghost use Rattle.lines_answer.specs.Contract.{curve_of};
ghost use Rattle.lines_answer.specs.Contract.{count_of as knots_of};
ghost use Rattle.lines_record.specs.declared.Record.TheVariants.{Span};
ghost use Rattle.picture_finds.specs.Contract.{targets_of};
ghost use Rattle.lines_machine.specs.Contract.{said_of};
ghost use Rattle.lines_reply.specs.Contract.{reply_of, longest};
ghost use Rattle.picture.specs.Program.{Drawing, nothing_drawn, finds_after, fault_in, fault_after, picture_program};
ghost use Rattle.picture.specs.Contract.{drawing_of, count_of, Takes};

use basis::Basis;
use error::Refusal;
use inverse_order::EndsBy;
use lines_answer::{Session, SessionReply};
use lines_machine::Machine;
use lines_record::Record;
use lines_reply::LineReply;
use picture_finds::Finds;
use table_span::Table;
use text::Pen;

pub mod draw;

// The curve, the targets asked of it, and the fault.
#[derive(Clone, Copy)]
pub struct PictureState {
    pub curve: Session,
    pub finds: Finds,
    pub fault: Option<Refusal>,
}

// What is to be found after a record: a new curve forgets what was asked before.
fn finds_after(f: Finds, r: Record) -> Finds
    ensures { targets_of result ≡ finds_after (targets_of f) r }
{
    match r {
        Record::Curve(_) => picture_finds::none(),
        Record::Span(_) => f,
        Record::Knot(_) => f,
        Record::Ends(_) => f,
        Record::At(_) => f,
        Record::Find(y) => picture_finds::ask(y, f),
        Record::Turn(_) => f,
        Record::Bad => f,
    }
}

// The latest refusal.
fn fault_in(f: Option<Refusal>, t: LineReply) -> Option<Refusal>
    ensures { (l : List Float) → result ≡ fault_in f (reply_of t l) }
{
    match t {
        LineReply::Nothing => f,
        LineReply::Refused(r) => Some(r),
        LineReply::Value(_) => f,
        LineReply::Place(_, _, _, _) => f,
        LineReply::Curve(_, _) => f,
    }
}

// The latest refusal after a record: a new curve forgets those before it.
fn fault_after(f: Option<Refusal>, r: Record, t: LineReply) -> Option<Refusal>
    ensures { (l : List Float) → result ≡ fault_after f r (reply_of t l) }
{
    match r {
        Record::Curve(_) => None,
        Record::Span(_) => fault_in(f, t),
        Record::Knot(_) => fault_in(f, t),
        Record::Ends(_) => fault_in(f, t),
        Record::At(_) => fault_in(f, t),
        Record::Find(_) => fault_in(f, t),
        Record::Turn(_) => fault_in(f, t),
        Record::Bad => fault_in(f, t),
    }
}

// A record before the first curve.
fn first(r: Record, table: &[f64]) -> SessionReply
    ensures { Takes none r result table.now }
{
    lines_answer::first(r, table, table)
}

// The table with a span.
fn spanned(t: Table, m: EndsBy, n: usize, s: u32, table: &[f64]) -> SessionReply
    requires { n ≤ places }
    ensures { Takes (on t m (take n table.now)) (Span s) result table.now }
{
    lines_answer::spanned(t, m, n, s, table, table)
}

// Whether a conversion would be refused; none is made.
fn turned(b: Basis, c: Basis, knots: &[f64]) -> LineReply
    ensures { (f : Option Refusal) (s : ℕ) (l : List Float) → fault_in f (reply_of result l)
        ≡ fault_in f (curve_reply s c (converted_of b c knots.now places)) }
{
    let v = convert::refusals::spline_verdict(b, c, knots, basis::MOST_KNOTS);
    match v {
        Ok(()) => LineReply::Nothing,
        Err(r) => LineReply::Refused(r),
    }
}

// A record after the first curve, which has n knots. A find waits for the end.
fn later(t: Table, m: EndsBy, n: usize, r: Record, table: &mut [f64]) -> SessionReply
    requires count { n ≤ places }
    requires table { length table.old ≡ places }
    ensures { Takes (on t m (take n table.old)) r result table.new }
{
    let b = t.basis;
    let same = Session::Curve(t, m, n);
    match r {
        Record::Curve(c) => {
            let cleared = Table { basis: c, span: 0 };
            SessionReply {
                held: Session::Curve(cleared, m, 0),
                told: LineReply::Nothing,
            }
        }
        Record::Span(s) => spanned(t, m, n, s, &table[..]),
        Record::Knot(x) => lines_answer::add(t, m, n, x, table),
        Record::Ends(k) => SessionReply {
            held: Session::Curve(t, k, n),
            told: LineReply::Nothing,
        },
        Record::At(x) => SessionReply {
            held: same,
            told: lines_answer::value_at(b, x, &table[0..n]),
        },
        Record::Find(_) => SessionReply {
            held: same,
            told: LineReply::Nothing,
        },
        Record::Turn(c) => SessionReply {
            held: same,
            told: turned(b, c, &table[0..n]),
        },
        Record::Bad => SessionReply {
            held: same,
            told: LineReply::Refused(Refusal::BadLine),
        },
    }
}

// The curve after a record, and what is told of it: no find is inverted, and no curve converted.
fn taken(h: Session, r: Record, table: &mut [f64]) -> SessionReply
    requires held { knots_of h ≤ places }
    requires table { length table.old ≡ places }
    ensures { Takes (curve_of h table.old) r result table.new }
{
    match h {
        Session::Nothing => first(r, &table[..]),
        Session::Curve(t, m, n) => later(t, m, n, r, table),
    }
}

// What is drawn after a line. In place: by value, the eight targets were copied for every line.
pub fn line(h: &mut PictureState, line: Option<&[u8]>, table: &mut [f64])
    requires held { count_of h.old ≤ places }
    requires table { length table.old ≡ places }
    ensures state { drawing_of h.new table.new ≡ picture_program.after (drawing_of h.old table.old)
        (said_of line.entry) }
    ensures few { count_of h.new ≤ places }
{
    let r = lines::said(line);
    let a = taken(h.curve, r, table);
    h.curve = a.held;
    h.finds = finds_after(h.finds, r);
    h.fault = fault_after(h.fault, r, a.told);
}

// The picture of what is held.
#[tactic(auto, using(text::proofs::Pens::pens), unfolding(crate::specs::Program::ends_with))]
fn put_end(pen: &mut Pen, h: PictureState, table: &[f64])
    requires held { count_of h ≤ places }
    requires table { length table.now ≡ places }
    requires room { HasRoom pen.old longest }
    ensures { Writes pen.old (picture_program.ends (drawing_of h table.now)) longest pen.new }
{
    match h.curve {
        Session::Nothing => {
            let bare = Table {
                basis: Basis::Linear,
                span: 0,
            };
            draw::put_picture(pen, bare, EndsBy::Knots, &table[0..0], h.finds, h.fault)
        }
        Session::Curve(t, m, n) => draw::put_picture(pen, t, m, &table[0..n], h.finds, h.fault),
    }
}

// The end of the listing: the picture.
#[tactic(auto, using(text::proofs::Pens::lands))]
pub fn end(h: PictureState, table: &[f64], out: &mut [u8], at: usize) -> usize
    requires held { count_of h ≤ places }
    requires table { length table.now ≡ places }
    requires room { at + longest ≤ length out.old }
    ensures text { Wrote out.old at (picture_program.ends (drawing_of h table.now)) out.new result }
    ensures short { result ≤ at + longest }
{
    let mut pen = Pen::new(out, at);
    put_end(&mut pen, h, table);
    pen.at()
}

// The drawing program between two lines: what is drawn; the knots are the first of the table.
#[derive(Clone, Copy)]
pub struct Pictures {
    pub held: PictureState,
    pub table: [f64; basis::MOST_KNOTS],
    ghost few: { count_of held ≤ places },
}

impl Pictures {
    // Before the first line.
    pub fn new() -> Pictures
        ensures { drawing_of result.held result.table ≡ nothing_drawn }
    {
        Pictures {
            held: PictureState {
                curve: Session::Nothing,
                finds: picture_finds::none(),
                fault: None,
            },
            table: [0.0; basis::MOST_KNOTS],
        }
    }
}

impl Machine for Pictures {
    const LINE_ROOM: usize = 0;

    const END_ROOM: usize = lines_reply::LONGEST;

    ghost LINE_ROOM = { 0 };

    ghost END_ROOM = { longest };

    ghost State = { Drawing };

    ghost program = { picture_program };

    ghost held = { λ p. drawing_of p.held p.table };

    ghost Keeps = { λ p. Unit };

    fn line(&mut self, line: Option<&[u8]>, _out: &mut [u8], at: usize) -> usize {
        crate::line(&mut self.held, line, &mut self.table);
        at
    }

    fn end(&mut self, out: &mut [u8], at: usize) -> usize {
        crate::end(self.held, &self.table, out, at)
    }
}

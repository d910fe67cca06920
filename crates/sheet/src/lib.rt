// A sheet of decimals: a basis, then a depth a line.
#![tactic(auto)]

ghost use Rattle.std.specs.Prelude.{◌≡◌, ℕ, ◌+◌, ◌≤◌, length, take, get_or, eqb, Float, List, []};
ghost use Rattle.text_decimals.specs.Decimals.{MINUS};
ghost use Rattle.text.specs.Pens.{HasRoom, Writes};
ghost use Rattle.text.specs.Wrote.{Wrote};
ghost use Rattle.lines_reply.specs.Contract.{longest};
ghost use Rattle.lines_machine.specs.Contract.{said_of};
ghost use Rattle.sheet.specs.Sheet.{most, Sheet, unbegun, depth_in, depth_line, named, added, after_of, ends_of, sheet_program};
ghost use Rattle.sheet.specs.Contract.{sheet_of, count_of};
ghost use Rattle.lines_record.specs.Record.{named_of};

use basis::Basis;
use error::Refusal;
use lines_machine::Machine;
use lines_reply::LineReply;
use table_span::Table;
use text::Pen;

// What is held of a sheet: no line yet; a basis and the number of depths so far; or why a line is at fault.
#[derive(Clone, Copy)]
pub enum SheetState {
    Unbegun,
    On(Basis, usize),
    Faulty(Refusal),
}

// Whether a field starts with a minus sign.
fn is_minus(s: &[u8]) -> bool
    ensures { result ≡ eqb (get_or s.now 0 0) MINUS }
{
    if 0 < s.len() {
        return s[0] == b'-';
    }
    false
}

// A depth in thousandths, with its sign.
pub fn depth_in(s: &[u8]) -> Option<(bool, u64)>
    ensures { result ≡ depth_in s.now }
{
    if is_minus(s) {
        let n = text_decimals::thousandths(&s[1..])?;
        return Some((true, n));
    }
    let n = text_decimals::thousandths(s)?;
    Some((false, n))
}

// The depth in a row of a sheet: a label of 1 to 16 bytes, a tab, the depth.
pub fn depth_line(l: &[u8]) -> Option<(bool, u64)>
    ensures { result ≡ depth_line l.now }
{
    let t = text::place_of(l, b'\t');
    if l.len() <= t {
        return None;
    }
    if t < 1 {
        return None;
    }
    if 16 < t {
        return None;
    }
    let from = t + 1;
    depth_in(&l[from..])
}

// The first line.
fn first(l: &[u8]) -> SheetState
    ensures sheet { (t : List Float) → sheet_of result t ≡ named (named_of l.now) }
    ensures count_after { count_of result ≤ most }
{
    let Some(b) = lines_record::basis_named(l) else {
        return SheetState::Faulty(Refusal::BadSheet);
    };
    SheetState::On(b, 0)
}

// A depth, into the next place, if there is one.
fn add(b: Basis, n: usize, l: &[u8], table: &mut [f64]) -> SheetState
    requires count { n ≤ most }
    requires table { length table.old ≡ most }
    ensures sheet { sheet_of result table.new ≡ added b (take n table.old) (depth_line l.now) }
    ensures count_after { count_of result ≤ most }
{
    let Some((minus, d)) = depth_line(l) else {
        return SheetState::Faulty(Refusal::BadSheet);
    };
    match keeper::keep(sheet_depth::depth(minus, d), n, table) {
        Some(count) => SheetState::On(b, count),
        None => SheetState::Faulty(Refusal::TooMany),
    }
}

// The sheet after a line.
pub fn line(h: SheetState, line: Option<&[u8]>, table: &mut [f64]) -> SheetState
    requires held { count_of h ≤ most }
    requires table { length table.old ≡ most }
    ensures sheet { sheet_of result table.new ≡ after_of (sheet_of h table.old) (said_of line.entry) }
    ensures count_after { count_of result ≤ most }
{
    match h {
        SheetState::Unbegun => match line {
            Some(l) => first(l),
            None => SheetState::Faulty(Refusal::BadSheet),
        },
        SheetState::On(b, n) => match line {
            Some(l) => add(b, n, l, table),
            None => SheetState::Faulty(Refusal::BadSheet),
        },
        SheetState::Faulty(r) => SheetState::Faulty(r),
    }
}

// The sheet's records, or the refusal alone.
#[tactic(auto, using(text::proofs::Pens::pens), unfolding(crate::specs::Sheet::ends_of))]
fn put_end(pen: &mut Pen, h: SheetState, table: &[f64])
    requires held { count_of h ≤ most }
    requires table { length table.now ≡ most }
    requires room { HasRoom pen.old longest }
    ensures { Writes pen.old (ends_of (sheet_of h table.now)) longest pen.new }
{
    match h {
        SheetState::Unbegun => lines_reply::put_reply(
            pen,
            LineReply::Refused(Refusal::BadSheet),
            table,
        ),
        SheetState::On(b, n) => {
            let bare = Table { basis: b, span: 0 };
            lines_reply::put_reply(pen, LineReply::Curve(bare, n), table)
        }
        SheetState::Faulty(r) => lines_reply::put_reply(pen, LineReply::Refused(r), table),
    }
}

// The end of the sheet: its records, or the refusal alone.
#[tactic(auto, using(text::proofs::Pens::lands))]
pub fn end(h: SheetState, table: &[f64], out: &mut [u8], at: usize) -> usize
    requires held { count_of h ≤ most }
    requires table { length table.now ≡ most }
    requires room { at + longest ≤ length out.old }
    ensures text { Wrote out.old at (ends_of (sheet_of h table.now)) out.new result }
    ensures short { result ≤ at + longest }
{
    let mut pen = Pen::new(out, at);
    put_end(&mut pen, h, table);
    pen.at()
}

// The reader of sheets between two lines: the sheet, whose depths are the first of the table.
#[derive(Clone, Copy)]
pub struct Sheets {
    pub held: SheetState,
    pub table: [f64; basis::MOST_KNOTS],
    ghost few: { count_of held ≤ most },
}

impl Sheets {
    // Before the first line.
    pub fn new() -> Sheets
        ensures { sheet_of result.held result.table ≡ unbegun }
    {
        Sheets {
            held: SheetState::Unbegun,
            table: [0.0; basis::MOST_KNOTS],
        }
    }
}

impl Machine for Sheets {
    const LINE_ROOM: usize = 0;

    const END_ROOM: usize = lines_reply::LONGEST;

    ghost LINE_ROOM = { 0 };

    ghost END_ROOM = { longest };

    ghost State = { Sheet };

    ghost program = { sheet_program };

    ghost held = { λ s. sheet_of s.held s.table };

    ghost Keeps = { λ s. Unit };

    fn line(&mut self, line: Option<&[u8]>, _out: &mut [u8], at: usize) -> usize {
        self.held = crate::line(self.held, line, &mut self.table);
        at
    }

    fn end(&mut self, out: &mut [u8], at: usize) -> usize {
        crate::end(self.held, &self.table, out, at)
    }
}

// bin/ask: the verdict on a sheet, and what is asked of it.
#![tactic(auto)]

ghost use Rattle.std.specs.Prelude.{◌≡◌, List, [], ◌+◌, ◌*◌, ◌≤◌, ◌<◌, length};
ghost use Rattle.text.specs.Wrote.{Wrote};
ghost use Rattle.lines_machine.specs.Contract.{said_of};
ghost use Rattle.sheet.specs.Sheet.{most};
ghost use Rattle.ask_sheet.specs.Sheet.{unbegun};
ghost use Rattle.ask_sheet.specs.Contract.{cells, sheet_of, line_in, last_line, Sound};
ghost use Rattle.ask_verdict.specs.Contract.{longest, Askable, asked_in};
ghost use Rattle.ask.specs.Ask.{Asking, reading, is_word, answer_to, after_ask, tells_of, next_of, ends_of, ask_program};
ghost use Rattle.ask.specs.Contract.{asking_of, Kept};

use ask_sheet::SheetHeld;
use ask_verdict::{AskedHeld, Told};
use lines_machine::Machine;

// Room for the longest text of a line: a verdict.
pub const LONGEST: usize = 122944;

// What is held: the sheet as far as it was read; or, its verdict told, what may be asked.
#[derive(Clone, Copy)]
pub enum AskHeld {
    Reading(SheetHeld),
    Told(AskedHeld),
}

// Whether a line is a word.
fn is_line(line: Option<&[u8]>, w: &[u8]) -> bool
    ensures { result ≡ is_word w.now (said_of line.entry) }
{
    match line {
        Some(l) => text::is_word(l, w),
        None => false,
    }
}

// A line after the verdict: the place behind what it gets, and what may be asked after it.
fn answer(
    a: AskedHeld,
    line: Option<&[u8]>,
    labels: &[u8],
    knots: &[f64],
    out: &mut [u8],
    at: usize,
) -> Told
    requires held { Askable a }
    requires labels { length labels.now ≡ cells }
    requires knots { length knots.now ≡ most }
    requires room { at + longest ≤ length out.old }
    ensures text { Wrote out.old at
        (answer_to (asked_in a knots.now labels.now) (said_of line.entry)) out.new result.at }
    ensures held { asked_in result.held knots.now labels.now ≡
        after_ask (asked_in a knots.now labels.now) (said_of line.entry) }
    ensures askable { Askable result.held }
    ensures short { result.at ≤ at + longest }
{
    match a {
        AskedHeld::Bad => Told {
            at: text::put_word(out, at, b"refused\t13\n"),
            held: AskedHeld::Bad,
        },
        AskedHeld::Fine(k, rows, n, span) => {
            let r = ask_answers::answer(k, rows, n, span, line, labels, knots, out, at);
            Told {
                at: r.at,
                held: AskedHeld::Fine(k, rows, n, r.span),
            }
        }
    }
}

// The end: the verdict, unless it was told.
fn end(
    h: AskHeld,
    rows: &[i64],
    labels: &[u8],
    knots: &mut [f64],
    out: &mut [u8],
    at: usize,
) -> usize
    requires held { Kept h rows.now labels.now }
    requires rows { length rows.now ≡ most }
    requires labels { length labels.now ≡ cells }
    requires knots { length knots.old ≡ most }
    requires room { at + longest ≤ length out.old }
    ensures text { Wrote out.old at (ends_of (asking_of h rows.now labels.now
        knots.old)) out.new result }
    ensures short { result ≤ at + longest }
{
    match h {
        AskHeld::Reading(s) => {
            let t = ask_verdict::verdict(s, rows, labels, knots, out, at);
            t.at
        }
        AskHeld::Told(a) => at,
    }
}

// bin/ask between two lines: what is held of the sheet, its depths and labels, and room for the knots.
#[derive(Clone, Copy)]
pub struct Questions {
    pub held: AskHeld,
    pub rows: [i64; basis::MOST_KNOTS],
    pub labels: [u8; 69632],
    pub knots: [f64; basis::MOST_KNOTS],
}

impl Questions {
    // Before the first line.
    pub fn new() -> Questions
        ensures state { asking_of result.held result.rows result.labels result.knots ≡ reading unbegun }
        ensures kept { Kept result.held result.rows result.labels }
    {
        Questions {
            held: AskHeld::Reading(SheetHeld::Unbegun),
            rows: [0; basis::MOST_KNOTS],
            labels: [0; 69632],
            knots: [0.0; basis::MOST_KNOTS],
        }
    }
}

impl Machine for Questions {
    const LINE_ROOM: usize = LONGEST;

    const END_ROOM: usize = LONGEST;

    ghost LINE_ROOM = { longest };

    ghost END_ROOM = { longest };

    ghost State = { Asking };

    ghost program = { ask_program };

    ghost held = { λ q. asking_of q.held q.rows q.labels q.knots };

    ghost Keeps = { λ q. Kept q.held q.rows q.labels };

    fn line(&mut self, line: Option<&[u8]>, out: &mut [u8], at: usize) -> usize {
        match self.held {
            AskHeld::Reading(s) => {
                if is_line(line, b"ask") {
                    let t = ask_verdict::verdict(
                        s,
                        &self.rows,
                        &self.labels,
                        &mut self.knots,
                        out,
                        at,
                    );
                    self.held = AskHeld::Told(t.held);
                    return t.at;
                }
                self.held = AskHeld::Reading(ask_sheet::line(
                    s,
                    line,
                    &mut self.rows,
                    &mut self.labels,
                ));
                at
            }
            AskHeld::Told(a) => {
                let r = answer(a, line, &self.labels, &self.knots, out, at);
                self.held = AskHeld::Told(r.held);
                r.at
            }
        }
    }

    fn end(&mut self, out: &mut [u8], at: usize) -> usize {
        crate::end(
            self.held,
            &self.rows,
            &self.labels,
            &mut self.knots,
            out,
            at,
        )
    }
}

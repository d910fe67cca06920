// What the line program replies to a line, and the curve after it.
#![tactic(auto)]

ghost use Rattle.std.specs.Prelude.{◌≡◌, ◌+◌, ◌≤◌, length};
ghost use Rattle.lines_answer.specs.Answer.{none, Curve, places, reply_to, after_of};
ghost use Rattle.lines_answer.specs.Contract.{curve_of, count_of};
ghost use Rattle.lines_reply.specs.Reply.{text_of};
ghost use Rattle.lines_reply.specs.Contract.{longest};
ghost use Rattle.text.specs.Wrote.{Wrote};
ghost use Rattle.lines_machine.specs.Contract.{said_of};
ghost use Rattle.lines.specs.Lines.{says, line_program};

use lines_answer::Session;
use lines_machine::Machine;
use lines_record::Record;
use text::Pen;

// What a line says.
pub fn said(line: Option<&[u8]>) -> Record
    ensures { result ≡ says (said_of line.entry) }
{
    match line {
        Some(l) => lines_record::record_of(l),
        None => Record::Bad,
    }
}

// The line program between two lines: the curve, whose knots are the first of the table, and room for a conversion.
#[derive(Clone, Copy)]
pub struct Lines {
    pub held: Session,
    pub table: [f64; 4096],
    pub converted: [f64; basis::MOST_KNOTS],
    ghost few: { count_of held ≤ places },
}

impl Lines {
    // Before the first line.
    pub fn new() -> Lines
        ensures { curve_of result.held result.table ≡ none }
    {
        Lines {
            held: Session::Nothing,
            table: [0.0; 4096],
            converted: [0.0; basis::MOST_KNOTS],
        }
    }

    // A record: its reply is written from place `at` of `out` on.
    #[tactic(auto, using(text::proofs::Pens::lands))]
    pub fn answered(&mut self, said: Record, out: &mut [u8], at: usize) -> usize
        requires room { at + longest ≤ length out.old }
        ensures state { curve_of self.new.held self.new.table ≡ after_of
            (curve_of self.old.held self.old.table) said }
        ensures wrote { Wrote out.old at
            (text_of (reply_to (curve_of self.old.held self.old.table) said)) out.new result }
        ensures short { result ≤ at + longest }
    {
        let a = lines_answer::answer(self.held, said, &mut self.table, &mut self.converted);
        self.held = a.held;
        let mut pen = Pen::new(out, at);
        lines_reply::put_reply(&mut pen, a.told, &self.converted);
        pen.at()
    }
}

impl Machine for Lines {
    const LINE_ROOM: usize = lines_reply::LONGEST;

    const END_ROOM: usize = 0;

    ghost LINE_ROOM = { longest };

    ghost END_ROOM = { 0 };

    ghost State = { Curve };

    ghost program = { line_program };

    ghost held = { λ l. curve_of l.held l.table };

    ghost Keeps = { λ l. Unit };

    fn line(&mut self, line: Option<&[u8]>, out: &mut [u8], at: usize) -> usize {
        self.answered(said(line), out, at)
    }

    fn end(&mut self, _out: &mut [u8], at: usize) -> usize {
        at
    }
}

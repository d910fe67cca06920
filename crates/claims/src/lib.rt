// What the checker of claims replies to a line, and the table after it.
#![tactic(auto)]

ghost use Rattle.std.specs.Prelude.{◌≡◌, ◌+◌, ◌≤◌, ◌<◌, length, drop};
ghost use Rattle.lines_answer.specs.Answer.{none, Curve, places};
ghost use Rattle.lines_answer.specs.Contract.{curve_of, count_of};
ghost use Rattle.lines_reply.specs.Contract.{longest};
ghost use Rattle.text.specs.Text.{fields_of, hex_of};
ghost use Rattle.text.specs.Pens.{HasRoom, Writes};
ghost use Rattle.text.specs.Wrote.{Wrote};
ghost use Rattle.text_decimals.specs.Decimals.{number_in};
ghost use Rattle.lines_machine.specs.Contract.{said_of};
ghost use Rattle.claims.specs.Claims.{of_table, claim_with, claim_in, said_in, says, claim_text, check_text, claims_program};

use error::Refusal;
use lines::Lines;
use lines_answer::Session;
use lines_machine::Machine;
use lines_record::Record;
use text::Pen;

// What a line says: a record of a listing, or a claim: a target, a segment, a local place and a precision.
#[derive(Clone, Copy)]
pub enum ClaimRecord {
    Listed(Record),
    Claim(f64, usize, f64, f64),
}

// The records that enter a table; no others are taken here.
fn of_table(r: Record) -> Record
    ensures { result ≡ of_table r }
{
    match r {
        Record::Curve(b) => Record::Curve(b),
        Record::Span(n) => Record::Span(n),
        Record::Knot(x) => Record::Knot(x),
        Record::Ends(_) => Record::Bad,
        Record::At(_) => Record::Bad,
        Record::Find(_) => Record::Bad,
        Record::Turn(_) => Record::Bad,
        Record::Bad => Record::Bad,
    }
}

// The claim of its four fields.
fn claim_with(y: &[u8], s: &[u8], x: &[u8], e: &[u8]) -> ClaimRecord
    ensures { result ≡ claim_with (hex_of y.now) (number_in 4 s.now) (hex_of x.now)
        (hex_of e.now) }
{
    let Some(target) = text::hex(y) else {
        return ClaimRecord::Listed(Record::Bad);
    };
    let Some(segment) = text_decimals::number_in(s, 4) else {
        return ClaimRecord::Listed(Record::Bad);
    };
    let Some(place) = text::hex(x) else {
        return ClaimRecord::Listed(Record::Bad);
    };
    let Some(precision) = text::hex(e) else {
        return ClaimRecord::Listed(Record::Bad);
    };
    ClaimRecord::Claim(
        text::of_bits(target),
        segment as usize,
        text::of_bits(place),
        text::of_bits(precision),
    )
}

// The claim of a line that begins with the word: four fields follow it, no more and no fewer.
fn claim_in(line: &[u8]) -> ClaimRecord
    ensures { result ≡ claim_in (drop 1 (fields_of line.now)) }
{
    if text::fields_in(line) != 5 {
        return ClaimRecord::Listed(Record::Bad);
    }
    claim_with(
        text::field(line, 1),
        text::field(line, 2),
        text::field(line, 3),
        text::field(line, 4),
    )
}

// What a line says that is not too long.
fn said_in(line: &[u8]) -> ClaimRecord
    ensures { result ≡ said_in (fields_of line.now) }
{
    if text::is_word(text::field(line, 0), b"claim") {
        return claim_in(line);
    }
    ClaimRecord::Listed(of_table(lines_record::record_of(line)))
}

// What a line says.
fn said_of(line: Option<&[u8]>) -> ClaimRecord
    ensures { result ≡ says (said_of line.entry) }
{
    match line {
        Some(l) => said_in(l),
        None => ClaimRecord::Listed(Record::Bad),
    }
}

// The reply to a claim.
fn put_claimed(pen: &mut Pen, c: Result<bool, Refusal>)
    requires { HasRoom pen.old 18 }
    ensures { Writes pen.old (claim_text c) 18 pen.new }
{
    match c {
        Err(r) => lines_reply::put_refused(pen, r),
        Ok(holds) => {
            if holds {
                pen.word(b"holds\n");
            } else {
                pen.word(b"differs\n");
            }
        }
    }
}

// The reply to a claim; before the first curve it is a bad line.
#[tactic(auto, using(text::proofs::Pens::pens), unfolding(crate::specs::Claims::check_text))]
fn put_checked(
    pen: &mut Pen,
    held: Session,
    y: f64,
    s: usize,
    x: f64,
    precision: f64,
    table: &[f64],
)
    requires held { count_of held ≤ places }
    requires table { length table.now ≡ places }
    requires room { HasRoom pen.old longest }
    ensures { Writes pen.old (check_text (curve_of held table.now) y s x precision) longest pen.new }
{
    match held {
        Session::Nothing => put_claimed(pen, Err(Refusal::BadLine)),
        Session::Curve(t, _, n) => {
            let c = claim::check_claim(t.basis, y, s, x, precision, &table[0..n]);
            put_claimed(pen, c)
        }
    }
}

// The checker of claims, which holds what the line program does.
#[derive(Clone, Copy)]
pub struct Claims {
    pub lines: Lines,
}

impl Claims {
    // Before the first line.
    pub fn new() -> Claims
        ensures { curve_of result.lines.held result.lines.table ≡ none }
    {
        Claims {
            lines: Lines::new(),
        }
    }
}

impl Machine for Claims {
    const LINE_ROOM: usize = lines_reply::LONGEST;

    const END_ROOM: usize = 0;

    ghost LINE_ROOM = { longest };

    ghost END_ROOM = { 0 };

    ghost State = { Curve };

    ghost program = { claims_program };

    ghost held = { λ c. curve_of c.lines.held c.lines.table };

    ghost Keeps = { λ c. Unit };

    #[tactic(auto, using(text::proofs::Pens::lands))]
    fn line(&mut self, line: Option<&[u8]>, out: &mut [u8], at: usize) -> usize {
        match said_of(line) {
            ClaimRecord::Listed(r) => self.lines.answered(r, out, at),
            ClaimRecord::Claim(y, s, x, precision) => {
                let mut pen = Pen::new(out, at);
                put_checked(
                    &mut pen,
                    self.lines.held,
                    y,
                    s,
                    x,
                    precision,
                    &self.lines.table,
                );
                pen.at()
            }
        }
    }

    fn end(&mut self, _out: &mut [u8], at: usize) -> usize {
        at
    }
}

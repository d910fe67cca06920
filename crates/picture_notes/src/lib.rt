// The refusals in the picture, each a line of text at the upper left, and a line through the knot that is told.
#![tactic(auto, using(text::proofs::Pens::pens))]

ghost use Rattle.std.specs.Prelude.{◌≤◌, ◌+◌, length};
ghost use Rattle.error.specs.Refusals.{where_of};
ghost use Rattle.text.specs.Pens.{HasRoom, Writes};
ghost use Rattle.picture_notes.specs.Notes.{knot_tail, tail_text, note_text, fault_text};

use basis::Basis;
use error::{Refusal, Where};
use picture_scale::words::put_number;
use text::Pen;

// The knot that is told, and a line through it.
fn put_knot_tail(pen: &mut Pen, b: Basis, n: u64, i: u64)
    requires number { i ≤ 65535 }
    requires room { HasRoom pen.old 80 }
    ensures { Writes pen.old (knot_tail b n i) 80 pen.new }
{
    let x = picture_scale::knot_column(b, n, i);
    put_number(pen, b" at knot ", i);
    put_number(pen, b"</text>\n<path class=\"r\" d=\"M", x);
    pen.word(b",400V6400\"/>\n");
}

// A knot that is told is marked.
fn put_tail(pen: &mut Pen, b: Basis, n: u64, r: Refusal)
    requires { HasRoom pen.old 80 }
    ensures { Writes pen.old (tail_text b n (where_of r)) 80 pen.new }
{
    match error::where_told(r) {
        Where::Nowhere => pen.word(b"</text>\n"),
        Where::Knot(i) => put_knot_tail(pen, b, n, i as u64),
        Where::Segment(_) => pen.word(b"</text>\n"),
    }
}

// The line of text that `who` was refused, in one of ten slots, from above.
pub fn put_note(pen: &mut Pen, b: Basis, n: u64, slot: u64, who: &[u8], r: Refusal)
    requires slot { slot ≤ 9 }
    requires who { length who.now ≤ 5 }
    requires room { HasRoom pen.old 160 }
    ensures { Writes pen.old (note_text b n slot who.now r) 160 pen.new }
{
    put_number(pen, b"<text class=\"r\" x=\"1100\" y=\"", 600 + 180 * slot);
    pen.word(b"\">");
    pen.word(who);
    put_number(pen, b" refused: ", error::number(r) as u64);
    put_tail(pen, b, n, r);
}

// A note on the latest line that was refused.
pub fn put_fault(pen: &mut Pen, b: Basis, n: u64, f: Option<Refusal>)
    requires { HasRoom pen.old 160 }
    ensures { Writes pen.old (fault_text b n f) 160 pen.new }
{
    match f {
        None => {}
        Some(r) => put_note(pen, b, n, 1, b"line", r),
    }
}

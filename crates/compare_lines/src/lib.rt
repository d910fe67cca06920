// Two listings on one input, parted by `other`: what a line gets, and at the end what differs.
#![tactic(auto)]

ghost use Rattle.std.specs.Prelude.{◌≡◌, List, ℕ, ◌+◌, ◌≤◌, ◌<◌, length, take};
ghost use Rattle.text.specs.Text.{hex_of};
ghost use Rattle.text.specs.Pens.{HasRoom, Writes};
ghost use Rattle.text.specs.Wrote.{Wrote};
ghost use Rattle.text_decimals.specs.Decimals.{number_in};
ghost use Rattle.lines_record.specs.Record.{named_of};
ghost use Rattle.lines_machine.specs.Contract.{said_of as line_said};
ghost use Rattle.compare.specs.Contract.{longest};
ghost use Rattle.compare_lines.specs.declared.CompareRecord.TheVariants.{Span, Knot};
ghost use Rattle.compare_lines.specs.CompareRecord.{curve_said, span_said, knot_said, meaning_of, said_of, is_other};
ghost use Rattle.compare_lines.specs.Listings.{none, on, before, Both, places, parted, verdict_text, ends_of, says, compare_program};
ghost use Rattle.compare_lines.specs.Contract.{listing_of, knots_of, both_of, count_of, Enters, Takes};

use basis::Basis;
use error::Refusal;
use lines_machine::Machine;
use table_span::Table;
use text::Pen;

// What a line says. A knot is its 64 bits.
#[derive(Clone, Copy)]
pub enum CompareRecord {
    Curve(Basis),
    Span(u32),
    Knot(u64),
    Other,
    Bad,
}

// A listing so far: none before its `curve`, then a basis with a span, and so many knots of a lent slice.
#[derive(Clone, Copy)]
pub enum Listing {
    Nothing,
    On(Table, usize),
}

// The listings: the first alone, then the first and the second.
#[derive(Clone, Copy)]
pub enum Comparison {
    Before(Listing),
    Parted(Listing, Listing),
}

// A listing after a record, and whether the record was refused.
#[derive(Clone, Copy)]
pub struct EntryResult {
    pub listing: Listing,
    pub verdict: Result<(), Refusal>,
}

// Both listings after a record, and whether it was refused.
#[derive(Clone, Copy)]
pub struct TakeResult {
    pub held: Comparison,
    pub verdict: Result<(), Refusal>,
}

// The record of `curve` with this field.
fn curve_of(s: &[u8]) -> CompareRecord
    ensures { result ≡ curve_said (named_of s.now) }
{
    let Some(b) = lines_record::basis_named(s) else {
        return CompareRecord::Bad;
    };
    CompareRecord::Curve(b)
}

// A span of 1 to 5 digits; whether it is in range is for the listing to say.
fn span_of(s: &[u8]) -> CompareRecord
    ensures { result ≡ span_said (number_in 5 s.now) }
{
    let Some(n) = text_decimals::number_in(s, 5) else {
        return CompareRecord::Bad;
    };
    CompareRecord::Span(n as u32)
}

// The record of `knot` with this field: its 64 bits, since bits are compared.
fn knot_of(s: &[u8]) -> CompareRecord
    ensures { result ≡ knot_said (hex_of s.now) }
{
    let Some(n) = text::hex(s) else {
        return CompareRecord::Bad;
    };
    CompareRecord::Knot(n)
}

// What a word and the field after it say.
fn meaning(w: &[u8], s: &[u8]) -> CompareRecord
    ensures { result ≡ meaning_of w.now s.now }
{
    if text::is_word(w, b"curve") {
        return curve_of(s);
    }
    if text::is_word(w, b"span") {
        return span_of(s);
    }
    if text::is_word(w, b"knot") {
        return knot_of(s);
    }
    CompareRecord::Bad
}

// One field may say `other`, two a record.
fn said_of(line: &[u8]) -> CompareRecord
    ensures { result ≡ said_of line.now }
{
    let n = text::fields_in(line);
    if n == 1 {
        if text::is_word(text::field(line, 0), b"other") {
            return CompareRecord::Other;
        }
        return CompareRecord::Bad;
    }
    if n != 2 {
        return CompareRecord::Bad;
    }
    meaning(text::field(line, 0), text::field(line, 1))
}

// What a line says.
fn said_by(line: Option<&[u8]>) -> CompareRecord
    ensures { result ≡ says (line_said line.entry) }
{
    match line {
        Some(l) => said_of(l),
        None => CompareRecord::Bad,
    }
}

// Whether the second listing starts here.
fn is_other(s: CompareRecord) -> bool
    ensures { result ≡ is_other s }
{
    match s {
        CompareRecord::Curve(_) => false,
        CompareRecord::Span(_) => false,
        CompareRecord::Knot(_) => false,
        CompareRecord::Other => true,
        CompareRecord::Bad => false,
    }
}

// A record before the listing's `curve`.
fn first(s: CompareRecord, knots: &[u64]) -> EntryResult
    ensures { Enters none s result knots.now }
{
    let bad = EntryResult {
        listing: Listing::Nothing,
        verdict: Err(Refusal::BadLine),
    };
    match s {
        CompareRecord::Curve(b) => EntryResult {
            listing: Listing::On(Table { basis: b, span: 0 }, 0),
            verdict: Ok(()),
        },
        CompareRecord::Span(_) => bad,
        CompareRecord::Knot(_) => bad,
        CompareRecord::Other => bad,
        CompareRecord::Bad => bad,
    }
}

// A span: in place of the one before, if it is good.
fn spanned(t: Table, n: usize, s: u32, knots: &[u64]) -> EntryResult
    requires { n ≤ places }
    ensures { Enters (on t (take n knots.now)) (Span s) result knots.now }
{
    if table_span::is_span(s) {
        let b = t.basis;
        return EntryResult {
            listing: Listing::On(Table { basis: b, span: s }, n),
            verdict: Ok(()),
        };
    }
    EntryResult {
        listing: Listing::On(t, n),
        verdict: Err(Refusal::BadSpan),
    }
}

// A knot's bits, into the next place, if there is one.
fn add(t: Table, n: usize, x: u64, knots: &mut [u64]) -> EntryResult
    requires count { n ≤ places }
    requires knots { length knots.old ≡ places }
    ensures { Enters (on t (take n knots.old)) (Knot x) result knots.new }
{
    match keeper::keep(x, n, knots) {
        Some(count) => EntryResult {
            listing: Listing::On(t, count),
            verdict: Ok(()),
        },
        None => EntryResult {
            listing: Listing::On(t, n),
            verdict: Err(Refusal::TooMany),
        },
    }
}

// A record after the listing's `curve`, which has n knots.
fn later(t: Table, n: usize, s: CompareRecord, knots: &mut [u64]) -> EntryResult
    requires count { n ≤ places }
    requires knots { length knots.old ≡ places }
    ensures { Enters (on t (take n knots.old)) s result knots.new }
{
    let bad = EntryResult {
        listing: Listing::On(t, n),
        verdict: Err(Refusal::BadLine),
    };
    match s {
        CompareRecord::Curve(b) => EntryResult {
            listing: Listing::On(Table { basis: b, span: 0 }, 0),
            verdict: Ok(()),
        },
        CompareRecord::Span(r) => spanned(t, n, r, &knots[..]),
        CompareRecord::Knot(x) => add(t, n, x, knots),
        CompareRecord::Other => bad,
        CompareRecord::Bad => bad,
    }
}

// A record that comes upon a listing.
fn enter(l: Listing, s: CompareRecord, knots: &mut [u64]) -> EntryResult
    requires knots_l { knots_of l ≤ places }
    requires knots { length knots.old ≡ places }
    ensures { Enters (listing_of l knots.old) s result knots.new }
{
    match l {
        Listing::Nothing => first(s, &knots[..]),
        Listing::On(t, n) => later(t, n, s, knots),
    }
}

// A record that comes upon both listings.
fn take_in(h: Comparison, s: CompareRecord, old: &mut [u64], new: &mut [u64]) -> TakeResult
    requires held { count_of h ≤ places }
    requires old { length old.old ≡ places }
    requires new { length new.old ≡ places }
    ensures { Takes (both_of h old.old new.old) s result old.new new.new }
{
    match h {
        Comparison::Before(l) => {
            if is_other(s) {
                return TakeResult {
                    held: Comparison::Parted(l, Listing::Nothing),
                    verdict: Ok(()),
                };
            }
            let e = enter(l, s, old);
            let after = e.listing;
            let verdict = e.verdict;
            TakeResult {
                held: Comparison::Before(after),
                verdict: verdict,
            }
        }
        Comparison::Parted(k, l) => {
            let e = enter(l, s, new);
            let after = e.listing;
            let verdict = e.verdict;
            TakeResult {
                held: Comparison::Parted(k, after),
                verdict: verdict,
            }
        }
    }
}

// A refusal; nothing if there is none.
#[tactic(auto, using(text::proofs::Pens::pens))]
fn put_verdict(pen: &mut Pen, v: Result<(), Refusal>)
    requires { HasRoom pen.old 18 }
    ensures { Writes pen.old (verdict_text v) 18 pen.new }
{
    match v {
        Ok(()) => {}
        Err(r) => lines_reply::put_refused(pen, r),
    }
}

// The end, where the first listing has a table and the second may have one.
#[tactic(auto, using(text::proofs::Pens::pens), unfolding(crate::specs::Listings::ends_of))]
fn end_on(pen: &mut Pen, t: Table, n: usize, l: Listing, old: &[u64], new: &[u64])
    requires count { n ≤ places }
    requires knots_l { knots_of l ≤ places }
    requires old { length old.now ≡ places }
    requires new { length new.now ≡ places }
    requires room { HasRoom pen.old longest }
    ensures { Writes pen.old (ends_of (parted (on t (take n old.now)) (listing_of l new.now))) longest pen.new }
{
    match l {
        Listing::Nothing => lines_reply::put_refused(pen, Refusal::NoComparison),
        Listing::On(u, m) => compare::put_comparison(pen, t, &old[0..n], u, &new[0..m]),
    }
}

// The end after an `other`.
#[tactic(auto, using(text::proofs::Pens::pens), unfolding(crate::specs::Listings::ends_of))]
fn end_parted(pen: &mut Pen, k: Listing, l: Listing, old: &[u64], new: &[u64])
    requires knots_k { knots_of k ≤ places }
    requires knots_l { knots_of l ≤ places }
    requires old { length old.now ≡ places }
    requires new { length new.now ≡ places }
    requires room { HasRoom pen.old longest }
    ensures { Writes pen.old (ends_of (parted (listing_of k old.now) (listing_of l new.now))) longest pen.new }
{
    match k {
        Listing::Nothing => lines_reply::put_refused(pen, Refusal::NoComparison),
        Listing::On(t, n) => end_on(pen, t, n, l, old, new),
    }
}

// What differs, or 20 in its place.
#[tactic(auto, using(text::proofs::Pens::pens), unfolding(crate::specs::Listings::ends_of))]
fn put_end(pen: &mut Pen, h: Comparison, old: &[u64], new: &[u64])
    requires held { count_of h ≤ places }
    requires old { length old.now ≡ places }
    requires new { length new.now ≡ places }
    requires room { HasRoom pen.old longest }
    ensures { Writes pen.old (ends_of (both_of h old.now new.now)) longest pen.new }
{
    match h {
        Comparison::Before(_) => lines_reply::put_refused(pen, Refusal::NoComparison),
        Comparison::Parted(k, l) => end_parted(pen, k, l, old, new),
    }
}

// The end of the input: what differs, or 20 in its place.
#[tactic(auto, using(text::proofs::Pens::lands))]
pub fn end(h: Comparison, old: &[u64], new: &[u64], out: &mut [u8], at: usize) -> usize
    requires held { count_of h ≤ places }
    requires old { length old.now ≡ places }
    requires new { length new.now ≡ places }
    requires room { at + longest ≤ length out.old }
    ensures text { Wrote out.old at (ends_of (both_of h old.now new.now)) out.new result }
    ensures short { result ≤ at + longest }
{
    let mut pen = Pen::new(out, at);
    put_end(&mut pen, h, old, new);
    pen.at()
}

// The comparison between two lines: both listings, whose knots are the first of `old` and of `new`.
#[derive(Clone, Copy)]
pub struct Comparisons {
    pub held: Comparison,
    pub old: [u64; basis::MOST_KNOTS],
    pub new: [u64; basis::MOST_KNOTS],
    ghost few: { count_of held ≤ places },
}

impl Comparisons {
    // Before the first line.
    pub fn new() -> Comparisons
        ensures { both_of result.held result.old result.new ≡ before none }
    {
        Comparisons {
            held: Comparison::Before(Listing::Nothing),
            old: [0; basis::MOST_KNOTS],
            new: [0; basis::MOST_KNOTS],
        }
    }
}

impl Machine for Comparisons {
    const LINE_ROOM: usize = 18;

    const END_ROOM: usize = compare::LONGEST;

    ghost LINE_ROOM = { 18 };

    ghost END_ROOM = { longest };

    ghost State = { Both };

    ghost program = { compare_program };

    ghost held = { λ c. both_of c.held c.old c.new };

    ghost Keeps = { λ c. Unit };

    #[tactic(auto, using(text::proofs::Pens::lands))]
    fn line(&mut self, line: Option<&[u8]>, out: &mut [u8], at: usize) -> usize {
        let t = take_in(self.held, said_by(line), &mut self.old, &mut self.new);
        self.held = t.held;
        let mut pen = Pen::new(out, at);
        put_verdict(&mut pen, t.verdict);
        pen.at()
    }

    fn end(&mut self, out: &mut [u8], at: usize) -> usize {
        crate::end(self.held, &self.old, &self.new, out, at)
    }
}

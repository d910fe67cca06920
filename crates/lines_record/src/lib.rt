// What a line of a listing says, which is its record.
#![tactic(auto)]

ghost use Rattle.std.specs.Prelude.{◌≡◌};
ghost use Rattle.text_decimals.specs.Decimals.{number_in};
ghost use Rattle.lines_record.specs.declared.Record.TheVariants.{Span, Ends};
ghost use Rattle.lines_record.specs.Record.{word_of, named_of, ends_of, with_number, with_ends, meaning_of, record_of};

use basis::Basis;
use inverse_order::EndsBy;

#[derive(Clone, Copy)]
pub enum Record {
    Curve(Basis),
    Span(u32),
    Knot(f64),
    Ends(EndsBy),
    At(f64),
    Find(f64),
    Turn(Basis),
    Bad,
}

// The first field of a record.
#[derive(Clone, Copy)]
pub enum Word {
    Curve,
    Span,
    Knot,
    Ends,
    At,
    Find,
    Turn,
    Other,
}

// Which record a line's first field names.
// Tests one after another: with a match on byte strings the check asks for 34 goals, byte by byte, and leaves them all open.
pub fn word_of(s: &[u8]) -> Word
    ensures { result ≡ word_of s.now }
{
    if text::is_word(s, b"curve") {
        Word::Curve
    } else if text::is_word(s, b"span") {
        Word::Span
    } else if text::is_word(s, b"knot") {
        Word::Knot
    } else if text::is_word(s, b"ends") {
        Word::Ends
    } else if text::is_word(s, b"at") {
        Word::At
    } else if text::is_word(s, b"find") {
        Word::Find
    } else if text::is_word(s, b"turn") {
        Word::Turn
    } else {
        Word::Other
    }
}

// The basis by its name.
// Tests one after another, as in `word_of`.
pub fn basis_named(s: &[u8]) -> Option<Basis>
    ensures { result ≡ named_of s.now }
{
    if text::is_word(s, b"Bspline") {
        Some(Basis::Bspline)
    } else if text::is_word(s, b"Bezier") {
        Some(Basis::Bezier)
    } else if text::is_word(s, b"CatmullRom") {
        Some(Basis::CatmullRom)
    } else if text::is_word(s, b"Hermite") {
        Some(Basis::Hermite)
    } else if text::is_word(s, b"Linear") {
        Some(Basis::Linear)
    } else if text::is_word(s, b"Power") {
        Some(Basis::Power)
    } else {
        None
    }
}

// The rule of the ends by its name.
// Tests one after another, as in `word_of`.
pub fn ends_named(s: &[u8]) -> Option<EndsBy>
    ensures { result ≡ ends_of s.now }
{
    if text::is_word(s, b"knots") {
        Some(EndsBy::Knots)
    } else if text::is_word(s, b"curve") {
        Some(EndsBy::Curve)
    } else {
        None
    }
}

// A span of 1 to 5 digits; whether it is in range is for the answer to say.
fn span_of(s: &[u8]) -> Record
    ensures { result ≡ with_number (λ n. Span n) (number_in 5 s.now) }
{
    let Some(n) = text_decimals::number_in(s, 5) else {
        return Record::Bad;
    };
    Record::Span(n as u32)
}

// The record of `ends` with this field.
fn ends_of(s: &[u8]) -> Record
    ensures { result ≡ with_ends (λ m. Ends m) (ends_of s.now) }
{
    let Some(m) = ends_named(s) else {
        return Record::Bad;
    };
    Record::Ends(m)
}

// The record of a word and the field after it.
fn meaning(w: Word, s: &[u8]) -> Record
    ensures { result ≡ meaning_of w s.now }
{
    match w {
        Word::Curve => {
            let Some(b) = basis_named(s) else {
                return Record::Bad;
            };
            Record::Curve(b)
        }
        Word::Span => span_of(s),
        Word::Knot => {
            let Some(n) = text::hex(s) else {
                return Record::Bad;
            };
            Record::Knot(text::of_bits(n))
        }
        Word::Ends => ends_of(s),
        Word::At => {
            let Some(n) = text::hex(s) else {
                return Record::Bad;
            };
            Record::At(text::of_bits(n))
        }
        Word::Find => {
            let Some(n) = text::hex(s) else {
                return Record::Bad;
            };
            Record::Find(text::of_bits(n))
        }
        Word::Turn => {
            let Some(b) = basis_named(s) else {
                return Record::Bad;
            };
            Record::Turn(b)
        }
        Word::Other => Record::Bad,
    }
}

// A record has two fields, no more and no fewer.
pub fn record_of(line: &[u8]) -> Record
    ensures { result ≡ record_of line.now }
{
    if text::fields_in(line) != 2 {
        return Record::Bad;
    }
    meaning(word_of(text::field(line, 0)), text::field(line, 1))
}

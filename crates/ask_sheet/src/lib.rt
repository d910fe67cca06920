// A sheet as bin/ask reads it: a name, then labelled depths in whole thousandths; or the first line at fault, and why.
#![tactic(auto)]

ghost use Rattle.std.specs.Prelude.{◌≡◌, List, ◌++◌, ◌∷◌, [], ℕ, min, ◌+◌, ◌*◌, ◌≤◌, ◌<◌, ℤ, length, take, get_or};
ghost use Rattle.whole.specs.Held.{held_all};
ghost use Rattle.sheet.specs.Sheet.{most};
ghost use Rattle.lines_machine.specs.Contract.{said_of};
ghost use Rattle.ask_sheet.specs.Sheet.{kind_of, named, whole_of, most_in, grown, after_of};
ghost use Rattle.ask_sheet.specs.Contract.{cells, label_at, labels_to, sheet_of, line_in, last_line};

use basis::Basis;

// The curve that a sheet names: drawn over a basis, or through every row without turning back where they do not.
#[derive(Clone, Copy)]
pub enum Kind {
    Drawn(Basis),
    Monotone,
}

// What is wrong with a line: too long, no basis, no label, no depth, a depth too many; or there is none.
#[derive(Clone, Copy)]
pub enum Reason {
    Long,
    NoBasis,
    NoLabel,
    NoDepth,
    Many,
    Missing,
}

// What is held of a sheet: no line yet; a kind and the number of depths so far; or the number of a line at fault, and why.
#[derive(Clone, Copy)]
pub enum SheetHeld {
    Unbegun,
    On(Kind, usize),
    Faulty(usize, Reason),
}

// The kind of curve that a sheet's first line names.
fn kind_named(l: &[u8]) -> Option<Kind>
    ensures { result ≡ kind_of l.now }
{
    if text::is_word(l, b"Monotone") {
        return Some(Kind::Monotone);
    }
    let b = lines_record::basis_named(l)?;
    Some(Kind::Drawn(b))
}

// The first line.
fn first(l: &[u8]) -> SheetHeld
    ensures sheet { (t : List ℤ) (s : List ℕ) → sheet_of result t s ≡ named (kind_of l.now) }
    ensures line_after { line_in result ≤ last_line }
{
    let Some(k) = kind_named(l) else {
        return SheetHeld::Faulty(1, Reason::NoBasis);
    };
    SheetHeld::On(k, 0)
}

// The number with its sign.
fn whole_of(minus: bool, n: u64) -> i64
    requires { n ≤ 1000000000000 }
    ensures { result ≡ whole_of minus n }
{
    if minus {
        return monotone::down(n);
    }
    monotone::up(n)
}

// The largest depth of a sheet, in thousandths; half as large for a monotone curve.
fn most_in(k: Kind) -> u64
    ensures { result ≡ most_in k }
{
    match k {
        Kind::Drawn(b) => 1000000000000,
        Kind::Monotone => 500000000000,
    }
}

// How many bytes label i has.
pub fn label_len(labels: &[u8], i: usize) -> usize
    requires { 17 * i < length labels.now }
    ensures { result ≡ min (get_or labels.now (17 * i) 0) 16 }
{
    (labels[17 * i] as usize).min(16)
}

// Label n, behind those before it.
fn keep(labels: &mut [u8], n: usize, w: &[u8])
    requires short { length w.now ≤ 16 }
    requires inside { n < most }
    requires labels { length labels.old ≡ cells }
    ensures labels { labels_to labels.new (n + 1) ≡ labels_to labels.old n ++ (w.now ∷ []) }
    ensures long { length labels.new ≡ cells }
{
    let at = text::put_byte(&mut *labels, 17 * n, w.len() as u8);
    text::put_word(labels, at, w);
}

// A depth line, into the next place, if there is one.
fn add(k: Kind, n: usize, l: &[u8], rows: &mut [i64], labels: &mut [u8]) -> SheetHeld
    requires count { n ≤ most }
    requires rows { length rows.old ≡ most }
    requires labels { length labels.old ≡ cells }
    ensures sheet { sheet_of result rows.new labels.new ≡
        grown k (held_all (take n rows.old)) (labels_to labels.old n) l.now }
    ensures line_after { line_in result ≤ last_line }
{
    let t = text::place_of(l, b'\t');
    if t < 1 {
        return SheetHeld::Faulty(n + 2, Reason::NoLabel);
    }
    if 16 < t {
        return SheetHeld::Faulty(n + 2, Reason::NoLabel);
    }
    let Some((minus, m)) = sheet::depth_line(l) else {
        return SheetHeld::Faulty(n + 2, Reason::NoDepth);
    };
    if most_in(k) < m {
        return SheetHeld::Faulty(n + 2, Reason::NoDepth);
    }
    if n < basis::MOST_KNOTS {
        keep(labels, n, &l[0..t]);
        rows[n] = whole_of(minus, m);
        let next = n + 1;
        return SheetHeld::On(k, next);
    }
    SheetHeld::Faulty(n + 2, Reason::Many)
}

// The sheet after a line.
pub fn line(h: SheetHeld, line: Option<&[u8]>, rows: &mut [i64], labels: &mut [u8]) -> SheetHeld
    requires held { line_in h ≤ last_line }
    requires rows { length rows.old ≡ most }
    requires labels { length labels.old ≡ cells }
    ensures sheet { sheet_of result rows.new labels.new ≡
        after_of (sheet_of h rows.old labels.old) (said_of line.entry) }
    ensures line_after { line_in result ≤ last_line }
{
    match h {
        SheetHeld::Unbegun => match line {
            Some(l) => first(l),
            None => SheetHeld::Faulty(1, Reason::Long),
        },
        SheetHeld::On(k, n) => match line {
            Some(l) => add(k, n, l, rows, labels),
            None => SheetHeld::Faulty(n + 2, Reason::Long),
        },
        SheetHeld::Faulty(n, r) => SheetHeld::Faulty(n, r),
    }
}

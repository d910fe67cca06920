// What writes: a place in a lent slice, and the methods that write there.
#![tactic(auto, using(crate::proofs::Pens::pens))]

ghost use Rattle.std.specs.Prelude.{◌≡◌, [], ◌∷◌, ◌+◌, ◌≤◌, ◌<◌, ◌^◌, length};
ghost use Rattle.text.specs.Text.{hex_text, dec_text, double_text, glyph_of};
ghost use Rattle.text.specs.Pens.{HasRoom, Writes};

// A place in a lent slice. What is written there moves it on.
#[derive(Drop)]
pub struct Pen<'a> {
    out: &'a mut [u8],
    at: usize,
}

impl<'a> Pen<'a> {
    // A pen at a place of a slice.
    pub fn new(out: &'a mut [u8], at: usize) -> Pen<'a>
        ensures { result ≡ record { out = out.entry; at = at } }
    {
        Pen { out, at }
    }

    // The place behind what was written.
    pub fn at(&self) -> usize
        ensures { result ≡ self.now.at }
    {
        self.at
    }

    // Writes a byte.
    #[tactic(auto, using(crate::proofs::Pens::pens, crate::proofs::Pens::patch_byte, crate::proofs::Pens::patch_long))]
    pub fn byte(&mut self, b: u8)
        requires { HasRoom self.old 1 }
        ensures { Writes self.old (b ∷ []) 1 self.new }
    {
        self.out[self.at] = b;
        self.at += 1;
    }

    // Writes a word. Of an empty one nothing is copied: the copying costs as much for no byte as for some.
    #[tactic(auto, using(crate::proofs::Pens::pens, crate::proofs::Pens::patch_word))]
    pub fn word(&mut self, w: &[u8])
        requires { HasRoom self.old (length w.now) }
        ensures { Writes self.old w.now (length w.now) self.new }
    {
        if !w.is_empty() {
            let end = self.at + w.len();
            self.out[self.at..end].copy_from_slice(w);
            self.at = end;
        }
    }

    // Writes the k lowest hexadecimal digits of n.
    #[tactic(auto, using(crate::proofs::Pens::pens, crate::proofs::Numbers::hex_zero, crate::proofs::Numbers::hex_step))]
    pub fn hex(&mut self, n: u64, k: usize)
        requires { HasRoom self.old k }
        ensures text { Writes self.old (hex_text k n) k self.new }
        ensures long { self.new.at ≡ self.old.at + k }
    {
        if k > 0 {
            self.hex(n / 16, k - 1);
            self.byte(glyph(n % 16));
        }
    }

    // Writes n in decimal digits, of which it has at most k + 1.
    #[tactic(auto, using(crate::proofs::Pens::pens, crate::proofs::Numbers::dec_steps))]
    pub fn decimal(&mut self, n: u64, k: usize)
        requires digits { n < 10 ^ (k + 1) }
        requires room { HasRoom self.old (k + 1) }
        ensures { Writes self.old (dec_text k n) (k + 1) self.new }
    {
        if n < 10 {
            self.byte(48 + n as u8);
        } else {
            self.decimal(n / 10, k - 1);
            self.byte(48 + (n % 10) as u8);
        }
    }

    // Writes a double as the sixteen digits of its bits.
    pub fn double(&mut self, x: f64)
        requires { HasRoom self.old 16 }
        ensures text { Writes self.old (double_text x) 16 self.new }
        ensures long { self.new.at ≡ self.old.at + 16 }
    {
        self.hex(crate::to_bits(x), 16);
    }
}

// The digit of a number below 16.
fn glyph(d: u64) -> u8
    requires { d < 16 }
    ensures { result ≡ glyph_of d }
{
    if d < 10 { 48 + d as u8 } else { 55 + d as u8 }
}

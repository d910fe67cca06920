// The seams of a conversion: what a later segment would drop, beside what stands at its place of the output.
ghost use Rattle.std.specs.Prelude.{◌≡◌, ◌++◌, ◌-◌, ◌*◌, ◌/◌, ◌+◌, ◌≤◌, ◌<◌, length, drop, get_or, MatchOption, IfSome};
ghost use Rattle.std.specs.Float.{nan};
ghost use Rattle.basis.specs.Basis.{most_knots};
ghost use Rattle.convert.specs.Contract.{list_of};
ghost use Rattle.convert_strict.specs.Seams.{is_apart, any, lost_seam};

use spline::RowSums;

// Whether the two sides of a seam lie further apart than the allowance.
fn is_apart(allowance: f64, a: f64, b: f64) -> bool
    ensures { result ≡ is_apart allowance a b }
{
    allowance < doubles::magnitude(a - b)
}

// Whether a double that the window w drops lies apart from the one that the output has in its place; h holds the output's last four.
fn loses(allowance: f64, stride: usize, w: RowSums, h: RowSums) -> bool
    requires some { 0 < stride }
    requires few { stride ≤ 4 }
    ensures { result ≡ any (4 - stride) (λ j. is_apart allowance (get_or (list_of w) j nan) (get_or (list_of h) (stride + j) nan)) }
{
    if stride == 1 {
        if is_apart(allowance, w.w0, h.w1) {
            return true;
        }
        if is_apart(allowance, w.w1, h.w2) {
            return true;
        }
        return is_apart(allowance, w.w2, h.w3);
    }
    if stride == 2 {
        if is_apart(allowance, w.w0, h.w2) {
            return true;
        }
        return is_apart(allowance, w.w1, h.w3);
    }
    if stride == 3 {
        return is_apart(allowance, w.w0, h.w3);
    }
    false
}

// The output's last four doubles once the last `stride` ones of the window w are written behind h.
fn shifted(stride: usize, h: RowSums, w: RowSums) -> RowSums
    requires some { 0 < stride }
    requires few { stride ≤ 4 }
    ensures { list_of result ≡ drop stride (list_of h) ++ drop (4 - stride) (list_of w) }
{
    if stride == 1 {
        return RowSums {
            w0: h.w1,
            w1: h.w2,
            w2: h.w3,
            w3: w.w3,
        };
    }
    if stride == 2 {
        return RowSums {
            w0: h.w2,
            w1: h.w3,
            w2: w.w2,
            w3: w.w3,
        };
    }
    if stride == 3 {
        return RowSums {
            w0: h.w3,
            w1: w.w1,
            w2: w.w2,
            w3: w.w3,
        };
    }
    w
}

// The lowest segment at whose seam a double is lost, if one is. Nothing is written: `held` has the four doubles of the output that the next
// seam overlaps.
#[tactic(auto, using(convert::proofs::Writing::window_places, spline::proofs::Parts::few))]
pub fn lost_seam(
    m: [[f64; 4]; 4],
    step: usize,
    knots: &[f64],
    stride: usize,
    allowance: f64,
) -> Option<usize>
    requires step { 0 < step }
    requires some { 0 < stride }
    requires few { stride ≤ 4 }
    requires enough { 4 ≤ length knots.now }
    requires most { length knots.now ≤ most_knots }
    ensures lowest { MatchOption result (lost_seam m step stride allowance knots.now ((length knots.now - 4) / step) ≡ 0)
        (λ s. s ≡ lost_seam m step stride allowance knots.now ((length knots.now - 4) / step)) }
    ensures later { IfSome result (λ s. 0 < s) }
    ensures small { IfSome result (λ s. s ≤ 4092) }
{
    let last = (knots.len() - 4) / step;
    let mut held = spline::segment::sums(m, knots);
    for s in 0..last {
        let segment = s + 1;
        let start = segment * step;
        let w = spline::segment::sums(m, &knots[start..]);
        if loses(allowance, stride, w, held) {
            return Some(segment);
        }
        let next = shifted(stride, held, w);
        held = next;
    }
    None
}

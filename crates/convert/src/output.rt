// The writing, once nothing is refused. A window is the four doubles that the matrix makes of a segment. Segment 0 writes its whole window;
// a later one writes the last `stride` doubles of its own, which is the output's STEP.
ghost use Rattle.std.specs.Prelude.{◌≡◌, [], ◌+◌, ◌-◌, ◌*◌, ◌/◌, ◌≤◌, ◌<◌, length, get_or, drop};
ghost use Rattle.basis.specs.Basis.{most_knots};
ghost use Rattle.spline.specs.Segment.{row_sum, row_sums_of};
ghost use Rattle.convert.specs.Output.{windows};
ghost use Rattle.convert.specs.Conversion.{gives};
ghost use Rattle.convert.specs.Buffer.{buffer_of};
ghost use Rattle.convert.specs.Contract.{placed, list_of};

use spline::RowSums;

// Writes the last `stride` doubles of a window, two or more, from place `at` on.
pub fn put_last(out: &mut [f64], at: usize, w: RowSums, stride: usize)
    requires some { 1 < stride }
    requires few { stride ≤ 4 }
    requires room { at + stride ≤ length out.old }
    ensures { out.new ≡ placed at (drop (4 - stride) (list_of w)) out.old }
{
    if stride == 2 {
        out[at] = w.w2;
        out[at + 1] = w.w3;
        return;
    }
    if stride == 3 {
        out[at] = w.w1;
        out[at + 1] = w.w2;
        out[at + 2] = w.w3;
        return;
    }
    out[at] = w.w0;
    out[at + 1] = w.w1;
    out[at + 2] = w.w2;
    out[at + 3] = w.w3;
}

// The last of a window's four doubles: the last row of the matrix alone is summed.
fn last_sum(m: [[f64; 4]; 4], cv: &[f64]) -> f64
    requires { 4 ≤ length cv.now }
    ensures { result ≡ row_sum cv.now (get_or m 3 []) }
{
    cv[0] * m[3][0] + cv[1] * m[3][1] + cv[2] * m[3][2] + cv[3] * m[3][3]
}

// The last `stride` of a window's four. Where one is written the other three are not worked out: to Bspline and CatmullRom this halves the
// time.
fn put_window(out: &mut [f64], at: usize, m: [[f64; 4]; 4], cv: &[f64], stride: usize)
    requires some { 0 < stride }
    requires few { stride ≤ 4 }
    requires enough { 4 ≤ length cv.now }
    requires room { at + stride ≤ length out.old }
    ensures { out.new
        ≡ placed at (drop (4 - stride) (list_of (row_sums_of m cv.now))) out.old }
{
    if stride == 1 {
        out[at] = last_sum(m, cv);
        return;
    }
    put_last(out, at, spline::segment::sums(m, cv), stride);
}

// Segment 0 fills four places, and each later one `stride` more. The matrix is a value: so no write to the buffer can change it, and it is
// read once.
#[tactic(auto, using(crate::proofs::Writing::window_places, crate::proofs::Verdicts::few_steps))]
pub fn put_windows(
    m: [[f64; 4]; 4],
    step: usize,
    knots: &[f64],
    stride: usize,
    out: &mut [f64],
) -> usize
    requires step { 0 < step }
    requires some { 0 < stride }
    requires few { stride ≤ 4 }
    requires enough { 4 ≤ length knots.now }
    requires most { length knots.now ≤ most_knots }
    requires room { 4 + (length knots.now - 4) / step * stride ≤ length out.old }
    ensures answer { result ≡ 4 + (length knots.now - 4) / step * stride }
    ensures out { out.new ≡ buffer_of
        (gives (windows m step stride knots.now ((length knots.now - 4) / step)))
        out.old }
{
    let last = (knots.len() - 4) / step;
    put_last(&mut *out, 0, spline::segment::sums(m, knots), 4);
    for s in 0..last {
        let start = (s + 1) * step;
        put_window(&mut *out, 4 + s * stride, m, &knots[start..], stride);
    }
    4 + last * stride
}

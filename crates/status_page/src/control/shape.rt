//! The shape of a run's gain matrix.
ghost use Rattle.std.specs.Prelude.{◌≡◌, ◌≤◌, ◌*◌, IfSome};

use studio_io::MAX_GAINS;

/// The numbers of output channels and of inputs of a run's gain matrix: at least one of each, and at most 8,192 gains.
#[derive(Clone, Copy, PartialEq, Eq)]
pub struct GainShape {
    outs: usize,
    ins: usize,
    pub ghost outs_some: { 1 ≤ outs },
    pub ghost ins_some: { 1 ≤ ins },
    pub ghost few: { outs * ins ≤ 8192 },
}

impl GainShape {
    /// Returns the shape of a matrix with a row for each of `outs` output channels and a gain for each of `ins` inputs
    /// in it. Returns `None` if there is no output channel or no input, or if there are more than 8,192 gains.
    pub fn new(outs: usize, ins: usize) -> Option<GainShape>
        ensures outs { IfSome result (λ shape. shape.outs ≡ outs) }
        ensures ins { IfSome result (λ shape. shape.ins ≡ ins) }
    {
        if outs == 0 || ins == 0 || outs > MAX_GAINS / ins {
            return None;
        }
        Some(GainShape { outs, ins })
    }

    /// Returns the number of output channels.
    pub fn outs(&self) -> usize
        ensures { result ≡ self.now.outs }
    {
        self.outs
    }

    /// Returns the number of inputs.
    pub fn ins(&self) -> usize
        ensures { result ≡ self.now.ins }
    {
        self.ins
    }
}

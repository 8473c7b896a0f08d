//! Four outputs at once: their rows of gains and their sums.

/// The gains of four outputs, one for each input.
#[derive(Clone, Copy)]
pub(crate) struct FourRows<'a> {
    pub(crate) first: &'a [i64],
    pub(crate) second: &'a [i64],
    pub(crate) third: &'a [i64],
    pub(crate) fourth: &'a [i64],
}

/// The sums of four outputs.
#[derive(Clone, Copy)]
pub(crate) struct FourSums {
    pub(crate) first: i64,
    pub(crate) second: i64,
    pub(crate) third: i64,
    pub(crate) fourth: i64,
}

impl FourSums {
    /// The sums over no input.
    pub(crate) const NONE: FourSums = FourSums {
        first: 0,
        second: 0,
        third: 0,
        fourth: 0,
    };
}

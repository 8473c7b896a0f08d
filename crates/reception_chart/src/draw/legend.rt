//! The legend of a chart: the meaning of its rows.
use crate::draw::{fmt_result, push_text};
use std::alloc::AllocError;
use std::io::Write;

/// The class, the meaning and the place of each row.
const ENTRIES: [(&str, &str, u32); 9] = [
    ("from_a", "a", 24),
    ("from_b", "b", 56),
    ("from_c", "c", 88),
    ("from_d", "d", 120),
    ("double", "double: a further copy", 345),
    ("late", "late: after its deadline", 508),
    ("lost", "lost: no copy in time", 676),
    ("refused", "refused: unlike, off grid, ahead, source", 832),
    ("restart", "restart", 1096),
];

/// Appends the legend, below the title.
pub(crate) fn push_legend(svg: &mut Vec<u8>) -> Result<(), AllocError> {
    for (class, meaning, x) in ENTRIES.iter() {
        let (class, x) = (*class, *x);
        fmt_result(write!(
            svg,
            "<rect class=\"{class}\" x=\"{x}\" y=\"45\" width=\"12\" height=\"12\"/>\n"
        ))?;
        push_text(svg, "", x.saturating_add(17), 55, meaning)?;
    }
    push_text(svg, "", 152, 55, "packets taken from this path")?;
    push_text(
        svg,
        "soft",
        24,
        75,
        "Over media time, from the first packet on: a bar's height is the part of the packets of its span; what tells of a \
        fault is half as high at least. Behind each row its sum.",
    )
}

//! The text of a chart, as SVG. The submodules draw its legend and its panels: the strip of each stream, the ticks
//! below it, the arrival margins, and the counts.
use std::alloc::AllocError;
use std::io;
use std::io::Write;

pub(crate) mod bars;
mod count_lines;
pub(crate) mod legend;
mod margin_rows;
pub(crate) mod panel;
mod strip;
mod ticks;

/// The width of a chart, in the units of SVG, which browsers show as pixels.
pub(crate) const WIDTH: u32 = 1200;

/// The height above the panels, which the title and the legend take.
pub(crate) const HEAD_HEIGHT: u32 = 96;

/// The height below the panels.
pub(crate) const FOOT_HEIGHT: u32 = 12;

/// The style: colours for light viewers, and then those for dark ones.
const STYLE: &str = "<style>\n\
    text{fill:#1a1a1a;font:12px sans-serif}.title{font-size:18px;font-weight:bold}.name{font-size:14px;font-weight:bold}\n\
    .soft{fill:#5c5c5c;font-size:11px}.counts{fill:#5c5c5c;font:10px monospace}.end{text-anchor:end}.middle{text-anchor:middle}\n\
    .paper{fill:#fff}.ground{fill:#ececec}.tick{stroke:#5c5c5c}.bars{shape-rendering:crispEdges}\n\
    .from_a{fill:#0072b2}.from_b{fill:#c77700}.from_c{fill:#00805c}.from_d{fill:#a8508a}.double{fill:#7a8a99}\n\
    .late{fill:#8a6d00}.lost{fill:#c0000c}.refused{fill:#6b4fa0}.restart{fill:#1a1a1a}\n\
    @media (prefers-color-scheme:dark){\n\
    text{fill:#e8e8e8}.soft,.counts{fill:#a8a8a8}.paper{fill:#14171a}.ground{fill:#2a2f34}.tick{stroke:#a8a8a8}\n\
    .from_a{fill:#56b4e9}.from_b{fill:#f0a830}.from_c{fill:#2fc08f}.from_d{fill:#e08cc0}.double{fill:#8fa3b5}\n\
    .late{fill:#f0e442}.lost{fill:#ff5c5c}.refused{fill:#b79cf0}.restart{fill:#e8e8e8}}\n\
    </style>\n";

/// Converts the error of a write to a `Vec`, which is an allocation failure.
pub(crate) fn fmt_result(written: io::Result<()>) -> Result<(), AllocError> {
    written.map_err(|_| AllocError)
}

/// Appends the beginning of a chart of this height, up to its title.
pub(crate) fn push_head(svg: &mut Vec<u8>, height: u32, streams: usize) -> Result<(), AllocError> {
    fmt_result(write!(
        svg,
        "<svg xmlns=\"http://www.w3.org/2000/svg\" viewBox=\"0 0 {WIDTH} {height}\" width=\"{WIDTH}\" height=\"{height}\" \
        role=\"img\">\n<title>Reception of {streams} streams by their paths, over media time</title>\n"
    ))?;
    svg.extend_from_slice(STYLE.as_bytes())?;
    fmt_result(write!(
        svg,
        "<rect class=\"paper\" width=\"{WIDTH}\" height=\"{height}\"/>\n\
        <text class=\"title\" x=\"24\" y=\"30\">What each path gave</text>\n"
    ))
}

/// Appends the end of a chart.
pub(crate) fn push_foot(svg: &mut Vec<u8>) -> Result<(), AllocError> {
    svg.extend_from_slice(b"</svg>\n")
}

/// Appends a text of a class at a place.
pub(crate) fn push_text(
    svg: &mut Vec<u8>,
    class: &str,
    x: u32,
    y: u32,
    text: &str,
) -> Result<(), AllocError> {
    fmt_result(write!(
        svg,
        "<text class=\"{class}\" x=\"{x}\" y=\"{y}\">{text}</text>\n"
    ))
}

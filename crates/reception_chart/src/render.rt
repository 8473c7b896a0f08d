//! The chart of a trace.
ghost use Rattle.std.specs.Prelude.{IfErr, OnOk};
ghost use Rattle.reception_chart.specs.Chart.{Draws, FailsDrawing};

use crate::draw::legend::push_legend;
use crate::draw::panel::{panel_height, push_panel};
use crate::draw::{FOOT_HEIGHT, HEAD_HEIGHT, push_foot, push_head};
use crate::reception::panel_data::PanelData;
use crate::reception::studio_tracker::StudioTracker;
use std::alloc::{AllocError, Global};
use std::io::{Read, Write};
use studio_config::StudioSpec;
use studio_run::{PlayFault, TracedEvents, read_all, runnable_events, write_text};

/// Reads a trace to its end, and writes its chart as an SVG. All memory is taken before the first write. Returns an
/// error if a read, a write or an allocation fails, or the trace or an event has a fault.
pub fn chart<R: Read, W: Write>(
    alloc: Global,
    spec: &StudioSpec,
    reader: &mut R,
    writer: &mut W,
) -> Result<(), PlayFault>
    ensures ok { OnOk result
        (Draws spec.now (R.remaining reader.old) (R.remaining reader.new) (W.contents writer.old)
        (W.contents writer.new)) }
    ensures fault { IfErr result
        (FailsDrawing spec.now (R.remaining reader.old) (R.remaining reader.new) (W.contents writer.old)
        (W.contents writer.new)) }
{
    let trace = read_all(alloc, reader)?;
    let events = runnable_events(alloc, spec, trace.as_slice())?;
    let svg = chart_svg(alloc, spec, &events)?;
    write_text(writer, svg.as_slice())?;
    Ok(())
}

/// Returns the chart of events without a fault, as an SVG.
fn chart_svg(
    alloc: Global,
    spec: &StudioSpec,
    events: &TracedEvents<'_>,
) -> Result<Vec<u8>, AllocError> {
    // The events are taken twice, since the axis has to be known before events are counted on it.
    let mut extents = StudioTracker::measure(alloc, spec)?;
    extents.take_all(events);
    let mut panels = extents.for_drawing(alloc, spec)?;
    panels.take_all(events);
    panels.svg(alloc)
}

impl StudioTracker<PanelData> {
    /// Returns the chart of the events so far, as an SVG. Returns `AllocError` if an allocation fails.
    pub fn svg(&self, alloc: Global) -> Result<Vec<u8>, AllocError> {
        let mut svg = Vec::new(alloc);
        push_head(&mut svg, self.height(), self.streams.len())?;
        push_legend(&mut svg)?;
        let mut top = HEAD_HEIGHT;
        for one in self.streams.iter() {
            push_panel(&mut svg, alloc, top, &one.tracker.cursor, &one.observer)?;
            top = top.saturating_add(panel_height(one.tracker.spec().paths()));
        }
        push_foot(&mut svg)?;
        Ok(svg)
    }

    /// Returns the height of the chart.
    fn height(&self) -> u32 {
        let mut height: u32 = HEAD_HEIGHT + FOOT_HEIGHT;
        for one in self.streams.iter() {
            height = height.saturating_add(panel_height(one.tracker.spec().paths()));
        }
        height
    }
}

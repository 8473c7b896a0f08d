//! Opening the control of a run's gains: the source of the run, and the control of its page.
ghost use Rattle.std.specs.Prelude.{◌≡◌, is_some, IfOk};

use crate::gain_channel::GainChannel;
use crate::gain_notes::GainNotes;
use crate::link::GainLink;
use crate::noting_requester::NotingRequester;
use crate::run_gains::RunGains;
use status_page::{Control, GainShape, Token};
use std::alloc::{AllocError, Global};
use std::sync::Wait;
use std::time::Clock;
use studio_config::StudioSpec;

/// The control of a run's gains. Both are `None` if the gains change only as the studio says.
#[derive(Drop)]
pub struct GainControl<'a, R: Wait + Clock> {
    /// The source of the run's changes of gains.
    pub gains: Option<RunGains<'a, R>>,
    /// The control that the page has.
    pub control: Option<Control<NotingRequester<'a, R>>>,
}

/// Opens the control of a run's gains, if there is a token for it. The changes that the run takes are noted in `notes`,
/// if there are any. Allocates all its memory, and returns `AllocError` if that fails.
pub fn open_control<'a, R: Wait + Clock>(
    rt: &'a R,
    alloc: Global,
    studio: &StudioSpec,
    link: &'a GainLink,
    notes: Option<&'a GainNotes>,
    token: Option<Token>,
) -> Result<GainControl<'a, R>, AllocError>
    ensures { IfOk result (λ opened. is_some opened.gains ≡ is_some token) }
{
    let Some(token) = token else {
        return Ok(GainControl {
            gains: None,
            control: None,
        });
    };
    // A studio has 1 to 8 output channels and 1 to 1,024 inputs. For others the channel would have no space.
    let Some(shape) = shape_of(studio) else {
        return Err(AllocError);
    };
    let GainChannel { requester, gains } = GainChannel::new(rt, alloc, link, shape, studio)?;
    let requester = NotingRequester::new(rt, requester, notes);
    Ok(GainControl {
        gains: Some(gains),
        control: Some(Control::new(alloc, requester, token)?),
    })
}

/// Returns the shape of a studio's gain matrix: its output channels, and the channels of all its streams.
fn shape_of(studio: &StudioSpec) -> Option<GainShape> {
    let mut inputs = 0usize;
    for stream in studio.streams() {
        inputs = inputs.saturating_add(usize::from(stream.channels()));
    }
    GainShape::new(usize::from(studio.output().channels()), inputs)
}

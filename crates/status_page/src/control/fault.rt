//! The reasons why a request for the gains is refused.
ghost use Rattle.std.specs.Prelude.{◌≡◌};
ghost use Rattle.status_page.specs.ControlFaults.{fault_of, fault_status, fault_text};

use gain_mix::ChangeFault;
use http::StatusCode;

/// The reason why a request about the gains of a run is refused. Nothing has changed, unless a variant says more.
#[derive(Clone, Copy, PartialEq, Eq)]
pub(crate) enum ControlFault {
    /// The request comes from a page of another origin.
    Origin,
    /// 200 changes were requested in this second already, or 20 reads without the token.
    Rate,
    /// The query is not `at=T` with an integer T.
    Query,
    /// The body is not a JSON object with a change.
    Body,
    /// The gains are not as many as those of the matrix, or the place is not in the matrix.
    Shape,
    /// A gain is not an integer from -1,048,576 to 1,048,576.
    Range,
    /// The time is before the first one that may still change, or too late.
    Time,
    /// Too many changes before the time are still to come.
    TooMany,
    /// The run did not answer in time, or it has ended.
    NoAnswer,
}

impl ControlFault {
    /// Returns why a run refuses a change.
    pub(crate) fn of(fault: ChangeFault) -> ControlFault
        ensures { result ≡ fault_of fault }
    {
        match fault {
            ChangeFault::Shape => ControlFault::Shape,
            ChangeFault::Range => ControlFault::Range,
            ChangeFault::Time => ControlFault::Time,
            ChangeFault::TooMany => ControlFault::TooMany,
        }
    }

    /// Returns the status of the response.
    pub(crate) fn status(self) -> StatusCode
        ensures { result ≡ fault_status self }
    {
        match self {
            ControlFault::Origin => StatusCode::FORBIDDEN,
            ControlFault::Rate => StatusCode::TOO_MANY_REQUESTS,
            ControlFault::Query | ControlFault::Body | ControlFault::Shape | ControlFault::Range =>
                StatusCode::BAD_REQUEST,
            ControlFault::Time | ControlFault::TooMany => StatusCode::CONFLICT,
            ControlFault::NoAnswer => StatusCode::SERVICE_UNAVAILABLE,
        }
    }

    /// Returns the body of the response.
    pub(crate) fn text(self) -> &'static str
        ensures { result.now ≡ fault_text self }
    {
        match self {
            ControlFault::Origin => "{\"fault\":\"origin\"}",
            ControlFault::Rate => "{\"fault\":\"rate\"}",
            ControlFault::Query => "{\"fault\":\"query\"}",
            ControlFault::Body => "{\"fault\":\"body\"}",
            ControlFault::Shape => "{\"fault\":\"shape\"}",
            ControlFault::Range => "{\"fault\":\"range\"}",
            ControlFault::Time => "{\"fault\":\"time\"}",
            ControlFault::TooMany => "{\"fault\":\"too many\"}",
            ControlFault::NoAnswer => "{\"fault\":\"no answer\"}",
        }
    }
}

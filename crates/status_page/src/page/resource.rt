//! The resources of the page.
ghost use Rattle.std.specs.Prelude.{◌≡◌};
ghost use Rattle.status_page.specs.Responses.{resource_of, media_type};

use http::HeaderValue;

/// A resource that a client can request.
#[derive(Clone, Copy, PartialEq, Eq)]
pub(crate) enum Resource {
    /// The page itself.
    Page,
    /// The snapshot as JSON.
    State,
    /// The snapshot for Prometheus.
    Metrics,
}

impl Resource {
    /// Returns the resource at a path, or `None` if there is none.
    pub(crate) fn of(path: &str) -> Option<Resource>
        ensures { result ≡ resource_of path.now }
    {
        if path == "/" {
            return Some(Resource::Page);
        }
        if path == "/state" {
            return Some(Resource::State);
        }
        if path == "/metrics" {
            return Some(Resource::Metrics);
        }
        None
    }

    /// Returns the resource's media type.
    pub(crate) fn media_type(self) -> HeaderValue
        ensures { result.bytes ≡ media_type self }
    {
        match self {
            Resource::Page => HeaderValue::from_static("text/html; charset=utf-8"),
            Resource::State => HeaderValue::from_static("application/json"),
            Resource::Metrics => HeaderValue::from_static(
                "text/plain; version=0.0.4; charset=utf-8",
            ),
        }
    }
}

//! Paths at one address and port: which can have a socket each, and which cannot.
ghost use Rattle.std.specs.Prelude.{◌≡◌, ◌↔◌, false, IsTrue};
ghost use Rattle.live_io.specs.Sharing.{AllFit, Collide, HaveCollision, Meet, Share};

use std::net::Ipv4Addr;

/// The place at which a path is received, and its source.
#[derive(Clone, Copy, Debug, PartialEq, Eq)]
pub struct PathPlace {
    /// The address to bind.
    pub at: Ipv4Addr,
    /// The port to bind.
    pub port: u16,
    /// The address of the path's source. If `None`, datagrams of any source are taken.
    pub from: Option<Ipv4Addr>,
}

impl PathPlace {
    /// Returns true if another path is received at the same address and port.
    pub fn meets(&self, other: &PathPlace) -> bool
        ensures { IsTrue result ↔ Meet self.now other.now }
    {
        self.at == other.at && self.port == other.port
    }

    /// Returns true if both paths are at the same group and port, and their sources are configured and differ. Then
    /// each can have a socket of its own: the group's datagrams come to both, and the source decides which path takes
    /// one.
    pub fn shares_with(&self, other: &PathPlace) -> bool
        ensures { IsTrue result ↔ Share self.now other.now }
    {
        if !self.meets(other) || !self.at.is_multicast() {
            return false;
        }
        match (self.from, other.from) {
            (Some(own), Some(other)) => own != other,
            _ => false,
        }
    }

    /// Returns true if both paths are at the same address and port, and cannot share it.
    pub fn collides_with(&self, other: &PathPlace) -> bool
        ensures { IsTrue result ↔ Collide self.now other.now }
    {
        self.meets(other) && !self.shares_with(other)
    }
}

/// Returns true if two of the paths collide.
pub fn have_collision(places: &[PathPlace]) -> bool
    ensures found { IsTrue result → HaveCollision places.now }
    ensures none { result ≡ false → AllFit places.now }
{
    for later in 0..places.len() {
        for earlier in 0..later {
            if places[earlier].collides_with(&places[later]) {
                return true;
            }
        }
    }
    false
}

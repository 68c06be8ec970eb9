ghost use Rattle.std.specs.Prelude.{◌≡◌, ◌≤◌, ◌+◌, ◌<◌, ℕ, Option, IfOk, IfSome, All, vec_len};
ghost use Rattle.mm_outside.specs.Told.{Told};
ghost use Rattle.mm_outside.specs.Causes.{HasCause};
ghost use Rattle.mm_outside.specs.Octets.{IsFresh};
ghost use Rattle.mm_outside.specs.HouseCounts.{HouseCounts};

use crate::{Failed, Hall, Link};

/// Why halls were not given.
#[derive(Clone, Copy, Debug, PartialEq, Eq)]
pub enum HouseError {
    /// The house's count of faults rose.
    Failed,
    /// Want of memory.
    Memory,
}

/// Where a server gets its halls, and a client its link.
pub trait House {
    ghost use Rattle.mm_outside.specs.House.{Stock, BindRequest, Binds, TakesBack, Connects, HangsUp, as_result, count_bound, count_connected};

    /// Where one worker gets its connections.
    type Hall: Hall;

    /// What `connect` gives.
    type Link: Link;

    /// The halls and links that it can still give and those that were given back, and what `bind` and
    /// `connect` were asked for, in order, where the house tells them.
    ghost stock: { Self → Option (Stock Self.Hall Self.Link) };

    /// How many halls and links it gave and got back.
    ghost counts: { Self → HouseCounts };

    /// How often `bind` or `connect` has failed.
    ghost faults: { Self → ℕ };

    /// A hall at the address for each of so many workers, to which no link was given back yet.
    /// `links` is how many connections a hall over a socket accepts.
    fn bind(
        &mut self,
        address: &[u8],
        workers: u32,
        links: u32,
    ) -> Result<Vec<Self::Hall>, HouseError>
        ensures workers { IfOk result (λ halls. vec_len halls ≡ workers) }
        ensures unused { IfOk result (λ halls. All (λ hall. (Self.Hall.counts hall).back ≡
            0) halls.items) }
        ensures stock { Told (Binds (record { address = address.now; workers = workers; links = links }) result) (stock self.old) (stock self.new) }
        ensures counts { counts self.new ≡ count_bound result (counts self.old) }
        ensures cause { HasCause (faults self.old) (faults self.new) (as_result result) };

    /// Takes back halls that it gave.
    fn take_back(&mut self, halls: Vec<Self::Hall>)
        requires { (counts self.old).taken_back + vec_len halls ≤ (counts self.old).bound }
        ensures stock { Told (TakesBack halls.items) (stock self.old) (stock self.new) }
        ensures counts { counts self.new ≡ record (counts self.old) {
          taken_back = (counts self.old).taken_back + vec_len halls;
        } }
        ensures faults { faults self.new ≡ faults self.old };

    /// A link to the address, with nothing read from it or written to it.
    fn connect(&mut self, address: &[u8]) -> Result<Self::Link, Failed>
        ensures fresh { IfOk result (λ link. IfSome (Self.Link.octets link) IsFresh) }
        ensures stock { Told (Connects address.now result) (stock self.old) (stock self.new) }
        ensures counts { counts self.new ≡ count_connected result (counts self.old) }
        ensures cause { HasCause (faults self.old) (faults self.new) result };

    /// Takes back a link that it gave.
    fn hang_up(&mut self, link: Self::Link)
        requires { (counts self.old).hung_up < (counts self.old).connected }
        ensures stock { Told (HangsUp link) (stock self.old) (stock self.new) }
        ensures counts { counts self.new ≡ record (counts self.old) {
          hung_up =
              (counts self.old).hung_up + 1;
        } }
        ensures faults { faults self.new ≡ faults self.old };

    /// No house takes back more halls than it gave.
    ghost halls_bounded: { (house : Self) → (counts house).taken_back ≤ (counts house).bound };

    /// Nor more links.
    ghost links_bounded: { (house : Self) → (counts house).hung_up ≤ (counts house).connected };
}

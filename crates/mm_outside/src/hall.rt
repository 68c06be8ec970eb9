ghost use Rattle.std.specs.Prelude.{◌≡◌, ◌<◌, ◌+◌, ℕ, Option, IfSome};
ghost use Rattle.mm_outside.specs.Told.{Told};
ghost use Rattle.mm_outside.specs.Causes.{HasCause};
ghost use Rattle.mm_outside.specs.Octets.{IsFresh};
ghost use Rattle.mm_outside.specs.HallCounts.{HallCounts};

use crate::Link;
use crate::mem_link::MemLink;

/// What a hall answers a worker that asks for a connection.
#[derive(Drop)]
pub enum Accepted<L> {
    /// The next link.
    Link(L),
    /// The hall can give no further link.
    NoMore,
    /// The hall's count of faults rose.
    Failed,
}

/// A link that was given back.
#[derive(Drop)]
pub struct Back<L = MemLink> {
    /// The link, as it was when it was given back.
    pub link: L,
    /// The number of its connection, where it had one.
    pub conn: Option<u32>,
    /// The status that it ended with.
    pub status: u8,
}

/// Where one worker gets its connections.
pub trait Hall {
    ghost use Rattle.mm_outside.specs.Hall.{Links, Accepts, GivesBack, IfLink, as_result, count_given};

    /// What its connections are.
    type Link: Link;

    /// The links that it can still give and those that were given back, where the hall tells them.
    ghost links: { Self → Option (Links Self.Link) };

    /// How many links it gave and got back.
    ghost counts: { Self → HallCounts };

    /// How often `accept` has failed.
    ghost faults: { Self → ℕ };

    /// The next link, with nothing read from it or written to it. `NoMore` comes exactly where the
    /// hall can give no further link.
    fn accept(&mut self) -> Accepted<Self::Link>
        ensures links { Told (Accepts result) (links self.old) (links self.new) }
        ensures fresh { IfLink result (λ link. IfSome (Self.Link.octets link) IsFresh) }
        ensures counts { counts self.new ≡ count_given result (counts self.old) }
        ensures cause { HasCause (faults self.old) (faults self.new) (as_result result) };

    /// Takes back a link that it gave, with its connection and the status that it ended with.
    fn give_back(&mut self, link: Self::Link, conn: Option<u32>, status: u8)
        requires { (counts self.old).back < (counts self.old).given }
        ensures links { Told (GivesBack link conn status) (links self.old) (links self.new) }
        ensures counts { counts self.new ≡ record (counts self.old) {
          back =
              (counts self.old).back + 1;
        } }
        ensures faults { faults self.new ≡ faults self.old };
}

ghost use Rattle.std.specs.Prelude.{◌≡◌, ◌+◌, ◌≤◌, ◌<◌, ◌↔◌, [], ◌∷◌, ◌++◌, All, IfOk, Some, reverse, vec_len, vec_capacity, MatchOption, IfSome};
ghost use Rattle.mm_outside.specs.Octets.{IsFresh};
ghost use Rattle.mm_outside.specs.MemLink.{octets_of};

use crate::script::Script;
use crate::{Accepted, Back, Hall, MemLink, Memory};
use std::alloc::Global;

/// A hall in memory, which tells everything.
///
/// It counts its calls of `accept` from 0, and a call fails where its number was listed.
#[derive(Drop)]
pub struct MemHall {
    // The next one stands last.
    waiting: Vec<MemLink>,
    back: Vec<Back>,
    given: usize,
    accepts: Script,
    faults: u64,
    ghost room: { given + vec_len waiting ≤ vec_capacity back },
    ghost fresh: { All (λ link. IsFresh (octets_of link)) waiting.items },
}

impl MemHall {
    ghost use Rattle.mm_outside.specs.Plan.{planned};
    ghost use Rattle.mm_outside.specs.MemHall.{links_of, counts_of, faults_of, plan_of};

    /// A hall that gives these links, in order.
    pub fn new(
        alloc: Global,
        links: Vec<MemLink>,
        failing_accepts: &[u64],
    ) -> Result<MemHall, Memory>
        requires { All (λ link. IsFresh (octets_of link)) links.items }
        ensures links { IfOk result (λ hall. links_of hall ≡
            record { to_give = links.items; back = [] }) }
        ensures counts { IfOk result (λ hall. counts_of hall ≡ record { given = 0; back = 0 }) }
        ensures plan { IfOk result (λ hall. plan_of hall ≡ planned [] failing_accepts.now) }
        ensures faults { IfOk result (λ hall. faults_of hall ≡ 0) }
    {
        let mut links = links;
        let back = Vec::with_capacity(alloc, links.len())?;
        let accepts = Script::new(alloc, &[], failing_accepts)?;
        turn_round(&mut links);
        Ok(MemHall {
            waiting: links,
            back,
            given: 0,
            accepts,
            faults: 0,
        })
    }

    /// The links that were given back, in order, each with its connection and how it ended.
    pub fn given_back(&self) -> &[Back]
        ensures { result.now ≡ (links_of self.now).back }
    {
        &self.back
    }
}

fn turn_round(links: &mut Vec<MemLink>)
    requires { All (λ link. IsFresh (octets_of link)) links.old.items }
    ensures links { reverse links.new.items ≡ links.old.items }
    ensures len { vec_len links.new ≡ vec_len links.old }
    ensures fresh { All (λ link. IsFresh (octets_of link)) links.new.items }
{
    links.reverse();
}

/// Takes the last link.
fn take_next(links: &mut Vec<MemLink>) -> Option<MemLink>
    requires { All (λ link. IsFresh (octets_of link)) links.old.items }
    ensures links { MatchOption result (links.old.items ≡ [])
        (λ link. reverse links.old.items ≡ link ∷ reverse links.new.items) }
    ensures len { MatchOption result (vec_len links.new ≡ vec_len links.old)
        (λ _. vec_len links.new + 1 ≡ vec_len links.old) }
    ensures fresh { All (λ link. IsFresh (octets_of link)) links.new.items }
    ensures next { MatchOption result (links.new.items ≡ links.old.items)
        (λ link. IsFresh (octets_of link)) }
{
    links.pop()
}

impl Hall for MemHall {
    ghost use Rattle.mm_outside.specs.Causes.{HasCause};
    ghost use Rattle.mm_outside.specs.Told.{Told};
    ghost use Rattle.mm_outside.specs.Plan.{IsDue, called};
    ghost use Rattle.mm_outside.specs.Hall.{Accepts, GivesBack, HasFailed, IfLink, as_result, count_given};
    ghost use Rattle.mm_outside.specs.MemHall.{links_of, counts_of, faults_of, plan_of};

    type Link = MemLink;

    ghost links = { λ hall. Some (links_of hall) };

    ghost counts = { counts_of };

    ghost faults = { faults_of };

    fn accept(&mut self) -> Accepted<MemLink>
        ensures links { Told (Accepts result) (Some (links_of self.old))
            (Some (links_of self.new)) }
        ensures fresh { IfLink result (λ link. IfSome (Some (octets_of link)) IsFresh) }
        ensures counts { counts_of self.new ≡ count_given result (counts_of self.old) }
        ensures cause { HasCause (faults_of self.old) (faults_of self.new) (as_result result) }
        ensures fails { HasFailed result ↔ IsDue (plan_of self.old) }
        ensures plan { plan_of self.new ≡ called (plan_of self.old) }
    {
        let due = self.accepts.is_due();
        self.accepts.count();
        if due {
            self.faults = self.faults.saturating_add(1);
            return Accepted::Failed;
        }
        match take_next(&mut self.waiting) {
            Some(link) => {
                self.given += 1;
                Accepted::Link(link)
            }
            None => Accepted::NoMore,
        }
    }

    fn give_back(&mut self, link: MemLink, conn: Option<u32>, status: u8)
        requires { (counts_of self.old).back < (counts_of self.old).given }
        ensures links { Told (GivesBack link conn status) (Some (links_of self.old))
            (Some (links_of self.new)) }
        ensures counts { counts_of self.new ≡ record
            (counts_of self.old) { back = (counts_of self.old).back + 1 } }
        ensures faults { faults_of self.new ≡ faults_of self.old }
        ensures plan { plan_of self.new ≡ plan_of self.old }
    {
        self.back.push_reserved(Back { link, conn, status });
    }
}

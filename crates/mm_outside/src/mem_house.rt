ghost use Rattle.std.specs.Prelude.{◌≡◌, ◌+◌, ◌≤◌, ◌<◌, ◌↔◌, [], ◌∷◌, ◌++◌, All, IfOk, OnOk, OnErr, IsErr, IsErrOf, IfSome, Some, vec_len, vec_capacity};
ghost use Rattle.mm_outside.specs.MemHall.{IsUnused};
ghost use Rattle.mm_outside.specs.MemLink.{octets_of};
ghost use Rattle.mm_outside.specs.Octets.{IsFresh};
ghost use Rattle.mm_outside.specs.Padded.{PadsHalls, PadsLinks};

use crate::asked::{NotedBind, NotedText};
use crate::notes::Notes;
use crate::script::Script;
use crate::{Failed, House, HouseError, MemHall, MemLink, Memory};
use std::alloc::Global;
use std::mem;

/// A house in memory, which tells everything.
///
/// It counts its calls of `bind` and of `connect`, each from 0, and a call fails where its number
/// was listed, or where too few halls or no link are left. It minds neither address nor `links`, and
/// tells them to proofs alone: no room that is taken beforehand holds what every call asks for.
/// A `bind` that runs out of memory isn't counted.
#[derive(Drop)]
pub struct MemHouse {
    halls: Vec<MemHall>,
    halls_back: Vec<MemHall>,
    links: Vec<MemLink>,
    links_back: Vec<MemLink>,
    asked_binds: Notes<NotedBind>,
    asked_connects: Notes<NotedText>,
    bound: usize,
    connected: usize,
    binds: Script,
    connects: Script,
    faults: u64,
    ghost halls_room: { bound + vec_len halls ≤ vec_capacity halls_back },
    ghost links_room: { connected + vec_len links ≤ vec_capacity links_back },
    ghost halls_bounded: { vec_len halls_back ≤ bound },
    ghost links_bounded: { vec_len links_back ≤ connected },
    ghost unused: { All IsUnused halls.items },
    ghost fresh: { All (λ link. IsFresh (octets_of link)) links.items },
}

impl MemHouse {
    ghost use Rattle.mm_outside.specs.Plan.{planned};
    ghost use Rattle.mm_outside.specs.MemHouse.{stock_of, counts_of, faults_of, plan_of};

    /// A house that gives `room` halls and `room` links: these first, and then ones without
    /// content. Of more than `room` the last ones are dropped.
    pub fn new(
        alloc: Global,
        halls: Vec<MemHall>,
        links: Vec<MemLink>,
        room: u32,
        failing_binds: &[u64],
        failing_connects: &[u64],
    ) -> Result<MemHouse, Memory>
        requires unused { All IsUnused halls.items }
        requires fresh { All (λ link. IsFresh (octets_of link)) links.items }
        ensures halls { IfOk result (λ house. PadsHalls room halls.items (stock_of house).halls) }
        ensures links { IfOk result (λ house. PadsLinks room links.items (stock_of house).links) }
        ensures halls_back { IfOk result (λ house. (stock_of house).halls_back ≡ []) }
        ensures links_back { IfOk result (λ house. (stock_of house).links_back ≡ []) }
        ensures binds { IfOk result (λ house. (stock_of house).binds ≡ []) }
        ensures connects { IfOk result (λ house. (stock_of house).connects ≡ []) }
        ensures counts { IfOk result (λ house. counts_of house ≡
            record { bound = 0; taken_back = 0; connected = 0; hung_up = 0 }) }
        ensures plan { IfOk result (λ house. plan_of house ≡
            record {
              binds = planned [] failing_binds.now;
              connects = planned [] failing_connects.now;
            }) }
        ensures faults { IfOk result (λ house. faults_of house ≡ 0) }
    {
        let room = room as usize;
        let mut halls = halls;
        let mut links = links;
        pad_halls(alloc, &mut halls, room)?;
        pad_links(alloc, &mut links, room)?;
        Ok(MemHouse {
            halls,
            halls_back: Vec::with_capacity(alloc, room)?,
            links,
            links_back: Vec::with_capacity(alloc, room)?,
            asked_binds: Notes::new(),
            asked_connects: Notes::new(),
            bound: 0,
            connected: 0,
            binds: Script::new(alloc, &[], failing_binds)?,
            connects: Script::new(alloc, &[], failing_connects)?,
            faults: 0,
        })
    }

    /// The halls that were taken back, in order.
    pub fn halls_back(&self) -> &[MemHall]
        ensures { result.now ≡ (stock_of self.now).halls_back }
    {
        &self.halls_back
    }

    /// The links that were hung up, in order.
    pub fn links_back(&self) -> &[MemLink]
        ensures { result.now ≡ (stock_of self.now).links_back }
    {
        &self.links_back
    }
}

fn pad_halls(alloc: Global, halls: &mut Vec<MemHall>, room: usize) -> Result<(), Memory>
    requires { All IsUnused halls.old.items }
    ensures padded { OnOk result (PadsHalls room halls.old.items halls.new.items) }
    ensures len { OnOk result (vec_len halls.new ≡ room) }
    ensures unused { OnOk result (All IsUnused halls.new.items) }
{
    halls.truncate(room);
    let missing = room - halls.len();
    for _added in 0..missing {
        halls.push(MemHall::new(alloc, Vec::new(alloc), &[])?)?;
    }
    Ok(())
}

fn pad_links(alloc: Global, links: &mut Vec<MemLink>, room: usize) -> Result<(), Memory>
    requires { All (λ link. IsFresh (octets_of link)) links.old.items }
    ensures padded { OnOk result (PadsLinks room links.old.items links.new.items) }
    ensures len { OnOk result (vec_len links.new ≡ room) }
    ensures fresh { OnOk result (All (λ link. IsFresh (octets_of link)) links.new.items) }
{
    links.truncate(room);
    let missing = room - links.len();
    for _added in 0..missing {
        links.push(MemLink::new(alloc, &[], 0, &[], &[], &[], &[])?)?;
    }
    Ok(())
}

/// Takes the first halls.
fn take_halls(halls: &mut Vec<MemHall>, count: usize) -> Result<Vec<MemHall>, Memory>
    requires count { count ≤ vec_len halls.old }
    requires unused { All IsUnused halls.old.items }
    ensures ok { IfOk result (λ taken. halls.old.items ≡ taken.items ++ halls.new.items) }
    ensures len { IfOk result (λ taken. (vec_len taken ≡ count) ×
        (count + vec_len halls.new ≡ vec_len halls.old)) }
    ensures taken { IfOk result (λ taken. All IsUnused taken.items) }
    ensures left { All IsUnused halls.new.items }
    ensures err { OnErr result (halls.new.items ≡ halls.old.items) }
    ensures err_len { OnErr result (vec_len halls.new ≡ vec_len halls.old) }
{
    let rest = halls.split_off(count)?;
    Ok(mem::replace(halls, rest))
}

/// Takes the first link.
fn take_link(links: &mut Vec<MemLink>) -> MemLink
    requires some { 0 < vec_len links.old }
    requires fresh { All (λ link. IsFresh (octets_of link)) links.old.items }
    ensures link { links.old.items ≡ result ∷ links.new.items }
    ensures len { vec_len links.new + 1 ≡ vec_len links.old }
    ensures fresh { IsFresh (octets_of result) }
    ensures left { All (λ link. IsFresh (octets_of link)) links.new.items }
{
    links.remove(0)
}

impl House for MemHouse {
    ghost use Rattle.mm_outside.specs.Causes.{HasCause};
    ghost use Rattle.mm_outside.specs.Told.{Told};
    ghost use Rattle.mm_outside.specs.House.{Binds, TakesBack, Connects, HangsUp, as_result, count_bound, count_connected};
    ghost use Rattle.mm_outside.specs.MemHouse.{stock_of, counts_of, faults_of, plan_of, LacksHalls, LacksLink, bind_once, connect_once};

    type Hall = MemHall;

    type Link = MemLink;

    ghost stock = { λ house. Some (stock_of house) };

    ghost counts = { counts_of };

    ghost faults = { faults_of };

    ghost halls_bounded = { λ house. house.halls_bounded };

    ghost links_bounded = { λ house. house.links_bounded };

    fn bind(&mut self, address: &[u8], workers: u32, links: u32) -> Result<Vec<MemHall>, HouseError>
        ensures workers { IfOk result (λ halls. vec_len halls ≡ workers) }
        ensures unused { IfOk result (λ halls. All IsUnused halls.items) }
        ensures stock { Told (Binds (record { address = address.now; workers = workers; links = links }) result) (Some (stock_of self.old)) (Some (stock_of self.new)) }
        ensures counts { counts_of self.new ≡ count_bound result (counts_of self.old) }
        ensures cause { HasCause (faults_of self.old) (faults_of self.new) (as_result result) }
        ensures fails { IsErrOf result HouseError.Failed ↔
            LacksHalls (plan_of self.old) (stock_of self.old).halls workers }
        ensures plan { plan_of self.new ≡ bind_once result (plan_of self.old) }
    {
        let request = NotedBind::of(address, workers, links);
        let workers = workers as usize;
        if self.binds.is_due() || workers > self.halls.len() {
            self.binds.count();
            self.asked_binds = self.asked_binds.and(&request);
            self.faults = self.faults.saturating_add(1);
            return Err(HouseError::Failed);
        }
        match take_halls(&mut self.halls, workers) {
            Ok(halls) => {
                self.binds.count();
                self.asked_binds = self.asked_binds.and(&request);
                self.bound += workers;
                Ok(halls)
            }
            Err(Memory) => Err(HouseError::Memory),
        }
    }

    fn take_back(&mut self, halls: Vec<MemHall>)
        requires { (counts_of self.old).taken_back + vec_len halls ≤ (counts_of self.old).bound }
        ensures stock { Told (TakesBack halls.items) (Some (stock_of self.old))
            (Some (stock_of self.new)) }
        ensures counts { counts_of self.new ≡ record
            (counts_of self.old) {
              taken_back =
                  (counts_of self.old).taken_back + vec_len halls;
            } }
        ensures faults { faults_of self.new ≡ faults_of self.old }
        ensures plan { plan_of self.new ≡ plan_of self.old }
    {
        let mut halls = halls;
        let _ = self.halls_back.append(&mut halls);
    }

    fn connect(&mut self, address: &[u8]) -> Result<MemLink, Failed>
        ensures fresh { IfOk result (λ link. IfSome (Some (octets_of link)) IsFresh) }
        ensures stock { Told (Connects address.now result) (Some (stock_of self.old))
            (Some (stock_of self.new)) }
        ensures counts { counts_of self.new ≡ count_connected result (counts_of self.old) }
        ensures cause { HasCause (faults_of self.old) (faults_of self.new) result }
        ensures fails { IsErr result ↔ LacksLink (plan_of self.old) (stock_of self.old).links }
        ensures plan { plan_of self.new ≡ connect_once (plan_of self.old) }
    {
        let due = self.connects.is_due();
        self.connects.count();
        self.asked_connects = self.asked_connects.and(&NotedText::of(address));
        if due || self.links.is_empty() {
            self.faults = self.faults.saturating_add(1);
            return Err(Failed);
        }
        self.connected += 1;
        Ok(take_link(&mut self.links))
    }

    fn hang_up(&mut self, link: MemLink)
        requires { (counts_of self.old).hung_up < (counts_of self.old).connected }
        ensures stock { Told (HangsUp link) (Some (stock_of self.old)) (Some (stock_of self.new)) }
        ensures counts { counts_of self.new ≡ record
            (counts_of self.old) { hung_up = (counts_of self.old).hung_up + 1 } }
        ensures faults { faults_of self.new ≡ faults_of self.old }
        ensures plan { plan_of self.new ≡ plan_of self.old }
    {
        self.links_back.push_reserved(link);
    }
}

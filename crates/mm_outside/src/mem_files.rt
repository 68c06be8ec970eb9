ghost use Rattle.std.specs.Prelude.{◌≡◌, ◌≢◌, ◌↔◌, ◌+◌, ◌<◌, ◌≤◌, ℕ, [], ◌++◌, All, IfOk, IfSome, IfNone, OnErr, Some, None, IsTrue, IsErr, IsErrOf, Ok, Err, vec_len, vec_capacity, length};
ghost use Rattle.std.specs.Bool.{OnTrue, OnFalse};
ghost use Rattle.std.specs.List.{sum_by};
ghost use Rattle.std.specs.Option.{option_copied};
ghost use Rattle.mm_outside.specs.Files.{Reports};
ghost use Rattle.mm_outside.specs.Named.{AreDistinct};
ghost use Rattle.mm_outside.specs.Slots.{text_at, IsWithin, IsFirst};

use crate::page::Page;
use crate::script::Script;
use crate::text::Bytes;
use crate::{Failed, Files, Memory, ReadAllError, Text};
use std::alloc::Global;

/// Where a text stands.
#[derive(Clone, Copy)]
pub(crate) struct Span {
    /// How many octets stand before it.
    pub start: usize,
    /// How many octets it has.
    pub len: usize,
}

/// Where a file's name and content stand.
#[derive(Clone, Copy)]
pub(crate) struct Slot {
    /// Where the name stands.
    pub name: Span,
    /// Where the content stands.
    pub content: Span,
}

/// Whether the octets are the same.
fn is_same(name: &[u8], other: &[u8]) -> bool
    ensures { IsTrue result ↔ (name.now ≡ other.now) }
{
    name == other
}

/// The octets that stand there.
fn text<'a>(octets: &'a [u8], span: &Span) -> &'a [u8]
    requires { span.now.start + span.now.len ≤ length octets.now }
    ensures { result.now ≡ text_at octets.now span.now }
{
    let (_, rest) = octets.split_at(span.start);
    let (front, _) = rest.split_at(span.len);
    front
}

/// The first slot of the name.
fn find(octets: &[u8], slots: &[Slot], name: &[u8]) -> Option<usize>
    requires { All (IsWithin (length octets.now)) slots.now }
    ensures none { IfNone result (All (λ slot. text_at octets.now slot.name ≢ name.now) slots.now) }
    ensures found { IfSome result (IsFirst octets.now slots.now name.now) }
{
    for (k, slot) in slots.iter().enumerate() {
        if is_same(text(octets, &slot.name), name) {
            return Some(k);
        }
    }
    None
}

/// Appends the octets.
fn put(page: &mut Page, octets: &[u8]) -> Span
    requires { length octets.now ≤ page.old.spare }
    ensures page { page.new.octets ≡ page.old.octets ++ octets.now }
    ensures spare { page.new.spare + length octets.now ≡ page.old.spare }
    ensures text { text_at page.new.octets result ≡ octets.now }
    ensures within { result.start + result.len ≡ length page.new.octets }
{
    let start = page.octets().len();
    page.append(octets);
    Span {
        start,
        len: octets.len(),
    }
}

/// The octets of the texts, and so many more.
fn total(texts: &[Text], more: usize) -> Option<usize>
    ensures { IfSome result (λ sum. sum ≡ more + sum_by length texts.now) }
{
    let mut sum = more;
    for text in texts {
        sum = sum.checked_add(text.octets().len())?;
    }
    Some(sum)
}

/// Files in memory, which tell everything.
///
/// They count their reads and their writes, each from 0, and a call fails where its number was
/// listed. A write that lacks space fails too. A read that wants memory isn't counted.
#[derive(Drop)]
pub struct MemFiles {
    alloc: Global,
    page: Page,
    slots: Vec<Slot>,
    free: usize,
    reads: Script,
    writes: Script,
    read_faults: u64,
    write_faults: u64,
    ghost room: { vec_len slots + free ≤ vec_capacity slots },
    ghost within: { All (IsWithin (length page.octets)) slots.items },
}

impl MemFiles {
    ghost use Rattle.mm_outside.specs.Plan.{planned};
    ghost use Rattle.mm_outside.specs.MemFiles.{content_of, plan_of, Holds, HasNoFaults};

    /// Files of these names and contents. Writes can add `more` names, and take `room` octets,
    /// of which the octets of a name that is added are some.
    /// A write over an old content takes anew what the new one needs.
    pub fn new(
        alloc: Global,
        names: &[Text],
        contents: &[Text],
        more: u32,
        room: u32,
        failing_reads: &[u64],
        failing_writes: &[u64],
    ) -> Result<MemFiles, Memory>
        requires as_many { length names.now ≡ length contents.now }
        requires distinct { AreDistinct names.now }
        ensures content { IfOk result (λ files. Holds names.now contents.now (content_of files)) }
        ensures plan { IfOk result (λ files. plan_of files ≡
            record {
              reads = planned [] failing_reads.now;
              writes = planned [] failing_writes.now;
              space = record { names = more; octets = room };
            }) }
        ensures faults { IfOk result HasNoFaults }
    {
        let Some(octets) = total(contents, room as usize) else {
            return Err(Memory);
        };
        let Some(octets) = total(names, octets) else {
            return Err(Memory);
        };
        let Some(slots) = names.len().checked_add(more as usize) else {
            return Err(Memory);
        };
        let mut files = MemFiles {
            alloc,
            page: Page::new(alloc, octets)?,
            slots: Vec::with_capacity(alloc, slots)?,
            free: slots,
            reads: Script::new(alloc, &[], failing_reads)?,
            writes: Script::new(alloc, &[], failing_writes)?,
            read_faults: 0,
            write_faults: 0,
        };
        for k in 0..names.len() {
            files.add(names[k].octets(), contents[k].octets());
        }
        Ok(files)
    }

    /// What the name holds: `None` exactly where there is no such name.
    pub fn content(&self, name: &[u8]) -> Option<&[u8]>
        ensures { option_copied result ≡ content_of self.now name.now }
    {
        let octets = self.page.octets();
        match find(octets, &self.slots, name) {
            Some(k) => Some(text(octets, &self.slots[k].content)),
            None => None,
        }
    }
}

impl Files for MemFiles {
    ghost use Rattle.mm_outside.specs.Causes.{HasCause};
    ghost use Rattle.mm_outside.specs.Told.{Told};
    ghost use Rattle.mm_outside.specs.Plan.{IsDue};
    ghost use Rattle.mm_outside.specs.Files.{Finds, Stores, as_result};
    ghost use Rattle.mm_outside.specs.MemFiles.{content_of, read_faults_of, write_faults_of, plan_of, space_for, LacksWrite, read_once, write_once};

    ghost content = { λ files. Some (content_of files) };

    ghost read_faults = { read_faults_of };

    ghost write_faults = { write_faults_of };

    fn read_all(&mut self, name: &[u8], most: u64) -> Result<Bytes, ReadAllError>
        ensures bound { IfOk result (λ octets. length octets ≤ most) }
        ensures content { Told (Finds result name.now most) (Some (content_of self.old))
            (Some (content_of self.new)) }
        ensures cause { HasCause (read_faults_of self.old) (read_faults_of self.new)
            (as_result result) }
        ensures write_faults { write_faults_of self.new ≡ write_faults_of self.old }
        ensures fails { IsErrOf result ReadAllError.Failed ↔ IsDue (plan_of self.old).reads }
        ensures plan { plan_of self.new ≡ read_once result (plan_of self.old) }
    {
        if self.reads.is_due() {
            self.reads.count();
            self.read_faults = self.read_faults.saturating_add(1);
            return Err(ReadAllError::Failed);
        }
        let answer = match self.content(name) {
            None => Err(ReadAllError::Absent),
            Some(held) => copy(self.alloc, held, most),
        };
        if let Err(ReadAllError::Memory) = answer {
            return answer;
        }
        self.reads.count();
        answer
    }

    fn write_all(&mut self, name: &[u8], octets: &[u8]) -> Result<(), Failed>
        ensures content { Told (Stores result name.now octets.now) (Some (content_of self.old))
            (Some (content_of self.new)) }
        ensures cause { HasCause (write_faults_of self.old) (write_faults_of self.new) result }
        ensures read_faults { read_faults_of self.new ≡ read_faults_of self.old }
        ensures fails { IsErr result ↔ LacksWrite (plan_of self.old)
            (space_for (content_of self.old name.now) name.now octets.now) }
        ensures kept { OnErr result (content_of self.new ≡ content_of self.old) }
        ensures plan { plan_of self.new ≡ write_once result
            (space_for (content_of self.old name.now) name.now octets.now) (plan_of self.old) }
    {
        let due = self.writes.is_due();
        self.writes.count();
        if due {
            self.write_faults = self.write_faults.saturating_add(1);
            return Err(Failed);
        }
        if self.store(name, octets) {
            return Ok(());
        }
        self.write_faults = self.write_faults.saturating_add(1);
        Err(Failed)
    }
}

fn copy(alloc: Global, held: &[u8], most: u64) -> Result<Bytes, ReadAllError>
    ensures answer { Reports result (Some held.now) most }
    ensures bound { IfOk result (λ octets. length octets ≤ most) }
    ensures others { (result ≢ Err ReadAllError.Failed) × (result ≢ Err ReadAllError.Absent) }
{
    if held.len() as u64 > most {
        return Err(ReadAllError::TooLong);
    }
    match Text::of(alloc, held) {
        Ok(octets) => Ok(octets),
        Err(Memory) => Err(ReadAllError::Memory),
    }
}

impl MemFiles {
    ghost use Rattle.mm_outside.specs.Files.{Stores};
    ghost use Rattle.mm_outside.specs.MemFiles.{content_of, space_of, space_for, space_left, HasSpace, IsShort, KeepsRest};

    // The place of the name's file.
    fn place(&self, name: &[u8]) -> Option<usize>
        ensures absent { IfNone result (content_of self.now name.now ≡ None) }
        ensures first { IfSome result (IsFirst self.now.page.octets self.now.slots.items name.now) }
    {
        find(self.page.octets(), &self.slots, name)
    }

    // Stores the octets, if there is space.
    fn store(&mut self, name: &[u8], octets: &[u8]) -> bool
        ensures stored { OnTrue result (Stores {T = ℕ} {E = ℕ} (Ok 0) name.now octets.now
            (content_of self.old) (content_of self.new)) }
        ensures space { OnTrue result (space_of self.new ≡
            space_left (space_of self.old)
            (space_for (content_of self.old name.now) name.now octets.now)) }
        ensures enough { OnTrue result (HasSpace (space_of self.old)
            (space_for (content_of self.old name.now) name.now octets.now)) }
        ensures short { OnFalse result (IsShort (space_of self.old)
            (space_for (content_of self.old name.now) name.now octets.now)) }
        ensures kept { OnFalse result (content_of self.new ≡ content_of self.old) }
        ensures kept_space { OnFalse result (space_of self.new ≡ space_of self.old) }
        ensures rest { KeepsRest self.old self.new }
    {
        let spare = self.page.spare();
        match self.place(name) {
            Some(k) => {
                if octets.len() > spare {
                    return false;
                }
                self.replace(k, name, octets);
            }
            None => {
                if self.free == 0 || name.len() > spare || octets.len() > spare - name.len() {
                    return false;
                }
                self.add(name, octets);
            }
        }
        true
    }

    // Writes the file of that place anew.
    fn replace(&mut self, k: usize, name: &[u8], octets: &[u8])
        requires first { IsFirst self.old.page.octets self.old.slots.items name.now k }
        requires spare { length octets.now ≤ self.old.page.spare }
        ensures stored { Stores {T = ℕ} {E = ℕ} (Ok 0) name.now octets.now (content_of self.old)
            (content_of self.new) }
        ensures names { (space_of self.new).names ≡ (space_of self.old).names }
        ensures octets { (space_of self.new).octets + length octets.now ≡
            (space_of self.old).octets }
        ensures rest { KeepsRest self.old self.new }
    {
        let content = put(&mut self.page, octets);
        let name = self.slots[k].name;
        self.slots[k] = Slot { name, content };
    }

    // Adds a file of a new name.
    fn add(&mut self, name: &[u8], octets: &[u8])
        requires absent { content_of self.old name.now ≡ None }
        requires names { 0 < (space_of self.old).names }
        requires octets { length name.now + length octets.now ≤ (space_of self.old).octets }
        ensures stored { Stores {T = ℕ} {E = ℕ} (Ok 0) name.now octets.now (content_of self.old)
            (content_of self.new) }
        ensures names { (space_of self.new).names + 1 ≡ (space_of self.old).names }
        ensures octets { (space_of self.new).octets + (length name.now + length octets.now) ≡
            (space_of self.old).octets }
        ensures rest { KeepsRest self.old self.new }
    {
        let name = put(&mut self.page, name);
        let content = put(&mut self.page, octets);
        self.slots.push_reserved(Slot { name, content });
        self.free -= 1;
    }
}

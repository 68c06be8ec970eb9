//! Copies of interfaces.

ghost use Rattle.std.specs.Prelude.{◌≡◌, ◌++◌, ◌∷◌, [], IfOk, OnOk};

use crate::cmi::Cmi;
use crate::listed::{Listed, MOST_ENTRIES};
use mm_outside::{List, Memory, Text};
use std::alloc::Global;

/// A copy of an entry.
fn copy_entry(alloc: Global, entry: &Listed) -> Result<Listed, Memory>
    ensures { IfOk result (λ copy. copy ≡ entry.now) }
{
    Ok(Listed {
        kind: entry.kind,
        name: Text::of(alloc, entry.name.octets())?,
        owner: Text::of(alloc, entry.owner.octets())?,
    })
}

/// Appends a copy of an entry.
fn append_copy(alloc: Global, entry: &Listed, list: &mut List<Listed>) -> Result<(), Memory>
    ensures { OnOk result (list.new ≡ list.old ++ entry.now ∷ []) }
{
    if list.len() >= MOST_ENTRIES {
        return Err(Memory);
    }
    list.push(copy_entry(alloc, entry)?)?;
    Ok(())
}

/// A copy of a list of entries.
fn copy_list(alloc: Global, entries: &List<Listed>) -> Result<List<Listed>, Memory>
    ensures { IfOk result (λ copy. copy ≡ entries.now) }
{
    let mut copy = List::new(alloc);
    for k in 0..entries.len() {
        append_copy(alloc, entries.get(k), &mut copy)?;
    }
    Ok(copy)
}

/// A copy of an interface.
pub(crate) fn copy_cmi(alloc: Global, cmi: &Cmi) -> Result<Cmi, Memory>
    ensures { IfOk result (λ copy. copy ≡ cmi.now) }
{
    Ok(Cmi {
        unit: Text::of(alloc, cmi.unit.octets())?,
        interface: cmi.interface,
        exports: copy_list(alloc, &cmi.exports)?,
        view: copy_list(alloc, &cmi.view)?,
    })
}

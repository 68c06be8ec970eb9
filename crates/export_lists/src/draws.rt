//! Drawing the imports of generated units.

ghost use Rattle.std.specs.Prelude.{◌≡◌, ◌<◌, IfOk, OnOk};
ghost use Rattle.export_lists.specs.Generated.{following, is_linked, with_link, one_link, more_links, links_from};
ghost use Rattle.export_lists.specs.Drawings.{seen};

use mm_outside::Memory;
use std::alloc::Global;

/// An import of a generated unit.
#[derive(Clone, Copy)]
pub(crate) struct Link {
    /// The number of the imported unit.
    pub(crate) unit: u32,
    /// Whether the import is exported.
    pub(crate) exported: bool,
}

/// The number that follows in the sequence of draws.
fn following(state: u32) -> u32
    ensures { result ≡ following state }
{
    ((1103515245 * state as u64 + 12345) % 2147483648) as u32
}

/// Whether the unit is imported by one of these links.
fn is_linked(links: &[Link], unit: u32) -> bool
    ensures { result ≡ is_linked links.now unit }
{
    links.iter().any(|link| link.unit == unit)
}

/// Adds a link to the unit, unless there is one.
fn add_link(links: &mut Vec<Link>, unit: u32, exported: bool) -> Result<(), Memory>
    ensures { OnOk result (links.new.items ≡ with_link links.old.items unit exported) }
{
    if is_linked(links, unit) {
        return Ok(());
    }
    links.push(Link { unit, exported })?;
    Ok(())
}

/// Links that are drawn, and the number of the sequence behind them.
#[derive(Drop)]
pub(crate) struct Drawing {
    /// The number.
    pub(crate) state: u32,
    /// The links.
    pub(crate) links: Vec<Link>,
}

/// One link more, to a unit below the bound.
fn draw_link(drawing: Drawing, bound: u32) -> Result<Drawing, Memory>
    requires { 0 < bound }
    ensures { IfOk result (λ after. seen after ≡ one_link bound (seen drawing)) }
{
    let Drawing { state, mut links } = drawing;
    let first = following(state);
    let second = following(first);
    add_link(&mut links, first / 65536 % bound, second / 65536 % 2 == 1)?;
    Ok(Drawing {
        state: second,
        links,
    })
}

/// The links of the unit of this number, behind a number of the sequence.
pub(crate) fn draw_links(alloc: Global, number: u32, state: u32) -> Result<Drawing, Memory>
    ensures { IfOk result (λ drawing. seen drawing ≡ links_from number state) }
{
    let links = Vec::new(alloc);
    if number == 0 {
        return Ok(Drawing { state, links });
    }
    let state = following(state);
    draw_more(Drawing { state, links }, number, state / 65536 % 4)
}

/// So many links more, to units below the bound.
fn draw_more(drawing: Drawing, bound: u32, count: u32) -> Result<Drawing, Memory>
    requires { 0 < bound }
    ensures { IfOk result (λ after. seen after ≡ more_links bound count (seen drawing)) }
{
    let mut drawing = drawing;
    for _drawn in 0..count {
        drawing = draw_link(drawing, bound)?;
    }
    Ok(drawing)
}

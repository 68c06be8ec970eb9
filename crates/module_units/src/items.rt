//! Reading the items of a unit, terminal by terminal.

ghost use Rattle.std.specs.Prelude.{◌≡◌, ◌<◌, length, IfOk};
ghost use Rattle.module_units.specs.Machine.{after_type, type_step, item_step, item_start, HasRoom};

use crate::parts::{DeclKind, TypeUse};
use crate::places::{ItemPlace, ItemStep, Owner, TypePlace};
use crate::terminal::{Ident, Key, Terminal};
use mm_outside::{List, Memory};
use std::alloc::Global;

/// Where a terminal behind a whole type takes its owner.
fn after_type(owner: Owner, types: List<TypeUse>, terminal: Terminal) -> ItemStep
    ensures { result ≡ after_type owner types terminal }
{
    match (owner, terminal) {
        (Owner::OfAlias(ident), Terminal::Plain(Key::Semicolon)) => {
            ItemStep::Ends(DeclKind::Alias, ident, types)
        }
        (Owner::OfDeclared, Terminal::Name(name, line)) => {
            ItemStep::Goes(ItemPlace::AfterName(types, Ident { name, line }))
        }
        (Owner::OfParameter(ident), Terminal::Plain(Key::Comma)) => ItemStep::Goes(
            ItemPlace::InType(Owner::OfParameter(ident), types, TypePlace::Begin),
        ),
        (Owner::OfParameter(ident), Terminal::Plain(Key::RightParen)) => {
            ItemStep::Goes(ItemPlace::WantsEnd(DeclKind::Function, ident, types))
        }
        _ => ItemStep::Fails,
    }
}

/// Where a terminal takes a reader of a type. `Memory` is want of memory.
fn type_step(
    owner: Owner,
    mut types: List<TypeUse>,
    at: TypePlace,
    terminal: Terminal,
) -> Result<ItemStep, Memory>
    requires { length types < 2147483648 }
    ensures { IfOk result (λ answer. answer ≡ type_step owner types at terminal) }
{
    match (at, terminal) {
        (TypePlace::Begin, Terminal::Plain(Key::Const)) => Ok(ItemStep::Goes(ItemPlace::InType(
            owner,
            types,
            TypePlace::AfterConst,
        ))),
        (TypePlace::Begin | TypePlace::AfterConst, Terminal::Plain(Key::BuiltIn)) => Ok(
            ItemStep::Goes(ItemPlace::InType(owner, types, TypePlace::AfterBase)),
        ),
        (TypePlace::Begin | TypePlace::AfterConst, Terminal::Name(name, line)) => {
            types.push(TypeUse { name, line })?;
            Ok(ItemStep::Goes(ItemPlace::InType(owner, types, TypePlace::AfterBase)))
        }
        (TypePlace::AfterBase, Terminal::Plain(Key::Star)) => Ok(ItemStep::Goes(ItemPlace::InType(
            owner,
            types,
            TypePlace::AfterBase,
        ))),
        (TypePlace::AfterBase, Terminal::Plain(Key::Ampersand)) => Ok(ItemStep::Goes(
            ItemPlace::InType(owner, types, TypePlace::AfterReference),
        )),
        (TypePlace::AfterBase | TypePlace::AfterReference, terminal) => Ok(after_type(
            owner, types, terminal,
        )),
        _ => Ok(ItemStep::Fails),
    }
}

/// Where a terminal takes a reader of an item. `Memory` is want of memory.
pub(crate) fn item_step(
    alloc: Global,
    place: ItemPlace,
    terminal: Terminal,
) -> Result<ItemStep, Memory>
    requires { HasRoom place }
    ensures { IfOk result (λ answer. answer ≡ item_step place terminal) }
{
    match (place, terminal) {
        (ItemPlace::WantsName(kind), Terminal::Name(name, line)) => Ok(ItemStep::Goes(
            ItemPlace::WantsEnd(kind, Ident { name, line }, List::new(alloc)),
        )),
        (ItemPlace::WantsAliasName, Terminal::Name(name, line)) => {
            Ok(ItemStep::Goes(ItemPlace::WantsEquals(Ident { name, line })))
        }
        (ItemPlace::WantsEquals(ident), Terminal::Plain(Key::Equals)) => Ok(ItemStep::Goes(
            ItemPlace::InType(Owner::OfAlias(ident), List::new(alloc), TypePlace::Begin),
        )),
        (ItemPlace::InType(owner, types, at), terminal) => type_step(owner, types, at, terminal),
        (ItemPlace::AfterName(types, ident), Terminal::Plain(Key::Semicolon)) => {
            Ok(ItemStep::Ends(DeclKind::Variable, ident, types))
        }
        (ItemPlace::AfterName(types, ident), Terminal::Plain(Key::LeftParen)) => {
            Ok(ItemStep::Goes(ItemPlace::AfterOpen(types, ident)))
        }
        (ItemPlace::AfterOpen(types, ident), Terminal::Plain(Key::RightParen)) => Ok(ItemStep::Goes(
            ItemPlace::WantsEnd(DeclKind::Function, ident, types),
        )),
        (ItemPlace::AfterOpen(types, ident), terminal) => {
            type_step(Owner::OfParameter(ident), types, TypePlace::Begin, terminal)
        }
        (ItemPlace::WantsEnd(kind, ident, types), Terminal::Plain(Key::Semicolon)) => {
            Ok(ItemStep::Ends(kind, ident, types))
        }
        _ => Ok(ItemStep::Fails),
    }
}

/// Where the first terminal of an item takes its reader. `Memory` is want of memory.
pub(crate) fn item_start(alloc: Global, terminal: Terminal) -> Result<ItemStep, Memory>
    ensures { IfOk result (λ answer. answer ≡ item_start terminal) }
{
    match terminal {
        Terminal::Plain(Key::Struct) => Ok(ItemStep::Goes(ItemPlace::WantsName(DeclKind::Struct))),
        Terminal::Plain(Key::Class) => Ok(ItemStep::Goes(ItemPlace::WantsName(DeclKind::Class))),
        Terminal::Plain(Key::Using) => Ok(ItemStep::Goes(ItemPlace::WantsAliasName)),
        terminal => type_step(
            Owner::OfDeclared,
            List::new(alloc),
            TypePlace::Begin,
            terminal,
        ),
    }
}

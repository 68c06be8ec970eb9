//! Where a socket is.

ghost use Rattle.std.specs.Prelude.{◌≡◌, ◌≢◌, ◌++◌, ◌∷◌, ℕ, List, None, MatchOption, IfSome, IsTrue, ◌↔◌, codes, decimal};
ghost use Rattle.mapper_commands.specs.Addresses.{IsAddress, IsPort, Lacks, SpellsPath, SpellsPort};

use mapper_requests::read_decimal;
use memchr::memrchr;

/// The greatest port.
const GREATEST_PORT: u32 = 65_535;

/// The address of a socket.
#[derive(Clone, Copy)]
pub enum Address<'a> {
    /// A Unix socket: the path of its file, of at least one octet.
    Unix(&'a [u8]),
    /// A TCP socket: its host, of at least one octet, and its port, from 1.
    Tcp(&'a [u8], u16),
}

impl<'a> Address<'a> {
    ghost use Rattle.mapper_commands.specs.Addresses.{Spells, SpellsNone};

    /// The address that the octets spell, as `unix:PATH` or `tcp:HOST:PORT`. The port is decimal, without leading
    /// zeros; the last colon stands before it, so a host may have colons. `None` where they spell none.
    pub fn read(text: &'a [u8]) -> Option<Address<'a>>
        ensures address { IfSome result (Spells text.now) }
        ensures none { result ≡ None → SpellsNone text.now }
    {
        if let Some(path) = unix_path(text) {
            return Some(Address::Unix(path));
        }
        if let Some((host, port)) = host_and_port(text) {
            return Some(Address::Tcp(host, port));
        }
        None
    }
}

/// The path of a Unix socket that the octets spell.
fn unix_path(text: &[u8]) -> Option<&[u8]>
    ensures { MatchOption result ((path : List ℕ) → ¬ SpellsPath text.now path) (λ path. SpellsPath text.now path.now) }
{
    let path = text.strip_prefix(b"unix:")?;
    if path.is_empty() { None } else { Some(path) }
}

/// What stands after the mark of a TCP socket.
fn after_mark(text: &[u8]) -> Option<&[u8]>
    ensures { MatchOption result ((rest : List ℕ) → text.now ≢ codes "tcp:" ++ rest) (λ rest. text.now ≡ codes "tcp:" ++ rest.now) }
{
    text.strip_prefix(b"tcp:")
}

/// The host and the port of a TCP socket that the octets spell.
#[tactic(auto, using(crate::proofs::Colons::no_mark, crate::proofs::Colons::no_colon, crate::proofs::Colons::no_host, crate::proofs::Colons::spells))]
fn host_and_port(text: &[u8]) -> Option<(&[u8], u16)>
    ensures { MatchOption result ((host : List ℕ) (port : ℕ) → ¬ SpellsPort text.now host port) (λ found. SpellsPort text.now found.0.now found.1) }
{
    let rest = after_mark(text)?;
    let (host, digits) = split_at_colon(rest)?;
    if host.is_empty() {
        return None;
    }
    let port = port_of(digits)?;
    Some((host, port))
}

/// Whether a port may have the number.
fn is_port(number: u32) -> bool
    ensures { IsTrue result ↔ IsPort number }
{
    number >= 1 && number <= GREATEST_PORT
}

/// The port that the octets spell.
#[tactic(auto, using(crate::proofs::Colons::no_port))]
fn port_of(digits: &[u8]) -> Option<u16>
    ensures { MatchOption result ((port : ℕ) → IsPort port → digits.now ≢ decimal port) (λ port. IsPort port × (digits.now ≡ decimal port)) }
{
    let number = read_decimal(digits)?;
    if !is_port(number) {
        return None;
    }
    Some(number as u16)
}

/// What stands before the last colon, and what stands after it.
fn split_at_colon(text: &[u8]) -> Option<(&[u8], &[u8])>
    ensures { MatchOption result (Lacks 58 text.now) (λ parts. (text.now ≡ parts.0.now ++ 58 ∷ parts.1.now) × Lacks 58 parts.1.now) }
{
    let place = memrchr(b':', text)?;
    let (host, rest) = text.split_at(place);
    let (_, digits) = rest.split_at(1);
    Some((host, digits))
}

/// Whether the octets spell an address.
pub fn is_address(text: &[u8]) -> bool
    ensures { IsTrue result ↔ IsAddress text.now }
{
    match Address::read(text) {
        Some(_) => true,
        None => false,
    }
}

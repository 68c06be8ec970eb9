//! What calls were asked for, for proofs alone: none of it takes memory.

ghost use Rattle.std.specs.Prelude.{◌≡◌};

use crate::notes::Notes;
use std::marker::Model;

/// Octets that were noted.
#[derive(Drop)]
pub(crate) struct NotedText {
    octets: Notes<u8>,
}

impl Model for NotedText {
    ghost use Rattle.std.specs.Prelude.{List, ℕ};

    ghost Value = { List ℕ };

    ghost view = { λ text. text.octets.items };
}

impl NotedText {
    /// These octets.
    pub fn of(octets: &[u8]) -> NotedText
        ensures { result ≡ octets.now }
    {
        let mut noted = Notes::new();
        for octet in octets {
            noted = noted.and(octet);
        }
        NotedText { octets: noted }
    }
}

/// What a call of `bind` asked for.
#[derive(Drop)]
pub(crate) struct NotedBind {
    address: NotedText,
    workers: u32,
    links: u32,
}

impl Model for NotedBind {
    ghost use Rattle.mm_outside.specs.House.{BindRequest};

    ghost Value = { BindRequest };

    ghost view = { λ noted. record { address = noted.address; workers = noted.workers; links = noted.links } };
}

impl NotedBind {
    /// These arguments.
    pub fn of(address: &[u8], workers: u32, links: u32) -> NotedBind
        ensures { result ≡ record { address = address.now; workers = workers; links = links } }
    {
        NotedBind {
            address: NotedText::of(address),
            workers,
            links,
        }
    }
}

//! Reading a project file, line by line.

ghost use Rattle.std.specs.Prelude.{◌≡◌, ◌≢◌, ◌≤◌, ◌<◌, ◌∷◌, ◌++◌, length, IfSome, IfNone};
ghost use Rattle.std.specs.List.{All};
ghost use Rattle.cody_words.specs.Octets.{newline};
ghost use Rattle.unit_registry.specs.Lines.{lines_of};
ghost use Rattle.unit_registry.specs.Readings.{Answers, reading};

use crate::draft::{Draft, LineError};
use crate::project::Project;
use crate::reason::ProjectError;
use memchr::memchr;
use std::alloc::Global;

/// What stands before the first NEWLINE, and what stands behind it, if there is one.
pub fn cut_at_newline(octets: &[u8]) -> Option<(&[u8], &[u8])>
    ensures none { IfNone result (All (λ octet. octet ≢ newline) octets.now) }
    ensures front { IfSome result (λ parts. All (λ octet. octet ≢ newline) parts.0.now) }
    ensures whole { IfSome result (λ parts. octets.now ≡ parts.0.now ++ newline ∷ parts.1.now) }
    ensures shorter { IfSome result (λ parts. length parts.1.now < length octets.now) }
{
    match memchr(b'\n', octets) {
        Some(place) => {
            let (line, _) = octets.split_at(place);
            let (_, behind) = octets.split_at(place + 1);
            Some((line, behind))
        }
        None => None,
    }
}

/// The first line, without its NEWLINE, and what stands behind it. The last line may lack its NEWLINE.
pub fn cut_line(octets: &[u8]) -> (&[u8], &[u8])
    requires { 0 < length octets.now }
    ensures lines { lines_of octets.now ≡ result.0.now ∷ lines_of result.1.now }
    ensures shorter { length result.1.now < length octets.now }
{
    match cut_at_newline(octets) {
        Some((line, behind)) => (line, behind),
        None => (octets, b""),
    }
}

/// The project that the text declares, or its first fault.
pub(crate) fn read_project(alloc: Global, octets: &[u8]) -> Result<Project, ProjectError>
    requires { length octets.now ≤ 2147483648 }
    ensures { Answers (reading octets.now) result }
{
    let mut draft = Draft::new(alloc);
    let mut number = 1;
    let mut rest = octets;
    while !rest.is_empty() {
        let (line, behind) = cut_line(rest);
        draft = match draft.with_line(alloc, line) {
            Ok(next) => next,
            Err(LineError::Fault { reason }) => {
                return Err(ProjectError::Text {
                    line: number,
                    reason,
                });
            }
            Err(LineError::Memory) => return Err(ProjectError::Memory),
        };
        number += 1;
        rest = behind;
    }
    draft.end(number)
}

//! Texts of interfaces, which are read or are at fault on a line.

use super::*;
use std::alloc::Global;
use std::test::*;

/// The text of the interface of a module with one name.
const A_TEXT: &[u8] = b"modmap-cmi 1
unit a interface
export struct A a
inner struct A a
end
";

/// The text of the interface of an implementation partition, which exports nothing.
const Q_TEXT: &[u8] = b"modmap-cmi 1
unit 'm:q' implementation
inner alias Q m
inner class Q m
inner class Q n.o
end
";

/// The text of the interface of a header unit.
const H_TEXT: &[u8] = b"modmap-cmi 1
unit ./h.h interface
export variable H ./h.h
export function f ./h.h
inner variable H ./h.h
inner function f ./h.h
end
";

/// A text at fault.
#[derive(Clone, Copy)]
struct Faulty {
    /// The text.
    text: &'static [u8],
    /// The first line at fault.
    line: u32,
}

/// Faults of the first line and of the unit's.
const HEADS: [Faulty; 14] = [
    Faulty { text: b"", line: 1 },
    Faulty {
        text: b"modmap-cmi 1",
        line: 1,
    },
    Faulty {
        text: b"modmap-cmi 2\n",
        line: 1,
    },
    Faulty {
        text: b"modmap-cmi 1 ;\n",
        line: 1,
    },
    Faulty {
        text: b"\nmodmap-cmi 1\n",
        line: 1,
    },
    Faulty {
        text: b"modmap-cmi 1\n",
        line: 2,
    },
    Faulty {
        text: b"modmap-cmi 1\nunit 9 interface\n",
        line: 2,
    },
    Faulty {
        text: b"modmap-cmi 1\nunit a module\n",
        line: 2,
    },
    Faulty {
        text: b"modmap-cmi 1\nunit  a interface\n",
        line: 2,
    },
    Faulty {
        text: b"modmap-cmi 1\nunit 'a' interface\n",
        line: 2,
    },
    Faulty {
        text: b"modmap-cmi 1\nunit m:q interface\n",
        line: 2,
    },
    Faulty {
        text: b"modmap-cmi 1\nunit '' interface\n",
        line: 2,
    },
    Faulty {
        text: b"modmap-cmi 1\nunit a interface",
        line: 2,
    },
    Faulty {
        text: b"modmap-cmi 1\nend\n",
        line: 2,
    },
];

/// Faults of entries.
const ENTRIES: [Faulty; 17] = [
    Faulty {
        text: b"modmap-cmi 1\nunit a interface\nexport type A a\n",
        line: 3,
    },
    Faulty {
        text: b"modmap-cmi 1\nunit a interface\nexport alias A.B a\n",
        line: 3,
    },
    Faulty {
        text: b"modmap-cmi 1\nunit a interface\nexport alias 9 a\n",
        line: 3,
    },
    Faulty {
        text: b"modmap-cmi 1\nunit a interface\nexport class A 'a:b'\n",
        line: 3,
    },
    Faulty {
        text: b"modmap-cmi 1\nunit a interface\nexport class A ./\n",
        line: 3,
    },
    Faulty {
        text: b"modmap-cmi 1\nunit a interface\nexport class A ''\n",
        line: 3,
    },
    Faulty {
        text: b"modmap-cmi 1\nunit a interface\nouter class A a\n",
        line: 3,
    },
    Faulty {
        text: b"modmap-cmi 1\nunit a interface\nexport class A\n",
        line: 3,
    },
    Faulty {
        text: b"modmap-cmi 1\nunit a interface\nexport class A a a\n",
        line: 3,
    },
    Faulty {
        text: b"modmap-cmi 1\nunit a interface\nexport class A a ;\n",
        line: 3,
    },
    Faulty {
        text: b"modmap-cmi 1\nunit a interface\nexport class 'A' a\n",
        line: 3,
    },
    Faulty {
        text: b"modmap-cmi 1\nunit a interface\n export class A a\n",
        line: 3,
    },
    Faulty {
        text: b"modmap-cmi 1\nunit a interface\nexport class 'A a\n",
        line: 3,
    },
    Faulty {
        text: b"modmap-cmi 1\nunit a interface\n\nexport class A a\n",
        line: 3,
    },
    Faulty {
        text: b"modmap-cmi 1\nunit a interface\ninner class A a\nexport class A a\n",
        line: 4,
    },
    Faulty {
        text: b"modmap-cmi 1\nunit a interface\nexport variable A a\nexport variable A a\n",
        line: 4,
    },
    Faulty {
        text: b"modmap-cmi 1\nunit a interface\ninner class A a\ninner class A b\ninner class A a\n",
        line: 5,
    },
];

/// Faults of the last line, and behind it.
const ENDS: [Faulty; 8] = [
    Faulty {
        text: b"modmap-cmi 1\nunit a interface\n",
        line: 3,
    },
    Faulty {
        text: b"modmap-cmi 1\nunit a interface\nend",
        line: 3,
    },
    Faulty {
        text: b"modmap-cmi 1\nunit a interface\nend \n",
        line: 3,
    },
    Faulty {
        text: b"modmap-cmi 1\nunit a interface\nend end\n",
        line: 3,
    },
    Faulty {
        text: b"modmap-cmi 1\nunit a interface\nend\n\n",
        line: 4,
    },
    Faulty {
        text: b"modmap-cmi 1\nunit a interface\nend\nend",
        line: 4,
    },
    Faulty {
        text: b"modmap-cmi 1\nunit a interface\nend\nexport class A a\n",
        line: 4,
    },
    Faulty {
        text: b"modmap-cmi 1\nunit a interface\ninner class A a\nend\nend\n",
        line: 5,
    },
];

/// Whether a text is read, and written again as it was.
fn reads_back(alloc: Global, text: &[u8]) -> bool {
    if text.len() > 1000 {
        return false;
    }
    let Ok(cmi) = Cmi::read(alloc, text) else {
        return false;
    };
    match cmi.write(alloc) {
        Ok(written) => written.octets() == text,
        Err(_) => false,
    }
}

/// The line on which a text is refused, where it is.
fn refused_on(alloc: Global, text: &[u8]) -> Option<u32> {
    if text.len() > 1000 {
        return None;
    }
    match Cmi::read(alloc, text) {
        Err(CmiError::Text { line }) => Some(line),
        _ => None,
    }
}

/// The first text that isn't refused on its line, if there is one.
fn first_wrong(alloc: Global, table: &[Faulty]) -> Option<&'static [u8]> {
    for faulty in table {
        if refused_on(alloc, faulty.text) != Some(faulty.line) {
            return Some(faulty.text);
        }
    }
    None
}

#[test]
fn texts_are_read_back(rt: HostRuntime) {
    for text in [A_TEXT, Q_TEXT, H_TEXT] {
        assert!(rt; reads_back(rt.alloc(), text), "{text:?}");
    }
}

#[test]
fn texts_at_fault(rt: HostRuntime) {
    assert_eq!(rt; first_wrong(rt.alloc(), &HEADS), None);
    assert_eq!(rt; first_wrong(rt.alloc(), &ENTRIES), None);
    assert_eq!(rt; first_wrong(rt.alloc(), &ENDS), None);
}

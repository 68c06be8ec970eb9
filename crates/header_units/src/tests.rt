use super::*;
use cody_words::LineBuf;
use std::alloc::Global;
use std::test::*;

/// Whether the octets are read as a name of this kind, with this module.
fn is_read(octets: &[u8], kind: NameKind, module: &[u8]) -> bool {
    match Name::read(octets) {
        Ok(name) => name.octets() == octets && name.kind() == kind && name.module() == module,
        Err(BadName) => false,
    }
}

/// Whether the octets are no name.
fn is_bad(octets: &[u8]) -> bool {
    matches!(Name::read(octets), Err(BadName))
}

/// Whether the name has this CMI name.
fn has_cmi_name(alloc: Global, octets: &[u8], cmi_name: &[u8]) -> bool {
    let Ok(name) = Name::read(octets) else {
        return false;
    };
    let Ok(mut out) = LineBuf::new(alloc, CMI_NAME_ROOM) else {
        return false;
    };
    name.cmi_name_into(&mut out);
    out.octets() == cmi_name
}

/// How many octets the CMI name has.
fn cmi_name_len(alloc: Global, octets: &[u8]) -> Option<usize> {
    let name = Name::read(octets).ok()?;
    let mut out = LineBuf::new(alloc, CMI_NAME_ROOM).ok()?;
    name.cmi_name_into(&mut out);
    Some(out.octets().len())
}

#[test]
fn reads_names(rt: HostRuntime) {
    let table: [(&[u8], NameKind, &[u8]); 9] = [
        (b"a", NameKind::Primary, b"a"),
        (b"_Z9.b.module", NameKind::Primary, b"_Z9.b.module"),
        (b"a.b:p", NameKind::Partition, b"a.b"),
        (b"a:p.q", NameKind::Partition, b"a"),
        (b"./x/../y.h", NameKind::Header, b"./x/../y.h"),
        (
            b"/usr/include/vector",
            NameKind::Header,
            b"/usr/include/vector",
        ),
        (b"./a:b", NameKind::Header, b"./a:b"),
        (b"//", NameKind::Header, b"//"),
        (b"/ \xff", NameKind::Header, b"/ \xff"),
    ];
    for (octets, kind, module) in table {
        assert!(rt; is_read(octets, kind, module), "{octets:?}");
    }
}

#[test]
fn refuses_what_is_no_name(rt: HostRuntime) {
    let table: [&[u8]; 19] = [
        b"", b"a..b", b".a", b"a.", b"a:", b":p", b":", b"a:b:c", b"1a", b"a.1", b"a b", b"a-b",
        b"a,b", b"./", b"/", b"x/y", b"./\x01", b"./\x7f", b"/\x1f",
    ];
    for octets in table {
        assert!(rt; is_bad(octets), "{octets:?}");
    }
}

#[test]
fn knows_the_longest(rt: HostRuntime) {
    let letters = [b'a'; 513];
    assert!(rt; is_read(&letters[..255], NameKind::Primary, &letters[..255]));
    assert!(rt; is_bad(&letters[..256]));

    let mut dotted = letters;
    dotted[255] = b'.';
    dotted[400] = b':';
    assert!(rt; is_read(&dotted[..512], NameKind::Partition, &dotted[..400]));
    assert!(rt; is_bad(&dotted));

    let mut path = letters;
    path[0] = b'/';
    assert!(rt; is_read(&path[..512], NameKind::Header, &path[..512]));
    assert!(rt; is_bad(&path));
}

#[test]
fn writes_cmi_names(rt: HostRuntime) {
    let table: [(&[u8], &[u8]); 12] = [
        (b"./x/../y.h", b",/x/,,/y.h.gcm"),
        (b"/usr/include/vector", b"+/usr/include/vector.gcm"),
        (b"./,,/y", b",/,,,,,/y.gcm"),
        (b"a.b:p", b"a.b-p.gcm"),
        (b"a.b", b"a.b.gcm"),
        (b"./.", b",/,.gcm"),
        (b"./,", b",/,,,,.gcm"),
        (b"./..", b",/,,.gcm"),
        (b".//", b",/,,,/,,,.gcm"),
        (b"//,,,", b"+/,,,/,,,,,,.gcm"),
        (b"/...", b"+/....gcm"),
        (b"./a:b,", b",/a:b,.gcm"),
    ];
    for (octets, cmi_name) in table {
        assert!(rt; has_cmi_name(rt.alloc(), octets, cmi_name), "{octets:?}");
    }
}

#[test]
fn the_longest_cmi_name_fits(rt: HostRuntime) {
    let slashes = [b'/'; 512];
    assert_eq!(rt; cmi_name_len(rt.alloc(), &slashes), Some(2053));
}

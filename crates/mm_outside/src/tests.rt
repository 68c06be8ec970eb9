ghost use Rattle.std.specs.Prelude.{All, IfSome, ◌≡◌, ◌≤◌, ◌∷◌, ◌++◌, [], codes};
ghost use Rattle.std.specs.Bool.{OnTrue};
ghost use Rattle.mm_outside.specs.MemLink.{octets_of};
ghost use Rattle.mm_outside.specs.MemHall.{counts_of};
ghost use Rattle.mm_outside.specs.MemHouse.{counts_of as house_counts, stock_of};
ghost use Rattle.mm_outside.specs.Octets.{IsFresh};

use super::*;
use std::alloc::Global;
use std::test::*;

/// Whether reads into four octets give these texts, in order; `None` is a fault.
fn reads<L: Link>(link: &mut L, texts: &[Option<&[u8]>]) -> bool {
    let mut room = [0; 4];
    for text in texts {
        let same = match (link.read(&mut room), text) {
            (Ok(count), Some(text)) => &room[..count] == *text,
            (Err(Failed), None) => true,
            _ => false,
        };
        if !same {
            return false;
        }
    }
    true
}

/// Whether this write is answered so; `None` is a fault.
fn writes<L: Link>(link: &mut L, piece: &[u8], count: Option<usize>) -> bool {
    !piece.is_empty() && link.write(piece).ok() == count
}

/// Whether this write is answered so; `None` is a fault.
fn prints(sink: &mut MemSink, piece: &[u8], count: Option<usize>) -> bool {
    !piece.is_empty() && sink.write(piece).ok() == count
}

/// A link that gives the input in any sizes, and takes no octet.
fn link_of(alloc: Global, input: &[u8]) -> Option<MemLink>
    ensures { IfSome result (λ link. IsFresh (octets_of link)) }
{
    MemLink::new(alloc, input, 0, &[], &[], &[], &[]).ok()
}

/// One link.
fn one_link(alloc: Global, input: &[u8]) -> Option<Vec<MemLink>>
    ensures { IfSome result (λ links. All (λ link. IsFresh (octets_of link)) links.items) }
{
    let mut links = Vec::new(alloc);
    links.push(link_of(alloc, input)?).ok()?;
    Some(links)
}

/// Two links.
fn two_links(alloc: Global, first: &[u8], second: &[u8]) -> Option<Vec<MemLink>>
    ensures { IfSome result (λ links. All (λ link. IsFresh (octets_of link)) links.items) }
{
    let mut links = one_link(alloc, first)?;
    links.push(link_of(alloc, second)?).ok()?;
    Some(links)
}

/// Whether the name is read so.
fn finds(
    files: &mut MemFiles,
    name: &[u8],
    most: u64,
    answer: Result<&[u8], ReadAllError>,
) -> bool {
    match (files.read_all(name, most), answer) {
        (Ok(octets), Ok(wanted)) => octets.octets() == wanted,
        (Err(error), Err(wanted)) => error == wanted,
        _ => false,
    }
}

/// Two files: a with xyz, and b with nothing. Writes can add one name and take six octets.
fn two_files(alloc: Global) -> Option<MemFiles> {
    let names = [Text::of(alloc, b"a").ok()?, Text::of(alloc, b"b").ok()?];
    let contents = [Text::of(alloc, b"xyz").ok()?, Text::new(alloc)];
    MemFiles::new(alloc, &names, &contents, 1, 6, &[1], &[1]).ok()
}

/// Whether the hall gives a link next that gives this text.
fn gives(hall: &mut MemHall, text: &[u8]) -> bool {
    match hall.accept() {
        Accepted::Link(link) => {
            let mut link = link;
            reads(&mut link, &[Some(text)])
        }
        _ => false,
    }
}

/// Whether the hall gives no link, for a fault or since there is none.
fn gives_none(hall: &mut MemHall, fault: bool) -> bool
    requires { (counts_of hall.old).back ≤ (counts_of hall.old).given }
    ensures { (counts_of hall.new).back ≤ (counts_of hall.new).given }
{
    match hall.accept() {
        Accepted::Link(_) => false,
        Accepted::NoMore => !fault,
        Accepted::Failed => fault,
    }
}

/// Whether the hall gives a link next that gives this text. It is given back so.
fn serves(hall: &mut MemHall, text: &[u8], conn: Option<u32>, status: u8) -> bool
    requires { (counts_of hall.old).back ≤ (counts_of hall.old).given }
    ensures { (counts_of hall.new).back ≤ (counts_of hall.new).given }
{
    let Accepted::Link(link) = hall.accept() else {
        return false;
    };
    let mut link = link;
    let same = reads(&mut link, &[Some(text), Some(b"")]);
    hall.give_back(link, conn, status);
    same
}

/// Whether the house gives no halls, for a fault.
fn binds_none(house: &mut MemHouse, workers: u32) -> bool
    ensures bound { (house_counts house.old).bound ≤ (house_counts house.new).bound }
    ensures taken_back { (house_counts house.new).taken_back ≡ (house_counts house.old).taken_back }
{
    match house.bind(b"", workers, 9) {
        Err(error) => error == HouseError::Failed,
        Ok(_) => false,
    }
}

/// Whether the house gives no link.
fn connects_none(house: &mut MemHouse) -> bool
    ensures connected { (house_counts house.old).connected ≤ (house_counts house.new).connected }
    ensures hung_up { (house_counts house.new).hung_up ≡ (house_counts house.old).hung_up }
{
    house.connect(b"").is_err()
}

/// Whether the house gives two halls and then a link. What it tells that it was asked for is proved.
fn asks(house: &mut MemHouse) -> bool
    ensures binds { OnTrue result ((stock_of house.new).binds ≡ (stock_of house.old).binds ++ record { address = codes "unix:s"; workers = 2; links = 64 } ∷ []) }
    ensures connects { OnTrue result ((stock_of house.new).connects ≡ (stock_of house.old).connects ++ codes "unix:t" ∷ []) }
{
    let Ok(_halls) = house.bind(b"unix:s", 2, 64) else {
        return false;
    };
    let Ok(_link) = house.connect(b"unix:t") else {
        return false;
    };
    true
}

#[test]
fn a_link_reads(rt: HostRuntime) -> Result<(), Fail> {
    let mut link = MemLink::new(rt.alloc(), b"abcdefgh", 0, &[2, 9, 3], &[], &[1], &[])
        .ok()
        .ok_or("memory")?;
    assert!(rt;
        reads(
            &mut link,
            &[Some(b"ab"), None, Some(b"cde"), Some(b"fgh"), Some(b"")]
        )
    );
    Ok(())
}

#[test]
fn a_link_writes(rt: HostRuntime) -> Result<(), Fail> {
    let mut link = MemLink::new(rt.alloc(), b"", 5, &[], &[1, 2], &[], &[2])
        .ok()
        .ok_or("memory")?;
    for (piece, count) in [
        (b"abc".as_slice(), Some(1)),
        (b"abc".as_slice(), Some(2)),
        (b"z".as_slice(), None),
        (b"123".as_slice(), None),
        (b"xy".as_slice(), Some(2)),
        (b"z".as_slice(), None),
    ] {
        assert!(rt; writes(&mut link, piece, count), "at {piece:?}");
    }
    assert_eq!(rt; link.written(), b"aabxy".as_slice());
    Ok(())
}

#[test]
fn a_sink_writes(rt: HostRuntime) -> Result<(), Fail> {
    let mut sink = MemSink::new(rt.alloc(), 4, &[1]).ok().ok_or("memory")?;
    for (piece, count) in [
        (b"ab".as_slice(), Some(2)),
        (b"z".as_slice(), None),
        (b"123".as_slice(), None),
        (b"cd".as_slice(), Some(2)),
    ] {
        assert!(rt; prints(&mut sink, piece, count), "at {piece:?}");
    }
    assert_eq!(rt; sink.written(), b"abcd".as_slice());
    Ok(())
}

#[test]
fn pieces_are_written_whole(rt: HostRuntime) -> Result<(), Fail> {
    let alloc = rt.alloc();
    let mut link = MemLink::new(alloc, b"", 7, &[], &[1, 1, 1, 1, 1], &[], &[4])
        .ok()
        .ok_or("memory")?;
    assert_eq!(rt; send(&mut link, b"abc"), Ok(()));
    assert_eq!(rt; send(&mut link, b"def"), Err(Failed));
    assert_eq!(rt; send(&mut link, b""), Ok(()));
    assert_eq!(rt; link.written(), b"abcd".as_slice());
    let mut sink = MemSink::new(alloc, 5, &[1]).ok().ok_or("memory")?;
    assert_eq!(rt; print(&mut sink, b"abc"), Ok(()));
    assert_eq!(rt; print(&mut sink, b"d"), Err(Failed));
    assert_eq!(rt; print(&mut sink, b"de"), Ok(()));
    assert_eq!(rt; sink.written(), b"abcde".as_slice());
    Ok(())
}

#[test]
fn files_are_read(rt: HostRuntime) -> Result<(), Fail> {
    let mut files = two_files(rt.alloc()).ok_or("memory")?;
    for (name, most, answer) in [
        (b"a".as_slice(), 3, Ok(b"xyz".as_slice())),
        (b"c".as_slice(), 9, Err(ReadAllError::Failed)),
        (b"c".as_slice(), 9, Err(ReadAllError::Absent)),
        (b"a".as_slice(), 2, Err(ReadAllError::TooLong)),
        (b"a".as_slice(), 4, Ok(b"xyz".as_slice())),
        (b"b".as_slice(), 0, Ok(b"".as_slice())),
    ] {
        assert!(rt;
            finds(&mut files, name, most, answer),
            "at {name:?}, {most}"
        );
    }
    Ok(())
}

#[test]
fn files_are_written(rt: HostRuntime) -> Result<(), Fail> {
    let mut files = two_files(rt.alloc()).ok_or("memory")?;
    for (name, octets, answer) in [
        (b"a".as_slice(), b"12".as_slice(), Ok(())),
        (b"b".as_slice(), b"".as_slice(), Err(Failed)),
        (b"c".as_slice(), b"7890".as_slice(), Err(Failed)),
        (b"c".as_slice(), b"789".as_slice(), Ok(())),
        (b"c".as_slice(), b"1".as_slice(), Err(Failed)),
        (b"d".as_slice(), b"".as_slice(), Err(Failed)),
        (b"b".as_slice(), b"".as_slice(), Ok(())),
    ] {
        assert_eq!(rt;
            files.write_all(name, octets),
            answer,
            "at {name:?}, {octets:?}"
        );
    }
    for (name, octets) in [
        (b"a".as_slice(), Some(b"12".as_slice())),
        (b"b".as_slice(), Some(b"".as_slice())),
        (b"c".as_slice(), Some(b"789".as_slice())),
        (b"d".as_slice(), None),
    ] {
        assert!(rt; files.content(name) == octets, "at {name:?}");
    }
    Ok(())
}

#[test]
fn a_hall_gives_links(rt: HostRuntime) -> Result<(), Fail> {
    let alloc = rt.alloc();
    let links = two_links(alloc, b"ab", b"cd").ok_or("memory")?;
    let mut hall = MemHall::new(alloc, links, &[1]).ok().ok_or("memory")?;
    assert!(rt; serves(&mut hall, b"ab", Some(4), 7));
    assert!(rt; gives_none(&mut hall, true));
    assert!(rt; serves(&mut hall, b"cd", None, 9));
    assert!(rt; gives_none(&mut hall, false));
    let back = hall.given_back();
    assert_eq!(rt; back.len(), 2);
    assert!(rt; back[0].conn == Some(4) && back[0].status == 7);
    assert!(rt; back[1].conn == None && back[1].status == 9);
    Ok(())
}

#[test]
fn a_house_gives_halls(rt: HostRuntime) -> Result<(), Fail> {
    let alloc = rt.alloc();
    let links = one_link(alloc, b"ab").ok_or("memory")?;
    let hall = MemHall::new(alloc, links, &[]).ok().ok_or("memory")?;
    let mut halls = Vec::new(alloc);
    halls.push(hall).ok().ok_or("memory")?;
    let mut house = MemHouse::new(alloc, halls, Vec::new(alloc), 3, &[0], &[])
        .ok()
        .ok_or("memory")?;
    assert!(rt; binds_none(&mut house, 2));
    let Ok(mut bound) = house.bind(b"", 2, 9) else {
        return Err("no halls")?;
    };
    assert!(rt; binds_none(&mut house, 2));
    assert_eq!(rt; bound.len(), 2);
    assert!(rt; gives(&mut bound[0], b"ab"));
    assert!(rt; !gives(&mut bound[0], b"") && !gives(&mut bound[1], b""));
    house.take_back(bound);
    assert_eq!(rt; house.halls_back().len(), 2);
    Ok(())
}

#[test]
fn a_house_tells_what_it_was_asked_for(rt: HostRuntime) -> Result<(), Fail> {
    let alloc = rt.alloc();
    let mut house = MemHouse::new(alloc, Vec::new(alloc), Vec::new(alloc), 2, &[], &[])
        .ok()
        .ok_or("memory")?;
    assert!(rt; asks(&mut house));
    assert!(rt; !asks(&mut house));
    Ok(())
}

#[test]
fn a_house_gives_links(rt: HostRuntime) -> Result<(), Fail> {
    let alloc = rt.alloc();
    let links = one_link(alloc, b"ab").ok_or("memory")?;
    let mut house = MemHouse::new(alloc, Vec::new(alloc), links, 2, &[], &[1])
        .ok()
        .ok_or("memory")?;
    let Ok(mut first) = house.connect(b"") else {
        return Err("no first link")?;
    };
    assert!(rt; connects_none(&mut house));
    let Ok(mut second) = house.connect(b"") else {
        return Err("no second link")?;
    };
    assert!(rt; connects_none(&mut house));
    assert!(rt; reads(&mut first, &[Some(b"ab")]) && reads(&mut second, &[Some(b"")]));
    assert!(rt; writes(&mut second, b"z", None));
    house.hang_up(second);
    house.hang_up(first);
    assert_eq!(rt; house.links_back().len(), 2);
    Ok(())
}

#[test]
fn texts(rt: HostRuntime) -> Result<(), Fail> {
    let alloc = rt.alloc();
    let mut text = Text::of(alloc, b"ab").ok().ok_or("memory")?;
    assert_eq!(rt; text.extend(b"c"), Ok(()));
    assert_eq!(rt; text.octets(), b"abc".as_slice());
    let other = Text::from_vec(Vec::from_slice(alloc, b"abc").ok().ok_or("memory")?);
    assert!(rt; text == other && text != Text::new(alloc));
    assert_eq!(rt; other.into_vec().as_slice(), b"abc".as_slice());
    Ok(())
}

#[test]
fn lists(rt: HostRuntime) -> Result<(), Fail> {
    let alloc = rt.alloc();
    let mut list = List::new(alloc);
    assert_eq!(rt; list.push(7u64), Ok(()));
    assert_eq!(rt; list.push(9), Ok(()));
    assert_eq!(rt; (list.len(), *list.get(0), *list.get(1)), (2, 7, 9));
    assert!(rt; !list.is_empty() && List::<u64>::new(alloc).is_empty());
    let list = List::from_vec(list.into_vec());
    assert_eq!(rt; list.as_slice(), [7, 9].as_slice());
    Ok(())
}

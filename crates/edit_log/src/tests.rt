//! Logs whose events were worked out by hand.

ghost use Rattle.std.specs.Prelude.{◌≡◌};

use super::*;
use history_model::events::Event;
use paging_model::access::Access;
use paging_model::registers::RegChange;
use std::alloc::Global;
use std::process::Abort;
use std::test::Fail;

/// A log of one line of most forms.
const LOG: &[u8] = b"# a machine and a processor
machine 0x2e 1
cpu 0 0x80010033 0x1000 0x20 0xd01 0x40002 0 4294967295

write 0x1ff8 27F0
set 7 ac 1
invlpg 7 0xffff800000000000
invpcid 7 3 0 0
ask 7 iw 18446744073709551615
list 7
point all";

#[test]
fn reads_each_form(rt: HostRuntime) -> Result<(), Fail> {
    let mut lines = Lines::new(rt.alloc());
    lines.feed(LOG)?;
    lines.finish();
    match lines.next() {
        Ok(Some(Event::Machine(machine))) => {
            assert_eq!(rt; machine.m, 46);
            assert!(rt; machine.big);
        }
        _ => panic!(rt; "no machine"),
    }
    assert_eq!(rt; lines.line(), 2);
    match lines.next() {
        Ok(Some(Event::Cpu(number, regs))) => {
            assert_eq!(rt; (number, regs.cr0, regs.cr3), (0, 0x8001_0033, 0x1000));
            assert_eq!(rt; (regs.cr4, regs.efer, regs.ac), (0x20, 0xd01, true));
            assert_eq!(rt; (regs.pkru, regs.pkrs), (0, u32::MAX));
        }
        _ => panic!(rt; "no processor"),
    }
    match lines.next() {
        Ok(Some(Event::Write { at, bytes })) => {
            assert_eq!(rt; at, 0x1ff8);
            assert!(rt; bytes.as_slice() == b"\x27\xf0".as_slice());
        }
        _ => panic!(rt; "no write"),
    }
    assert_eq!(rt; lines.line(), 5);
    assert!(rt;
        matches!(
            &lines.next(),
            Ok(Some(Event::Set {
                cpu: 7,
                change: RegChange::Ac(true)
            }))
        )
    );
    assert!(rt;
        matches!(
            &lines.next(),
            Ok(Some(Event::Invlpg {
                cpu: 7,
                address: 0xffff_8000_0000_0000
            }))
        )
    );
    assert!(rt;
        matches!(
            &lines.next(),
            Ok(Some(Event::Invpcid {
                cpu: 7,
                kind: 3,
                pcid: 0,
                address: 0
            }))
        )
    );
    assert!(rt;
        matches!(
            &lines.next(),
            Ok(Some(Event::Ask {
                cpu: 7,
                access: Access::Iw,
                pointer: u64::MAX
            }))
        )
    );
    assert!(rt; matches!(&lines.next(), Ok(Some(Event::List { cpu: 7 }))));
    assert!(rt; matches!(&lines.next(), Ok(Some(Event::Point { all: true }))));
    assert_eq!(rt; lines.line(), 11);
    assert!(rt; matches!(&lines.next(), Ok(None)));
    Ok(())
}

#[test]
fn refuses_lines_for_good(rt: HostRuntime) -> Result<(), Fail> {
    let bad: [&[u8]; 8] = [
        b"list 0\n list 0\n",
        b"list 0\nlist  0\n",
        b"list 0\nlist 0 \n",
        b"list 0\nlist 0\r\n",
        b"list 0\nlist 4294967296\n",
        b"list 0\nset 0 ac 2\n",
        b"list 0\nwrite 0 123\n",
        b"list 0\npoint ALL\n",
    ];
    for log in bad {
        let mut lines = Lines::new(rt.alloc());
        lines.feed(log)?;
        assert!(rt; matches!(&lines.next(), Ok(Some(Event::List { cpu: 0 }))));
        assert!(rt; matches!(&lines.next(), Err(LineFault::Syntax)), "{log:?}");
        assert!(rt; matches!(&lines.next(), Err(LineFault::Syntax)));
        assert_eq!(rt; lines.line(), 2);
        let wanted = "1 Ok(Some(List { cpu: 0 }))\n2 Err(Syntax)\n2\n";
        check_cuts(&rt, rt.alloc(), log, wanted)?;
    }
    Ok(())
}

/// The next event, whatever comes of it.
fn next(lines: &mut Lines) -> Result<Option<Event>, LineFault>
    ensures { lines.new.finished ≡ lines.old.finished }
{
    lines.next()
}

/// What the lines give that have come to their end, each with its number; whether none of them is refused.
fn put_all(lines: &mut Lines, text: &mut String) -> Result<bool, Fail>
    ensures { lines.new.finished ≡ lines.old.finished }
{
    for _ in 0..u64::MAX {
        let read = next(lines);
        if let Ok(None) = &read {
            return Ok(true);
        }
        let number = lines.line();
        writeln!(text, "{number} {read:?}")?;
        if read.is_err() {
            break;
        }
    }
    Ok(false)
}

/// What a log gives that is fed in these pieces, up to a refusal, and the number of the last line.
fn read_pieces(alloc: Global, pieces: &[&[u8]]) -> Result<String, Fail> {
    let mut lines = Lines::new(alloc);
    let mut text = String::new(alloc);
    let mut going = true;
    for piece in pieces {
        if going {
            lines.feed(piece)?;
            going = put_all(&mut lines, &mut text)?;
        }
    }
    if going {
        lines.finish();
        put_all(&mut lines, &mut text)?;
    }
    let number = lines.line();
    writeln!(text, "{number}")?;
    Ok(text)
}

/// Feeds a log in pieces of several sizes, and then in two, cut at each place.
fn check_cuts(rt: &impl Abort, alloc: Global, log: &[u8], wanted: &str) -> Result<(), Fail> {
    for size in [1, 2, 3, 7, 8301] {
        let pieces: Vec<&[u8]> = log.chunks(size).collect(alloc)?;
        let text = read_pieces(alloc, &pieces)?;
        assert_eq!(rt; text.as_str(), wanted, "pieces of {size} bytes");
    }
    for cut in 0..log.len() {
        let text = read_pieces(alloc, &[&log[..cut], &log[cut..]])?;
        assert_eq!(rt; text.as_str(), wanted, "cut at {cut}");
    }
    Ok(())
}

#[test]
fn reads_alike_however_it_is_cut(rt: HostRuntime) -> Result<(), Fail> {
    let rows: [(&[u8], &str); 7] = [
        (b"", "0\n"),
        (b"list 1", "1 Ok(Some(List { cpu: 1 }))\n1\n"),
        (b"list 1\n\n", "1 Ok(Some(List { cpu: 1 }))\n2\n"),
        (b"list 1\r\nlist 2\n", "1 Err(Syntax)\n1\n"),
        (
            b"#\0\r\0\n\nlist 1\nlist \0",
            "3 Ok(Some(List { cpu: 1 }))\n4 Err(Syntax)\n4\n",
        ),
        (b"\0", "1 Err(Syntax)\n1\n"),
        (
            b"ask 7 iw 0x10\n#\npoint current\ninvlpg 0x7 18",
            "1 Ok(Some(Ask { cpu: 7, access: Iw, pointer: 16 }))\n\
            3 Ok(Some(Point { all: false }))\n\
            4 Ok(Some(Invlpg { cpu: 7, address: 18 }))\n4\n",
        ),
    ];
    for (log, wanted) in rows {
        check_cuts(&rt, rt.alloc(), log, wanted)?;
    }
    let whole = read_pieces(rt.alloc(), &[LOG])?;
    check_cuts(&rt, rt.alloc(), LOG, whole.as_str())
}

/// Logs of several events each, as they are written about tables, registers and invalidations.
const LOGS: [&[u8]; 12] = [
    b"write 0x3000 e720400000000000\nask 0 ur 0x1234\nwrite 0x3000 e620400000000000\n\
      ask 0 ur 0x1234\nwrite 0x3000 e710400000000000\nask 0 ur 0x1234\n",
    b"write 0x4000 0750000000000018\nset 0 cr4 0x400020\nset 0 pkru 0x40\nlist 0\n\
      set 0 pkru 0x80\nset 0 cr0 0x80000001\nask 0 uw 0x0\nask 0 sw 0x0\nlist 0\n",
    b"set 0 cr3 0x4000000000001000\nask 0 ur 0x7fff000000000000\nask 0 ux 0x7fff000000000000\n",
    b"set 0 cr4 0x8000020\nask 0 sx 0x0\nask 0 ux 0x0\nask 0 ur 0xffff800000000000\nlist 0\n",
    b"write 0x1800 0710000000000000\nlist 0\nwrite 0x3008 0740000000000000\nlist 0\n",
    b"cpu 1 0x80010001 0x1000 0x20 0xd00 0x2 0x0 0x0\nwrite 0x4000 0000000000000000\n\
      point current\ninvlpg 0 0x0\npoint current\n",
    b"write 0x3000 0000000000000000\nwrite 0x4010 0770000000000000\npoint current\n\
      invlpg 0 0x9000\npoint current\ninvlpg 0 0x2000\npoint current\n",
    b"set 0 cr4 0x20020\nset 0 cr3 0x1001\nset 0 cr3 0x8000000000008002\n\
      write 0x4000 0000000000000000\npoint current\npoint all\ninvpcid 0 1 1 0x0\npoint all\n",
    b"machine 46 1\ncpu 0 0x80050033 0x1006 0x370ee0 0xd01 0x246 0x55555554 0x0\n\
      ask 0 ur 0x0\nask 0 sr 0x0\nlist 0\nset 0 cr3 0x8006\nask 0 ur 0x0\n",
    b"write 0x1ffc 0102030405060708\nwrite 0xfffc 0011223344556677\ninvpcid 0 4 0 0x0\n\
      invpcid 0 0 0 0x800000000000\nask 0  ur 0x0\n",
    b"write 0x4000 0350000000000000\nask 0 ur 0x0\nset 0 efer 0x500\nset 0 pkrs 0\nask 0 ir 0x0\n",
    b"# note\n\nask 0 ur 0xfff",
];

#[test]
fn reads_logs_of_many_events_however_they_are_cut(rt: HostRuntime) -> Result<(), Fail> {
    for log in LOGS {
        let whole = read_pieces(rt.alloc(), &[log])?;
        check_cuts(&rt, rt.alloc(), log, whole.as_str())?;
    }
    Ok(())
}

#[test]
fn reads_long_lines_however_they_are_cut(rt: HostRuntime) -> Result<(), Fail> {
    for (length, wanted) in [
        (8300, "2 Ok(Some(List { cpu: 3 }))\n2\n"),
        (8301, "1 Err(TooLong)\n1\n"),
    ] {
        let mut log = vec![in rt.alloc(); b'#'; length]?;
        log.extend_from_slice(b"\nlist 3\n")?;
        check_cuts(&rt, rt.alloc(), &log, wanted)?;
    }
    Ok(())
}

#[test]
fn refuses_a_long_line_before_its_end(rt: HostRuntime) -> Result<(), Fail> {
    for (length, long) in [(8300, false), (8301, true)] {
        let comment = vec![in rt.alloc(); b'#'; length]?;
        let mut lines = Lines::new(rt.alloc());
        lines.feed(&comment)?;
        assert_eq!(rt; matches!(&lines.next(), Err(LineFault::TooLong)), long);
        assert_eq!(rt; lines.line(), u64::from(long));
        lines.finish();
        assert_eq!(rt; matches!(&lines.next(), Err(LineFault::TooLong)), long);
        assert_eq!(rt; lines.line(), 1);
    }
    Ok(())
}

#[test]
fn spells_numbers_and_accesses(rt: HostRuntime) {
    assert_eq!(rt; number(b"0xFFFFffffFFFFffff"), Some(u64::MAX));
    assert_eq!(rt; number(b"18446744073709551616"), None);
    assert_eq!(rt; number(b"0X1"), None);
    assert_eq!(rt; kind(b"sx"), Some(Access::Sx));
    assert_eq!(rt; kind(b"ix"), None);
}

// Cases for the three hosts and for finding texts.
use crate::Counter;
use bytecode::stop::HostFault;
use host::Host;
use host::call::{Argument, Call, Reply};
use host::drive::Drive;
use host::line::Line;
use host::text::{Text, find_text};

const REFERENCE: Argument = Argument::Reference { null: false };

const NULL: Argument = Argument::Reference { null: true };

// A stop with a code.
fn stop(code: u32) -> Reply {
    Reply::Stop(HostFault { code })
}

// A reply to a call without texts.
fn ask<H: Host>(host: &mut H, index: u16, arguments: &[Argument]) -> Reply {
    host.call(Call {
        index,
        arguments,
        first: Text::NONE,
        second: Text::NONE,
    })
}

fn print(line: &mut Line<'_>, bytes: &[u8]) -> Reply {
    line.call(Call {
        index: 16,
        arguments: &[REFERENCE],
        first: find_text(bytes, 0),
        second: Text::NONE,
    })
}

fn pick<'x>(line: &mut Line<'_>, first: &'x [u8], second: &'x [u8]) -> Reply {
    line.call(Call {
        index: 18,
        arguments: &[REFERENCE, NULL],
        first: find_text(first, 0),
        second: find_text(second, 0),
    })
}

fn print_int(line: &mut Line<'_>, word: u32) -> Reply {
    ask(line, 17, &[Argument::Word(word)])
}

#[test]
fn drive_words(rt: HostRuntime) {
    let mut drive = Drive::new();
    assert_eq!(rt; ask(&mut drive, 0, &[Argument::Word(31)]), Reply::Word(0));
    assert_eq!(rt;
        ask(&mut drive, 1, &[Argument::Word(31), Argument::Word(7)]),
        Reply::Word(0)
    );
    assert_eq!(rt;
        ask(&mut drive, 1, &[Argument::Word(31), Argument::Word(8)]),
        Reply::Word(7)
    );
    assert_eq!(rt; ask(&mut drive, 0, &[Argument::Word(31)]), Reply::Word(8));
    assert_eq!(rt; drive.words().len(), 32);
}

#[test]
fn drive_index_outside(rt: HostRuntime) {
    let mut drive = Drive::new();
    assert_eq!(rt; ask(&mut drive, 0, &[Argument::Word(32)]), stop(1));
    assert_eq!(rt; ask(&mut drive, 0, &[Argument::Word(0xFFFF_FFFF)]), stop(1));
    assert_eq!(rt;
        ask(&mut drive, 1, &[Argument::Word(32), Argument::Word(5)]),
        stop(1)
    );
}

#[test]
fn drive_misfits(rt: HostRuntime) {
    let mut drive = Drive::new();
    assert_eq!(rt; ask(&mut drive, 0, &[REFERENCE]), stop(0));
    assert_eq!(rt; ask(&mut drive, 0, &[]), stop(0));
    assert_eq!(rt; ask(&mut drive, 1, &[Argument::Word(0)]), stop(0));
    assert_eq!(rt; ask(&mut drive, 1, &[Argument::Word(0), NULL]), stop(0));
    assert_eq!(rt; ask(&mut drive, 2, &[Argument::Word(0)]), stop(0));
    assert!(rt; drive.signature(2).is_none());
}

#[test]
fn line_print(rt: HostRuntime) {
    let mut room = [0; 5];
    let mut line = Line::new(&mut room);
    assert_eq!(rt; print(&mut line, b"hi"), Reply::Word(0));
    assert_eq!(rt; print(&mut line, b"four"), stop(3));
    assert_eq!(rt; print(&mut line, b"abc"), Reply::Word(0));
    assert_eq!(rt; print(&mut line, b""), Reply::Word(0));
    assert_eq!(rt; print(&mut line, b"x"), stop(3));
    assert_eq!(rt; ask(&mut line, 16, &[NULL]), Reply::Word(0));
    assert_eq!(rt; line.written(), b"hiabc".as_slice());
}

#[test]
fn line_numbers(rt: HostRuntime) {
    let mut room = [0; 16];
    let mut line = Line::new(&mut room);
    assert_eq!(rt; print_int(&mut line, 0x8000_0000), Reply::Word(0));
    assert_eq!(rt; print_int(&mut line, 0), Reply::Word(0));
    assert_eq!(rt; print_int(&mut line, 0xFFFF_FFF9), Reply::Word(0));
    assert_eq!(rt; print_int(&mut line, 1000), stop(3));
    assert_eq!(rt; print_int(&mut line, 90), Reply::Word(0));
    assert_eq!(rt; line.written(), b"-21474836480-790".as_slice());
}

#[test]
fn line_pick(rt: HostRuntime) {
    let mut room = [0; 1];
    let mut line = Line::new(&mut room);
    assert_eq!(rt; pick(&mut line, b"ab", b"cd"), Reply::Argument(0));
    assert_eq!(rt; pick(&mut line, b"ab", b"cde"), Reply::Argument(1));
    assert_eq!(rt; pick(&mut line, b"abc", b""), Reply::Argument(0));
    assert_eq!(rt; ask(&mut line, 18, &[NULL]), stop(0));
    assert_eq!(rt; ask(&mut line, 17, &[NULL]), stop(0));
}

#[test]
fn counter_adds(rt: HostRuntime) {
    let mut counter = Counter { sum: 40 };
    assert_eq!(rt; ask(&mut counter, 7, &[Argument::Word(2)]), Reply::Word(42));
    assert_eq!(rt; ask(&mut counter, 7, &[NULL]), stop(0));
    assert_eq!(rt; ask(&mut counter, 8, &[Argument::Word(2)]), stop(0));
    assert_eq!(rt; counter.sum, 42);
}

#[test]
fn texts(rt: HostRuntime) {
    let strings = b"one\0\0two\0";
    assert_eq!(rt; find_text(strings, 0).bytes, b"one".as_slice());
    assert_eq!(rt; find_text(strings, 2).bytes, b"e".as_slice());
    assert_eq!(rt; find_text(strings, 4).bytes.len(), 0);
    assert_eq!(rt; find_text(strings, 5).bytes, b"two".as_slice());
    assert_eq!(rt; find_text(strings, 9).bytes.len(), 0);
}

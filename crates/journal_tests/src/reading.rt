//! Journals as they are read.
ghost use Rattle.std.specs.Prelude.{◌≤◌, length};
ghost use Rattle.std.specs.Option.{ForSome};
ghost use Rattle.run_journal.specs.Spelling.{cpu_of, bytes_of};

use poke_base::{Line, code_bytes, put_text};
use run_journal::{BadLine, Event, HEADER, Reader, line_of};
use std::process::Abort;

/// Checks that the journal of one event is read as this event, and then ends.
fn check_read_back(rt: &impl Abort, event: Event)
    requires cpu { ForSome (cpu_of event) (λ cpu. cpu ≤ 15) }
    requires bytes { ForSome (bytes_of event) (λ bytes. 1 ≤ length bytes) }
{
    let mut line = Line::new();
    line_of(&event, &mut line);
    let mut text = Line::new();
    put_text(&mut text, HEADER);
    put_text(&mut text, &line);
    let mut reader = Reader::new(&text);
    assert_eq!(rt; reader.line(), 0);
    assert_eq!(rt; reader.next(), Ok(Some(event)));
    assert_eq!(rt; reader.line(), 2);
    assert_eq!(rt; reader.next(), Ok(None));
    assert_eq!(rt; reader.line(), 2);
}

#[test]
fn events_are_read_back(rt: HostRuntime) {
    check_read_back(&rt, Event::Begin);
    check_read_back(&rt, Event::Write);
    check_read_back(&rt, Event::Request);
    check_read_back(&rt, Event::Return);
    for cpu in 0..16 {
        check_read_back(&rt, Event::Take(cpu));
        check_read_back(&rt, Event::Plain(cpu));
        check_read_back(&rt, Event::At(cpu, code_bytes(0xcc, &[])));
        check_read_back(&rt, Event::Handle(cpu));
        check_read_back(&rt, Event::Tick(cpu));
    }
    check_read_back(&rt, Event::At(15, code_bytes(0x0f, &[0x1f, 0x44, 0, 0])));
    check_read_back(
        &rt,
        Event::At(
            3,
            code_bytes(0xab, &[0xcd, 0xef, 0x09, 0x90, 0xa0, 0x0a, 0xff, 0]),
        ),
    );
}

#[test]
fn a_journal_is_read_to_its_end(rt: HostRuntime) {
    let text: &[u8] = b"journal 1\nb\nw\ns\nt 0\nh 15\na 10 0f1f4400000f1f4400\np 9\ni 2\nr\n";
    let mut reader = Reader::new(text);
    assert_eq!(rt; reader.line(), 0);
    assert_eq!(rt; reader.next(), Ok(Some(Event::Begin)));
    assert_eq!(rt; reader.line(), 2);
    assert_eq!(rt; reader.next(), Ok(Some(Event::Write)));
    assert_eq!(rt; reader.line(), 3);
    assert_eq!(rt; reader.next(), Ok(Some(Event::Request)));
    assert_eq!(rt; reader.next(), Ok(Some(Event::Take(0))));
    assert_eq!(rt; reader.next(), Ok(Some(Event::Handle(15))));
    assert_eq!(rt; reader.line(), 6);
    let nop9 = code_bytes(0x0f, &[0x1f, 0x44, 0, 0, 0x0f, 0x1f, 0x44, 0]);
    assert_eq!(rt; reader.next(), Ok(Some(Event::At(10, nop9))));
    assert_eq!(rt; reader.line(), 7);
    assert_eq!(rt; reader.next(), Ok(Some(Event::Plain(9))));
    assert_eq!(rt; reader.next(), Ok(Some(Event::Tick(2))));
    assert_eq!(rt; reader.next(), Ok(Some(Event::Return)));
    assert_eq!(rt; reader.line(), 10);
    assert_eq!(rt; reader.next(), Ok(None));
    assert_eq!(rt; reader.line(), 10);
    assert_eq!(rt; reader.next(), Ok(None));
    assert_eq!(rt; reader.line(), 10);
}

#[test]
fn a_journal_may_have_no_events(rt: HostRuntime) {
    let mut reader = Reader::new(HEADER);
    assert_eq!(rt; reader.line(), 0);
    assert_eq!(rt; reader.next(), Ok(None));
    assert_eq!(rt; reader.line(), 1);
    assert_eq!(rt; reader.next(), Ok(None));
    assert_eq!(rt; reader.line(), 1);
}

#[test]
fn other_headers_are_refused(rt: HostRuntime) {
    let texts: [&[u8]; 12] = [
        b"",
        b"\n",
        b"b\n",
        b"journal 1",
        b"journal 1 \n",
        b"journal 1\r\n",
        b"journal 01\n",
        b"journal 2\n",
        b"journal  1\n",
        b" journal 1\n",
        b"Journal 1\n",
        b"journal\n1\n",
    ];
    for text in texts {
        let mut reader = Reader::new(text);
        assert_eq!(rt; reader.next(), Err(BadLine { line: 1 }));
        assert_eq!(rt; reader.line(), 0);
        assert_eq!(rt; reader.next(), Err(BadLine { line: 1 }));
        assert_eq!(rt; reader.line(), 0);
    }
}

/// Checks that the second line of a journal is refused, each time.
fn check_bad(rt: &impl Abort, text: &[u8]) {
    let mut reader = Reader::new(text);
    assert_eq!(rt; reader.next(), Err(BadLine { line: 2 }));
    assert_eq!(rt; reader.line(), 0);
    assert_eq!(rt; reader.next(), Err(BadLine { line: 2 }));
    assert_eq!(rt; reader.line(), 0);
}

#[test]
fn words_of_lines_are_exact(rt: HostRuntime) {
    let texts: [&[u8]; 24] = [
        b"journal 1\n\n",
        b"journal 1\nb",
        b"journal 1\nb\r\n",
        b"journal 1\nx\n",
        b"journal 1\nB\n",
        b"journal 1\nb \n",
        b"journal 1\n b\n",
        b"journal 1\nb 1\n",
        b"journal 1\nbb\n",
        b"journal 1\nt\n",
        b"journal 1\nt \n",
        b"journal 1\nt1\n",
        b"journal 1\nt  1\n",
        b"journal 1\nt\t1\n",
        b"journal 1\nt 1 \n",
        b"journal 1\nt 1",
        b"journal 1\nt 1 cc\n",
        b"journal 1\nt 16\n",
        b"journal 1\nt 99\n",
        b"journal 1\nt 01\n",
        b"journal 1\nt 00\n",
        b"journal 1\nt +1\n",
        b"journal 1\nt -1\n",
        b"journal 1\nt 18446744073709551617\n",
    ];
    for text in texts {
        check_bad(&rt, text);
    }
}

#[test]
fn bytes_of_fetches_are_exact(rt: HostRuntime) {
    let texts: [&[u8]; 16] = [
        b"journal 1\na\n",
        b"journal 1\na 1\n",
        b"journal 1\na 1 \n",
        b"journal 1\na cc\n",
        b"journal 1\na 1 c\n",
        b"journal 1\na 1 ccc\n",
        b"journal 1\na 1 CC\n",
        b"journal 1\na 1 cC\n",
        b"journal 1\na 1 gg\n",
        b"journal 1\na 1  cc\n",
        b"journal 1\na 1 cc \n",
        b"journal 1\na 1 cc cc\n",
        b"journal 1\na 16 cc\n",
        b"journal 1\na 01 cc\n",
        b"journal 1\na 1 cc",
        b"journal 1\na 1 0f1f4400000f1f440000\n",
    ];
    for text in texts {
        check_bad(&rt, text);
    }
}

#[test]
fn the_number_of_a_bad_line_counts_the_header(rt: HostRuntime) {
    let mut reader = Reader::new(b"journal 1\nb\nw\nt 16\nw\n");
    assert_eq!(rt; reader.next(), Ok(Some(Event::Begin)));
    assert_eq!(rt; reader.next(), Ok(Some(Event::Write)));
    assert_eq!(rt; reader.line(), 3);
    assert_eq!(rt; reader.next(), Err(BadLine { line: 4 }));
    assert_eq!(rt; reader.line(), 3);
    assert_eq!(rt; reader.next(), Err(BadLine { line: 4 }));
    assert_eq!(rt; reader.line(), 3);
}

/// Reads a journal to its end, or to its first bad line. How many lines were taken.
fn read_all(text: &[u8]) -> Result<u64, BadLine> {
    let mut reader = Reader::new(text);
    for _ in 0..text.len() {
        if reader.next()?.is_none() {
            return Ok(reader.line());
        }
    }
    Ok(0)
}

#[test]
fn a_journal_that_is_cut_ends_at_a_line_or_is_refused(rt: HostRuntime) {
    let text: &[u8] = b"journal 1\nb\nt 0\na 10 0f1f440000\nr\n";
    for len in 10..=text.len() {
        let (cut, _) = text.split_at(len);
        let whole = cut.iter().filter(|byte| **byte == b'\n').count() as u64;
        if cut.ends_with(b"\n") {
            assert_eq!(rt; read_all(cut), Ok(whole));
        } else {
            assert!(rt; whole < 5);
            assert_eq!(rt; read_all(cut), Err(BadLine { line: whole + 1 }));
        }
    }
}

// Examples of the lines of a book's session.
use session::book::parse;
use session::book_item::{BanLine, BookItem, FrameLine, GridLine};
use session::error::LineError;
use session::fault::LineFault;
use std::test::Fail;

#[test]
fn lines_that_say_something(rt: HostRuntime) -> Result<(), Fail> {
    for line in ["", " \t\r", "  # read 58"] {
        assert_eq!(rt;
            parse(rt.alloc(), line.as_bytes())?,
            BookItem::Nothing,
            "{line}"
        );
    }
    let frame = vec![in rt.alloc(); 0x58, 0xff]?;
    assert_eq!(rt;
        parse(rt.alloc(), b"\tread  58fF # an X\r")?,
        BookItem::Read(frame)
    );
    let frame = vec![in rt.alloc(); 0x58]?;
    assert_eq!(rt; parse(rt.alloc(), b"read 58#")?, BookItem::Read(frame));
    let frame = vec![in rt.alloc()]?;
    assert_eq!(rt; parse(rt.alloc(), b"read -\r")?, BookItem::Read(frame));
    Ok(())
}

#[test]
fn bans_with_clients(rt: HostRuntime) -> Result<(), Fail> {
    for (line, first, second) in [
        ("ban 0 4294967295", 0, u32::MAX),
        ("ban 0000000000000000000000001 010", 1, 10),
    ] {
        let ban = BookItem::Ban(BanLine { first, second });
        assert_eq!(rt; parse(rt.alloc(), line.as_bytes())?, ban, "{line}");
    }
    Ok(())
}

#[test]
fn grids_with_categories(rt: HostRuntime) -> Result<(), Fail> {
    for (line, depth, category, other, meets) in [
        ("grid 255 0 7 1", 255, 0, 7, true),
        ("grid 0 7 255 0", 0, 7, 255, false),
    ] {
        let grid = BookItem::Grid(GridLine {
            depth,
            category,
            other,
            meets,
        });
        assert_eq!(rt; parse(rt.alloc(), line.as_bytes())?, grid, "{line}");
    }
    Ok(())
}

#[test]
fn frames_with_numbers(rt: HostRuntime) -> Result<(), Fail> {
    let small = BookItem::Frame(FrameLine {
        clock: 7,
        places: 12,
        client: 3,
        category: 9,
        bytes: vec![in rt.alloc(); 0x58, 0xff]?,
    });
    assert_eq!(rt; parse(rt.alloc(), b"frame 7 12 3 9 58fF")?, small);
    let largest = BookItem::Frame(FrameLine {
        clock: u64::MAX,
        places: usize::MAX,
        client: u32::MAX,
        category: u8::MAX,
        bytes: vec![in rt.alloc()]?,
    });
    let line = b"frame 18446744073709551615 18446744073709551615 4294967295 255 -";
    assert_eq!(rt; parse(rt.alloc(), line)?, largest);
    Ok(())
}

#[test]
fn lines_that_are_wrong(rt: HostRuntime) -> Result<(), Fail> {
    for (line, fault) in [
        ("Read 58", LineFault::UnknownItem),
        ("reads 58", LineFault::UnknownItem),
        ("read # 58", LineFault::MissingWord),
        ("read 58 58", LineFault::ExtraWord),
        ("read 5x", LineFault::BadDigit),
        ("read 5g", LineFault::BadDigit),
        ("read G00", LineFault::BadDigit),
        ("read 0/", LineFault::BadDigit),
        ("read --", LineFault::BadDigit),
        ("read 585", LineFault::OddDigits),
        ("frame 18446744073709551616 1 1 1 -", LineFault::BadNumber),
        ("frame 1 18446744073709551616 1 1 -", LineFault::BadNumber),
        ("frame 1 1 4294967296 1 -", LineFault::BadNumber),
        ("frame 1 1 1 256 -", LineFault::BadNumber),
        ("frame 1 1 1 1", LineFault::MissingWord),
        ("frame 1 1 1 1 58 58", LineFault::ExtraWord),
        ("frame 1 1 1 1 5x", LineFault::BadDigit),
        ("ban 1 4294967296", LineFault::BadNumber),
        ("ban +1 2", LineFault::BadNumber),
        ("ban - 2", LineFault::BadNumber),
        ("ban 1", LineFault::MissingWord),
        ("ban 1 x 3", LineFault::ExtraWord),
        ("grid 1 1 256 1", LineFault::BadNumber),
        ("grid 1 1 1 2", LineFault::BadNumber),
        ("grid 1 1 1 01", LineFault::BadNumber),
        ("grid 1 x", LineFault::BadNumber),
        ("grid 1 1 1 1 1", LineFault::ExtraWord),
    ] {
        let answer = parse(rt.alloc(), line.as_bytes());
        assert_eq!(rt; answer, Err(LineError::Fault(fault)), "{line}");
    }
    Ok(())
}

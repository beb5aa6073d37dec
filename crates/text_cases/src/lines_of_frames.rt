// Examples of the lines of a session that has frames alone.
use session::error::LineError;
use session::fault::LineFault;
use session::line::{Item, parse};
use std::test::Fail;

#[test]
fn lines_that_say_something(rt: HostRuntime) -> Result<(), Fail> {
    for line in ["", " \t\r", "  # read 58"] {
        assert_eq!(rt;
            parse(rt.alloc(), line.as_bytes())?,
            Item::Nothing,
            "{line}"
        );
    }
    let frame = vec![in rt.alloc(); 0x58, 0xff]?;
    assert_eq!(rt;
        parse(rt.alloc(), b"\tread  58fF # an X\r")?,
        Item::Read(frame)
    );
    let frame = vec![in rt.alloc(); 0x58]?;
    assert_eq!(rt; parse(rt.alloc(), b"read 58#")?, Item::Read(frame));
    let frame = vec![in rt.alloc()]?;
    assert_eq!(rt; parse(rt.alloc(), b"read -\r")?, Item::Read(frame));
    Ok(())
}

#[test]
fn lines_that_are_wrong(rt: HostRuntime) -> Result<(), Fail> {
    for (line, fault) in [
        ("Read 58", LineFault::UnknownItem),
        ("reads 58", LineFault::UnknownItem),
        ("read # 58", LineFault::MissingWord),
        ("read 58 58", LineFault::ExtraWord),
        ("read 5x", LineFault::BadDigit),
        ("read 585", LineFault::OddDigits),
        ("read --", LineFault::BadDigit),
    ] {
        let answer = parse(rt.alloc(), line.as_bytes());
        assert_eq!(rt; answer, Err(LineError::Fault(fault)), "{line}");
    }
    Ok(())
}

// Examples of digits.
use session::error::LineError;
use session::fault::LineFault;
use session::hex::{decode, encode};
use std::test::Fail;

#[test]
fn digits_of_both_cases(rt: HostRuntime) -> Result<(), Fail> {
    let bytes = vec![in rt.alloc(); 0x09, 0xaf, 0xaf]?;
    assert_eq!(rt; decode(rt.alloc(), b"09afAF")?, bytes);
    assert_eq!(rt; decode(rt.alloc(), b"")?, vec![in rt.alloc()]?);
    assert_eq!(rt; encode(rt.alloc(), &[0x09, 0xaf, 0xc0])?.as_str(), "09afc0");
    Ok(())
}

#[test]
fn digits_that_are_wrong(rt: HostRuntime) -> Result<(), Fail> {
    for (digits, fault) in [
        ("0a0", LineFault::OddDigits),
        ("0g", LineFault::BadDigit),
        ("G00", LineFault::BadDigit),
        ("0/", LineFault::BadDigit),
    ] {
        let answer = decode(rt.alloc(), digits.as_bytes());
        assert_eq!(rt; answer, Err(LineError::Fault(fault)), "{digits}");
    }
    Ok(())
}

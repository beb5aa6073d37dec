// Examples of prices and texts.
use crate::price::PriceWords;
use crate::text::TextWords;
use std::test::Fail;

#[test]
fn prices_in_dollars(rt: HostRuntime) -> Result<(), Fail> {
    for (price, words) in [
        (462800, "46.2800"),
        (1, "0.0001"),
        (0, "0.0000"),
        (-100, "-0.0100"),
        (i32::MIN, "-214748.3648"),
        (i32::MAX, "no limit"),
    ] {
        assert_eq!(rt; PriceWords(price).to_string(rt.alloc())?.as_str(), words);
    }
    Ok(())
}

#[test]
fn texts_for_display(rt: HostRuntime) -> Result<(), Fail> {
    let cases: [(&[u8], &str); 4] = [
        (b"IBM   ", "IBM"),
        (b" A B  ", " A B"),
        (b"A\\\x00\xff~", "A\\x5c\\x00\\xff~"),
        (b"    ", "(blank)"),
    ];
    for (text, words) in cases {
        assert_eq!(rt; TextWords(text).to_string(rt.alloc())?.as_str(), words);
    }
    Ok(())
}

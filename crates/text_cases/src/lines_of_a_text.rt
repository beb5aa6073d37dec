// Examples of texts cut into lines.
use session::file::Lines;
use std::test::Fail;

#[test]
fn texts_of_lines(rt: HostRuntime) -> Result<(), Fail> {
    let cases: [(&str, &[&str]); 7] = [
        ("", &[]),
        ("\n", &[""]),
        ("one", &["one"]),
        ("one\n", &["one"]),
        ("one\ntwo", &["one", "two"]),
        ("one\r\ntwo\n", &["one\r", "two"]),
        ("\none\n\n\ntwo\n\n", &["", "one", "", "", "two", ""]),
    ];
    for (text, lines) in cases {
        let cut = Lines::of(text.as_bytes());
        let own = lines.iter().map(|line| line.as_bytes());
        assert!(rt; cut.eq(own), "{text:?}");
    }
    Ok(())
}

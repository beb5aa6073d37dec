// Words of the command line.
use crate::{Options, Output};
use std::test::Fail;

#[test]
fn lines_and_a_file(rt: HostRuntime) -> Result<(), Fail> {
    let options = Options::default()
        .with(String::from_str(rt.alloc(), "--lines")?)?
        .with(String::from_str(rt.alloc(), "session.txt")?)?;
    assert_eq!(rt; options.output, Output::Lines);
    let path = options.path.ok_or("no file")?;
    assert_eq!(rt; path.as_str(), "session.txt");
    Ok(())
}

#[test]
fn words_that_are_not_taken(rt: HostRuntime) -> Result<(), Fail> {
    for (word, text) in [
        ("-x", "unknown option -x"),
        ("-", "unknown option -"),
        ("other.txt", "more than one file: other.txt"),
    ] {
        let options = Options::default().with(String::from_str(rt.alloc(), "session.txt")?)?;
        let answer = options.with(String::from_str(rt.alloc(), word)?);
        let fault = answer.err().ok_or("the word is taken")?;
        assert_eq!(rt; fault.to_string(rt.alloc())?.as_str(), text);
    }
    Ok(())
}

// The lines that engines are compared by.
use std::test::Fail;
use words::lines::ReadLine;

#[test]
fn a_frame_has_its_line(rt: HostRuntime) -> Result<(), Fail> {
    let cases: [(&[u8], &str); 5] = [
        (
            b"XABCDEFGHIJKLMN\x00\x00\x00\x00",
            "read 584142434445464748494a4b4c4d4e00000000",
        ),
        (b"", "refused 11"),
        (b"XABCDEFGHIJKLMN\x00\x00\x00", "refused 11"),
        (b"x", "refused 12"),
        (b"XABCDEFGHIJKLMN\x00\x00\x00\x01", "refused 13 15"),
    ];
    for (frame, line) in cases {
        let answer = ReadLine(frame).to_string(rt.alloc())?;
        assert_eq!(rt; answer.as_str(), line);
    }
    Ok(())
}

// The lines that engines are compared by.
use std::test::Fail;
use words::lines::ReadLine;

// A frame, and the line that answers it.
#[derive(Clone, Copy)]
struct Case {
    frame: &'static [u8],
    line: &'static str,
}

#[test]
fn a_frame_has_its_line(rt: HostRuntime) -> Result<(), Fail> {
    let table = [
        Case {
            frame: b"XABCDEFGHIJKLMN\x00\x00\x00\x00",
            line: "read 584142434445464748494a4b4c4d4e00000000",
        },
        Case {
            frame: b"",
            line: "refused 11",
        },
        Case {
            frame: b"XABCDEFGHIJKLMN\x00\x00\x00",
            line: "refused 11",
        },
        Case {
            frame: b"x",
            line: "refused 12",
        },
        Case {
            frame: b"XABCDEFGHIJKLMN\x00\x00\x00\x01",
            line: "refused 13 15",
        },
    ];
    for Case { frame, line } in table {
        let answer = ReadLine(frame).to_string(rt.alloc())?;
        assert_eq!(rt; answer.as_str(), line);
    }
    Ok(())
}

// What the writers owe the host's buffer.
use std::fmt::Display;
use std::process::Abort;

// What a buffer holds before a message is written to it.
pub(crate) const UNTOUCHED: u8 = 0xEE;

// The buffer holds the message, and past it nothing is touched. What fails names the case, here and in what stands on it.
pub(crate) fn holds(rt: &impl Abort, buffer: &[u8], message: &[u8], case: &impl Display) {
    let Some(rest) = buffer.strip_prefix(message) else {
        panic!(rt; "{case}: another message");
    };
    assert!(rt;
        rest.iter().all(|byte| *byte == UNTOUCHED),
        "{case}: past the message"
    );
}

// A buffer that is too short is refused by the number 31 and left alone, and any other holds the message, whose length is answered.
pub(crate) fn written(
    rt: &impl Abort,
    answer: Result<usize, u32>,
    buffer: &[u8],
    message: &[u8],
    case: &impl Display,
) {
    match answer {
        Ok(length) => {
            assert_eq!(rt; length, message.len(), "{case}");
            assert!(rt; length <= buffer.len(), "{case}");
            holds(rt, buffer, message, case);
        }
        Err(number) => {
            assert_eq!(rt; number, 31, "{case}");
            assert!(rt; buffer.len() < message.len(), "{case}");
            holds(rt, buffer, b"", case);
        }
    }
}

// The message is written into buffers of 0 to 100 bytes.
pub(crate) fn is_written<F: Fn(&mut [u8]) -> Result<usize, u32>>(
    rt: &impl Abort,
    write: F,
    message: &[u8],
    case: &impl Display,
)
    requires { F.IsAlwaysCallable write }
{
    for n in 0..=100usize {
        let mut buffer = [UNTOUCHED; 100];
        let out = &mut buffer[0..n];
        let answer = write(out);
        let case = format_args!("{case}: a buffer of {n} bytes");
        written(rt, answer, out, message, &case);
    }
}

// Whom a run prints for.
use words::counts::Counts;
use words::examples::AnswerExamples;
use words::frame::SessionFrame;
use words::lines::ReadLine;

pub(crate) trait Audience {
    // A frame, which stands in this line, is read and written back. Each audience reads it in its own way, so that no frame is read twice.
    fn tell_frame(
        &self,
        rt: &HostRuntime,
        counts: &mut Counts,
        line: u64,
        bytes: &[u8],
    ) -> anyhow::Result<()>;

    // What stands below the last frame.
    fn tell_end(&self, rt: &HostRuntime, counts: &Counts) -> anyhow::Result<()>;
}

#[derive(Clone, Copy)]
pub(crate) struct People;

// Engines are compared by a line for each frame.
#[derive(Clone, Copy)]
pub(crate) struct Engines;

// `tell_frame` is not inlined: what it prints with would be cleared for every line.
impl Audience for People {
    #[inline(never)]
    fn tell_frame(
        &self,
        rt: &HostRuntime,
        counts: &mut Counts,
        line: u64,
        bytes: &[u8],
    ) -> anyhow::Result<()> {
        let frame = SessionFrame::read(counts.frames.saturating_add(1), line, bytes);
        counts.note(&frame.answer);
        println!(rt; "{frame}")?;
        Ok(())
    }

    fn tell_end(&self, rt: &HostRuntime, counts: &Counts) -> anyhow::Result<()> {
        print!(rt; "{AnswerExamples}{counts}")?;
        Ok(())
    }
}

impl Audience for Engines {
    #[inline(never)]
    fn tell_frame(
        &self,
        rt: &HostRuntime,
        _counts: &mut Counts,
        _line: u64,
        bytes: &[u8],
    ) -> anyhow::Result<()> {
        let line = ReadLine(bytes);
        println!(rt; "{line}")?;
        Ok(())
    }

    fn tell_end(&self, _rt: &HostRuntime, _counts: &Counts) -> anyhow::Result<()> {
        Ok(())
    }
}

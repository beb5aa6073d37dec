// A whole run, from the words of the command line to the counts.
use crate::audience::{Audience, Engines, People};
use anyhow::anyhow;
use options::{Options, Output};
use session::error::LineError;
use session::fault::LineFault;
use session::file::Lines;
use session::line::{Item, parse};
use std::io::Read;
use std::{env, fs};
use words::counts::Counts;

// Everything public promises something, by a rule of the project, and no contract can say what the environment or a file gives: so this function and the next stand in each program and in no library.
fn options_of(rt: &HostRuntime) -> anyhow::Result<Options> {
    let options = env::args(rt)?
        .skip(1)
        .try_fold(Options::default(), Options::with)?;
    Ok(options)
}

// The session file's text.
fn text_of(rt: &HostRuntime, options: &Options) -> anyhow::Result<Vec<u8>> {
    if let Some(path) = &options.path {
        return fs::read(rt, path.as_str()).map_err(|error| anyhow!("{path}: {error}"));
    }
    let mut text = Vec::new(rt.alloc());
    let _ = rt.stdin().read_to_end(&mut text)?;
    Ok(text)
}

// A run that goes on from line to line. It, its audiences and what chooses them stand in both programs, since what is gathered and told differs, and a run in a library could promise nothing of what it prints.
#[derive(Drop)]
struct Replay<'a, A> {
    rt: &'a HostRuntime,
    audience: A,
    counts: Counts,
}

impl<A: Audience> Replay<'_, A> {
    // A line that is wrong is reported and passed over. Not inlined: what it prints with would be cleared for every line.
    #[inline(never)]
    fn report(&mut self, line: u64, fault: LineFault) -> anyhow::Result<()> {
        eprintln!(self.rt; "line {line}: {fault}")?;
        self.counts.note_fault();
        Ok(())
    }

    fn take_line(&mut self, number: u64, line: &[u8]) -> anyhow::Result<()> {
        match parse(self.rt.alloc(), line) {
            Ok(Item::Nothing) => Ok(()),
            Ok(Item::Read(bytes)) => {
                self.audience
                    .tell_frame(self.rt, &mut self.counts, number, bytes.as_slice())
            }
            Err(LineError::Fault(fault)) => self.report(number, fault),
            Err(LineError::NoMemory(error)) => Err(error.into()),
        }
    }

    fn take_text(&mut self, text: &[u8]) -> anyhow::Result<()> {
        for (number, line) in (1..=u64::MAX).zip(Lines::of(text)) {
            self.take_line(number, line)?;
        }
        self.audience.tell_end(self.rt, &self.counts)
    }
}

fn run_for<A: Audience + Drop>(rt: &HostRuntime, text: &[u8], audience: A) -> anyhow::Result<()> {
    let mut replay = Replay {
        rt,
        audience,
        counts: Counts::default(),
    };
    replay.take_text(text)
}

pub(crate) fn run(rt: &HostRuntime) -> anyhow::Result<()> {
    let options = options_of(rt)?;
    let text = text_of(rt, &options)?;
    match options.output {
        Output::Words => run_for(rt, text.as_slice(), People),
        Output::Lines => run_for(rt, text.as_slice(), Engines),
    }
}

// A whole run, from the words of the command line to the counts.
use crate::audience::Audience;
use crate::engines::Engines;
use crate::gathered::Gathered;
use crate::orders_kept::{MOST_ORDERS, VACANT, keep};
use crate::people::People;
use crate::settings::{BanWords, GridWords};
use anyhow::anyhow;
use keyed::lent::List;
use options::{Options, Output};
use policy::bans::Bans;
use policy::grid::Grid;
use policy::styles::Styles;
use session::book::parse;
use session::book_item::{BanLine, BookItem, FrameLine, GridLine};
use session::error::LineError;
use session::file::Lines;
use std::io::Read;
use std::{env, fmt, fs};
use words::counts::Counts;

// Everything public promises something, by a rule of the project, and no contract can say what the environment or a file gives: so this function and the next stand in each program and in no library.
fn options_of(rt: &HostRuntime) -> anyhow::Result<Options> {
    let options = env::args(rt)?
        .skip(1)
        .try_fold(Options::default(), Options::with)?;
    Ok(options)
}

// The session file's text.
fn text_of(rt: &HostRuntime, options: &Options) -> anyhow::Result<Vec<u8>> {
    if let Some(path) = &options.path {
        return fs::read(rt, path.as_str()).map_err(|error| anyhow!("{path}: {error}"));
    }
    let mut text = Vec::new(rt.alloc());
    let _ = rt.stdin().read_to_end(&mut text)?;
    Ok(text)
}

// A run that goes on from line to line. It, its audiences and what chooses them stand in both programs, since what is gathered and told differs, and a run in a library could promise nothing of what it prints.
#[derive(Drop)]
struct Replay<'a, 'b, A> {
    rt: &'a HostRuntime,
    audience: A,
    gathered: Gathered<'b>,
}

impl<A: Audience> Replay<'_, '_, A> {
    // A frame of a client, whose order is kept.
    fn take_frame(&mut self, number: u64, line: &FrameLine) -> anyhow::Result<()> {
        let frame = self.gathered.read_frame(number, line.bytes.as_slice());
        match &frame.answer {
            Ok(command) => {
                let kept = keep(&mut self.gathered.orders, line, command);
                self.audience.tell_taken(self.rt, &frame, line, kept)
            }
            Err(refusal) => self.audience.tell_refused(self.rt, &frame, *refusal),
        }
    }

    fn take_ban(&mut self, line: BanLine) -> anyhow::Result<()> {
        let answer = self.gathered.bans.ban(line.first, line.second);
        self.audience.tell_setting(self.rt, &BanWords(line), answer)
    }

    fn take_grid(&mut self, line: GridLine) -> anyhow::Result<()> {
        let answer = self
            .gathered
            .grid
            .set(line.category, line.other, line.meets);
        self.audience
            .tell_setting(self.rt, &GridWords(line), answer)
    }

    // A line that is wrong is reported and passed over.
    fn report<D: fmt::Display>(&mut self, line: u64, fault: &D) -> anyhow::Result<()> {
        eprintln!(self.rt; "line {line}: {fault}")?;
        self.gathered.counts.note_fault();
        Ok(())
    }

    fn take_line(&mut self, number: u64, line: &[u8]) -> anyhow::Result<()> {
        match parse(self.rt.alloc(), line) {
            Ok(BookItem::Nothing) => Ok(()),
            Ok(BookItem::Read(bytes)) => {
                self.audience
                    .tell_read(self.rt, &mut self.gathered, number, bytes.as_slice())
            }
            Ok(BookItem::Frame(line)) => self.take_frame(number, &line),
            Ok(BookItem::Ban(line)) => self.take_ban(line),
            Ok(BookItem::Grid(line)) if line.depth == 0 => self.take_grid(line),
            Ok(BookItem::Grid(_)) => self.report(number, &"there is one grid, at depth 0"),
            Err(LineError::Fault(fault)) => self.report(number, &fault),
            Err(LineError::NoMemory(error)) => Err(error.into()),
        }
    }

    fn take_text(&mut self, text: &[u8]) -> anyhow::Result<()> {
        for (number, line) in (1..=u64::MAX).zip(Lines::of(text)) {
            self.take_line(number, line)?;
        }
        self.audience.tell_end(self.rt, &self.gathered)
    }
}

fn run_for<A: Audience + Drop>(rt: &HostRuntime, text: &[u8], audience: A) -> anyhow::Result<()> {
    let mut places = vec![in rt.alloc(); VACANT; MOST_ORDERS]?;
    let gathered = Gathered {
        counts: Counts::default(),
        orders: List::open(places.as_mut_slice(), MOST_ORDERS),
        bans: Bans::new(),
        grid: Grid::over(Styles),
    };
    let mut replay = Replay {
        rt,
        audience,
        gathered,
    };
    replay.take_text(text)
}

pub(crate) fn run(rt: &HostRuntime) -> anyhow::Result<()> {
    let options = options_of(rt)?;
    let text = text_of(rt, &options)?;
    match options.output {
        Output::Words => run_for(rt, text.as_slice(), People),
        Output::Lines => run_for(rt, text.as_slice(), Engines),
    }
}

// What is gathered line by line.
use keyed::lent::List;
use policy::bans::Bans;
use policy::grid::Grid;
use policy::styles::Styles;
use resting::resident::Resident;
use words::counts::Counts;
use words::frame::SessionFrame;

#[derive(Drop)]
pub(crate) struct Gathered<'a> {
    pub counts: Counts,
    pub orders: List<'a, Resident>,
    pub bans: Bans,
    pub grid: Grid<Styles>,
}

impl Gathered<'_> {
    // The next frame, which is counted.
    pub(crate) fn read_frame<'f>(&mut self, line: u64, bytes: &'f [u8]) -> SessionFrame<'f> {
        let frame = SessionFrame::read(self.counts.frames.saturating_add(1), line, bytes);
        self.counts.note(&frame.answer);
        frame
    }
}

// Whom a run prints for.
use crate::gathered::Gathered;
use crate::orders_kept::NotKept;
use policy::refusal::PolicyRefusal;
use session::book_item::FrameLine;
use std::fmt;
use ubp::refusal::ReadRefusal;
use words::frame::SessionFrame;

pub(crate) trait Audience {
    // A frame, which stands in this line, is only read and written back. Each audience reads it in its own way, so that no frame is read twice.
    fn tell_read(
        &self,
        rt: &HostRuntime,
        gathered: &mut Gathered<'_>,
        line: u64,
        bytes: &[u8],
    ) -> anyhow::Result<()>;

    // A client's frame that can't be read.
    fn tell_refused(
        &self,
        rt: &HostRuntime,
        frame: &SessionFrame<'_>,
        refusal: ReadRefusal,
    ) -> anyhow::Result<()>;

    // A client's frame, and the number under which its order is kept.
    fn tell_taken(
        &self,
        rt: &HostRuntime,
        frame: &SessionFrame<'_>,
        line: &FrameLine,
        kept: Result<u64, NotKept>,
    ) -> anyhow::Result<()>;

    // A setting of a policy, and what the policy answers.
    fn tell_setting<D: fmt::Display>(
        &self,
        rt: &HostRuntime,
        setting: &D,
        answer: Result<(), PolicyRefusal>,
    ) -> anyhow::Result<()>;

    // What stands below the last line.
    fn tell_end(&self, rt: &HostRuntime, gathered: &Gathered<'_>) -> anyhow::Result<()>;
}

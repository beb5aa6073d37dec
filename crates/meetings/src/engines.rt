// Lines to compare engines by.
use crate::audience::Audience;
use crate::gathered::Gathered;
use crate::orders_kept::NotKept;
use policy::refusal::PolicyRefusal;
use session::book_item::FrameLine;
use std::fmt;
use ubp::refusal::ReadRefusal;
use words::frame::SessionFrame;
use words::lines::{ReadLine, RefusalLine};

#[derive(Clone, Copy)]
pub(crate) struct Engines;

impl Audience for Engines {
    fn tell_read(
        &self,
        rt: &HostRuntime,
        _gathered: &mut Gathered<'_>,
        _line: u64,
        bytes: &[u8],
    ) -> anyhow::Result<()> {
        let line = ReadLine(bytes);
        println!(rt; "{line}")?;
        Ok(())
    }

    fn tell_refused(
        &self,
        rt: &HostRuntime,
        _frame: &SessionFrame<'_>,
        refusal: ReadRefusal,
    ) -> anyhow::Result<()> {
        let line = RefusalLine(refusal);
        println!(rt; "{line}")?;
        Ok(())
    }

    fn tell_taken(
        &self,
        _rt: &HostRuntime,
        _frame: &SessionFrame<'_>,
        _line: &FrameLine,
        _kept: Result<u64, NotKept>,
    ) -> anyhow::Result<()> {
        Ok(())
    }

    // The number that answers a setting: 0, or the refusal's.
    fn tell_setting<D: fmt::Display>(
        &self,
        rt: &HostRuntime,
        _setting: &D,
        answer: Result<(), PolicyRefusal>,
    ) -> anyhow::Result<()> {
        let number = answer.err().map_or(0, PolicyRefusal::number);
        println!(rt; "set {number}")?;
        Ok(())
    }

    fn tell_end(&self, _rt: &HostRuntime, _gathered: &Gathered<'_>) -> anyhow::Result<()> {
        Ok(())
    }
}

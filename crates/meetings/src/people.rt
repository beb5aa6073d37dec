// What people read.
use crate::audience::Audience;
use crate::gathered::Gathered;
use crate::meetings::tell_meetings;
use crate::orders_kept::NotKept;
use crate::queues::tell_queues;
use policy::refusal::PolicyRefusal;
use session::book_item::FrameLine;
use std::fmt;
use ubp::refusal::ReadRefusal;
use words::examples::AnswerExamples;
use words::frame::SessionFrame;
use words::setting::SettingRefusalWords;

#[derive(Clone, Copy)]
pub(crate) struct People;

impl Audience for People {
    fn tell_read(
        &self,
        rt: &HostRuntime,
        gathered: &mut Gathered<'_>,
        line: u64,
        bytes: &[u8],
    ) -> anyhow::Result<()> {
        let frame = gathered.read_frame(line, bytes);
        println!(rt; "{frame}")?;
        Ok(())
    }

    fn tell_refused(
        &self,
        rt: &HostRuntime,
        frame: &SessionFrame<'_>,
        _refusal: ReadRefusal,
    ) -> anyhow::Result<()> {
        println!(rt; "{frame}")?;
        Ok(())
    }

    fn tell_taken(
        &self,
        rt: &HostRuntime,
        frame: &SessionFrame<'_>,
        line: &FrameLine,
        kept: Result<u64, NotKept>,
    ) -> anyhow::Result<()> {
        let client = line.client;
        let category = line.category;
        print!(rt; "{frame}")?;
        println!(rt; "  From client {client}, source category {category}")?;
        match kept {
            Ok(number) => println!(rt; "  Kept as order {number}")?,
            Err(refusal) => println!(rt; "  Not kept: {refusal}")?,
        }
        println!(rt; "")?;
        Ok(())
    }

    fn tell_setting<D: fmt::Display>(
        &self,
        rt: &HostRuntime,
        setting: &D,
        answer: Result<(), PolicyRefusal>,
    ) -> anyhow::Result<()> {
        println!(rt; "{setting}")?;
        if let Err(refusal) = answer {
            let words = SettingRefusalWords(refusal);
            println!(rt; "  Refused {words}")?;
        }
        println!(rt; "")?;
        Ok(())
    }

    fn tell_end(&self, rt: &HostRuntime, gathered: &Gathered<'_>) -> anyhow::Result<()> {
        let orders = gathered.orders.records();
        if !orders.is_empty() {
            tell_meetings(rt, gathered)?;
            tell_queues(rt, orders)?;
        }
        let counts = gathered.counts;
        print!(rt; "{AnswerExamples}{counts}")?;
        Ok(())
    }
}

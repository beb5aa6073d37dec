// Who may meet whom: a table for each policy.
use crate::gathered::Gathered;
use orders::party::Party;
use policy::Policy;
use policy::styles::Styles;
use resting::resident::Resident;
use std::fmt;
use words::party::{PARTY_COLUMNS, PartyRow};
use words::text::TextWords;

// A policy's answers for each two of the orders.
#[derive(Clone, Copy)]
struct Table<'a, P> {
    policy: &'a P,
    orders: &'a [Resident],
}

impl<P: Policy> Table<'_, P> {
    fn show_row<W: fmt::Write>(&self, order: &Resident, f: &mut fmt::Formatter<W>) -> fmt::Result {
        let number = order.number;
        let party = Party::from(order);
        write!(f, "  {number:>5}")?;
        for other in self.orders {
            let mark = if self.policy.allows(&party, &Party::from(other)) {
                "+"
            } else {
                "."
            };
            write!(f, "{mark:>4}")?;
        }
        writeln!(f, "")
    }
}

impl<P: Policy> fmt::Display for Table<'_, P> {
    fn fmt<W: fmt::Write>(&self, f: &mut fmt::Formatter<W>) -> fmt::Result {
        write!(f, "       ")?;
        for order in self.orders {
            let number = order.number;
            write!(f, "{number:>4}")?;
        }
        writeln!(f, "")?;
        for order in self.orders {
            self.show_row(order, f)?;
        }
        Ok(())
    }
}

fn tell_party(rt: &HostRuntime, order: &Resident) -> anyhow::Result<()> {
    let number = order.number;
    let party = PartyRow(Party::from(order));
    let token = TextWords(&order.token);
    println!(rt; "  {number:>5}  {party}  {token}")?;
    Ok(())
}

fn tell_table<P: Policy>(
    rt: &HostRuntime,
    name: &str,
    policy: &P,
    orders: &[Resident],
) -> anyhow::Result<()> {
    let table = Table { policy, orders };
    println!(rt; "")?;
    println!(rt; "  Under {name}")?;
    print!(rt; "{table}")?;
    Ok(())
}

// The parties of the orders, and the three tables.
pub(crate) fn tell_meetings(rt: &HostRuntime, gathered: &Gathered<'_>) -> anyhow::Result<()> {
    let orders = gathered.orders.records();
    println!(rt; "Who may meet whom: + may, . may not")?;
    println!(rt; "  order  {PARTY_COLUMNS}  token")?;
    for order in orders {
        tell_party(rt, order)?;
    }
    tell_table(rt, "Styles", &Styles, orders)?;
    tell_table(rt, "Bans", &gathered.bans, orders)?;
    tell_table(rt, "Grid over Styles", &gathered.grid, orders)?;
    println!(rt; "")?;
    Ok(())
}

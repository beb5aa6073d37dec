// Who goes ahead: the buys and the sells of each stock, in the order of both rankings.
use orders::fields::{NO_LIMIT, Side};
use ranking::Ranking;
use ranking::line::place_in_line;
use ranking::offer::Offer;
use ranking::price_size::PriceSize;
use ranking::price_time::PriceTime;
use resting::resident::Resident;
use words::price::PriceWords;
use words::text::TextWords;

fn is_buy(order: &Resident) -> bool {
    order.terms.side == Side::Buy
}

// The keenness of an order's limit. No quote is known here, so an order without a limit is ranked as if it stood at the best price that there is for the other side.
fn keenness(order: &Resident) -> i64 {
    if is_buy(order) {
        i64::from(order.price)
    } else if order.price == NO_LIMIT {
        -i64::from(i32::MIN)
    } else {
        -i64::from(order.price)
    }
}

// No `From`: both types are of crates below.
fn offer_of(order: &Resident) -> Offer {
    Offer {
        keenness: keenness(order),
        left: order.left,
        number: order.number,
    }
}

// Orders of the same side of the same stock stand in one queue.
fn are_rivals(order: &Resident, other: &Resident) -> bool {
    is_buy(order) == is_buy(other) && order.terms.stock == other.terms.stock
}

fn tell_order(rt: &HostRuntime, place: usize, order: &Resident) -> anyhow::Result<()> {
    let number = order.number;
    let left = order.left;
    let price = PriceWords(order.price);
    let token = TextWords(&order.token);
    println!(rt; "    {place:>3}. order {number}: {price}, {left} left, {token}")?;
    Ok(())
}

fn tell_queue<R: Ranking>(
    rt: &HostRuntime,
    name: &str,
    ranking: &R,
    orders: &[Resident],
) -> anyhow::Result<()> {
    println!(rt; "   {name}")?;
    let offers: Vec<Offer> = orders.iter().map(offer_of).collect(rt.alloc())?;
    let mut queue: Vec<(usize, Resident)> = orders
        .iter()
        .map(|order| (
            place_in_line(ranking, offers.as_slice(), &offer_of(order)),
            *order,
        ))
        .collect(rt.alloc())?;
    queue.sort_unstable_by_key(|(place, _)| *place);
    for (place, order) in &queue {
        tell_order(rt, place.saturating_add(1), order)?;
    }
    Ok(())
}

fn tell_rivals(rt: &HostRuntime, order: &Resident, orders: &[Resident]) -> anyhow::Result<()> {
    let rivals: Vec<Resident> = orders
        .iter()
        .filter(|other| are_rivals(order, other))
        .copied()
        .collect(rt.alloc())?;
    let side = if is_buy(order) { "Buys" } else { "Sells" };
    let stock = TextWords(&order.terms.stock);
    println!(rt; "  {side} of {stock}")?;
    tell_queue(rt, "price-time", &PriceTime, rivals.as_slice())?;
    tell_queue(rt, "price-size", &PriceSize, rivals.as_slice())
}

// Each queue, where its first order stands.
pub(crate) fn tell_queues(rt: &HostRuntime, orders: &[Resident]) -> anyhow::Result<()> {
    println!(rt; "Who goes ahead, by limit")?;
    for (i, order) in orders.iter().enumerate() {
        let is_told = orders.iter().take(i).any(|other| are_rivals(order, other));
        if !is_told {
            tell_rivals(rt, order, orders)?;
        }
    }
    println!(rt; "")?;
    Ok(())
}

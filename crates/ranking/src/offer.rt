// What a ranking sees of an order.

// Keenness is the standing price of a buy, and of a sell that price negated, so that on either side the larger number is the keener order. `left` are the shares that are left, `number` is the order number.
#[derive(Clone, Copy)]
pub struct Offer {
    pub keenness: i64,
    pub left: u32,
    pub number: u64,
}

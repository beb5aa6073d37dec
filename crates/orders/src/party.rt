// Who stands behind an order.
use crate::fields::{Capacity, CrossStyle};

// The source category that the broker gives to an order's origin.
#[derive(Clone, Copy, PartialEq, Eq, Debug)]
pub enum Category {
    One,
    Two,
    Three,
    Four,
    Five,
}

// What a policy knows of an order: no other party exists.
#[derive(Clone, Copy, PartialEq, Eq, Debug)]
pub struct Party {
    pub client: u32,
    pub category: Category,
    pub capacity: Capacity,
    pub style: CrossStyle,
}

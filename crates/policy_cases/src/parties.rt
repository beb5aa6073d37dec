// Parties to ask a policy about.
use orders::fields::{Capacity, CrossStyle};
use orders::party::{Category, Party};
use policy::Policy;

pub(crate) const CATEGORIES: [Category; 5] = [
    Category::One,
    Category::Two,
    Category::Three,
    Category::Four,
    Category::Five,
];

// A customer of the client's whose style bars nobody.
pub(crate) fn open_party(client: u32, category: Category) -> Party {
    Party {
        client,
        category,
        capacity: Capacity::Agency,
        style: CrossStyle::All,
    }
}

// The answer, if it is the same both ways.
pub(crate) fn both_ways<P: Policy>(policy: &P, p: &Party, q: &Party) -> Option<bool> {
    let answer = policy.allows(p, q);
    (policy.allows(q, p) == answer).then_some(answer)
}

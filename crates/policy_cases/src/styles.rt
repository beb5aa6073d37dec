// Each style against each capacity, category and client.
use crate::parties::{CATEGORIES, both_ways};
use orders::fields::{Capacity, CrossStyle};
use orders::party::{Category, Party};
use policy::styles::Styles;

// Whom a style bars, `x`, by the other party's capacity, client and category:
//   agency                      principal
//   another      the same       another      the same     client
//   1 to 4   5   1 to 4   5     1 to 4   5   1 to 4   5   category
#[derive(Clone, Copy)]
struct Row {
    style: CrossStyle,
    barred: [u8; 8],
}

const ROWS: [Row; 8] = [
    Row {
        style: CrossStyle::All,
        barred: *b"........",
    },
    Row {
        style: CrossStyle::AgencyOnly,
        barred: *b"....xxxx",
    },
    Row {
        style: CrossStyle::NoSelf,
        barred: *b"..xx..xx",
    },
    Row {
        style: CrossStyle::AgencyNoSelf,
        barred: *b"..xxxxxx",
    },
    Row {
        style: CrossStyle::AllNotFive,
        barred: *b".x.x.x.x",
    },
    Row {
        style: CrossStyle::AgencyNotFive,
        barred: *b".x.xxxxx",
    },
    Row {
        style: CrossStyle::NoSelfNotFive,
        barred: *b".xxx.xxx",
    },
    Row {
        style: CrossStyle::AgencyNoSelfNotFive,
        barred: *b".xxxxxxx",
    },
];

const CAPACITIES: [Capacity; 2] = [Capacity::Agency, Capacity::Principal];

// Whether the row of a party's style bars the other party.
fn bars(row: &Row, party: &Party, other: &Party) -> bool {
    let principal = other.capacity == Capacity::Principal;
    let itself = other.client == party.client;
    let five = other.category == Category::Five;
    let column = 4 * usize::from(principal) + 2 * usize::from(itself) + usize::from(five);
    row.barred[column] == b'x'
}

// A party of the row's style against one of each other style.
fn answers_as_rows(row: &Row, party: &Party, other: &Party) -> bool {
    let p = Party {
        style: row.style,
        ..*party
    };
    ROWS.iter().all(|facing| {
        let q = Party {
            style: facing.style,
            ..*other
        };
        let allowed = !bars(row, &p, &q) && !bars(facing, &q, &p);
        both_ways(&Styles, &p, &q) == Some(allowed)
    })
}

// Client 7 against another party of the same client and of client 8, in each capacity and category.
fn answers_for(row: &Row, party: &Party) -> bool {
    CAPACITIES.iter().all(|&capacity| {
        CATEGORIES.iter().all(|&category| {
            [7, 8].iter().all(|&client| {
                let other = Party {
                    client,
                    category,
                    capacity,
                    style: CrossStyle::All,
                };
                answers_as_rows(row, party, &other)
            })
        })
    })
}

#[test]
fn all_styles_both_ways(rt: HostRuntime) {
    for row in &ROWS {
        for capacity in CAPACITIES {
            for category in CATEGORIES {
                let party = Party {
                    client: 7,
                    category,
                    capacity,
                    style: row.style,
                };
                assert!(rt; answers_for(row, &party));
            }
        }
    }
}

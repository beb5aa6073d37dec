// Examples of lists of resting orders and of quotes.
use crate::quote::{Quote, StockKey};
use crate::resident::{OrderKey, Resident};
use keyed::lent::{List, NotPushed};
use orders::fields::{
    Capacity, Constraint, CrossStyle, InviteGrade, LeavesMode, Lots, Peg, Side, Stock, Terms,
    TimeInForce, Token,
};
use orders::party::Category;
use std::test::Fail;

// An order under its number; what is no part of its key is the same for all.
fn order(number: u64, client: u32, token: Token) -> Resident {
    Resident {
        number,
        client,
        category: Category::One,
        token,
        shares: 100,
        price: 10000,
        terms: Terms {
            side: Side::Buy,
            stock: *b"ACME  ",
            time: TimeInForce::MarketHours,
            firm: *b"FIRM",
            capacity: Capacity::Agency,
            minimum: 0,
            constraint: Constraint::Unstated,
            leaves: LeavesMode::NotStated,
            style: CrossStyle::All,
            peg: Peg::Unpegged,
            grade: InviteGrade::Nobody,
            lots: Lots::AnyLot,
        },
        left: 100,
    }
}

// The number of the order that the list finds.
fn number_of(residents: &List<Resident>, client: u32, token: Token) -> Option<u64> {
    let place = residents.find(&OrderKey { client, token })?;
    residents.records().get(place).map(|order| order.number)
}

#[test]
fn orders_by_client_and_token(rt: HostRuntime) {
    let mut cells = [order(0, 0, [0; 14]); 4];
    let mut residents = List::open(&mut cells, 4);
    assert!(rt; residents.push(order(1, 7, *b"BUY-1         ")).is_ok());
    // another client, and another last byte
    assert!(rt; residents.push(order(2, 8, *b"BUY-1         ")).is_ok());
    assert!(rt; residents.push(order(3, 7, *b"BUY-1        \0")).is_ok());
    assert_eq!(rt;
        residents.push(order(4, 7, *b"BUY-1         ")),
        Err(NotPushed::Held)
    );
    assert_eq!(rt; number_of(&residents, 7, *b"BUY-1         "), Some(1));
    assert_eq!(rt; number_of(&residents, 8, *b"BUY-1         "), Some(2));
    assert_eq!(rt; number_of(&residents, 7, *b"BUY-1        \0"), Some(3));
    assert_eq!(rt; number_of(&residents, 8, *b"BUY-1        \0"), None);
}

fn quoted(stock: Stock, bid: i32, ask: i32) -> Quote {
    Quote { stock, bid, ask }
}

// The bid and the ask of a stock that the list finds.
fn prices(quotes: &List<Quote>, stock: Stock) -> Option<(i32, i32)> {
    let place = quotes.find(&StockKey { stock })?;
    quotes
        .records()
        .get(place)
        .map(|quote| (quote.bid, quote.ask))
}

#[test]
fn quotes_by_stock(rt: HostRuntime) -> Result<(), Fail> {
    let mut cells = vec![in rt.alloc(); quoted(*b"      ", 0, 0); 2]?;
    let mut quotes = List::open(cells.as_mut_slice(), 2);
    assert!(rt; quotes.push(quoted(*b"ACME  ", 9900, 10100)).is_ok());
    assert!(rt; quotes.push(quoted(*b"ACMEA ", 200, 300)).is_ok());
    assert_eq!(rt; quotes.push(quoted(*b"ACME  ", 1, 2)), Err(NotPushed::Held));
    let place = quotes
        .find(&StockKey { stock: *b"ACME  " })
        .expect(&rt, "a held stock");
    assert!(rt;
        quotes
            .write_at(place, quoted(*b"ACME  ", 9950, 10050))
            .is_ok()
    );
    assert_eq!(rt; prices(&quotes, *b"ACME  "), Some((9950, 10050)));
    assert_eq!(rt; prices(&quotes, *b"ACMEA "), Some((200, 300)));
    assert_eq!(rt; prices(&quotes, *b"ACME\0\0"), None);
    Ok(())
}

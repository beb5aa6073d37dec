// Examples of both rankings.
use crate::Ranking;
use crate::line::place_in_line;
use crate::offer::Offer;
use crate::price_size::PriceSize;
use crate::price_time::PriceTime;

const fn offer(keenness: i64, left: u32, number: u64) -> Offer {
    Offer {
        keenness,
        left,
        number,
    }
}

// Each offer is ahead of all that follow it, none is ahead of one before it or of itself, and each stands at its place.
fn is_line<R: Ranking>(ranking: &R, offers: &[Offer]) -> bool {
    offers.iter().enumerate().all(|(i, first)| {
        place_in_line(ranking, offers, first) == i
            && offers
                .iter()
                .enumerate()
                .all(|(j, second)| ranking.is_ahead(first, second) == (i < j))
    })
}

#[test]
fn price_then_time(rt: HostRuntime) {
    let line = [
        offer(500200, 100, 9),
        offer(500100, 100, 2),
        offer(500100, 999999, 3),
        offer(500100, 100, 7),
        offer(0, 100, 1),
        offer(-1, 500, 4),
        offer(-500100, 1, 5),
        offer(-500100, 500, 6),
    ];
    assert!(rt; is_line(&PriceTime, &line), "price-time");
    assert!(rt; !is_line(&PriceSize, &line), "price-size is another line");
}

#[test]
fn price_then_size_then_time(rt: HostRuntime) {
    let line = [
        offer(500200, 1, 9),
        offer(500100, 999999, 3),
        offer(500100, 100, 2),
        offer(500100, 100, 7),
        offer(500100, 99, 1),
        offer(-500100, 500, 6),
        offer(-500100, 1, 5),
    ];
    assert!(rt; is_line(&PriceSize, &line), "price-size");
    assert!(rt; !is_line(&PriceTime, &line), "price-time is another line");
}

#[test]
fn borders_of_the_numbers(rt: HostRuntime) {
    let line = [
        offer(i64::MAX, 0, u64::MAX),
        offer(i64::MIN, u32::MAX, u64::MAX),
        offer(i64::MIN, 0, 0),
    ];
    assert!(rt; is_line(&PriceSize, &line));
    assert!(rt; PriceTime.is_ahead(&line[2], &line[1]));
    assert!(rt; !PriceTime.is_ahead(&line[1], &line[2]));
    assert_eq!(rt; place_in_line(&PriceTime, &[], &line[0]), 0);
}

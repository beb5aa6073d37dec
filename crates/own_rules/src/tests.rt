// The wall, alone and under a grid, and the line of those who came first.
use crate::first_come::FirstCome;
use crate::wall::Wall;
use orders::fields::{Capacity, CrossStyle};
use orders::party::{Category, Party};
use policy::Policy;
use policy::grid::Grid;
use ranking::line::place_in_line;
use ranking::offer::Offer;

fn party(client: u32, category: Category) -> Party {
    Party {
        client,
        category,
        capacity: Capacity::Agency,
        style: CrossStyle::All,
    }
}

#[test]
fn a_wall_under_a_grid(rt: HostRuntime) {
    let mut grid = Grid::over(Wall { first_outside: 100 });
    let inside = party(99, Category::One);
    let outside = party(100, Category::One);
    assert!(rt; !grid.allows(&inside, &outside) && !grid.allows(&outside, &inside));
    assert!(rt; grid.allows(&inside, &party(0, Category::Two)));
    assert!(rt; grid.allows(&outside, &party(101, Category::Two)));
    assert_eq!(rt; grid.set(2, 1, false), Ok(()));
    assert!(rt; !grid.allows(&inside, &party(0, Category::Two)));
}

#[test]
fn the_first_comer_is_at_the_front(rt: HostRuntime) {
    let late = Offer {
        keenness: 500200,
        left: 1000,
        number: 8,
    };
    let early = Offer {
        keenness: -500200,
        left: 1,
        number: 3,
    };
    let line = [late, early];
    assert_eq!(rt; place_in_line(&FirstCome, &line, &early), 0);
    assert_eq!(rt; place_in_line(&FirstCome, &line, &late), 1);
}

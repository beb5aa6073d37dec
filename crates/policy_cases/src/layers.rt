// A grid over bans, and over another grid: each layer parts some, and the one below takes its own settings.
use crate::parties::{both_ways, open_party};
use orders::party::Category;
use policy::bans::Bans;
use policy::grid::Grid;

#[test]
fn a_grid_over_bans(rt: HostRuntime) {
    let mut grid = Grid::over(Bans::new());
    assert_eq!(rt; grid.below.ban(1, 2), Ok(()));
    assert_eq!(rt; grid.set(3, 4, false), Ok(()));
    let banned = open_party(1, Category::One);
    assert_eq!(rt;
        both_ways(&grid, &banned, &open_party(2, Category::One)),
        Some(false),
        "banned below"
    );
    assert_eq!(rt;
        both_ways(&grid, &banned, &open_party(3, Category::One)),
        Some(true)
    );
    let three = open_party(5, Category::Three);
    assert_eq!(rt;
        both_ways(&grid, &three, &open_party(6, Category::Four)),
        Some(false),
        "parted by the grid"
    );
    assert_eq!(rt;
        both_ways(&grid, &three, &open_party(6, Category::Three)),
        Some(true)
    );
    assert_eq!(rt; grid.below.ban(5, 6), Ok(()));
    assert_eq!(rt;
        both_ways(&grid, &three, &open_party(6, Category::Three)),
        Some(false),
        "banned later"
    );
}

#[test]
fn a_grid_over_a_grid(rt: HostRuntime) {
    let mut grid = Grid::over(Grid::over(Bans::new()));
    assert_eq!(rt; grid.set(1, 2, false), Ok(()));
    assert_eq!(rt; grid.below.set(3, 4, false), Ok(()));
    assert_eq!(rt; grid.below.below.ban(7, 7), Ok(()));
    let one = open_party(7, Category::One);
    let three = open_party(8, Category::Three);
    assert_eq!(rt;
        both_ways(&grid, &one, &open_party(9, Category::Two)),
        Some(false),
        "by the upper grid"
    );
    assert_eq!(rt;
        both_ways(&grid, &three, &open_party(9, Category::Four)),
        Some(false),
        "by the lower grid"
    );
    assert_eq!(rt;
        both_ways(&grid, &one, &open_party(7, Category::Five)),
        Some(false),
        "by the bans"
    );
    assert_eq!(rt; both_ways(&grid, &one, &three), Some(true));
}

// Each setting of a grid, both ways.
use crate::parties::{CATEGORIES, both_ways, open_party};
use orders::party::Category;
use policy::grid::Grid;
use policy::refusal::PolicyRefusal;
use policy::styles::Styles;

// Just the two categories are apart, if any.
fn parts(grid: &Grid<Styles>, parted: Option<(Category, Category)>) -> bool {
    CATEGORIES.iter().all(|&a| {
        CATEGORIES.iter().all(|&b| {
            let allowed = parted != Some((a, b)) && parted != Some((b, a));
            both_ways(grid, &open_party(1, a), &open_party(2, b)) == Some(allowed)
        })
    })
}

#[test]
fn each_setting_both_ways(rt: HostRuntime) {
    let mut grid = Grid::over(Styles);
    assert!(rt; parts(&grid, None), "at first all meet");
    for a in CATEGORIES {
        for b in CATEGORIES {
            let (from, to) = (u8::from(a), u8::from(b));
            assert_eq!(rt; grid.set(from, to, false), Ok(()));
            assert!(rt; parts(&grid, Some((a, b))));
            assert_eq!(rt; grid.set(from, to, false), Ok(()), "dropped already");
            assert!(rt; parts(&grid, Some((a, b))));
            assert_eq!(rt; grid.set(from, to, true), Ok(()));
            assert!(rt; parts(&grid, None));
        }
    }
}

#[test]
fn both_sides_have_to_meet(rt: HostRuntime) {
    let mut grid = Grid::over(Styles);
    assert_eq!(rt; grid.set(1, 5, false), Ok(()));
    assert_eq!(rt; grid.set(5, 1, false), Ok(()));
    assert_eq!(rt; grid.set(1, 5, true), Ok(()));
    assert!(rt;
        parts(&grid, Some((Category::One, Category::Five))),
        "5 does not meet 1"
    );
    assert_eq!(rt; grid.set(5, 1, true), Ok(()));
    assert!(rt; parts(&grid, None));
}

#[test]
fn a_number_that_is_no_category_is_refused(rt: HostRuntime) {
    let mut grid = Grid::over(Styles);
    assert_eq!(rt; grid.set(2, 3, false), Ok(()));
    for wrong in [0, 6, 255] {
        for category in 0..=6 {
            assert_eq!(rt;
                grid.set(wrong, category, false),
                Err(PolicyRefusal::NoCategory)
            );
            assert_eq!(rt;
                grid.set(category, wrong, false),
                Err(PolicyRefusal::NoCategory)
            );
        }
    }
    assert!(rt;
        parts(&grid, Some((Category::Two, Category::Three))),
        "nothing changed"
    );
    assert_eq!(rt; PolicyRefusal::NoCategory.number(), 42);
}

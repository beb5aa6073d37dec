// Grid: which source categories meet, over any policy.
ghost use Rattle.std.specs.Prelude.{◌≡◌, [], length};
ghost use Rattle.orders.specs.Codes.{category_of};
ghost use Rattle.policy.specs.PerCategory.{at};
ghost use Rattle.policy.specs.Grid.{meets, grid_allows, open_meetings, AllMeet, set_meets, after_setting, setting_answer, OnlySet};
ghost use Rattle.std.proofs.Common.{rules};

use crate::Policy;
use crate::refusal::PolicyRefusal;
use orders::party::{Category, Party};

// Over a policy, which stays open to settings of its own. Each category has a row, which says of each category whether the first meets it.
#[derive(Drop)]
pub struct Grid<P> {
    pub below: P,
    rows: [[bool; 5]; 5],
}

impl<P> Grid<P> {
    // Each category meets all.
    pub fn over(below: P) -> Grid<P>
        ensures below { result.below ≡ below }
        ensures rows { result.rows ≡ open_meetings }
        ensures means { AllMeet result.rows }
    {
        Grid {
            below,
            rows: [[true; 5]; 5],
        }
    }

    // Whether the other category is among those that the first meets.
    fn is_met(&self, category: Category, other: Category) -> bool
        ensures { result ≡ meets self.now.rows category other }
    {
        self.rows[category as usize][other as usize]
    }

    // `wide` hands on to `set` what the type says of the row that is written to. As a ghost field (tried) it would keep the borrow checker from covering `grid.below.below.set(..)`.
    fn put(&mut self, category: Category, other: Category, on: bool)
        ensures rows { self.new.rows ≡ set_meets self.old.rows category other on }
        ensures below { self.new.below ≡ self.old.below }
        ensures wide { length (at self.old.rows category []) ≡ 5 }
    {
        self.rows[category as usize][other as usize] = on;
    }

    // Adds the other category to those that the first meets, or drops it. A number that is no category is refused, and nothing changes.
    // The categories come as numbers, since it is a rule of the project that a number outside 1 to 5 is refused here, with 42.
    #[tactic(auto, using(crate::proofs::Settings::set_means, crate::proofs::Settings::number_of))]
    pub fn set(&mut self, category: u8, other: u8, on: bool) -> Result<(), PolicyRefusal>
        ensures rows { self.new.rows ≡ after_setting self.old.rows (category_of category) (category_of other) on }
        ensures means { OnlySet self.old.rows category other on self.new.rows }
        ensures below { self.new.below ≡ self.old.below }
        ensures answer { result ≡ setting_answer (category_of category) (category_of other) }
    {
        // `Unlisted` stands for a code of any field, so it becomes this refusal here and by no `From`.
        let from = Category::try_from(category).map_err(|_| PolicyRefusal::NoCategory)?;
        let to = Category::try_from(other).map_err(|_| PolicyRefusal::NoCategory)?;
        self.put(from, to, on);
        Ok(())
    }
}

impl<P: Policy> Policy for Grid<P> {
    ghost allowed = { λ g. grid_allows (P.allowed g.below) g.rows };

    ghost symmetric = { Prim.search rules };

    fn allows(&self, p: &Party, q: &Party) -> bool {
        self.below.allows(p, q)
            && self.is_met(p.category, q.category)
            && self.is_met(q.category, p.category)
    }
}

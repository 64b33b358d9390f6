// The tail of a job in a row: the end of the row that is left behind a beginning of a given norm.
#![tactic(auto)]

use facts::Facts;

// A place in a row, and the norm of what stands before it.
#[derive(Drop)]
pub struct Cut {
    pub at: usize,
    pub norm: u16,
}

impl Cut {
    ghost use Rattle.std.specs.Prelude.{◌≡◌, true};
    ghost use Rattle.bpa.specs.Plans.{all_below};
    ghost use Rattle.facts.specs.Columns.{norms_in};
    ghost use Rattle.tails.specs.Cuts.{CutBehind, Reached};

    // Moves the cut back to the last place before which no more than the given norm stands. The norms asked for in turn fall, so each row
    // is gone through once.
    pub fn move_back(&mut self, facts: &Facts, row: &[u8], goal: u16)
        requires row_value { all_below 24 row.now ≡ true }
        requires cut_behind { CutBehind (norms_in facts.now) row.now goal self.old.at self.old.norm }
        ensures { Reached (norms_in facts.now) row.now goal self.new.at self.new.norm }
    {
        // how far it goes back depends on the norms
        while goal < self.norm {
            self.at -= 1;
            self.norm -= facts.norm(usize::from(row[self.at]));
        }
    }
}

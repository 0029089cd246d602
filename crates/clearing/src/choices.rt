//! The packages that a choice takes of a docket, one after another.
ghost use Rattle.std.specs.Iterator.{YieldsFirstRef, item_count};
ghost use Rattle.clearing.specs.Choices.{still_taken};

use crate::dockets::PricedPackage;

/// The packages that are not passed yet, and the digits of the choice that stand for them, the lowest for the first.
#[derive(Drop)]
pub struct Taken<'a> {
    pub(crate) packages: &'a [PricedPackage],
    pub(crate) digits: u64,
}

impl<'a> Iterator for Taken<'a> {
    type Item = &'a PricedPackage;

    ghost next_gives = { YieldsFirstRef still_taken };

    ghost remaining = { item_count still_taken };

    fn next(&mut self) -> Option<&'a PricedPackage> {
        // the one walk over a choice's digits
        while let Some((package, others)) = self.packages.split_first() {
            let is_taken = self.digits % 2 == 1;
            self.packages = others;
            self.digits /= 2;
            if is_taken {
                return Some(package);
            }
        }
        None
    }
}

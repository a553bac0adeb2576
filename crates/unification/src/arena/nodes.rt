// The nodes of terms that stand one after another.
ghost use Rattle.std.specs.Prelude.{◌≡◌};
ghost use Rattle.std.specs.Iterator.{YieldsFirst, item_count};
ghost use Rattle.unification.specs.Arguments.{rest_of};

use super::Arguments;

impl Iterator for Arguments<'_> {
    type Item = usize;

    ghost next_gives = { YieldsFirst rest_of };

    ghost remaining = { item_count rest_of };

    fn next(&mut self) -> Option<usize> {
        self.left = self.left.checked_sub(1)?;
        let node = self.arena.node(self.place);
        // after the last term no place is needed
        if self.left > 0 {
            self.place = self.arena.end_of(self.place);
        }
        Some(node)
    }
}

//! What a cursor is.
ghost use Rattle.std.specs.Prelude.{ℕ, List, ◌≡◌, ◌+◌, ◌-◌, ◌≤◌, length};
ghost use Rattle.ts_key.specs.Order.{sort_key_of};
ghost use Rattle.ts_key.specs.Items.{Item, shown_by};
ghost use Rattle.ts_key.specs.Lists.{IsOrdered, below, standing, onward};

use ts_key::{Hit, KeyRef};

/// A list of versions in the stored order, and a place in it: 0 before the first, i + 1 at the one with index i, and one
/// more after the last. Two versions may have one key, timestamp and sequence. `over` is what the cursor walks over, in a
/// form of its own choice: of it the items show a part, and no call changes it.
pub trait Placed {
    ghost Over: { Type 0 };

    ghost over: { Self → Over };

    ghost items: { Self → List Item };

    ghost place: { Self → ℕ };

    ghost ordered: { (c : Self) → IsOrdered (items c) };

    ghost within: { (c : Self) → place c ≤ length (items c) + 1 };
}

/// A cursor over versions in the stored order. No call changes the list or takes memory.
pub trait Cursor<'a>: Placed {
    /// Goes to the first version that isn't before the key, or after the last.
    fn seek(&mut self, to: &KeyRef<'_>)
        ensures over { Self.over self.new ≡ Self.over self.old }
        ensures same { Self.items self.new ≡ Self.items self.old }
        ensures place { Self.place self.new ≡ below (sort_key_of to.now) (Self.items self.old) + 1 };

    /// Goes after the last version.
    fn seek_end(&mut self)
        ensures over { Self.over self.new ≡ Self.over self.old }
        ensures same { Self.items self.new ≡ Self.items self.old }
        ensures place { Self.place self.new ≡ length (Self.items self.old) + 1 };

    /// Goes one place on, and stays where there is none.
    fn next(&mut self)
        ensures over { Self.over self.new ≡ Self.over self.old }
        ensures same { Self.items self.new ≡ Self.items self.old }
        ensures place { Self.place self.new ≡ onward (length (Self.items self.old)) (Self.place self.old) };

    /// Goes one place back, and stays where there is none.
    fn prev(&mut self)
        ensures over { Self.over self.new ≡ Self.over self.old }
        ensures same { Self.items self.new ≡ Self.items self.old }
        ensures place { Self.place self.new ≡ Self.place self.old - 1 };

    /// The version where it stands, and None before the first and after the last. It is lent for as long as what the cursor
    /// walks over.
    fn at(&self) -> Option<(KeyRef<'a>, Hit<'a>)>
        ensures { shown_by result ≡ standing (Self.items self.now) (Self.place self.now) };
}

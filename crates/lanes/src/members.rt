// The atoms of a set, one after the other.
ghost use Rattle.std.specs.Iterator.{YieldsFirst, item_count};
ghost use Rattle.words.specs.Coded.{atoms_in};

// The atoms that are left, the lowest first.
#[derive(Drop)]
pub struct Members {
    pub left: u16,
}

impl Iterator for Members {
    type Item = u32;

    ghost next_gives = { YieldsFirst (λ s. atoms_in s.left) };

    ghost remaining = { item_count (λ s. atoms_in s.left) };

    fn next(&mut self) -> Option<u32> {
        if self.left == 0 {
            return None;
        }
        let a = atoms::lowest(self.left);
        self.left = self.left & (self.left - 1);
        Some(a)
    }
}

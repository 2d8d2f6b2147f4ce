// The bits of a map, one after another.
ghost use Rattle.std.specs.Prelude.{◌≡◌, ◌/◌, Some};
ghost use Rattle.form.specs.Rules.Form.{odd};

// The bits of a number, the lowest first, and 0 past the highest: it never ends.
#[derive(Clone, Copy)]
pub(crate) struct Bits {
    pub rest: u64,
}

impl Iterator for Bits {
    type Item = bool;

    ghost next_gives = { λ s r t. (r ≡ Some (odd s.rest)) × (t.rest ≡ s.rest / 2) };

    fn next(&mut self) -> Option<bool> {
        let bit = self.rest % 2 == 1;
        self.rest /= 2;
        Some(bit)
    }
}

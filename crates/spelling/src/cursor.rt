// A place in bytes that are lent.
ghost use Rattle.std.specs.Prelude.{◌≡◌, ◌<◌, ◌≤◌, ◌-◌, [], ◌∷◌, length, take, drop};
ghost use Rattle.spelling.specs.Spelling.{digits};
ghost use Rattle.spelling.specs.Cursor.{HasRoom, Appends};

// Each method puts something at the place, and then the place is right behind it.
#[derive(Drop)]
pub struct Cursor<'a> {
    pub out: &'a mut [u8],
    pub at: usize,
}

impl<'a> Cursor<'a> {
    #[tactic(auto, using(crate::proofs::Puts::byte))]
    pub fn put_byte(&mut self, b: u8)
        ensures put { HasRoom 1 self.old → Appends 1 self.old self.new (b ∷ []) }
        ensures full { (HasRoom 1 self.old → ⊥) → self.new ≡ self.old }
    {
        if self.at < self.out.len() {
            self.out[self.at] = b;
            self.at += 1;
        }
    }

    pub fn put_text(&mut self, text: &[u8])
        ensures put { HasRoom (length text.now) self.old → Appends (length text.now) self.old self.new text.now }
        ensures full { (HasRoom (length text.now) self.old → ⊥) → self.new ≡ self.old }
    {
        if self.at <= self.out.len() && text.len() <= self.out.len() - self.at {
            let next = self.at + text.len();
            crate::text_into(&mut self.out[self.at..next], text);
            self.at = next;
        }
    }

    // The last k digits of a number. In a base without glyphs nothing is put.
    pub fn put_digits(&mut self, base: u64, k: usize, n: u64)
        ensures put { HasRoom k self.old → 1 < base → base ≤ 16 → Appends k self.old self.new (digits base k n) }
    {
        if self.at <= self.out.len() && k <= self.out.len() - self.at {
            let next = self.at + k;
            crate::digits_into(&mut self.out[self.at..next], base, n);
            self.at = next;
        }
    }

    // What stands from `start` up to the place; nothing where that is no part of the bytes.
    pub fn put_since(&self, start: usize) -> &[u8]
        ensures { start ≤ self.now.at → self.now.at ≤ length self.now.out.now → result.now ≡ take (self.now.at - start) (drop start self.now.out.now) }
    {
        if start <= self.at && self.at <= self.out.len() {
            &self.out[start..self.at]
        } else {
            &self.out[..0]
        }
    }
}

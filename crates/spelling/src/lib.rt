// Texts and digits put into bytes that the caller lends, and read from them. How many digits a number gets is the length of what is lent.
#![tactic(auto)]

pub mod cursor;

ghost use Rattle.std.specs.Prelude.{◌≡◌, ◌<◌, length};
ghost use Rattle.spelling.specs.Spelling.{same_b, glyph, digits, spellable, digits_over, digit_of, text_over};

#[tactic(auto, using(crate::proofs::Alike::same_pointwise))]
pub fn same(a: &[u8], b: &[u8]) -> bool
    ensures { result ≡ same_b a.now b.now }
{
    a == b
}

// ---- digits

// Added to a digit from 10 to 15 it gives the letter.
const LETTERS: u8 = b'a' - 10;

#[tactic(auto, unfolding(crate::specs::Spelling::glyph))]
fn glyph_of(d: u64) -> u8
    requires { d < 16 }
    ensures { result ≡ glyph d }
{
    if d < 10 {
        b'0' + d as u8
    } else {
        LETTERS + d as u8
    }
}

#[tactic(auto, unfolding(crate::specs::Spelling::spellable))]
fn has_glyphs(base: u64) -> bool
    ensures { result ≡ spellable base }
{
    2 <= base && base <= 16
}

// Puts the last digits of a number over all of the part, beginning with the last.
fn spell(part: &mut [u8], base: u64, n: u64)
    requires { (1 < base) × (base < 17) }
    ensures { part.new ≡ digits base (length part.old) n }
{
    let mut rest = n;
    // Stays: tried, and the proof did not close over `iter_mut().rev()`: what the part holds after the loop stayed open.
    for i in (0..part.len()).rev() {
        part[i] = glyph_of(rest % base);
        rest /= base;
    }
}

// A number over all of the part, in as many digits as it has bytes. A base without glyphs leaves the part as it is.
#[tactic(auto, using(crate::proofs::Spelled::bounds, crate::proofs::Spelled::in_base, crate::proofs::Spelled::not_in_base))]
pub fn digits_into(part: &mut [u8], base: u64, n: u64)
    ensures { part.new ≡ digits_over part.old base n }
{
    if has_glyphs(base) {
        spell(part, base, n);
    }
}

// `0` to `9`, and `a` to `f` for 10 to 15; 16 for any other byte.
// Stays: a number for no digit and not an Option, since the definition of `spelled` counts it too, and so does the reader.
#[tactic(auto, unfolding(crate::specs::Spelling::digit_of))]
pub fn digit_of(b: u8) -> u64
    ensures { result ≡ digit_of b }
{
    match b {
        b'0'..=b'9' => (b - b'0') as u64,
        b'a'..=b'f' => (b - LETTERS) as u64,
        _ => 16,
    }
}

// ---- texts

// Puts a text over the front of the part, as far as both go.
#[tactic(auto, using(crate::proofs::Spelled::copied))]
pub fn text_into(part: &mut [u8], text: &[u8])
    ensures { part.new ≡ text_over part.old text.now }
{
    let n = text.len().min(part.len());
    part[..n].copy_from_slice(&text[..n]);
}

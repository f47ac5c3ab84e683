//! Lines of a script, drawn from a number.

ghost use Rattle.std.specs.Prelude.{◌≡◌, ◌≤◌, ◌<◌, ◌∷◌, length, codes, decimal, ◌++◌, IfOk};
ghost use Rattle.pm_model.specs.Batches.{HasCache};
ghost use Rattle.pm_tools.specs.DrawnLines.{after_line, draw_of, drawn, drawn_line, line_with};

use itoa::Buffer;
use pm_model::{Cmd, Line};
use pm_types::{Key, Value};
use std::alloc::{AllocError, Global};
use std::marker::Model;

/// Draws the lines of a script: a script of any length that is made again from its first number.
#[derive(Debug, Drop)]
pub struct Gen {
    x: u32,
}

impl Model for Gen {
    ghost use Rattle.std.specs.Prelude.{ℕ};

    ghost Value = { ℕ };

    ghost view = { λ g. g.x };
}

impl Gen {
    /// Lines that are drawn from this number.
    pub fn new(seed: u32) -> Gen
        ensures { result ≡ seed }
    {
        Gen { x: seed }
    }

    /// The next line, which has the number `i` in the script. Out of memory its draws are made all the same.
    pub fn line(&mut self, alloc: Global, i: u32) -> Result<Line, AllocError>
        ensures line { IfOk result (λ line. line ≡ drawn_line self.old i) }
        ensures draws { self.new ≡ after_line self.old }
        ensures cache { IfOk result HasCache }
    {
        let kind = self.draw() % 10;
        let cache = self.draw() % 4;
        let number = self.draw() % 1000;
        line_with(alloc, kind, cache as u8, number, i)
    }

    // Draws a number below 32,768. Factor, summand and divisor are those of the example of `rand` in the C
    // standard. Do not change: `docs/FORMATS.md` has them, and a script is made again from its number.
    fn draw(&mut self) -> u32
        ensures draws { self.new ≡ drawn self.old }
        ensures number { result ≡ draw_of self.old }
    {
        let x = (u64::from(self.x) * 1_103_515_245 + 12_345) % 2_147_483_648;
        self.x = x as u32;
        self.x / 65_536
    }
}

// The line of this kind, cache and key.
fn line_with(alloc: Global, kind: u32, cache: u8, number: u32, i: u32) -> Result<Line, AllocError>
    requires { cache < 4 }
    ensures line { IfOk result (λ line. line ≡ line_with kind cache number i) }
    ensures cache { IfOk result HasCache }
{
    let text = letter_and_number(alloc, b"k", number)?;
    let key = Key::of(alloc, &text)?;
    match kind {
        0..=5 => put_line(alloc, cache, key, i),
        6..=7 => Ok(Line::Good(Cmd::Get { cache, key })),
        _ => Ok(Line::Good(Cmd::Remove { cache, key })),
    }
}

// The line that sets a key to the value of this number.
fn put_line(alloc: Global, cache: u8, key: Key, i: u32) -> Result<Line, AllocError>
    requires { cache < 4 }
    ensures line { IfOk result (λ line. line ≡ Line.Good (Cmd.Put cache key (codes "v" ++ decimal i))) }
    ensures cache { IfOk result HasCache }
{
    let text = letter_and_number(alloc, b"v", i)?;
    let value = Value::of(alloc, &text)?;
    Ok(Line::Good(Cmd::Put { cache, key, value }))
}

// A letter, and a number in decimal after it.
fn letter_and_number(alloc: Global, letter: &[u8; 1], number: u32) -> Result<Vec<u8>, AllocError>
    ensures text { IfOk result (λ text. text.items ≡ letter.now ++ decimal number) }
    ensures length { IfOk result (λ text. (1 ≤ length text.items) × (length text.items ≤ 64)) }
{
    let mut text = Vec::from_slice(alloc, letter)?;
    text.extend_from_slice(Buffer::new().format(number).as_bytes())?;
    Ok(text)
}

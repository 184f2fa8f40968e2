// The words whose lines are asked for, and the lines found.
ghost use Rattle.std.specs.Prelude.{◌≡◌, ◌<◌, ◌++◌, ◌∷◌, [], length, map, max, slice_get, Some};
ghost use Rattle.gier_mortem.specs.declared.lines.Asked.{Asked};
ghost use Rattle.gier_mortem.specs.WordLines.{addresses, greatest, told_line};

use arrayvec::ArrayVec;

// So many words may be asked for.
const MOST: usize = 65;

/// A word that is asked for by its address, and its line; 0 as long as that isn't found.
#[derive(Debug, Clone, Copy, PartialEq, Eq, Default)]
pub(crate) struct Asked {
    pub(crate) address: u32,
    pub(crate) line: u32,
}

/// The lines of some words of an object, at most 65.
#[derive(Drop)]
pub struct Lines {
    pub(crate) asked: ArrayVec<Asked, MOST>,
}

impl Lines {
    /// None is asked for.
    pub fn new() -> Lines
        ensures none { length result.asked.items ≡ 0 }
    {
        Lines {
            asked: ArrayVec::new(),
        }
    }

    /// Asks for the line of the word with this address. Fewer than 65 were asked for before.
    pub fn ask(&mut self, address: u32)
        requires few { length self.old.asked.items < 65 }
        ensures asked { self.new.asked.items ≡ self.old.asked.items ++ record { address = address; line = 0 } ∷ [] }
    {
        self.asked.push(Asked { address, line: 0 });
    }

    /// The line of the word that was asked for at this number, from 0; 0 before it was found.
    pub fn line(&self, at: u32) -> u32
        requires { at < length self.now.asked.items }
        ensures { (a : Asked) → slice_get self.now.asked.items at ≡ Some a → result ≡ a.line }
    {
        self.asked[at as usize].line
    }

    // The greatest address that is asked for, or 0 where none is.
    pub(crate) fn last(&self) -> u32
        ensures { result ≡ greatest (addresses self.now.asked.items) }
    {
        last_of(self.asked.as_slice())
    }

    // The word with this address has this line.
    pub(crate) fn tell(&mut self, address: u32, line: u32)
        ensures { self.new.asked.items ≡ map (told_line address line) self.old.asked.items }
    {
        tell_all(self.asked.as_mut_slice(), address, line);
    }
}

fn last_of(asked: &[Asked]) -> u32
    ensures { result ≡ greatest (addresses asked.now) }
{
    let mut last = 0;
    for at in 0..asked.len() {
        last = greater(last, asked[at].address);
    }
    last
}

fn greater(a: u32, b: u32) -> u32
    ensures { result ≡ max a b }
{
    if a < b { b } else { a }
}

fn tell_all(asked: &mut [Asked], address: u32, line: u32)
    ensures { asked.new ≡ map (told_line address line) asked.old }
{
    for at in 0..asked.len() {
        asked[at] = told_line(asked[at], address, line);
    }
}

fn told_line(asked: Asked, address: u32, line: u32) -> Asked
    ensures { result ≡ told_line address line asked }
{
    if asked.address == address {
        Asked { address, line }
    } else {
        asked
    }
}

// The frames: opening, the orders that enter and leave blocks, and reads and writes of single words.
ghost use Rattle.std.specs.Prelude.{◌≡◌, ◌+◌, ◌*◌, ◌<◌, ◌≤◌, ◌^◌, ℕ, true, length, replicate, slice_index, slice_set, IfOk, OnOk};
ghost use Rattle.std.specs.Prelude.{OnErr};
ghost use Rattle.gier_frames.specs.State.{IsKept, fresh, all_zero};
ghost use Rattle.gier_frames.specs.Answers.{Answers};
ghost use Rattle.gier_frames.specs.Refusals.{start_refusal, block_refusal, leave_refusal, place_refusal, base_refusal};
ghost use Rattle.gier_frames.specs.Refusals.{room_refusal, is_place, odd_unless};
ghost use Rattle.gier_frames.specs.Effects.{entered_one, after_start, entered_block, left, after_write};
ghost use Rattle.gier_frames.specs.Walk.{cell_of};

use crate::display::Display;
use crate::walk::BASES;
use crate::{Halt, writes};
use gier_region::Region;
use gier_word::{Alarm, NoMemory};
use std::alloc::Global;
use std::marker::Model;

// The most words that are kept aside in one call: the actuals of a procedure, two words each.
const MOST_SAVED: usize = 510;

// The words of a header.
const HEADER: u32 = 3;

/// The words of the stack, and the activations in them.
///
/// The memory is taken at opening, and no later call takes any. A place is the number of a word, from 0. The current
/// activation begins at its base; the first free word is the top.
#[derive(Drop)]
pub struct Frames {
    pub(crate) words: Region,
    // 1 where a procedure's or an evaluation's activation begins.
    pub(crate) marks: Region,
    // Room for words that are moved.
    pub(crate) saved: Vec<u64>,
    pub(crate) base: u64,
    pub(crate) top: u64,
    pub(crate) greatest: u64,
    pub(crate) entered: bool,
    // The visible activations of the current one.
    pub(crate) display: Display,
}

impl Model for Frames {
    ghost use Rattle.std.specs.Prelude.{◌≡◌, ◌<◌, ◌≤◌, ◌^◌, true, length, vec_capacity};
    ghost use Rattle.gier_frames.specs.State.{State};
    ghost use Rattle.gier_frames.specs.Display.{Shows};

    ghost Value = { State };

    ghost view = { λ f. record {
      words = f.words.words;
      marks = f.marks.words;
      base = f.base;
      top = f.top;
      greatest = f.greatest;
      entered = f.entered;
    } };

    ghost invariant = { λ f. (length f.words.words < 2 ^ 24) × (length f.marks.words ≡ length f.words.words)
        × (f.top ≤ length f.words.words) × (f.greatest ≤ length f.words.words) × (f.base ≤ length f.words.words)
        × (f.entered ≡ true → f.base < length f.words.words) × (510 ≤ vec_capacity f.saved)
        × (f.display.size ≡ length f.words.words) × (f.entered ≡ true → Shows f.display f.words.words f.base) };
}

impl Frames {
    /// So many words, fewer than 2^24, all 0, and no activation. It touches no memory.
    pub fn open(alloc: Global, words: u32) -> Result<Frames, NoMemory>
        requires { words < 2 ^ 24 }
        ensures { IfOk result (λ frames. frames ≡ fresh words) }
    {
        let size = u64::from(words);
        let display = Display::open(alloc, words)?;
        let words = Region::open(alloc, size)?;
        let marks = Region::open(alloc, size)?;
        match Vec::with_capacity(alloc, MOST_SAVED) {
            Ok(saved) => Ok(Frames {
                words,
                marks,
                saved,
                base: 0,
                top: 0,
                greatest: 0,
                entered: false,
                display,
            }),
            Err(_) => Err(NoMemory),
        }
    }

    /// Enters the first activation, of a level and with so many words.
    ///
    /// Odd where there is one or the room is below 3; the alarm `stack` where the room is above the number of words.
    pub fn start(&mut self, level: u8, room: u32) -> Result<(), Halt>
        ensures refused { Answers (start_refusal self.old room) result }
        ensures effect { OnOk result (self.new ≡ after_start self.old level room) }
        ensures err { OnErr result (self.new ≡ self.old) }
    {
        admit(
            !self.entered && room >= HEADER,
            u64::from(room),
            self.words.size(),
        )?;
        self.base = 0;
        self.top = 0;
        self.enter(level, u64::from(room), 0, 0);
        Ok(())
    }

    /// Whether there is an activation.
    #[inline]
    pub fn is_entered(&self) -> bool
        ensures value { result ≡ self.now.entered }
        ensures kept { IsKept self.now }
    {
        self.entered
    }

    /// Enters a block of a level and with so many words, enclosed by the current activation.
    ///
    /// Odd where there is no activation or the room is below 3; the alarm `stack` where not so many words are free.
    pub fn block(&mut self, level: u8, room: u32) -> Result<(), Halt>
        ensures refused { Answers (block_refusal self.old room) result }
        ensures effect { OnOk result (self.new ≡ entered_block self.old level room) }
        ensures err { OnErr result (self.new ≡ self.old) }
    {
        let room = u64::from(room);
        admit(
            self.entered && room >= u64::from(HEADER),
            self.top + room,
            self.words.size(),
        )?;
        let outer = self.base;
        self.enter(level, room, outer, 0);
        Ok(())
    }

    /// Leaves the current activation for the one before it, and gives its words back.
    ///
    /// Odd where there is no activation, or where the base before it is no place.
    pub fn leave(&mut self) -> Result<(), Halt>
        ensures refused { Answers (leave_refusal self.old) result }
        ensures effect { OnOk result (self.new ≡ left self.old) }
        ensures err { OnErr result (self.new ≡ self.old) }
    {
        let old = self.get(self.base)?;
        if old >= self.words.size() {
            return Err(Halt::Odd);
        }
        self.top = self.base;
        self.base = old;
        self.display.build(&self.words, old);
        Ok(())
    }

    /// The place at an address in the visible activation of a level, which need not be a place of the stack.
    ///
    /// Odd where none of this level is visible.
    #[tactic(auto, using(crate::proofs::DisplayBuild::shown_answers))]
    pub fn cell(&self, level: u8, address: u32) -> Result<u64, Halt>
        ensures value { result ≡ cell_of self.now level address }
        ensures kept { IsKept self.now }
    {
        if !self.entered {
            return Err(Halt::Odd);
        }
        let base = self.display.find(level)?;
        Ok(base + u64::from(address))
    }

    /// The place at an address in the current activation, which need not be a place of the stack.
    ///
    /// Odd where there is no activation.
    #[inline]
    pub fn here(&self, address: u32) -> Result<u64, Halt>
        ensures refused { Answers (base_refusal self.now) result }
        ensures place { IfOk result (λ place. place ≡ self.now.base + address) }
        ensures kept { IsKept self.now }
    {
        if self.entered {
            Ok(self.base + u64::from(address))
        } else {
            Err(Halt::Odd)
        }
    }

    /// The word at a place.
    ///
    /// Odd where there is no activation, or where this is no place of the stack.
    #[inline]
    pub fn get(&self, place: u64) -> Result<u64, Halt>
        ensures refused { Answers (place_refusal self.now place) result }
        ensures word { IfOk result (λ word. word ≡ slice_index self.now.words place) }
        ensures small { IfOk result (λ word. word < 2 ^ 40) }
    {
        if self.entered && place < self.words.size() {
            Ok(self.words.get(place))
        } else {
            Err(Halt::Odd)
        }
    }

    /// Writes a word, below 2^40, at a place.
    ///
    /// Odd where there is no activation, or where this is no place of the stack.
    #[inline]
    pub fn set(&mut self, place: u64, word: u64) -> Result<(), Halt>
        requires { word < 2 ^ 40 }
        ensures refused { Answers (place_refusal self.old place) result }
        ensures effect { OnOk result (self.new ≡ after_write self.old place word) }
        ensures err { OnErr result (self.new ≡ self.old) }
    {
        if !self.entered || place >= self.words.size() {
            return Err(Halt::Odd);
        }
        self.display.write(&mut self.words, self.base, place, word);
        Ok(())
    }

    /// The top, which is how many words are in use.
    #[inline]
    pub fn live(&self) -> u32
        ensures { result ≡ self.now.top }
    {
        self.top as u32
    }

    /// The greatest top since opening or the last `clear`.
    #[inline]
    pub fn greatest(&self) -> u32
        ensures { result ≡ self.now.greatest }
    {
        self.greatest as u32
    }

    /// Leaves no activation, makes all words 0, and the top and its greatest value too.
    pub fn clear(&mut self)
        ensures { self.new ≡ all_zero self.old }
    {
        writes::reset(&mut self.words);
        writes::reset(&mut self.marks);
        self.base = 0;
        self.top = 0;
        self.greatest = 0;
        self.entered = false;
    }

    // Enters an activation for which there is room.
    pub(crate) fn enter(&mut self, level: u8, room: u64, outer: u64, mark: u64)
        requires least { 3 ≤ room }
        requires fits { self.old.top + room ≤ length self.old.words }
        requires outer { outer < 2 ^ 24 }
        requires mark { mark ≤ 1 }
        ensures effect { self.new ≡ entered_one self.old level room outer mark }
        ensures size { length self.new.words ≡ length self.old.words }
    {
        let base = self.top;
        let end = base + room;
        writes::make_activation(
            &mut self.words,
            base,
            room,
            self.base,
            u64::from(level) * BASES + outer,
        );
        self.marks.set(base, mark);
        self.base = base;
        self.top = end;
        self.greatest = self.greatest.max(end);
        self.entered = true;
        self.display.build(&self.words, base);
    }
}

// Odd where a condition doesn't hold, and else the alarm `stack` where so many words are too many.
pub(crate) fn admit(holds: bool, end: u64, size: u64) -> Result<(), Halt>
    ensures { Answers (room_refusal holds end size) result }
{
    if !holds {
        return Err(Halt::Odd);
    }
    if end > size {
        return Err(Halt::Alarm(Alarm::Stack));
    }
    Ok(())
}

// A text on a drum: two words a symbol, and twenty symbols a track. Each track is written once and read once.
ghost use Rattle.std.specs.Prelude.{◌≡◌, ◌<◌, ◌≤◌, ◌+◌, ◌/◌, ◌^◌, ◌*◌, ◌-◌, ◌%◌, ℕ, List, true, false, Some, None, length, All};
ghost use Rattle.std.specs.Prelude.{OnOk, OnErr, IfErr, IfOk, slice_index, slice_set};
ghost use Rattle.gier_word.specs.Cause.{HasCause};
ghost use Rattle.gier_drum.specs.Drum.{SetsTrack};
ghost use Rattle.gier_symbol.specs.Symbols.{IsSymbol, symbol_of_code};
ghost use Rattle.gier_text.specs.declared.text.Way.TheVariants.{Forward, Backward};
ghost use Rattle.gier_text.specs.SymbolsOnTracks.{symbols_of, left_in, all_symbols, tracks_for, track_words, symbol_in};
ghost use Rattle.gier_text.specs.SymbolsOnTracks.{buffered_only, IsNext};
ghost use Rattle.gier_text.specs.Log.{log_of, new_read, last_write, LogsAll};
ghost use Rattle.gier_text.specs.View.{View};

use crate::{Text, TextStop, Way};
use gier_drum::Drum;
use gier_symbol::Symbol;
use gier_word::Odd;
use std::marker::PhantomData;

// How many symbols a track holds, each in two words.
const ON_TRACK: u32 = 20;

/// A text on the tracks of a drum from a first one on.
#[derive(Drop)]
pub struct DrumText<D> {
    first: u32,
    capacity: u32,
    // How many symbols it holds.
    count: u32,
    // Whether it is written here, and not found on the drum.
    fresh: bool,
    rewound: bool,
    way: Way,
    unread: u32,
    // One more than the number of the track that the buffer stands for, or 0.
    loaded: u32,
    buffer: [u64; 40],
    of: PhantomData<D>,
    ghost within: { unread ≤ count },
    ghost limited: { count ≤ capacity },
    ghost fits: { first + tracks_for capacity ≤ 2 ^ 32 },
    ghost sized: { length buffer ≡ 40 },
    ghost small: { All (λ word. word < 2 ^ 40) buffer },
    ghost filled: { rewound ≡ false → fresh ≡ true → loaded ≡ count / 20 + 1 },
    ghost found: { rewound ≡ false → fresh ≡ false → (loaded ≡ 0) × (count ≡ capacity) },
    ghost blank: { rewound ≡ false → (k : ℕ) → 2 * (count % 20) ≤ k → slice_index buffer k ≡ 0 },
    ghost ahead: { rewound ≡ true → way ≡ Forward → loaded ≡ (count - unread + 19) / 20 },
    ghost behind: { rewound ≡ true → way ≡ Backward → unread < count → loaded ≡ unread / 20 + 1 },
    ghost unbegun: { rewound ≡ true → unread ≡ count → loaded ≡ 0 },
}

impl<D: Drum> DrumText<D> {
    /// An empty text for at most `capacity` symbols, from this track on.
    pub fn at(first_track: u32, capacity: u32) -> DrumText<D>
        requires { first_track + tracks_for capacity ≤ 2 ^ 32 }
        ensures empty { (result.count ≡ 0) × (result.rewound ≡ false) × (result.fresh ≡ true) }
        ensures place { (result.first ≡ first_track) × (result.capacity ≡ capacity) }
    {
        DrumText {
            first: first_track,
            capacity,
            count: 0,
            fresh: true,
            rewound: false,
            way: Way::Forward,
            unread: 0,
            loaded: 1,
            buffer: blank_track(),
            of: PhantomData,
        }
    }

    /// A text of so many symbols that was written before, from this track on. It may only be rewound and read.
    pub fn again(first_track: u32, symbols: u32) -> DrumText<D>
        requires { first_track + tracks_for symbols ≤ 2 ^ 32 }
        ensures whole { (result.count ≡ symbols) × (result.rewound ≡ false) × (result.fresh ≡ false) }
        ensures place { (result.first ≡ first_track) × (result.capacity ≡ symbols) }
        ensures on_drum { result.loaded ≡ 0 }
    {
        DrumText {
            first: first_track,
            capacity: symbols,
            count: symbols,
            fresh: false,
            rewound: false,
            way: Way::Forward,
            unread: 0,
            loaded: 0,
            buffer: blank_track(),
            of: PhantomData,
        }
    }

    /// How many symbols it holds.
    pub fn len(&self) -> u32
        ensures { result ≡ self.now.count }
    {
        self.count
    }
}

impl<D: Drum> Text for DrumText<D> {
    type Store = D;

    ghost view = { λ t store. record {
      held = all_symbols (symbols_of (D.tracks store) t.first t.loaded t.buffer t.count);
      count = t.count;
      capacity = Some t.capacity;
      rewound = t.rewound;
      way = t.way;
      left = all_symbols (left_in (D.tracks store) t.first t.loaded t.buffer t.count t.way t.unread);
      unread = t.unread;
      log = log_of t.fresh t.rewound t.first t.count t.way t.loaded;
    } };

    ghost first_track = { λ t. t.first };

    ghost end_track = { λ t. t.first + tracks_for t.capacity };

    ghost room = { λ store. D.room store };

    ghost tracks = { λ store. D.tracks store };

    ghost journal = { λ store. D.journal store };

    ghost faults = { λ store. D.faults store };

    ghost grows = { false };

    ghost use Rattle.std.proofs.Common.{arith};
    ghost use Rattle.gier_text.specs.Own.{own_view};

    ghost runs = { λ t. Prim.omega arith };

    ghost own = { λ t old new same. own_view (D.tracks old)
        (D.tracks new) t.first t.loaded t.buffer t.count t.capacity t.rewound t.way t.unread
        (log_of t.fresh t.rewound t.first t.count t.way t.loaded) t.limited same };

    fn write_next(&mut self, store: &mut D, s: Symbol) -> Result<(), TextStop> {
        if self.count == self.capacity {
            return Err(TextStop::Full);
        }
        put(&mut self.buffer, self.count % ON_TRACK, s);
        if self.count % ON_TRACK < ON_TRACK - 1 {
            self.count += 1;
            return Ok(());
        }
        let written = store.write(self.first + self.count / ON_TRACK, &self.buffer);
        self.buffer = blank_track();
        match written {
            Ok(()) => {
                self.loaded += 1;
                self.count += 1;
                Ok(())
            }
            Err(_) => Err(TextStop::Failed),
        }
    }

    fn rewind(&mut self, store: &mut D, way: Way) -> Result<(), TextStop> {
        flush(store, self.fresh, self.first, self.count, &self.buffer)?;
        self.rewound = true;
        self.way = way;
        self.unread = self.count;
        self.loaded = 0;
        Ok(())
    }

    fn read_next(&mut self, store: &mut D) -> Result<Option<Symbol>, TextStop> {
        if self.unread == 0 {
            return Ok(None);
        }
        let at = next_place(self.way, self.count, self.unread);
        load(
            store,
            self.first,
            at / ON_TRACK,
            &mut self.loaded,
            &mut self.buffer,
        )?;
        let place = u64::from(self.count - self.unread);
        self.unread -= 1;
        match get(&self.buffer, at % ON_TRACK) {
            Ok(s) => Ok(Some(s)),
            Err(word) => Err(TextStop::Spoilt(Odd { place, word })),
        }
    }
}

// A track of zeros.
fn blank_track() -> [u64; 40]
    ensures sized { length result ≡ 40 }
    ensures zero { (k : ℕ) → slice_index result k ≡ 0 }
    ensures small { All (λ word. word < 2 ^ 40) result }
{
    [0; 40]
}

// Puts a symbol's code at its place on a track.
fn put(buffer: &mut [u64; 40], at: u32, s: Symbol)
    requires symbol { IsSymbol s }
    requires place { at < 20 }
    ensures words { buffer.new ≡ slice_set (slice_set buffer.old (2 * at) (s.tag * 2 ^ 24 + s.line)) (2 * at + 1) s.value }
    ensures small { All (λ word. word < 2 ^ 40) buffer.old → All (λ word. word < 2 ^ 40) buffer.new }
{
    let [head, value] = s.code();
    let place = 2 * at as usize;
    buffer[place] = head;
    buffer[place + 1] = value;
}

// The symbol at its place on a track, or the first word where the two words there are no code.
#[tactic(auto, unfolding(crate::specs::SymbolsOnTracks::symbol_in))]
fn get(buffer: &[u64; 40], at: u32) -> Result<Symbol, u64>
    requires { at < 20 }
    ensures symbol { IfOk result (λ s. IsSymbol s × (symbol_in buffer.now (2 * at) ≡ Some s)) }
    ensures word { IfErr result (λ word. (symbol_in buffer.now (2 * at) ≡ None)
        × ((value : ℕ) × (symbol_of_code word value ≡ None))) }
{
    let place = 2 * at as usize;
    let head = buffer[place];
    match Symbol::decode([head, buffer[place + 1]]) {
        Some(s) => Ok(s),
        None => Err(head),
    }
}

// The number of the symbol that is read next.
fn next_place(way: Way, count: u32, unread: u32) -> u32
    requires some { 0 < unread }
    requires within { unread ≤ count }
    ensures next { IsNext way count unread result }
    ensures within { result < count }
{
    match way {
        Way::Forward => count - unread,
        Way::Backward => unread - 1,
    }
}

// Brings a text's track into the buffer, unless that is there.
fn load<D: Drum>(
    store: &mut D,
    first: u32,
    track: u32,
    loaded: &mut u32,
    buffer: &mut [u64; 40],
) -> Result<(), TextStop>
    requires fits { first + track < 2 ^ 32 }
    requires countable { track + 1 < 2 ^ 32 }
    requires in_room { first + track < D.room store.old }
    requires small { All (λ word. word < 2 ^ 40) buffer.old }
    ensures loaded { OnOk result (loaded.new ≡ track + 1) }
    ensures words { OnOk result ((all : List (List ℕ)) → D.tracks store.old ≡ Some all
        → buffer.new ≡ track_words all first loaded.old buffer.old track) }
    ensures err { OnErr result ((loaded.new ≡ loaded.old) × (buffer.new ≡ buffer.old)) }
    ensures small { All (λ word. word < 2 ^ 40) buffer.new }
    ensures sized { length buffer.new ≡ 40 }
    ensures tracks { D.tracks store.new ≡ D.tracks store.old }
    ensures room { D.room store.new ≡ D.room store.old }
    ensures logged { OnOk result (LogsAll (D.journal store.old) (new_read first track loaded.old) (D.journal store.new)) }
    ensures unlogged { OnErr result (D.journal store.new ≡ D.journal store.old) }
    ensures cause { HasCause (D.faults store.old) (D.faults store.new) result }
    ensures only { IfErr result (λ stop. stop ≡ TextStop.Failed) }
{
    if *loaded == track + 1 {
        return Ok(());
    }
    let mut words = [0; 40];
    match store.read(first + track, &mut words) {
        Ok(()) => {
            *buffer = words;
            *loaded = track + 1;
            Ok(())
        }
        Err(_) => Err(TextStop::Failed),
    }
}

// Writes the last track of a text that is written here, where it has begun.
fn flush<D: Drum>(
    store: &mut D,
    fresh: bool,
    first: u32,
    count: u32,
    buffer: &[u64; 40],
) -> Result<(), TextStop>
    requires fits { 0 < count % 20 → first + count / 20 < 2 ^ 32 }
    requires in_room { first + (count + 19) / 20 ≤ D.room store.old }
    requires small { All (λ word. word < 2 ^ 40) buffer.now }
    ensures begun { OnOk result (0 < buffered_only fresh count
        → SetsTrack (D.tracks store.old) (first + count / 20) buffer.now (D.tracks store.new)) }
    ensures full { OnOk result (buffered_only fresh count ≡ 0 → D.tracks store.new ≡ D.tracks store.old) }
    ensures err { OnErr result (D.tracks store.new ≡ D.tracks store.old) }
    ensures room { D.room store.new ≡ D.room store.old }
    ensures logged { OnOk result (LogsAll (D.journal store.old) (last_write fresh first count) (D.journal store.new)) }
    ensures unlogged { OnErr result (D.journal store.new ≡ D.journal store.old) }
    ensures cause { HasCause (D.faults store.old) (D.faults store.new) result }
    ensures only { IfErr result (λ stop. stop ≡ TextStop.Failed) }
{
    if !fresh || count % ON_TRACK == 0 {
        return Ok(());
    }
    match store.write(first + count / ON_TRACK, buffer) {
        Ok(()) => Ok(()),
        Err(_) => Err(TextStop::Failed),
    }
}

// Looks for the words that are asked for in the text of orders, from its first symbol to the last word that is asked for.
ghost use Rattle.std.specs.Prelude.{◌≡◌, ◌<◌, ◌≤◌, ◌+◌, IsErrOf, List, length, Some, true, false};
ghost use Rattle.gier_word.specs.Cause.{HasRisen};
ghost use Rattle.gier_text.specs.SymbolsOnTracks.{tracks_for, text_on};
ghost use Rattle.gier_text.specs.View.{KeepsTracks};
ghost use Rattle.gier_tree.specs.WordLines.{is_word};
ghost use Rattle.gier_mortem.specs.WordLines.{addresses, Finds, SpoiltIfShort};
ghost use Rattle.gier_symbol.specs.declared.symbol.Symbol.{Symbol};
ghost use Rattle.gier_mortem.specs.Stops.{IsSpoilt};
ghost use Rattle.gier_mortem.specs.declared.stop.LineStop.TheVariants.{Drum as DrumFailed};

use crate::stop::stop_of;
use crate::{LineStop, Lines};
use gier_drum::Drum;
use gier_symbol::Tag;
use gier_text::{DrumText, Text, Way};
use gier_word::Odd;

impl Lines {
    /// Finds the lines in the text of orders that lies on the drum from a track on and has so many symbols. Its tracks are
    /// read in rising order, each once, up to the one with the last word that was asked for.
    ///
    /// `Drum` comes only where the drum's count of faults rose. Where the drum tells a text there, each word that was asked for
    /// has its line, or the text ends before one of them.
    #[tactic(auto, using(crate::proofs::Searching::as_many))]
    pub fn find<D: Drum>(
        &mut self,
        first_track: u32,
        symbols: u32,
        drum: &mut D,
    ) -> Result<(), LineStop>
        requires placed { first_track + tracks_for symbols ≤ D.room drum.old }
        ensures count { length self.new.asked.items ≡ length self.old.asked.items }
        ensures addresses { addresses self.new.asked.items ≡ addresses self.old.asked.items }
        ensures lines { (list : List Symbol) → text_on (D.tracks drum.old) first_track symbols ≡ Some list
            → Finds result list self.new.asked.items }
        ensures spoilt { (list : List Symbol) → text_on (D.tracks drum.old) first_track symbols ≡ Some list
            → SpoiltIfShort result list self.old.asked.items }
        ensures room { D.room drum.new ≡ D.room drum.old }
        ensures tracks { KeepsTracks first_track (first_track + tracks_for symbols) (D.tracks drum.old) (D.tracks drum.new) }
        ensures later { D.faults drum.old ≤ D.faults drum.new }
        ensures failed { IsErrOf result DrumFailed → HasRisen (D.faults drum.old) (D.faults drum.new) }
    {
        let mut text = DrumText::again(first_track, symbols);
        match text.rewind(drum, Way::Forward) {
            Ok(()) => self.search(symbols, &mut text, drum),
            Err(stop) => Err(stop_of(stop)),
        }
    }

    fn search<T: Text>(
        &mut self,
        symbols: u32,
        text: &mut T,
        store: &mut T::Store,
    ) -> Result<(), LineStop>
        requires reading { (T.view text.old store.old).rewound ≡ true }
        requires placed { T.end_track text.old ≤ T.room store.old }
        requires few { (T.view text.old store.old).unread ≤ symbols }
        ensures addresses { addresses self.new.asked.items ≡ addresses self.old.asked.items }
        ensures lines { (list : List Symbol) → (T.view text.old store.old).left ≡ Some list
            → Finds result list self.new.asked.items }
        ensures spoilt { (list : List Symbol) → T.grows ≡ false → (T.view text.old store.old).left ≡ Some list
            → SpoiltIfShort result list self.old.asked.items }
        ensures room { T.room store.new ≡ T.room store.old }
        ensures tracks { T.tracks store.new ≡ T.tracks store.old }
        ensures later { T.faults store.old ≤ T.faults store.new }
        ensures failed { IsErrOf result DrumFailed → HasRisen (T.faults store.old) (T.faults store.new) }
    {
        let last = self.last();
        let mut address = 0;
        loop {
            match text.read_next(store) {
                Ok(Some(symbol)) => {
                    if is_word(symbol.tag) {
                        self.tell(address, symbol.line);
                        if address == last {
                            return Ok(());
                        }
                        address += 1;
                    }
                }
                Ok(None) => return Err(too_short(symbols)),
                Err(stop) => return Err(stop_of(stop)),
            }
        }
    }
}

fn too_short(symbols: u32) -> LineStop
    ensures { IsSpoilt result }
{
    LineStop::Spoilt(Odd {
        place: u64::from(symbols),
        word: 0,
    })
}

// Whether a symbol of the text of orders is a word of the object.
fn is_word(tag: u16) -> bool
    ensures { result ≡ is_word tag }
{
    tag != Tag::LabelPlace.number() && tag != Tag::Need.number() && tag != Tag::ObjectWords.number()
}

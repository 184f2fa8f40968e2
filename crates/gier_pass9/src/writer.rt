// The pass: text 8 is read to its end, and each of its words goes to the object.
ghost use Rattle.std.specs.Prelude.{◌≡◌, ◌≤◌, ◌<◌, ◌+◌, ◌*◌, ◌^◌, ◌⊎◌, ◌++◌, ◌∷◌, [], ℕ, List, IfOk, IfErr, OnOk, OnErr, IsErrOf};
ghost use Rattle.std.specs.Prelude.{IsTrue, Some, false};
ghost use Rattle.gier_word.specs.Cause.{HasCause, HasRisen};
ghost use Rattle.gier_symbol.specs.declared.symbol.Symbol.{Symbol};
ghost use Rattle.gier_symbol.specs.Symbols.{IsSymbol};
ghost use Rattle.gier_symbol.specs.Texts.{stands_in};
ghost use Rattle.gier_text.specs.declared.pass.PassStop.TheVariants.{Drum as DrumStop, Memory, Full};
ghost use Rattle.gier_text.specs.declared.text.Way.TheVariants.{Backward};
ghost use Rattle.gier_text.specs.Drive.{SpoiltAs};
ghost use Rattle.gier_text.specs.TablesModel.{tables_model};
ghost use Rattle.gier_text.specs.Log.{LogsAll};
ghost use Rattle.gier_text.specs.Passes.{SpoiltIf};
ghost use Rattle.gier_text.specs.View.{Apart, IsUnread, IsLeft, IsPlacedAs, KeepsTracks};
ghost use Rattle.gier_labels.specs.Labels.{HasLabels};
ghost use Rattle.gier_pass9.specs.Words.{KeepsLabels, room_of};
ghost use Rattle.gier_pass9.specs.ObjectOfText.{Makes, HasWords, HoldsWords, marks_of, marks_behind, words_with};
ghost use Rattle.gier_pass9.specs.Object.{tracks_of, full_track, last_track};
ghost use Rattle.gier_pass9.specs.PassOutput.{words_for, words_in, AreLetters, IsObjectText, IsWrong, Fills, AreThose, word_log};

use crate::object::Object;
use crate::words::{room, set_mark, word_for};
use gier_drum::Drum;
use gier_symbol::{Symbol, Tag, stands_in};
use gier_text::{PassStop, Tables, Text, pass_stop};
use gier_word::Odd;

/// Pass 9: reads text 8 backward, so in the order of the source, and writes the object.
#[derive(Debug, Clone, Copy, PartialEq, Eq)]
pub struct Pass9;

impl Pass9 {
    /// Writes the words of the object to the tracks of the drum from `first_track` on, and gives their number, from 1 to `most`.
    ///
    /// Each track is written once, the last one filled up with 0. The lists of the tables are cleared, and the faults stay. A text
    /// with more than `most` words is Spoilt at the symbol of the first word too many, and one without a word with place 0 and word
    /// 0. It never answers Full.
    pub fn write<T: Text<Store = D>, D: Drum>(
        text: &mut T,
        first_track: u32,
        most: u32,
        drum: &mut D,
        tables: &mut Tables,
    ) -> Result<u32, PassStop>
        requires unread { IsUnread (T.view text.old drum.old) Backward }
        requires in_room { first_track + tracks_of most ≤ D.room drum.old }
        requires apart { Apart (T.first_track text.old) (T.end_track text.old) first_track (first_track + tracks_of most) }
        requires placed { T.end_track text.old ≤ T.room drum.old }
        requires same { AreThose T.room D.room T.tracks D.tracks T.journal D.journal T.faults D.faults }
        ensures words { IfOk result (λ n. (1 ≤ n) × (n ≤ most)) }
        ensures read { IfOk result
            (λ n. (read : List Symbol) × IsLeft (T.view text.old drum.old) read × AreLetters read × (words_in read ≡ n)) }
        ensures made { IfOk result
            (λ n. Makes (T.view text.old drum.old) (tables_model tables.old).limit first_track (D.tracks drum.new) n) }
        ensures wrote { IfOk result
            (λ n. Fills (T.view text.old drum.old) (T.view text.new drum.new) first_track (tracks_of n) (D.journal drum.old)
            (D.journal drum.new)) }
        ensures logged { (tracks : ℕ) × (tracks ≤ tracks_of most)
            × Fills (T.view text.old drum.old) (T.view text.new drum.new) first_track tracks (D.journal drum.old)
            (D.journal drum.new) }
        ensures place { IsPlacedAs T.first_track T.end_track text.old text.new }
        ensures tracks { KeepsTracks first_track (first_track + tracks_of most) (D.tracks drum.old) (D.tracks drum.new) }
        ensures room { D.room drum.new ≡ D.room drum.old }
        ensures later { D.faults drum.old ≤ D.faults drum.new }
        ensures drum { IsErrOf result DrumStop → HasRisen (D.faults drum.old) (D.faults drum.new) }
        ensures memory { IsErrOf result Memory → IsTrue T.grows }
        ensures full { IsErrOf result Full → ⊥ }
        ensures spoilt { (all : List Symbol) → (T.view text.old drum.old).left ≡ Some all → SpoiltAs result (IsWrong most all) }
        ensures sound { (all : List Symbol) → (T.view text.old drum.old).left ≡ Some all → IsObjectText most all
            → SpoiltIf result ⊥ }
        ensures limit { (tables_model tables.new).limit ≡ (tables_model tables.old).limit }
        ensures faults { (tables_model tables.new).faults ≡ (tables_model tables.old).faults }
    {
        let labels = room(tables.limit());
        tables.clear();
        gier_labels::open(tables, labels);
        let mut object = Object::at(first_track, most);
        let mut place = 0u64;
        loop {
            let s = match text.read_next(drum) {
                Ok(Some(s)) => s,
                Ok(None) => break,
                Err(stop) => return Err(pass_stop(stop)),
            };
            match take(text, drum, &mut object, tables, labels, place, s) {
                Ok(()) => {}
                Err(stop) => return Err(stop),
            }
            place = place.saturating_add(1);
        }
        finish(text, drum, &object)
    }
}

// Takes a symbol, the one with this number from 0.
fn take<T: Text<Store = D>, D: Drum>(
    text: &T,
    drum: &mut D,
    object: &mut Object,
    tables: &mut Tables,
    labels: u32,
    place: u64,
    s: Symbol,
) -> Result<(), PassStop>
    requires symbol { IsSymbol s }
    requires labels { HasLabels labels (tables_model tables.old) }
    requires in_room { object.old.first + tracks_of object.old.most ≤ D.room drum.old }
    requires apart { Apart (T.first_track text.now) (T.end_track text.now) object.old.first
        (object.old.first + tracks_of object.old.most) }
    requires same { AreThose T.room D.room T.tracks D.tracks T.journal D.journal T.faults D.faults }
    ensures labels { KeepsLabels labels (tables_model tables.old) (tables_model tables.new) }
    ensures letter { OnOk result (IsTrue (stands_in 8 s.tag)) }
    ensures place { (object.new.first ≡ object.old.first) × (object.new.most ≡ object.old.most) }
    ensures count { OnOk result (object.new.count ≡ object.old.count + words_for s) }
    ensures marks { OnOk result
        ((label : ℕ) → marks_of (tables_model tables.new) label ≡ marks_behind labels object.old.count s
        (marks_of (tables_model tables.old)) label) }
    ensures made { OnOk result ((words : List ℕ) → HasWords object.old (D.tracks drum.old) words
        → HasWords object.new (D.tracks drum.new) (words ++ words_with (marks_of (tables_model tables.old)) s)) }
    ensures refused { OnErr result (object.new.count ≡ object.old.count) }
    ensures text { T.view text.now drum.new ≡ T.view text.now drum.old }
    ensures tracks { KeepsTracks object.old.first (object.old.first + tracks_of object.old.most) (D.tracks drum.old)
        (D.tracks drum.new) }
    ensures room { D.room drum.new ≡ D.room drum.old }
    ensures logged { OnOk result
        (LogsAll (D.journal drum.old) (word_log s object.old.first object.old.count) (D.journal drum.new)) }
    ensures unlogged { OnErr result (D.journal drum.new ≡ D.journal drum.old) }
    ensures later { D.faults drum.old ≤ D.faults drum.new }
    ensures drum { IsErrOf result DrumStop → HasRisen (D.faults drum.old) (D.faults drum.new) }
    ensures memory { IsErrOf result Memory → ⊥ }
    ensures full { IsErrOf result Full → ⊥ }
    ensures spoilt { SpoiltAs result (λ odd. (odd.place ≡ place) × (odd.word ≡ s.tag * 2 ^ 24 + s.line)
        × ((stands_in 8 s.tag ≡ false) ⊎ ((words_for s ≡ 1) × (object.old.count ≡ object.old.most)))) }
{
    let [word, _] = s.code();
    let odd = Odd { place, word };
    if !stands_in(8, s.tag) {
        return Err(PassStop::Spoilt(odd));
    }
    if s.tag == Tag::LabelPlace.number() {
        set_mark(tables, s.value, object.words(), labels);
        return Ok(());
    }
    if object.is_full() {
        return Err(PassStop::Spoilt(odd));
    }
    put(text, drum, object, word_for(tables, s))
}

// Appends a word to the object, which is apart from the text.
fn put<T: Text<Store = D>, D: Drum>(
    text: &T,
    drum: &mut D,
    object: &mut Object,
    word: u64,
) -> Result<(), PassStop>
    requires room { object.old.count < object.old.most }
    requires word { word < 2 ^ 40 }
    requires in_room { object.old.first + tracks_of object.old.most ≤ D.room drum.old }
    requires apart { Apart (T.first_track text.now) (T.end_track text.now) object.old.first
        (object.old.first + tracks_of object.old.most) }
    requires same { AreThose T.room D.room T.tracks D.tracks T.journal D.journal T.faults D.faults }
    ensures place { (object.new.first ≡ object.old.first) × (object.new.most ≡ object.old.most) }
    ensures count { OnOk result (object.new.count ≡ object.old.count + 1) }
    ensures refused { OnErr result (object.new.count ≡ object.old.count) }
    ensures made { OnOk result
        ((words : List ℕ) → HasWords object.old (D.tracks drum.old) words
        → HasWords object.new (D.tracks drum.new) (words ++ word ∷ [])) }
    ensures text { T.view text.now drum.new ≡ T.view text.now drum.old }
    ensures tracks { KeepsTracks object.old.first (object.old.first + tracks_of object.old.most) (D.tracks drum.old)
        (D.tracks drum.new) }
    ensures room { D.room drum.new ≡ D.room drum.old }
    ensures logged { OnOk result
        (LogsAll (D.journal drum.old) (full_track object.old.first object.old.count) (D.journal drum.new)) }
    ensures unlogged { OnErr result (D.journal drum.new ≡ D.journal drum.old) }
    ensures cause { HasCause (D.faults drum.old) (D.faults drum.new) result }
    ensures only { IfErr result (λ stop. stop ≡ PassStop.Drum) }
{
    match object.put(drum, word) {
        Ok(()) => Ok(()),
        Err(_) => Err(PassStop::Drum),
    }
}

// Ends the object, and gives how many words it has.
fn finish<T: Text<Store = D>, D: Drum>(
    text: &T,
    drum: &mut D,
    object: &Object,
) -> Result<u32, PassStop>
    requires in_room { object.now.first + tracks_of object.now.most ≤ D.room drum.old }
    requires apart { Apart (T.first_track text.now) (T.end_track text.now) object.now.first
        (object.now.first + tracks_of object.now.most) }
    requires same { AreThose T.room D.room T.tracks D.tracks T.journal D.journal T.faults D.faults }
    ensures words { IfOk result (λ n. (n ≡ object.now.count) × (1 ≤ n)) }
    ensures made { OnOk result
        ((words : List ℕ) → HasWords object.now (D.tracks drum.old) words → HoldsWords (D.tracks drum.new) object.now.first words) }
    ensures text { T.view text.now drum.new ≡ T.view text.now drum.old }
    ensures tracks { KeepsTracks object.now.first (object.now.first + tracks_of object.now.most) (D.tracks drum.old)
        (D.tracks drum.new) }
    ensures room { D.room drum.new ≡ D.room drum.old }
    ensures logged { OnOk result
        (LogsAll (D.journal drum.old) (last_track object.now.first object.now.count) (D.journal drum.new)) }
    ensures unlogged { OnErr result (D.journal drum.new ≡ D.journal drum.old) }
    ensures later { D.faults drum.old ≤ D.faults drum.new }
    ensures drum { IsErrOf result DrumStop → HasRisen (D.faults drum.old) (D.faults drum.new) }
    ensures memory { IsErrOf result Memory → ⊥ }
    ensures full { IsErrOf result Full → ⊥ }
    ensures spoilt { SpoiltAs result (λ odd. (odd.place ≡ 0) × (odd.word ≡ 0) × (object.now.count ≡ 0)) }
{
    if object.words() == 0 {
        return Err(PassStop::Spoilt(Odd { place: 0, word: 0 }));
    }
    match object.close(drum) {
        Ok(()) => Ok(object.words()),
        Err(_) => Err(PassStop::Drum),
    }
}

// Writes the object of a text 8 to a drum in memory, and prints its words.
ghost use Rattle.std.specs.Prelude.{◌≡◌, ◌≤◌, ◌+◌, ◌*◌, ◌^◌, IfOk, false};

use gier_drum::{Drum, MemDrum};
use gier_pass9::Pass9;
use gier_text::{DrumText, ListText, PassStop, Tables, Text, Way, pass_stop};
use std::io;

// The text has so many tracks of the drum, with 20 symbols each, and the object those behind, with 40 words each.
const TEXT: u32 = 1 << 20;

const OBJECT: u32 = 1 << 18;

const SYMBOLS: u32 = 20 * TEXT;

const WORDS: u32 = 40 * OBJECT;

const ON_TRACK: u32 = 40;

/// Prints the words of the object. `way` is the way in which the list gives the text from its end.
pub fn show_object(
    rt: &HostRuntime,
    list: &mut ListText,
    way: Way,
    tables: &mut Tables,
) -> io::Result<()>
    requires { list.old.rewound ≡ false }
{
    let Ok(mut drum) = MemDrum::open(rt.alloc(), 0) else {
        return println!(rt; "want of memory");
    };
    if drum.make_room(TEXT + OBJECT).is_err() {
        return println!(rt; "want of memory");
    }
    match write_object(list, way, &mut drum, tables) {
        Ok(words) => show_words(rt, &mut drum, words),
        Err(stop) => println!(rt; "stop {stop:?}"),
    }
}

// Brings the text to the drum, from its end as pass 8 does, and gives the number of words of its object.
fn write_object<D: Drum>(
    list: &mut ListText,
    way: Way,
    drum: &mut D,
    tables: &mut Tables,
) -> Result<u32, PassStop>
    requires writing { list.old.rewound ≡ false }
    requires room { 2 ^ 20 + 2 ^ 18 ≤ D.room drum.old }
    ensures words { IfOk result (λ words. words ≤ 40 * 2 ^ 18) }
    ensures room { D.room drum.new ≡ D.room drum.old }
{
    let mut text: DrumText<D> = DrumText::at(0, SYMBOLS);
    match list.rewind(&mut (), way) {
        Ok(()) => {}
        Err(stop) => return Err(pass_stop(stop)),
    }
    loop {
        let s = match list.read_next(&mut ()) {
            Ok(Some(s)) => s,
            Ok(None) => break,
            Err(stop) => return Err(pass_stop(stop)),
        };
        match text.write_next(drum, s) {
            Ok(()) => {}
            Err(stop) => return Err(pass_stop(stop)),
        }
    }
    match text.rewind(drum, Way::Backward) {
        Ok(()) => Pass9::write(&mut text, TEXT, WORDS, drum, tables),
        Err(stop) => Err(pass_stop(stop)),
    }
}

fn show_words<D: Drum>(rt: &HostRuntime, drum: &mut D, words: u32) -> io::Result<()>
    requires words { words ≤ 40 * 2 ^ 18 }
    requires room { 2 ^ 20 + 2 ^ 18 ≤ D.room drum.old }
{
    let mut track = [0; 40];
    for at in 0..words {
        if at % ON_TRACK == 0 {
            let _read = drum.read(TEXT + at / ON_TRACK, &mut track);
        }
        let word = track[(at % ON_TRACK) as usize];
        println!(rt; "{word}")?;
    }
    Ok(())
}

// Brings the words of an object to the drum, as they are read.
ghost use Rattle.std.specs.Prelude.{◌≡◌, ◌+◌, ◌/◌, ◌<◌, ◌≤◌, ◌^◌};
ghost use Rattle.gier_exec.specs.Reading.{tracks_for};

use crate::given::next_word;
use gier_drum::Drum;
use gier_io::Source;
use gier_word::Failed;

// How many words a track has.
const TRACK: u32 = 40;

/// How many tracks so many words fill.
pub fn tracks_for(words: u32) -> u32
    requires { words ≤ 2 ^ 24 }
    ensures { result ≡ tracks_for words }
{
    (words + TRACK - 1) / TRACK
}

/// Reads so many words and brings them to the first tracks.
pub fn store<D: Drum, S: Source>(words: u32, numbers: &mut S, drum: &mut D) -> Result<(), Failed>
    requires { tracks_for words ≤ D.room drum.old }
    ensures { D.room drum.new ≡ D.room drum.old }
{
    for at in 0..words {
        match put_word(at, next_word(numbers), drum) {
            Ok(()) => {}
            Err(failed) => return Err(failed),
        }
    }
    Ok(())
}

fn put_word<D: Drum>(address: u32, word: u64, drum: &mut D) -> Result<(), Failed>
    requires room { address / 40 < D.room drum.old }
    requires small { word < 2 ^ 40 }
    ensures room { D.room drum.new ≡ D.room drum.old }
{
    let mut track = [0; 40];
    match drum.read(address / TRACK, &mut track) {
        Ok(()) => {}
        Err(failed) => return Err(failed),
    }
    track[(address % TRACK) as usize] = word;
    drum.write(address / TRACK, &track)
}

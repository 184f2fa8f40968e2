// The standard procedures, on R, on the data and on the printer.
ghost use Rattle.std.specs.Prelude.{◌≡◌, ◌≢◌, ◌+◌, ◌*◌, ◌/◌, ◌%◌, ◌<◌, ◌≤◌, ◌^◌, ◌++◌, ℕ, List, [], min, take, length, Some};
ghost use Rattle.std.specs.Prelude.{Ok, Err};
ghost use Rattle.gier_word.specs.Cause.{HasCause};
ghost use Rattle.gier_word.specs.Words.{int_of_word};
ghost use Rattle.gier_word.specs.Standard.{integer_text, character_text, integer_read, character_read};
ghost use Rattle.gier_io.specs.Device.{Puts};
ghost use Rattle.gier_library.specs.Data.{Takes};
ghost use Rattle.gier_library.specs.DataView.{source_of, has_ended, stand_of};
ghost use Rattle.gier_frames.specs.State.{State};
ghost use Rattle.gier_places.specs.Contents.{Agrees};
ghost use Rattle.gier_order.specs.Flat.Row.{Regs, Row, reads, behind_bytes};
ghost use Rattle.gier_order.specs.Flat.Rows.{bytes_of as bytes_in, piece, on, prints_words, prints_string, procedure};
ghost use Rattle.gier_exec.specs.Rows.{regs_of, code_in};
ghost use Rattle.gier_exec.specs.References.{Refers};
ghost use Rattle.gier_exec.specs.Turning.{IsRest, RefinesExecution};
ghost use Rattle.gier_exec.specs.Standards.{on_from, Sends, Computes, Receives, PrintsOn, CountsFailure};
ghost use Rattle.gier_exec.specs.Registers.{PreservesPlace, weight};
ghost use Rattle.gier_exec.specs.Reading.{PreservesPager, CanRead, Reads, pager_view};
ghost use Rattle.gier_exec.specs.declared.stop.Miss.TheVariants.{Drum as DrumFailed, Stop as Stopped};
ghost use Rattle.gier_exec.specs.declared.stop.Quit.TheVariants.{Miss as Missed, Read, Write};
ghost use Rattle.gier_exec.specs.declared.stop.Stop.TheVariants.{Alarm as Alarmed, Odd};

use crate::Machine;
use crate::number::{number_of, word_of};
use crate::pager::Pager;
use crate::reading::fetch;
use crate::stop::{Miss, ODD, Quit, Stop};
use gier_drum::Drum;
use gier_io::{Sink, Source};
use gier_library::{Data, InStop, OutStop, in_char, in_integer, out_bytes, out_char, out_integer};
use gier_order::Object;
use gier_word::{Alarm, Int40, Spoil};

// The numbers of the standard procedures.
const OUT_INTEGER: u32 = 1;

const OUT_TEXT: u32 = 2;

const OUT_CR: u32 = 3;

const OUT_CHAR: u32 = 4;

const IN_INTEGER: u32 = 5;

const IN_CHAR: u32 = 6;

const ABS: u32 = 7;

const SIGN: u32 = 8;

// How many bytes stand in a word, and in its form as bytes of std.
const BYTES: u64 = 5;

// As many values as a byte has.
const VALUES: u64 = 256;

/// LIB: the standard procedure with this number; odd where there is none.
pub(crate) fn library<D: Drum, S: Source, K: Sink>(
    m: &mut Machine,
    object: &Object,
    pager: &mut Pager<D>,
    input: &mut Data<S>,
    out: &mut K,
    number: u32,
) -> Result<(), Quit>
    requires can { CanRead (object.now.words + 1) object.now
        (pager_view D.room D.tracks D.journal D.faults pager.old) }
    ensures row { (tracks : List (List ℕ)) → D.tracks pager.old.drum.now ≡ Some tracks
        → Agrees (Some tracks) pager.old.places.now.held
        → m.old.place + 1 < object.now.words
        → (read put taken : List ℕ) × Refers object.now read
        (pager_view D.room D.tracks D.journal D.faults pager.old)
        (pager_view D.room D.tracks D.journal D.faults pager.new)
        × Puts (K.holds out.old) put (K.holds out.new) × Takes (stand_of S.left input.old) taken (stand_of S.left input.new)
        × ((s : State) (rest : List ℕ) → IsRest (has_ended input.new) rest
        → RefinesExecution (procedure (code_in tracks object.now) (length s.words) (regs_of m.old s (taken ++ rest)) number)
        (regs_of m.old s (taken ++ rest)) (regs_of m.new s rest) read put taken (on_from m.old.place result)) }
    ensures keeps { PreservesPlace m.old m.new }
    ensures lighter { weight m.new ≤ weight m.old }
    ensures reads { Reads (object.now.words + 1) object.now
        (pager_view D.room D.tracks D.journal D.faults pager.old)
        (pager_view D.room D.tracks D.journal D.faults pager.new) }
    ensures same_reference { input.new.source.ghost_name ≡ input.old.source.ghost_name }
    ensures source { CountsFailure Read (S.faults (source_of input.old)) (S.faults (source_of input.new)) result }
    ensures sink { CountsFailure Write (K.faults out.old) (K.faults out.new) result }
    ensures pager { PreservesPager D.faults (Missed DrumFailed) pager.old pager.new result }
    ensures odd { result ≡ Err (Missed (Stopped Odd)) → (m.new ≡ m.old) × ((out.new ≡ out.old) × (input.new ≡ input.old)) }
{
    match number {
        OUT_INTEGER => print_integer(m.r(), out),
        OUT_TEXT => print_text(object, pager, out, m.r()),
        OUT_CR => print_bytes(b"\n", out),
        OUT_CHAR => print_character(m.r(), out),
        IN_INTEGER => take_integer(m, input),
        IN_CHAR => take_character(m, input),
        ABS => compute(m, number_of(m.r()).abs()),
        SIGN => compute(m, Ok(number_of(m.r()).sign())),
        _ => Err(Quit::Miss(ODD)),
    }
}

// `outinteger`.
fn print_integer<K: Sink>(r: u64, out: &mut K) -> Result<(), Quit>
    requires { r < 2 ^ 40 }
    ensures sends { Sends K.holds (Ok (integer_text (int_of_word r))) out.old result out.new }
    ensures homely { result ≢ Err (Missed DrumFailed) }
    ensures no_read { result ≢ Err Read }
    ensures sink { CountsFailure Write (K.faults out.old) (K.faults out.new) result }
    ensures no_odd { result ≢ Err (Missed (Stopped Odd)) }
{
    match out_integer(number_of(r), out) {
        Ok(()) => Ok(()),
        Err(_) => Err(Quit::Write),
    }
}

// `outchar`.
fn print_character<K: Sink>(r: u64, out: &mut K) -> Result<(), Quit>
    requires { r < 2 ^ 40 }
    ensures sends { Sends K.holds (character_text (int_of_word r)) out.old result out.new }
    ensures homely { result ≢ Err (Missed DrumFailed) }
    ensures no_read { result ≢ Err Read }
    ensures sink { CountsFailure Write (K.faults out.old) (K.faults out.new) result }
    ensures no_odd { result ≢ Err (Missed (Stopped Odd)) }
{
    match out_char(number_of(r), out) {
        Ok(()) => Ok(()),
        Err(OutStop::Alarm(alarm)) => Err(alarmed(alarm)),
        Err(OutStop::Write) => Err(Quit::Write),
    }
}

// The alarm ends the run.
fn alarmed(alarm: Alarm) -> Quit
    ensures { result ≡ Missed (Stopped (Alarmed alarm)) }
{
    Quit::Miss(Miss::Stop(Stop::Alarm(alarm)))
}

// `outcr`, and a part of `outtext`.
fn print_bytes<K: Sink>(bytes: &[u8], out: &mut K) -> Result<(), Quit>
    ensures sends { Sends K.holds (Ok bytes.now) out.old result out.new }
    ensures homely { result ≢ Err (Missed DrumFailed) }
    ensures no_read { result ≢ Err Read }
    ensures sink { CountsFailure Write (K.faults out.old) (K.faults out.new) result }
    ensures no_odd { result ≢ Err (Missed (Stopped Odd)) }
{
    match out_bytes(bytes, out) {
        Ok(()) => Ok(()),
        Err(_) => Err(Quit::Write),
    }
}

// `ininteger`.
fn take_integer<S: Source>(m: &mut Machine, input: &mut Data<S>) -> Result<(), Quit>
    ensures takes { (bytes : List ℕ) × Takes (stand_of S.left input.old) bytes (stand_of S.left input.new)
        × Receives integer_read bytes (has_ended input.new) m.old result m.new }
    ensures homely { result ≢ Err (Missed DrumFailed) }
    ensures no_write { result ≢ Err Write }
    ensures keeps { PreservesPlace m.old m.new }
    ensures lighter { weight m.new ≤ weight m.old }
    ensures same_reference { input.new.source.ghost_name ≡ input.old.source.ghost_name }
    ensures source { CountsFailure Read (S.faults (source_of input.old)) (S.faults (source_of input.new)) result }
    ensures no_odd { result ≢ Err (Missed (Stopped Odd)) }
{
    match in_integer(input) {
        Ok(number) => {
            m.set_r(word_of(number));
            Ok(())
        }
        Err(InStop::Alarm(alarm)) => Err(alarmed(alarm)),
        Err(InStop::Read) => Err(Quit::Read),
    }
}

// `inchar`.
fn take_character<S: Source>(m: &mut Machine, input: &mut Data<S>) -> Result<(), Quit>
    ensures takes { (bytes : List ℕ) × Takes (stand_of S.left input.old) bytes (stand_of S.left input.new)
        × Receives character_read bytes (has_ended input.new) m.old result m.new }
    ensures homely { result ≢ Err (Missed DrumFailed) }
    ensures no_write { result ≢ Err Write }
    ensures keeps { PreservesPlace m.old m.new }
    ensures lighter { weight m.new ≤ weight m.old }
    ensures same_reference { input.new.source.ghost_name ≡ input.old.source.ghost_name }
    ensures source { CountsFailure Read (S.faults (source_of input.old)) (S.faults (source_of input.new)) result }
    ensures no_odd { result ≢ Err (Missed (Stopped Odd)) }
{
    match in_char(input) {
        Ok(number) => {
            m.set_r(word_of(number));
            Ok(())
        }
        Err(_) => Err(Quit::Read),
    }
}

// `abs` and `sign`, which give a number or spoil it.
fn compute(m: &mut Machine, given: Result<Int40, Spoil>) -> Result<(), Quit>
    ensures computes { Computes m.old given m.new result }
    ensures homely { result ≢ Err (Missed DrumFailed) }
    ensures no_read { result ≢ Err Read }
    ensures no_write { result ≢ Err Write }
    ensures keeps { PreservesPlace m.old m.new }
    ensures lighter { weight m.new ≤ weight m.old }
    ensures no_odd { result ≢ Err (Missed (Stopped Odd)) }
{
    match given {
        Ok(number) => {
            m.set_r(word_of(number));
            Ok(())
        }
        Err(spoil) => Err(alarmed(Alarm::from(spoil))),
    }
}

// `outtext`: the string whose number of bytes stands at an address.
fn print_text<D: Drum, K: Sink>(
    object: &Object,
    pager: &mut Pager<D>,
    out: &mut K,
    address: u64,
) -> Result<(), Quit>
    requires address { address < 2 ^ 40 }
    requires can { CanRead (object.now.words + 1) object.now
        (pager_view D.room D.tracks D.journal D.faults pager.old) }
    ensures row { (tracks : List (List ℕ)) → D.tracks pager.old.drum.now ≡ Some tracks
        → Agrees (Some tracks) pager.old.places.now.held
        → (read put : List ℕ) × Refers object.now read
        (pager_view D.room D.tracks D.journal D.faults pager.old)
        (pager_view D.room D.tracks D.journal D.faults pager.new)
        × Puts (K.holds out.old) put (K.holds out.new)
        × ((size : ℕ) (regs : Regs) → PrintsOn (prints_string (code_in tracks object.now) size regs address)
        (on (code_in tracks object.now) size regs regs) read put result) }
    ensures no_read { result ≢ Err Read }
    ensures reads { Reads (object.now.words + 1) object.now
        (pager_view D.room D.tracks D.journal D.faults pager.old)
        (pager_view D.room D.tracks D.journal D.faults pager.new) }
    ensures sink { CountsFailure Write (K.faults out.old) (K.faults out.new) result }
    ensures pager { PreservesPager D.faults (Missed DrumFailed) pager.old pager.new result }
    ensures odd { result ≡ Err (Missed (Stopped Odd)) → out.new ≡ out.old }
{
    let length = match fetch(object, pager, address) {
        Ok(length) => length,
        Err(miss) => return Err(Quit::Miss(miss)),
    };
    if address + length.div_ceil(BYTES) >= u64::from(object.words) {
        return Err(Quit::Miss(ODD));
    }
    print_words(object, pager, out, address + 1, length)
}

// So many bytes from the word at an address on; each word's are printed before the next one is read.
fn print_words<D: Drum, K: Sink>(
    object: &Object,
    pager: &mut Pager<D>,
    out: &mut K,
    address: u64,
    length: u64,
) -> Result<(), Quit>
    requires length { length < 2 ^ 40 }
    requires within { address + (length + 4) / 5 ≤ object.now.words }
    requires can { CanRead ((length + 4) / 5) object.now
        (pager_view D.room D.tracks D.journal D.faults pager.old) }
    ensures row { (tracks : List (List ℕ)) → D.tracks pager.old.drum.now ≡ Some tracks
        → Agrees (Some tracks) pager.old.places.now.held
        → (read put : List ℕ) × Refers object.now read
        (pager_view D.room D.tracks D.journal D.faults pager.old)
        (pager_view D.room D.tracks D.journal D.faults pager.new)
        × Puts (K.holds out.old) put (K.holds out.new)
        × ((size : ℕ) (regs : Regs) → PrintsOn (prints_words (code_in tracks object.now) size regs ((length + 4) / 5) address
        length) (on (code_in tracks object.now) size regs regs) read put result) }
    ensures no_read { result ≢ Err Read }
    ensures reads { Reads ((length + 4) / 5) object.now
        (pager_view D.room D.tracks D.journal D.faults pager.old)
        (pager_view D.room D.tracks D.journal D.faults pager.new) }
    ensures sink { CountsFailure Write (K.faults out.old) (K.faults out.new) result }
    ensures pager { PreservesPager D.faults (Missed DrumFailed) pager.old pager.new result }
    ensures no_odd { result ≢ Err (Missed (Stopped Odd)) }
{
    for at in 0..length.div_ceil(BYTES) {
        match print_word(object, pager, out, address + at, length - at * BYTES) {
            Ok(()) => {}
            Err(quit) => return Err(quit),
        }
    }
    Ok(())
}

// The bytes of one word, of which so many are left.
fn print_word<D: Drum, K: Sink>(
    object: &Object,
    pager: &mut Pager<D>,
    out: &mut K,
    address: u64,
    left: u64,
) -> Result<(), Quit>
    requires can { CanRead 1 object.now (pager_view D.room D.tracks D.journal D.faults pager.old) }
    ensures row { (tracks : List (List ℕ)) → D.tracks pager.old.drum.now ≡ Some tracks
        → Agrees (Some tracks) pager.old.places.now.held
        → (read put : List ℕ) × Refers object.now read
        (pager_view D.room D.tracks D.journal D.faults pager.old)
        (pager_view D.room D.tracks D.journal D.faults pager.new)
        × Puts (K.holds out.old) put (K.holds out.new)
        × ((go : Row) → PrintsOn (reads (code_in tracks object.now) address
        (λ word. behind_bytes (take (min left piece) (bytes_in word)) go)) go read put result) }
    ensures no_read { result ≢ Err Read }
    ensures reads { Reads 1 object.now (pager_view D.room D.tracks D.journal D.faults pager.old)
        (pager_view D.room D.tracks D.journal D.faults pager.new) }
    ensures sink { CountsFailure Write (K.faults out.old) (K.faults out.new) result }
    ensures pager { PreservesPager D.faults (Missed DrumFailed) pager.old pager.new result }
    ensures odd { result ≡ Err (Missed (Stopped Odd)) → object.now.words ≤ address }
{
    match fetch(object, pager, address) {
        Ok(word) => print_bytes(&bytes_of(word)[..left.min(BYTES) as usize], out),
        Err(miss) => Err(Quit::Miss(miss)),
    }
}

// The five bytes of a word, the first in its highest bits.
fn bytes_of(word: u64) -> [u8; 5]
    ensures { result ≡ bytes_in word }
{
    [
        byte_at(word, 32),
        byte_at(word, 24),
        byte_at(word, 16),
        byte_at(word, 8),
        byte_at(word, 0),
    ]
}

fn byte_at(word: u64, shift: u32) -> u8
    requires { shift < 64 }
    ensures { result ≡ word / 2 ^ shift % 256 }
{
    ((word >> shift) % VALUES) as u8
}

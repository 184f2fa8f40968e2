// A plain loop that decodes and obeys orders from a vector: no places, no list of recent tracks, no trace. It knows only the
// orders that the programs here have, and stops at any other.
ghost use Rattle.std.specs.Prelude.{◌<◌, ◌^◌, IfOk};
ghost use Rattle.gier_order.specs.Codes.{IsOrder};

use gier_frames::{Frames, Halt};
use gier_order::{Operation, Order};
use gier_word::{Int40, Spoil, Word40};

// Words are below this.
const WORDS: u64 = 1 << 40;

// Addresses of the object are below this.
const ADDRESSES: u64 = 1 << 24;

#[derive(Drop)]
struct Machine {
    place: u32,
    r: u64,
    steps: u64,
    ghost small: { r < 2 ^ 40 },
}

/// Where the loop stopped, and how many orders it obeyed until then.
#[derive(Debug, Clone, Copy, PartialEq, Eq)]
pub struct Stopped {
    pub place: u32,
    pub orders: u64,
}

/// Obeys the orders of an object from its first word on, with so many steps, until one can't be obeyed.
#[inline(never)]
pub fn obey(words: &[u64], frames: &mut Frames, steps: u64) -> Stopped {
    let mut m = Machine {
        place: 0,
        r: 0,
        steps,
    };
    let mut orders = 0;
    while orders < u64::MAX && goes_on(&mut m, words, frames) {
        orders += 1;
    }
    Stopped {
        place: m.place,
        orders,
    }
}

// Obeys one order, where it can be.
#[inline]
fn goes_on(m: &mut Machine, words: &[u64], frames: &mut Frames) -> bool {
    match next(m, words, frames) {
        Ok(place) => {
            m.place = place;
            true
        }
        Err(_) => false,
    }
}

// Obeys one order, and gives the place of the next.
#[inline]
fn next(m: &mut Machine, words: &[u64], frames: &mut Frames) -> Result<u32, Halt> {
    let order = order_at(words, m.place)?;
    match order.operation() {
        Operation::Long => long(m, words),
        Operation::False => Ok(false_place(m, order.address)),
        Operation::Turn => turn(m, frames, order.address),
        Operation::Call => call(m, words, frames, order),
        Operation::Return => frames.back(),
        Operation::Start | Operation::Keep | Operation::Put => write(m, frames, order),
        _ => load(m, frames, order),
    }
}

#[inline]
fn after(m: &Machine) -> u32 {
    m.place.wrapping_add(1)
}

#[inline]
fn long(m: &mut Machine, words: &[u64]) -> Result<u32, Halt> {
    let next = after(m);
    let word = word_at(words, next)?;
    m.r = word;
    Ok(next.wrapping_add(1))
}

#[inline]
fn false_place(m: &Machine, address: u32) -> u32 {
    if m.r == 0 {
        return address;
    }
    after(m)
}

#[inline]
fn turn(m: &mut Machine, frames: &Frames, address: u32) -> Result<u32, Halt> {
    charge(m)?;
    let place = own(frames, address)?;
    Ok((place % ADDRESSES) as u32)
}

// The orders that change the stack.
#[inline]
fn write(m: &Machine, frames: &mut Frames, order: Order) -> Result<u32, Halt>
    requires { IsOrder order }
{
    written(m.r, frames, order)?;
    Ok(after(m))
}

#[inline]
fn written(r: u64, frames: &mut Frames, order: Order) -> Result<(), Halt>
    requires order { IsOrder order }
    requires r { r < 2 ^ 40 }
{
    match order.operation() {
        Operation::Start => frames.start(order.level, order.address),
        Operation::Keep => keep(frames, order.address, r),
        _ => put(frames, order.address, r),
    }
}

// The orders that give a word.
#[inline]
fn load(m: &mut Machine, frames: &Frames, order: Order) -> Result<u32, Halt>
    requires { IsOrder order }
{
    let word = loaded(m.r, frames, order)?;
    m.r = word;
    Ok(after(m))
}

#[inline]
fn loaded(r: u64, frames: &Frames, order: Order) -> Result<u64, Halt>
    requires order { IsOrder order }
    requires r { r < 2 ^ 40 }
    ensures { IfOk result (λ word. word < 2 ^ 40) }
{
    match order.operation() {
        Operation::Short => Ok(u64::from(order.address)),
        Operation::Take => visible(frames, order.level, order.address),
        Operation::Addr => place_of(frames, order.level, order.address),
        Operation::Add => sum(frames, order.address, r),
        Operation::Sub => difference(frames, order.address, r),
        _ => Err(Halt::Odd),
    }
}

#[inline]
fn place_of(frames: &Frames, level: u8, address: u32) -> Result<u64, Halt>
    ensures { IfOk result (λ word. word < 2 ^ 40) }
{
    let place = frames.cell(level, address)?;
    Ok(place % WORDS)
}

// The word at an address of the current activation.
#[inline]
fn own(frames: &Frames, address: u32) -> Result<u64, Halt>
    ensures { IfOk result (λ word. word < 2 ^ 40) }
{
    let place = frames.here(address)?;
    frames.get(place)
}

// The word at an address of the visible activation of a level.
#[inline]
fn visible(frames: &Frames, level: u8, address: u32) -> Result<u64, Halt>
    ensures { IfOk result (λ word. word < 2 ^ 40) }
{
    let place = frames.cell(level, address)?;
    frames.get(place)
}

#[inline]
fn keep(frames: &mut Frames, address: u32, word: u64) -> Result<(), Halt>
    requires { word < 2 ^ 40 }
{
    let place = frames.here(address)?;
    frames.set(place, word)
}

// Writes at the place that a word of the current activation holds.
#[inline]
fn put(frames: &mut Frames, address: u32, word: u64) -> Result<(), Halt>
    requires { word < 2 ^ 40 }
{
    let place = own(frames, address)?;
    frames.set(place, word)
}

fn call(m: &mut Machine, words: &[u64], frames: &mut Frames, order: Order) -> Result<u32, Halt> {
    let entered = order_at(words, order.address)?;
    let count = word_at(words, order.address.wrapping_add(1))?;
    let outer = frames.cell(order.level, 0)?;
    charge(m)?;
    enter(m, frames, entered, outer, count)?;
    Ok(order.address.wrapping_add(2))
}

#[inline]
fn enter(
    m: &Machine,
    frames: &mut Frames,
    entered: Order,
    outer: u64,
    count: u64,
) -> Result<(), Halt> {
    let from = (m.r % ADDRESSES) as u32;
    let count = (count % ADDRESSES) as u32;
    frames.call(
        entered.level,
        entered.address,
        outer,
        after(m),
        0,
        from,
        count,
    )
}

fn charge(m: &mut Machine) -> Result<(), Halt> {
    if m.steps == 0 {
        return Err(Halt::Odd);
    }
    m.steps -= 1;
    Ok(())
}

#[inline]
fn word_at(words: &[u64], place: u32) -> Result<u64, Halt>
    ensures { IfOk result (λ word. word < 2 ^ 40) }
{
    let place = place as usize;
    if place < words.len() && words[place] < WORDS {
        Ok(words[place])
    } else {
        Err(Halt::Odd)
    }
}

#[inline]
fn order_at(words: &[u64], place: u32) -> Result<Order, Halt>
    ensures { IfOk result IsOrder }
{
    match Order::decode(word_at(words, place)?) {
        Some(order) => Ok(order),
        None => Err(Halt::Odd),
    }
}

#[inline]
fn number(word: u64) -> Result<Int40, Halt> {
    match Word40::of(word) {
        Some(word) => Ok(word.int()),
        None => Err(Halt::Odd),
    }
}

#[inline]
fn bits(answer: Result<Int40, Spoil>) -> Result<u64, Halt>
    ensures { IfOk result (λ word. word < 2 ^ 40) }
{
    match answer {
        Ok(number) => Ok(number.word().bits()),
        Err(_) => Err(Halt::Odd),
    }
}

#[inline]
fn sum(frames: &Frames, address: u32, r: u64) -> Result<u64, Halt>
    ensures { IfOk result (λ word. word < 2 ^ 40) }
{
    let a = own(frames, address)?;
    bits(number(a)?.add(number(r)?))
}

#[inline]
fn difference(frames: &Frames, address: u32, r: u64) -> Result<u64, Halt>
    ensures { IfOk result (λ word. word < 2 ^ 40) }
{
    let a = own(frames, address)?;
    bits(number(a)?.sub(number(r)?))
}

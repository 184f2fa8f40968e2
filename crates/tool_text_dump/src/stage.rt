// Drives passes over a text and prints what comes of it.
ghost use Rattle.std.specs.Prelude.{◌≡◌, ◌≤◌, [], IfOk, true, false};
ghost use Rattle.gier_text.specs.TablesModel.{tables_model, fresh};

use crate::input::{Symbols, text_of};
use crate::object::show_object;
use gier_io::MemSource;
use gier_limits::LIMIT;
use gier_pass1::Pass1;
use gier_pass2::Pass2;
use gier_pass3::Pass3;
use gier_pass4::Pass4;
use gier_pass5::Pass5;
use gier_pass6::Pass6;
use gier_pass7::Pass7;
use gier_pass8::Pass8;
use gier_symbol::Symbol;
use gier_text::{ListText, Pass, PassStop, Tables, Text, Way, drive};
use std::alloc::Global;
use std::io;

// The last pass that writes a text, and the one that writes the object.
const LAST_PASS: u8 = 8;

const OBJECT_PASS: u8 = 9;

/// Drives the passes from the first to the last one, each over what the one before it wrote, and prints what the last one writes,
/// and the faults. Passes behind one that finds faults aren't driven. Pass 9 prints the words of the object.
pub fn show(rt: &HostRuntime, first: u8, last: u8, symbols: &Symbols) -> io::Result<()> {
    let Ok(mut tables) = Tables::open(rt.alloc(), LIMIT) else {
        return println!(rt; "want of memory");
    };
    let Ok(mut text) = text_of(rt.alloc(), symbols) else {
        return println!(rt; "want of memory");
    };
    let bytes = symbols.bytes.min(LIMIT);
    for number in first..last.min(LAST_PASS).saturating_add(1) {
        if !is_clean(&tables) {
            break;
        }
        tables.clear();
        let way = if number == first {
            Way::Forward
        } else {
            way_of(number)
        };
        match drive_pass(rt.alloc(), number, bytes, &mut text, way, &mut tables) {
            Ok(next) => text = next,
            Err(stop) => return println!(rt; "stop {stop:?}"),
        }
    }
    if last == OBJECT_PASS && is_clean(&tables) {
        let way = if first == OBJECT_PASS {
            Way::Backward
        } else {
            Way::Forward
        };
        return show_object(rt, &mut text, way, &mut tables);
    }
    show_text(rt, &mut text)?;
    show_faults(rt, &tables)
}

/// Prints what pass 1 writes for a tape, and its faults.
pub fn show_tape(rt: &HostRuntime, bytes: Vec<u8>) -> io::Result<()> {
    let Ok(mut tables) = Tables::open(rt.alloc(), LIMIT) else {
        return println!(rt; "want of memory");
    };
    let mut text = ListText::open(rt.alloc());
    match Pass1::read(&mut MemSource::of(bytes), &mut (), &mut text, &mut tables) {
        Ok(_) => show_text(rt, &mut text)?,
        Err(stop) => println!(rt; "stop {stop:?}")?,
    }
    show_faults(rt, &tables)
}

fn is_clean(tables: &Tables) -> bool
    ensures { result ≡ true → (tables_model tables.now).faults ≡ [] }
{
    tables.faults() == 0
}

// Which way a pass reads what the pass before it wrote.
fn way_of(number: u8) -> Way {
    match number {
        4 | 5 | 8 => Way::Backward,
        _ => Way::Forward,
    }
}

// What the pass of this number writes; nothing where there is no such pass here.
fn drive_pass(
    alloc: Global,
    number: u8,
    bytes: u32,
    input: &mut ListText,
    way: Way,
    tables: &mut Tables,
) -> Result<ListText, PassStop>
    requires cleared { tables_model tables.old ≡ fresh (tables_model tables.old).limit }
    requires bytes { bytes ≤ (tables_model tables.old).limit }
    requires writing { input.old.rewound ≡ false }
    ensures writing { IfOk result (λ text. text.rewound ≡ false) }
    ensures limit { (tables_model tables.new).limit ≡ (tables_model tables.old).limit }
{
    match number {
        2 => run(alloc, &mut Pass2::open(tables, bytes), input, way, tables),
        3 => run(alloc, &mut Pass3::open(tables, bytes), input, way, tables),
        4 => run(alloc, &mut Pass4::open(tables, bytes), input, way, tables),
        5 => run(alloc, &mut Pass5::open(tables, bytes), input, way, tables),
        6 => run(alloc, &mut Pass6::open(tables, bytes), input, way, tables),
        7 => run(alloc, &mut Pass7::open(tables, bytes), input, way, tables),
        8 => run(alloc, &mut Pass8::open(tables, bytes), input, way, tables),
        _ => Ok(ListText::open(alloc)),
    }
}

fn run<P: Pass>(
    alloc: Global,
    pass: &mut P,
    input: &mut ListText,
    way: Way,
    tables: &mut Tables,
) -> Result<ListText, PassStop>
    requires stands { P.stands pass.old tables.old [] [] }
    requires writing { input.old.rewound ≡ false }
    ensures writing { IfOk result (λ text. text.rewound ≡ false) }
    ensures limit { (tables_model tables.new).limit ≡ (tables_model tables.old).limit }
{
    let mut output = ListText::open(alloc);
    match input.rewind(&mut (), way) {
        Ok(()) => {}
        Err(_) => return Err(PassStop::Memory),
    }
    match drive(pass, &mut (), input, way, &mut output, tables) {
        Ok(()) => Ok(output),
        Err(stop) => Err(stop),
    }
}

fn show_text(rt: &HostRuntime, text: &mut ListText) -> io::Result<()>
    requires { text.old.rewound ≡ false }
{
    if text.rewind(&mut (), Way::Forward).is_err() {
        return println!(rt; "want of memory");
    }
    loop {
        match text.read_next(&mut ()) {
            Ok(Some(s)) => show_symbol(rt, s)?,
            _ => return Ok(()),
        }
    }
}

fn show_symbol(rt: &HostRuntime, s: Symbol) -> io::Result<()> {
    let (tag, value, line) = (s.tag, s.value, s.line);
    println!(rt; "{tag} {value} {line}")
}

fn show_faults(rt: &HostRuntime, tables: &Tables) -> io::Result<()> {
    for at in 0..tables.faults() {
        let fault = tables.fault(at);
        let (position, line, kind) = (fault.position, fault.line, fault.kind);
        println!(rt; "fault {position} {line} {kind:?}")?;
    }
    Ok(())
}

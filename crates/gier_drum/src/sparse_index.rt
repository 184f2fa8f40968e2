// A list of numbers in chunks, of which only those take memory that have a number other than 0.
// All room is reserved when the list grows, so that no later write needs memory.
ghost use Rattle.std.specs.Prelude.{◌≡◌, ◌+◌, ◌*◌, ◌-◌, ◌/◌, ◌<◌, ◌≤◌, ◌^◌, ◌++◌, ℕ, suc, [], length, replicate, slice_index};
ghost use Rattle.std.specs.Prelude.{slice_index_or, slice_set, vec_capacity, OnOk, OnErr};
ghost use Rattle.gier_drum.specs.Pages.{AreChunks, entry_at};

use crate::reserve::reserve;
use gier_word::NoMemory;
use std::alloc::Global;
use std::marker::Model;

// How many numbers a chunk has.
const CHUNK: usize = 256;

type Chunk = [u32; 256];

/// A list of fewer than 2^32 numbers.
#[derive(Drop)]
pub(crate) struct SparseIndex {
    count: usize,
    // For each chunk 0, or one more than its number.
    directory: Vec<u32>,
    chunks: Vec<Chunk>,
}

impl Model for SparseIndex {
    ghost use Rattle.std.specs.Prelude.{List, ℕ, vec_capacity};
    ghost use Rattle.gier_drum.specs.Pages.{entries, IsSparse};

    ghost Value = { List ℕ };

    ghost view = { λ a. entries a.count a.directory.items a.chunks.items };

    ghost invariant = { λ a. IsSparse a.count a.directory.items a.chunks.items (vec_capacity a.chunks) };
}

impl SparseIndex {
    pub(crate) fn new(alloc: Global) -> SparseIndex
        ensures { result ≡ [] }
    {
        SparseIndex {
            count: 0,
            directory: Vec::new(alloc),
            chunks: Vec::new(alloc),
        }
    }

    pub(crate) fn len(&self) -> usize
        ensures { result ≡ length self.now }
    {
        self.count
    }

    pub(crate) fn get(&self, place: usize) -> u32
        requires { place < length self.now }
        ensures { result ≡ slice_index self.now place }
    {
        entry(&self.directory, &self.chunks, place)
    }

    pub(crate) fn set(&mut self, place: usize, number: u32)
        requires { place < length self.old }
        ensures { self.new ≡ slice_set self.old place number }
    {
        let chunk = chunk_for(&mut self.directory, &mut self.chunks, place / CHUNK);
        put(&mut self.chunks, chunk, place % CHUNK, number);
    }

    /// Appends zeros up to this length.
    pub(crate) fn grow(&mut self, wanted: usize) -> Result<(), NoMemory>
        requires more { length self.old ≤ wanted }
        requires few { wanted < 2 ^ 32 }
        ensures grown { OnOk result (self.new ≡ self.old ++ replicate (wanted - length self.old) 0) }
        ensures kept { OnErr result (self.new ≡ self.old) }
    {
        extend(
            &mut self.directory,
            &mut self.chunks,
            wanted.div_ceil(CHUNK),
        )?;
        self.count = wanted;
        Ok(())
    }
}

fn number_at(directory: &Vec<u32>, at: usize) -> u32
    requires { at < length directory.now.items }
    ensures { result ≡ slice_index directory.now.items at }
{
    directory[at]
}

fn entry(directory: &Vec<u32>, chunks: &Vec<Chunk>, place: usize) -> u32
    requires chunks { AreChunks directory.now.items chunks.now.items (vec_capacity chunks.now) }
    requires within { place / 256 < length directory.now.items }
    ensures { result ≡ entry_at directory.now.items chunks.now.items place }
{
    let chunk = number_at(directory, place / CHUNK);
    if chunk == 0 {
        return 0;
    }
    chunks[chunk as usize - 1][place % CHUNK]
}

// The number of the chunk at this place of the directory, which is made where there is none.
fn chunk_for(directory: &mut Vec<u32>, chunks: &mut Vec<Chunk>, at: usize) -> usize
    requires chunks { AreChunks directory.old.items chunks.old.items (vec_capacity chunks.old) }
    requires within { at < length directory.old.items }
    ensures chunks { AreChunks directory.new.items chunks.new.items (vec_capacity chunks.new) }
    ensures here { slice_index directory.new.items at ≡ suc result }
    ensures length { length directory.new.items ≡ length directory.old.items }
    ensures entries { (place : ℕ) → entry_at directory.new.items chunks.new.items place
        ≡ entry_at directory.old.items chunks.old.items place }
{
    let chunk = number_at(directory, at);
    if chunk != 0 {
        return chunk as usize - 1;
    }
    chunks.push_reserved(blank());
    directory[at] = chunks.len() as u32;
    chunks.len() - 1
}

fn blank() -> Chunk
    ensures long { length result ≡ 256 }
    ensures zeros { (k : ℕ) → slice_index result k ≡ 0 }
{
    [0; 256]
}

fn put(chunks: &mut Vec<Chunk>, chunk: usize, at: usize, number: u32)
    requires chunk { chunk < length chunks.old.items }
    requires within { at < 256 }
    ensures chunks { chunks.new.items
        ≡ slice_set chunks.old.items chunk (slice_set (slice_index_or chunks.old.items chunk []) at number) }
    ensures capacity { vec_capacity chunks.new ≡ vec_capacity chunks.old }
{
    chunks[chunk][at] = number;
}

// Makes the directory at least so long, with room for a chunk at each place.
fn extend(directory: &mut Vec<u32>, chunks: &mut Vec<Chunk>, wanted: usize) -> Result<(), NoMemory>
    requires chunks { AreChunks directory.old.items chunks.old.items (vec_capacity chunks.old) }
    requires few { wanted < 2 ^ 32 }
    ensures chunks { AreChunks directory.new.items chunks.new.items (vec_capacity chunks.new) }
    ensures enough { OnOk result (wanted ≤ length directory.new.items) }
    ensures larger { length directory.old.items ≤ length directory.new.items }
    ensures entries { (place : ℕ) → entry_at directory.new.items chunks.new.items place
        ≡ entry_at directory.old.items chunks.old.items place }
{
    let old = directory.len();
    if wanted <= old {
        return Ok(());
    }
    reserve(chunks, wanted)?;
    match directory.resize(wanted, 0) {
        Ok(()) => Ok(()),
        Err(_) => Err(NoMemory),
    }
}

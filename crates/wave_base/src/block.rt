//! Pairs in one block, of which an edit moves only the shorter side.

ghost use Rattle.std.specs.Prelude.{◌≡◌, ◌+◌, ◌-◌, ◌<◌, ◌≤◌, [], length, drop, vec_len, slice_set, is_ok, if◌then◌else◌, IfOk};
ghost use Rattle.std.specs.List.{insert, remove};

use crate::memory::OutOfMemory;
use std::alloc::Global;
use std::marker::Model;

/// Pairs that stand behind some free places: what stands before a place is moved into these, where it is the shorter side.
#[derive(Debug, Drop)]
pub(crate) struct Block {
    places: Vec<(i64, i64)>,
    free: usize,
}

impl Model for Block {
    ghost use Rattle.std.specs.Prelude.{List, ℤ, ◌+◌, ◌≤◌, length, drop};

    ghost Value = { List (ℤ × ℤ) };

    ghost view = { λ b. drop b.free b.places.items };

    // no more free places than pairs
    ghost invariant = { λ b. b.free + b.free ≤ length b.places.items };
}

impl Block {
    /// The block with no pairs.
    pub(crate) fn new(alloc: Global) -> Block
        ensures { result ≡ [] }
    {
        Block {
            places: Vec::new(alloc),
            free: 0,
        }
    }

    /// The pairs.
    pub(crate) fn pairs(&self) -> &[(i64, i64)]
        ensures { result.now ≡ self.now }
    {
        &self.places[self.free..]
    }

    /// The number of pairs.
    pub(crate) fn len(&self) -> usize
        ensures { result ≡ length self.now }
    {
        self.places.len() - self.free
    }

    /// Puts a pair in the place of the one at `i`.
    pub(crate) fn set(&mut self, i: usize, pair: (i64, i64))
        requires { i < length self.old }
        ensures { self.new ≡ slice_set self.old i pair }
    {
        let place = self.free + i;
        self.places[place] = pair;
    }

    /// Puts a pair before the one at `i`. That takes memory only where no place is free before the first, or the pairs from
    /// `i` on are the fewer.
    pub(crate) fn insert(&mut self, i: usize, pair: (i64, i64)) -> Result<(), OutOfMemory>
        requires { i ≤ length self.old }
        ensures { self.new ≡ (if is_ok result then insert self.old i pair else self.old) }
    {
        if 0 < self.free && i <= self.len() / 2 {
            put_before(&mut self.places, self.free, i, pair);
            self.free -= 1;
            return Ok(());
        }
        self.places.insert(self.free + i, pair)?;
        Ok(())
    }

    /// Takes the pair at `i` away.
    pub(crate) fn remove(&mut self, i: usize)
        requires { i < length self.old }
        ensures { self.new ≡ remove self.old i }
    {
        let free = cut_shorter(&mut self.places, self.free, i);
        self.free = settle(&mut self.places, free);
    }

    /// A block with the same pairs and no free place.
    pub(crate) fn copy(&self) -> Result<Block, OutOfMemory>
        ensures { IfOk result (λ b. b ≡ self.now) }
    {
        let places = Vec::from_slice(*self.places.allocator(), self.pairs())?;
        Ok(Block { places, free: 0 })
    }
}

// Puts a pair before the one at `i`, and moves those before it by one into the free places.
fn put_before(places: &mut Vec<(i64, i64)>, free: usize, i: usize, pair: (i64, i64))
    requires room { 0 < free }
    requires within { free + i ≤ vec_len places.old }
    ensures pairs { drop (free - 1) places.new.items ≡ insert (drop free places.old.items) i pair }
    ensures len { vec_len places.new ≡ vec_len places.old }
{
    places[free - 1..free + i].rotate_left(1);
    places[free + i - 1] = pair;
}

// Takes the pair at `i` away, and moves those before it over it: one more place is free.
fn cut_before(places: &mut Vec<(i64, i64)>, free: usize, i: usize)
    requires { free + i < vec_len places.old }
    ensures pairs { drop (free + 1) places.new.items ≡ remove (drop free places.old.items) i }
    ensures len { vec_len places.new ≡ vec_len places.old }
{
    places[free..free + i + 1].rotate_right(1);
}

// Takes the pair at `i` away from the side where fewer pairs are moved, and says how many places are free now.
fn cut_shorter(places: &mut Vec<(i64, i64)>, free: usize, i: usize) -> usize
    requires { free + i < vec_len places.old }
    ensures pairs { drop result places.new.items ≡ remove (drop free places.old.items) i }
    ensures within { result ≤ vec_len places.new }
{
    if i < (places.len() - free) / 2 {
        cut_before(places, free, i);
        free + 1
    } else {
        let _ = places.remove(free + i);
        free
    }
}

// Moves the pairs to the first place, where more places are free than there are pairs, and says how many are free now.
fn settle(places: &mut Vec<(i64, i64)>, free: usize) -> usize
    requires { free ≤ vec_len places.old }
    ensures pairs { drop result places.new.items ≡ drop free places.old.items }
    ensures few { result + result ≤ vec_len places.new }
{
    let pairs = places.len() - free;
    if free <= pairs {
        return free;
    }
    places.copy_within(free.., 0);
    places.truncate(pairs);
    0
}

//! The next times of all members, the least of them at hand.
ghost use Rattle.std.specs.Prelude.{◌≡◌, ◌<◌, ◌≤◌, ◌*◌, ◌/◌, ◌%◌, ℕ, None, IfOk, length, slice_index_or, slice_set};
ghost use Rattle.srm_engine.specs.NextTimes.{least_of_times, sooner_time, word_of, word_at, HaveLeaves, AreWinners};
ghost use Rattle.srm_engine.specs.NextTimes.{AreWinnersBeside, KeepsLeaves, SetsLeaf, IsReplayed};

use std::alloc::{AllocError, Global};
use std::marker::Model;

// Members' numbers are below it.
const NUMBERS: u64 = 65_536;

// Times from this one on, which no run reaches, have the same words as this one.
const LATEST: u64 = 70_368_744_177_664;

/// The next times of all members, in ticks, by member. Contracts see them as a list; a member may have none.
///
/// They are a tournament of words. A member's word is its time, and below that, in the last 16 bits, its number: so the lesser
/// of two words is the sooner one, or of the same time the one with the lesser number. There are 2s words, where s is a power of
/// two, so that below each place stand members whose numbers follow each other. Word s + m is member m's; word i, from 1 to
/// s - 1, is the lesser of words 2i and 2i + 1, but means nothing above the least of all, which is kept beside them.
#[derive(Drop)]
pub struct NextTimes {
    times: Vec<Option<u64>>,
    words: Vec<u64>,
    // How many leaves there are.
    size: usize,
    least: u64,
}

impl Model for NextTimes {
    ghost use Rattle.std.specs.Prelude.{List, Option, ℕ};
    ghost use Rattle.srm_engine.specs.NextTimes.{IsTournament};

    ghost Value = { List (Option ℕ) };

    ghost view = { λ n. n.times.items };

    ghost invariant = { λ n. IsTournament n.size n.times.items n.words.items n.least };
}

impl NextTimes {
    /// The next times of members 0, 1 and on, in ticks.
    ///
    /// # Errors
    /// [`AllocError`]: the times are gone.
    pub fn of(alloc: Global, times: Vec<Option<u64>>) -> Result<Self, AllocError>
        requires { length times.items ≤ 65536 }
        ensures { IfOk result (λ n. n ≡ times.items) }
    {
        let mut words = leaves(alloc, times.as_slice())?;
        let size = words.len() / 2;
        let least = raise_winners(&mut words);
        Ok(NextTimes {
            times,
            words,
            size,
            least,
        })
    }

    /// Sets the next time of a member, in ticks. It does not allocate.
    #[inline(always)]
    pub fn set(&mut self, member: u16, time: Option<u64>)
        requires { member < length self.old }
        ensures { self.new ≡ slice_set self.old member time }
    {
        let place = usize::from(member);
        // A packet on its way to a member is mostly not its next event, and leaves its time as it is.
        if self.times[place] == time {
            return;
        }
        self.times[place] = time;
        let first = self.size + (self.least % NUMBERS) as usize;
        let leaf = self.size + place;
        let word = word(time, member);
        if leaf == first {
            // the words of the time of the first are below it, and those of later times are not
            let bound = (self.least / NUMBERS + 1).saturating_mul(NUMBERS);
            self.least = replay(&mut self.words, leaf, word, bound);
        } else if self.least < word {
            climb(&mut self.words, leaf, word);
        } else {
            overtake(&mut self.words, first, self.least, leaf, word);
            self.least = word;
        }
    }

    /// The least next time of all, with the first member that has it.
    pub fn least(&self) -> Option<(u64, u16)>
        ensures { result ≡ least_of_times 0 self.now }
    {
        let time = self.least / NUMBERS;
        if time < LATEST {
            Some((time, (self.least % NUMBERS) as u16))
        } else {
            least_of(&self.times)
        }
    }
}

// A member's word. Without a next time it has the latest time.
#[inline(always)]
fn word(time: Option<u64>, member: u16) -> u64
    ensures { result ≡ word_of time member }
{
    let time = match time {
        Some(time) => time.min(LATEST),
        None => LATEST,
    };
    time * NUMBERS + u64::from(member)
}

// The least of these times, with the first member that has it, sought from the last to the first.
#[inline(never)]
fn least_of(times: &[Option<u64>]) -> Option<(u64, u16)>
    requires { length times.now ≤ 65536 }
    ensures { result ≡ least_of_times 0 times.now }
{
    let mut least = None;
    for member in (0..times.len()).rev() {
        if let Some(time) = times[member] {
            least = Some(sooner((time, member as u16), least));
        }
    }
    least
}

// A time and a member, or others if their time is less.
fn sooner(first: (u64, u16), other: Option<(u64, u16)>) -> (u64, u16)
    ensures { result ≡ sooner_time first other }
{
    match other {
        None => first,
        Some(other) => { if first.0 <= other.0 { first } else { other } }
    }
}

// The leaves of the members with these times, and of numbers past them to the next power of two; and as many words before them,
// which mean nothing yet.
fn leaves(alloc: Global, times: &[Option<u64>]) -> Result<Vec<u64>, AllocError>
    requires { length times.now ≤ 65536 }
    ensures { IfOk result (λ words. HaveLeaves (length words.items / 2) times.now words.items) }
{
    let size = times.len().next_power_of_two();
    let mut words = vec![in alloc; 0; 2 * size]?;
    for member in 0..size {
        words[size + member] = word(time_at(times, member), member as u16);
    }
    Ok(words)
}

// A member's time, if there is the member, and it has one.
fn time_at(times: &[Option<u64>], member: usize) -> Option<u64>
    ensures { result ≡ slice_index_or times.now member None }
{
    match times.get(member) {
        Some(time) => *time,
        None => None,
    }
}

// Makes each word that has two below it the lesser of them, from the last such word to the first, which it gives.
fn raise_winners(words: &mut [u64]) -> u64
    requires { 1 < length words.old }
    ensures tree { AreWinners words.new }
    ensures leaves { KeepsLeaves words.old words.new }
    ensures first { result ≡ word_at words.new 1 }
{
    for place in (1..words.len() / 2).rev() {
        words[place] = words[2 * place].min(words[2 * place + 1]);
    }
    words[1]
}

// Sets the leaf of the member that comes first, and then the words above it, up to the first one below a bound, or to the top.
// Gives the last of them, which is the least of all where the bound divides the words of the time of the first from later ones.
//
// Of the time of the first all others have greater numbers, and below a place above it stand members whose numbers follow each
// other. So whoever is of this time, and comes first below such a place, comes first of all: mostly it is found near the leaf,
// since many members have one time.
#[inline(always)]
fn replay(words: &mut [u64], leaf: usize, word: u64, bound: u64) -> u64
    requires pairs { length words.old % 2 ≡ 0 }
    requires leaf { length words.old ≤ 2 * leaf }
    requires within { leaf < length words.old }
    requires tree { AreWinnersBeside leaf words.old }
    ensures replayed { IsReplayed leaf bound result words.new }
    ensures leaves { SetsLeaf leaf word words.old words.new }
{
    let mut place = leaf;
    let mut least = word;
    words[place] = least;
    while least >= bound {
        let above = place / 2;
        if above == 0 {
            return least;
        }
        least = least.min(words[place ^ 1]);
        place = above;
        words[place] = least;
    }
    least
}

// Sets the leaf of a member that comes before the one that was first. The words above the leaf of that one are put right before.
#[inline(never)]
fn overtake(words: &mut [u64], first: usize, least: u64, leaf: usize, word: u64)
    requires pairs { length words.old % 2 ≡ 0 }
    requires first { length words.old ≤ 2 * first }
    requires first_within { first < length words.old }
    requires leaf { length words.old ≤ 2 * leaf }
    requires within { leaf < length words.old }
    requires least { word_at words.old first ≡ least }
    requires tree { AreWinnersBeside first words.old }
    ensures tree { AreWinnersBeside leaf words.new }
    ensures leaves { SetsLeaf leaf word words.old words.new }
{
    // No word is below 0.
    replay(words, first, least, 0);
    words[leaf] = word;
}

// Sets a leaf, and then the words above it, as far up as they change.
fn climb(words: &mut [u64], leaf: usize, word: u64)
    requires pairs { length words.old % 2 ≡ 0 }
    requires leaf { length words.old ≤ 2 * leaf }
    requires within { leaf < length words.old }
    ensures tree { (first : ℕ) → AreWinnersBeside first words.old → AreWinnersBeside first words.new }
    ensures leaves { SetsLeaf leaf word words.old words.new }
{
    let mut place = leaf;
    let mut least = word;
    while words[place] != least {
        words[place] = least;
        if place == 1 {
            return;
        }
        least = least.min(words[place ^ 1]);
        place /= 2;
    }
}

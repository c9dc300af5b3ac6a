// A u64 as a set of 64 places. A host in C reads the words of the desk as numbers, so that these are functions of a number, and no type has them.
#![tactic(auto)]

ghost use Rattle.std.specs.Prelude.{◌≡◌, cond};
ghost use Rattle.std.specs.Iterator.{at_most};
ghost use Rattle.words.specs.Words.{has, with, without, both, either, except, lowest, lowest_free, count, walks};

// A word has the places 0 to 63.
const PLACES: u32 = 64;

// Is the place in the word? No place past the last is.
pub fn has(word: u64, place: u32) -> bool
    ensures { result ≡ has word place }
{
    if place >= PLACES {
        return false;
    }
    (word >> place) & 1 == 1
}

// The word with the place; the word itself for a place past the last.
pub fn with(word: u64, place: u32) -> u64
    ensures { result ≡ with word place }
{
    if place >= PLACES {
        return word;
    }
    word | (1 << place)
}

// The word with the place where the test holds.
pub fn with_if(holds: bool, word: u64, place: u32) -> u64
    ensures { result ≡ cond holds (with word place) word }
{
    if holds {
        return with(word, place);
    }
    word
}

// The word without the place; the word itself for a place past the last.
pub fn without(word: u64, place: u32) -> u64
    ensures { result ≡ without word place }
{
    if place >= PLACES {
        return word;
    }
    word & !(1 << place)
}

// The places that are in both words.
pub fn both(a: u64, b: u64) -> u64
    ensures { result ≡ both a b }
{
    a & b
}

// The places that are in one of the words, or in both.
pub fn either(a: u64, b: u64) -> u64
    ensures { result ≡ either a b }
{
    a | b
}

// The places of a that are not in b.
pub fn except(a: u64, b: u64) -> u64
    ensures { result ≡ except a b }
{
    a & !b
}

// The lowest place in the word; the number of places where there is none, as the library has it.
pub fn lowest(word: u64) -> u32
    ensures { result ≡ lowest word }
{
    u64::trailing_zeros(word)
}

// The lowest place not in the word; the number of places where all are, as the library has it: that it is none is what 9 asks.
pub fn lowest_free(word: u64) -> u32
    ensures { result ≡ lowest_free word }
{
    u64::trailing_zeros(!word)
}

// How many places are in the word.
pub fn count(word: u64) -> u32
    ensures { result ≡ count word }
{
    u64::count_ones(word)
}

// A walk over the places of a word that are below an end, lowest first.
#[derive(Clone, Copy)]
pub struct PlaceWalk {
    pub rest: u64,
    pub end: usize,
}

// The places of the word that are below the end.
pub fn places(word: u64, end: usize) -> PlaceWalk
    ensures { (result.rest ≡ word) × (result.end ≡ end) }
{
    PlaceWalk { rest: word, end }
}

impl Iterator for PlaceWalk {
    type Item = u32;

    ghost next_gives = { walks };

    ghost remaining = { λ walk. at_most (count walk.rest) };

    fn next(&mut self) -> Option<u32> {
        let place = lowest(self.rest);
        if place >= PLACES || place as usize >= self.end {
            return None;
        }
        self.rest = without(self.rest, place);
        Some(place)
    }
}

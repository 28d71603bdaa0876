// The words of a command line as numbers: decimal numbers, levels, parents, and questions by their names.
#![tactic(auto)]

ghost use Rattle.std.specs.Prelude.{◌≡◌};
ghost use Rattle.ask_arguments.specs.Arguments.{number_in, is_level, level_in, parent_in, question_in};

use numbers::number_in;

mod names;
mod numbers;

// What comes back for a word that is no number.
pub const NO_NUMBER: u32 = 65536;

// The questions. One that is not among them is 0.
pub const RING: u8 = 1;

pub const LIFT: u8 = 2;

pub const DOUBTFUL: u8 = 3;

pub const PLAN: u8 = 4;

pub const ONE_WAY: u8 = 5;

pub const ADD: u8 = 6;

pub const WITHDRAW: u8 = 7;

pub const LINES: u8 = 8;

pub const SEATS: u8 = 9;

// A number: one to five digits, at most 65,535.
pub fn number(word: &[u8]) -> u32
    ensures { result ≡ number_in word.now }
{
    number_in(word)
}

// Whether a word is a level: a number, perhaps with `-` before it.
pub fn is_level(word: &[u8]) -> bool
    ensures { result ≡ is_level word.now }
{
    let size = numbers::size_in(word);
    size <= 65535
}

// The level; one that no table can hold is the nearest that it can.
pub fn level(word: &[u8]) -> i16
    ensures { result ≡ level_in word.now }
{
    let negative = base_slices::byte(word, 0) == b'-';
    numbers::signed(negative, numbers::near(numbers::size_in(word)))
}

// A parent: a number, or `none`.
pub fn parent(word: &[u8]) -> u32
    ensures { result ≡ parent_in word.now }
{
    if names::same(word, b"none") {
        65535
    } else {
        number_in(word)
    }
}

// A question by its name.
pub fn question(word: &[u8]) -> u8
    ensures { result ≡ question_in word.now }
{
    let seats = names::choose(word, b"seats", SEATS, 0);
    let lines = names::choose(word, b"lines", LINES, seats);
    let withdraw = names::choose(word, b"withdraw", WITHDRAW, lines);
    let add = names::choose(word, b"add", ADD, withdraw);
    let one_way = names::choose(word, b"one-way", ONE_WAY, add);
    let plan = names::choose(word, b"plan", PLAN, one_way);
    let doubtful = names::choose(word, b"doubtful", DOUBTFUL, plan);
    let lift = names::choose(word, b"lift", LIFT, doubtful);
    names::choose(word, b"ring", RING, lift)
}

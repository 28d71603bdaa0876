// A stream together with its cursor, which each read moves on.
ghost use Rattle.std.specs.Prelude.{◌≡◌, true, false, ◌%◌, length, take, ◌<◌, MatchOption, IsOk};
ghost use Rattle.base_lists.specs.Tables.{over};
ghost use Rattle.base_streams.specs.Stream.{begun, ended_at, number_at, level_at};
ghost use Rattle.base_streams.specs.Series.{word_from, level_from};
ghost use Rattle.base_streams.specs.Listed.{words_at, levels_at};

use super::{Cursor, listed};
use std::io;
use std::io::Print;

#[derive(Drop)]
pub struct Reader<'a> {
    pub stream: &'a [u8],
    pub cursor: Cursor,
}

impl<'a> Reader<'a> {
    pub fn new(stream: &'a [u8]) -> Reader<'a>
        ensures stream { result.stream.now ≡ stream.now }
        ensures cursor { result.cursor ≡ begun }
    {
        Reader {
            stream,
            cursor: super::begin(),
        }
    }

    // Whether the stream was read to its end without a fault.
    pub fn ended(&self) -> bool
        ensures { result ≡ ended_at self.now.stream.now self.now.cursor }
    {
        super::ended(self.stream, self.cursor)
    }

    // The next number.
    pub fn number(&mut self) -> u32
        ensures stream { self.new.stream.now ≡ self.old.stream.now }
        ensures number { result ≡ (number_at self.old.stream.now self.old.cursor).value }
        ensures cursor { self.new.cursor ≡ (number_at self.old.stream.now self.old.cursor).cursor }
    {
        let next = super::next_number(self.stream, self.cursor);
        self.cursor = next.cursor;
        next.value
    }

    // The low 16 bits of the next number.
    pub fn word(&mut self) -> u16
        ensures stream { self.new.stream.now ≡ self.old.stream.now }
        ensures word { result ≡ (number_at self.old.stream.now self.old.cursor).value % 65536 }
        ensures cursor { self.new.cursor ≡ (number_at self.old.stream.now self.old.cursor).cursor }
    {
        (self.number() % 65536) as u16
    }

    // The next level.
    pub fn level(&mut self) -> i16
        ensures stream { self.new.stream.now ≡ self.old.stream.now }
        ensures level { result ≡ (level_at self.old.stream.now self.old.cursor).value }
        ensures cursor { self.new.cursor ≡ (level_at self.old.stream.now self.old.cursor).cursor }
    {
        let next = super::next_level(self.stream, self.cursor);
        self.cursor = next.cursor;
        next.value
    }

    // The next level, −32768 too, which `level` takes for a fault.
    pub fn any_level(&mut self) -> i16
        ensures stream { self.new.stream.now ≡ self.old.stream.now }
        ensures level { (level_at self.old.stream.now self.old.cursor).cursor.fault ≡ false
            → result ≡ (level_at self.old.stream.now self.old.cursor).value }
        ensures cursor { (level_at self.old.stream.now self.old.cursor).cursor.fault ≡ false
            → self.new.cursor ≡ (level_at self.old.stream.now self.old.cursor).cursor }
    {
        let Cursor { at, fault } = self.cursor;
        let level = self.level();
        if self.cursor.fault && at < self.stream.len() && self.stream[at] == b'-' {
            let lowest = super::next_number(self.stream, Cursor { at: at + 1, fault });
            if lowest.value == 32768 {
                self.cursor = lowest.cursor;
                return i16::MIN;
            }
        }
        level
    }

    // The next list, of words, at the front of `room`; `None` where it is longer.
    pub fn words<'r>(&mut self, room: &'r mut [u16]) -> Option<&'r [u16]>
        ensures stream { self.new.stream.now ≡ self.old.stream.now }
        ensures cursor { self.new.cursor ≡ (words_at self.old.stream.now self.old.cursor).cursor }
        ensures words { MatchOption result
            (length room.old < (words_at self.old.stream.now self.old.cursor).count)
            (λ words. words.now ≡ take (words_at self.old.stream.now self.old.cursor).count
            (over (number_at self.old.stream.now self.old.cursor).value
            (word_from self.old.stream.now
            (number_at self.old.stream.now self.old.cursor).cursor) room.old)) }
    {
        let list = listed::words(self.stream, self.cursor, room);
        self.cursor = list.cursor;
        room.get(..list.count)
    }

    // The same, of levels.
    pub fn levels<'r>(&mut self, room: &'r mut [i16]) -> Option<&'r [i16]>
        ensures stream { self.new.stream.now ≡ self.old.stream.now }
        ensures cursor { self.new.cursor ≡ (levels_at self.old.stream.now self.old.cursor).cursor }
        ensures levels { MatchOption result
            (length room.old < (levels_at self.old.stream.now self.old.cursor).count)
            (λ levels. levels.now ≡ take (levels_at self.old.stream.now self.old.cursor).count
            (over (number_at self.old.stream.now self.old.cursor).value
            (level_from self.old.stream.now
            (number_at self.old.stream.now self.old.cursor).cursor) room.old)) }
    {
        let list = listed::levels(self.stream, self.cursor, room);
        self.cursor = list.cursor;
        room.get(..list.count)
    }

    // The same, of levels that may be −32768.
    pub fn any_levels<'r>(&mut self, room: &'r mut [i16]) -> Option<&'r [i16]>
        ensures stream { self.new.stream.now ≡ self.old.stream.now }
        ensures levels { MatchOption result
            (length room.old < (number_at self.old.stream.now self.old.cursor).value)
            (λ levels. length levels.now
            ≡ (number_at self.old.stream.now self.old.cursor).value) }
    {
        let count = self.number();
        for i in 0..count {
            let level = if self.cursor.fault {
                0
            } else {
                self.any_level()
            };
            if let Some(place) = room.get_mut(i as usize) {
                *place = level;
            }
        }
        room.get(..count as usize)
    }

    // Prints `fault` where the stream does not end here.
    pub fn close(&self, rt: &impl Print) -> io::Result<()>
        ensures { ended_at self.now.stream.now self.now.cursor ≡ true → IsOk result }
    {
        if self.ended() {
            return Ok(());
        }
        println!(rt; "fault")
    }
}

// What a program makes of each case of a stream. A closure in its place would have to be asked for leave to be called
// (D52).
pub trait CaseVisitor {
    fn case(&mut self, reader: &mut Reader<'_>) -> io::Result<()>;
}

// Hands over a reader at every case of a stream, which begins with how many there are, and prints `fault` where the
// stream does not end with them.
pub fn each_case<V: CaseVisitor>(rt: &impl Print, stream: &[u8], visitor: &mut V) -> io::Result<()>
    ensures { (number_at stream.now begun).value ≡ 0
        → ended_at stream.now (number_at stream.now begun).cursor ≡ true
        → IsOk result }
{
    let mut reader = Reader::new(stream);
    let count = reader.number();
    if count == 0 {
        return reader.close(rt);
    }
    for _ in 0..count {
        visitor.case(&mut reader)?;
    }
    reader.close(rt)
}

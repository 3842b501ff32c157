//! Named texts, one of which is being given in pieces.
ghost use Rattle.std.specs.Prelude.{◌≡◌, ◌++◌, [], take, min, length, None, Some, MatchOption, is_some, unwrap_or};
ghost use Rattle.sd_io.specs.outside.Texts.{files_seen, text_at, text_in};

use std::marker::Model;

/// Texts in memory, and how far one of them was read.
#[derive(Drop)]
pub(crate) struct Texts {
    files: Vec<(String, Vec<u8>)>,
    /// The place of the text that is read; past the last file it stands for the empty text.
    place: usize,
    /// The byte of that text that is read next.
    at: usize,
}

impl Model for Texts {
    ghost use Rattle.sd_io.specs.outside.Texts.{Held};

    ghost Value = { Held };

    ghost use Rattle.sd_io.specs.outside.TextsView.{held_of, IsTexts};

    ghost view = { held_of };

    ghost invariant = { IsTexts };
}

/// The place of the first file of a name.
fn place_of(files: &[(String, Vec<u8>)], name: &str) -> Option<usize>
    ensures { MatchOption result (text_in (files_seen files.now) name.now ≡ None)
        (λ i. text_in (files_seen files.now) name.now ≡ Some (text_at (files_seen files.now) i)) }
{
    for (place, file) in files.iter().enumerate() {
        if file.0.as_str() == name {
            return Some(place);
        }
    }
    None
}

/// The text at a place.
fn text_of(files: &[(String, Vec<u8>)], place: usize) -> &[u8]
    ensures { result.now ≡ text_at (files_seen files.now) place }
{
    match files.get(place) {
        Some(file) => file.1.as_slice(),
        None => &[],
    }
}

/// Copies as much of the text as fits, but no more than `most` bytes, and says how much.
fn copy_front(text: &[u8], most: usize, buf: &mut [u8]) -> usize
    ensures count { result ≡ min most (min (length buf.old) (length text.now)) }
    ensures bytes { take result buf.new ≡ take result text.now }
{
    let count = most.min(buf.len().min(text.len()));
    buf[..count].copy_from_slice(&text[..count]);
    count
}

impl Texts {
    /// The texts, of which none is read yet.
    pub(crate) fn new(files: Vec<(String, Vec<u8>)>) -> Texts
        ensures files { result.files ≡ files_seen files.items }
        ensures rest { result.rest ≡ [] }
    {
        let place = files.len();
        Texts {
            files,
            place,
            at: 0,
        }
    }

    /// What is left of the text that is read.
    pub(crate) fn left(&self) -> &[u8]
        ensures { result.now ≡ self.now.rest }
    {
        &text_of(&self.files, self.place)[self.at..]
    }

    /// Goes to the start of the text of a name, which is empty where there is none, and says
    /// whether there is one.
    pub(crate) fn begin(&mut self, name: &str) -> bool
        ensures held { result ≡ is_some (text_in self.old.files name.now) }
        ensures rest { self.new.rest ≡ unwrap_or (text_in self.old.files name.now) [] }
        ensures files { self.new.files ≡ self.old.files }
    {
        self.at = 0;
        match place_of(&self.files, name) {
            Some(place) => {
                self.place = place;
                true
            }
            None => {
                self.place = self.files.len();
                false
            }
        }
    }

    /// Leaves the text that is read.
    pub(crate) fn leave(&mut self)
        ensures rest { self.new.rest ≡ [] }
        ensures files { self.new.files ≡ self.old.files }
    {
        self.place = self.files.len();
        self.at = 0;
    }

    /// Reads on, at most `most` bytes.
    pub(crate) fn read(&mut self, most: usize, buf: &mut [u8]) -> usize
        ensures count { result ≡ min most (min (length buf.old) (length self.old.rest)) }
        ensures bytes { self.old.rest ≡ take result buf.new ++ self.new.rest }
        ensures files { self.new.files ≡ self.old.files }
    {
        let text = text_of(&self.files, self.place);
        let count = copy_front(&text[self.at..], most, buf);
        self.at += count;
        count
    }
}

//! Searches: from the head along the links, and in each slot over its record words.

ghost use Rattle.std.specs.Prelude.{◌≡◌, ◌<◌, ◌≤◌, Some, IsTrue, length};
ghost use Rattle.passive_core.specs.Types.{Seek, LoadLink, LoadRecord};
ghost use Rattle.protocol.specs.declared.event.RecordOf.TheVariants.{Search as OfSearch, Compared as OfCompared};
ghost use Rattle.protocol.specs.Common.{may_seek, with_search_at, search_over, link_loaded, Holds, SlotWithin, loaded_at, row_of_place, entry_with, Keeps, Steps};

use crate::machine::{Core, NO_WORDS};
use protocol::{Loaded, RecordWords, Reply, Search, SearchPlace, StepFault};
use registry_values::{Entry, Key, Kind, Name, Record, are_words_of};

impl Core {
    fn may_seek(&self, c: u8) -> bool
        ensures value { result ≡ may_seek self.now c }
        ensures cpu { IsTrue result → c < self.now.settings.cpus }
    {
        self.is_idle(c) && self.begins[c as usize].is_some()
    }

    pub(crate) fn step_seek(&mut self, c: u8, kind: Kind, name: Name) -> Result<Reply, StepFault>
        ensures { Steps self.old self.new (Seek c kind name) result }
    {
        if !self.may_seek(c) {
            return Err(StepFault::NotAllowed);
        }
        let start = self.seen_at(c);
        self.searches[c as usize] = Some(Search {
            key: Key { kind, name },
            start,
            place: SearchPlace::AtHead,
        });
        Ok(Reply::Done)
    }

    /// The search goes on at another place.
    fn go_on(&mut self, c: u8, search: Search, place: SearchPlace)
        requires cpu { c < self.old.settings.cpus }
        requires holds { Holds (with_search_at self.old c search place) }
        ensures { self.new ≡ with_search_at self.old c search place }
    {
        self.searches[c as usize] = Some(Search { place, ..search });
    }

    /// The search is over, and its answer is the last found entry.
    fn end_search(&mut self, c: u8, answer: Option<Entry>)
        requires cpu { c < self.old.settings.cpus }
        requires holds { Holds (search_over self.old c answer) }
        ensures { self.new ≡ search_over self.old c answer }
    {
        self.searches[c as usize] = None;
        self.found[c as usize] = answer;
    }

    /// Follows a link: 0 is the end of the list, else a slot plus 1. The whole history is seen now.
    fn follow(&mut self, c: u8, search: Search, link: u64) -> Reply
        requires cpu { c < self.old.settings.cpus }
        requires slot { link ≤ self.old.settings.slots }
        requires holds { Keeps (link_loaded self.old c search link) }
        ensures { link_loaded self.old c search link ≡ Some (record { state = self.new; reply = result }) }
    {
        let now = self.changes();
        self.seen[c as usize] = now;
        if link == 0 {
            self.searches[c as usize] = None;
            self.found[c as usize] = None;
            Reply::Missed
        } else {
            let place = SearchPlace::AtNumber((link - 1) as u8);
            self.searches[c as usize] = Some(Search { place, ..search });
            Reply::Word(link)
        }
    }

    pub(crate) fn step_load_link(&mut self, c: u8) -> Result<Reply, StepFault>
        ensures { Steps self.old self.new (LoadLink c) result }
    {
        let Some(search) = self.search_at(c) else {
            return Err(StepFault::NotAllowed);
        };
        match search.place {
            SearchPlace::AtHead => {
                let link = self.head;
                Ok(self.follow(c, search, link))
            }
            SearchPlace::AtNext(t) => {
                let link = self.next[t as usize];
                Ok(self.follow(c, search, link))
            }
            _ => Err(StepFault::NotAllowed),
        }
    }

    pub(crate) fn load_searched(&mut self, c: u8) -> Result<Reply, StepFault>
        ensures { Steps self.old self.new (LoadRecord (OfSearch c)) result }
    {
        let Some(search) = self.search_at(c) else {
            return Err(StepFault::NotAllowed);
        };
        let row = row_of_place(&self.rows, search.place);
        match loaded(&search, &row) {
            None => Err(StepFault::NotAllowed),
            Some(Loaded::On(place, word)) => {
                self.go_on(c, search, place);
                Ok(Reply::Word(word))
            }
            Some(Loaded::Over(entry)) => {
                self.end_search(c, Some(entry));
                Ok(Reply::Found(entry))
            }
        }
    }

    /// The value of the entry that a search has compared and found not to be the one sought.
    pub(crate) fn load_compared(&self, c: u8) -> Result<Reply, StepFault>
        ensures { Steps self.now self.now (LoadRecord (OfCompared c)) result }
    {
        let Some(search) = self.search_at(c) else {
            return Err(StepFault::NotAllowed);
        };
        let row = row_of_place(&self.rows, search.place);
        match search.place {
            SearchPlace::AtNext(_) => Ok(Reply::Word(row.value)),
            _ => Err(StepFault::NotAllowed),
        }
    }
}

/// The record words of the slot that a place is at.
fn row_of_place(rows: &[RecordWords], place: SearchPlace) -> RecordWords
    requires { SlotWithin place (length rows.now) }
    ensures { result ≡ row_of_place rows.now place }
{
    match place {
        SearchPlace::AtHead => NO_WORDS,
        SearchPlace::AtNext(t)
        | SearchPlace::AtNumber(t)
        | SearchPlace::AtKind(t, _)
        | SearchPlace::AtHigh(t, _, _)
        | SearchPlace::AtLow(t, _, _, _)
        | SearchPlace::AtValue(t, _) => rows[t as usize],
    }
}

/// What a search does with the next record word of its slot; none where it is to load a link.
fn loaded(search: &Search, row: &RecordWords) -> Option<Loaded>
    ensures { result ≡ loaded_at search.now search.now.place row.now }
{
    match search.place {
        SearchPlace::AtHead | SearchPlace::AtNext(_) => None,
        SearchPlace::AtNumber(t) => Some(Loaded::On(
            SearchPlace::AtKind(t, row.number),
            row.number,
        )),
        SearchPlace::AtKind(t, n) => Some(Loaded::On(
            SearchPlace::AtHigh(t, n, row.kind),
            row.kind,
        )),
        SearchPlace::AtHigh(t, n, k) => Some(Loaded::On(
            SearchPlace::AtLow(t, n, k, row.high),
            row.high,
        )),
        SearchPlace::AtLow(t, n, k, h) => {
            if are_words_of(search.key, k, h, row.low) {
                Some(Loaded::On(SearchPlace::AtValue(t, n), row.low))
            } else {
                Some(Loaded::On(SearchPlace::AtNext(t), row.low))
            }
        }
        SearchPlace::AtValue(t, n) => Some(Loaded::Over(entry_found(search.key, t, n, row.value))),
    }
}

fn entry_found(key: Key, slot: u8, number: u64, value: u64) -> Entry
    ensures { result ≡ entry_with key slot number value }
{
    let rec = Record {
        kind: key.kind,
        name: key.name,
        value,
    };
    Entry { number, slot, rec }
}

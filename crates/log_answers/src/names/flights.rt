//! The messages under way.

ghost use Rattle.std.specs.Prelude.{◌≡◌, IfOk, OnOk};
ghost use Rattle.std.specs.Option.{option_copied, option_map};
ghost use Rattle.log_answers.specs.names.Flights.{age_of, first_of_lane, flight_at, no_flights, oldest, same_lane, taken, with_sent};
ghost use Rattle.log_answers.specs.names.Flights.{words_with, words_without};

use crate::names::keys::{ByNumber, ByWord, Name};
use ptl_types::{Header, Message, NoMemory};
use std::alloc::Global;
use std::collections::btree_map::Iter;

/// A message, and the log's word for it, where it has one.
#[derive(Drop)]
pub struct Flight {
    word: Option<Name>,
    message: Message,
}

impl Flight {
    /// The log's word for it.
    pub fn word(&self) -> Option<&[u8]>
        ensures { option_copied result ≡ self.now.word }
    {
        match &self.word {
            Some(word) => Some(word.as_slice()),
            None => None,
        }
    }

    /// The message.
    pub fn message(&self) -> &Message
        ensures { result.now ≡ self.now.message }
    {
        &self.message
    }
}

/// All messages under way, by how many were sent before each.
#[derive(Drop)]
pub struct Flights {
    sent: u64,
    messages: ByNumber<Flight>,
    words: ByWord<u64>,
}

/// Whether both go from one rank to another, and both are requests, or both answers.
fn same_lane(one: &Header, other: &Header) -> bool
    ensures { result ≡ same_lane one.now other.now }
{
    one.source == other.source
        && one.target == other.target
        && one.kind.is_answer() == other.kind.is_answer()
}

/// The oldest of the lane of a header.
fn first_of_lane(header: &Header, messages: &ByNumber<Flight>) -> Option<u64>
    ensures { result ≡ first_of_lane header.now messages.now }
{
    for (age, flight) in messages.iter() {
        if same_lane(header, flight.message.header()) {
            return Some(*age);
        }
    }
    None
}

/// A word that is kept, where there is one.
fn kept(alloc: Global, word: Option<&[u8]>) -> Result<Option<Name>, NoMemory>
    ensures { IfOk result (λ name. name ≡ option_copied word.entry) }
{
    match word {
        Some(word) => {
            let name = Name::of(alloc, word)?;
            Ok(Some(name))
        }
        None => Ok(None),
    }
}

/// The word of a message more, where it has one.
fn put_word(
    words: &mut ByWord<u64>,
    alloc: Global,
    word: Option<&[u8]>,
    age: u64,
) -> Result<(), NoMemory>
    ensures { OnOk result (words.new ≡ words_with (option_copied word.entry) age words.old) }
{
    match word {
        Some(word) => words.put(alloc, word, age),
        None => Ok(()),
    }
}

/// The word of a message less, where it has one.
fn remove_word(words: &mut ByWord<u64>, word: &Option<Name>)
    ensures { words.new ≡ words_without word.now words.old }
{
    if let Some(word) = word {
        words.remove(word.as_slice());
    }
}

impl Flights {
    /// None.
    pub fn new(alloc: Global) -> Flights
        ensures { result ≡ no_flights }
    {
        Flights {
            sent: 0,
            messages: ByNumber::new(alloc),
            words: ByWord::new(alloc),
        }
    }

    /// How many were sent.
    pub fn sent(&self) -> u64
        ensures { result ≡ self.now.sent }
    {
        self.sent
    }

    /// The number of the message of a word: how many were sent before it.
    pub fn age(&self, word: &[u8]) -> Option<u64>
        ensures { result ≡ age_of word.now self.now }
    {
        self.words.get(word)
    }

    /// The message of a number.
    pub fn at(&self, age: u64) -> Option<&Flight>
        ensures { option_copied result ≡ flight_at age self.now }
    {
        self.messages.get(age)
    }

    /// All messages with their numbers, in the order of their sending.
    pub fn all(&self) -> Iter<'_, u64, Flight>
        ensures { result ≡ self.now.messages }
    {
        self.messages.iter()
    }

    /// The number of the oldest message of the lane of a header. It looks at all that were sent before that one.
    pub fn oldest(&self, header: &Header) -> Option<u64>
        ensures { result ≡ oldest header.now self.now }
    {
        first_of_lane(header, &self.messages)
    }

    /// Takes the message of a number: it arrived, or it is lost.
    #[tactic(auto, unfolding(crate::specs::names::Flights::taken))]
    pub fn take(&mut self, age: u64) -> Option<Message>
        ensures after { self.new ≡ taken age self.old }
        ensures message { result ≡ option_map (λ f. f.message) (flight_at age self.old) }
    {
        let Some(flight) = self.messages.take(age) else {
            return None;
        };
        let Flight { word, message } = flight;
        remove_word(&mut self.words, &word);
        Some(message)
    }

    /// A message more, the youngest.
    ///
    /// # Errors
    ///
    /// There was no memory; the messages are some of those then.
    #[tactic(auto, unfolding(crate::specs::names::Flights::with_sent))]
    pub fn send(
        &mut self,
        alloc: Global,
        message: Message,
        word: Option<&[u8]>,
    ) -> Result<(), NoMemory>
        ensures { OnOk result (self.new ≡ with_sent message (option_copied word.entry) self.old) }
    {
        let age = self.sent;
        let flight = Flight {
            word: kept(alloc, word)?,
            message,
        };
        put_word(&mut self.words, alloc, word, age)?;
        self.messages.put(age, flight)?;
        self.sent = age.saturating_add(1);
        Ok(())
    }
}

//! Words that are put into input registers, where the guard lets them through.

ghost use Rattle.std.specs.Prelude.{◌≡◌, ◌+◌, false, IsTrue, Some, None};
ghost use Rattle.ags_certtype.specs.Cert.{certificate_of};
ghost use Rattle.ags_play.specs.Act as act;
ghost use Rattle.ags_play.specs.Doing as doing;
ghost use Rattle.ags_play.specs.Guard as guarding;
ghost use Rattle.ags_run.specs.Playing.{guard_in, Put, ActedUnder};

use crate::players::{Player, StoppedWord};
use ags_certtype::Cert;
use ags_domain::Domain;
use ags_ports::laws::machine_is_made_of_tables;
use ags_ports::{Event, Machine};
use ags_word::Word;

/// What is added to a digit of the panel.
const DIGIT_BASE: u32 = 0o20;

/// Whether a certificate lets a word be put.
pub fn cert_lets_through(machine: &Machine, cert: &Cert, address: u16, word: Word) -> bool
    ensures { result ≡ guarding.lets_through machine.now (certificate_of cert.now) (record { address = address; word = word }) }
{
    machine_is_made_of_tables(machine);
    match machine.ports.find_input(address) {
        Some(_) => cert.limits().input(address).holds(word),
        None => true,
    }
}

/// The word that a digit of the panel is put as.
fn digit_word(digit: u8) -> Word
    ensures { result ≡ 16 + digit }
{
    // a digit is a byte, so there is room for it
    Word::of(DIGIT_BASE + u32::from(digit)).unwrap()
}

impl<'a> Player<'a> {
    /// Whether the guard lets a word be put; without a guard each word is.
    fn lets_through(&self, address: u16, word: Word) -> bool
        ensures through { IsTrue result → guarding.stopped_by self.now.machine.now (guard_in self.now) (Some (record { address = address; word = word })) ≡ None }
        ensures stopped { result ≡ false → guarding.stopped_by self.now.machine.now (guard_in self.now) (Some (record { address = address; word = word })) ≡ Some (record { address = address; word = word }) }
    {
        match self.guard {
            Some(cert) => cert_lets_through(self.machine, cert, address, word),
            None => true,
        }
    }

    /// Whether a cycle feeds in this state: the panel's digits go to a register of the machine, and its word is 0.
    fn wants_digit(&self) -> bool
        ensures { result ≡ doing.wants_digit self.now.machine.now self.now.bench.core }
    {
        match self.machine.ports.find_input(self.machine.deda_in) {
            Some(position) => self.bench.core.input(position).number() == 0,
            None => false,
        }
    }

    /// Puts a word where the guard lets it through.
    fn put(&mut self, address: u16, word: Word) -> Option<StoppedWord>
        ensures { Put address word self.old self.new result }
    {
        if !self.lets_through(address, word) {
            return Some(StoppedWord { address, word });
        }
        let bench = &mut self.bench;
        bench.core.act(self.machine, Event::Put { address, word });
        bench.puts = bench.puts.wrapping_add(1);
        None
    }

    /// Puts the word of SET.
    pub(crate) fn set(&mut self, address: u16, word: Word) -> Option<StoppedWord>
        ensures { ActedUnder (act.Puts address word) self.old self.new result }
    {
        self.put(address, word)
    }

    /// Feeds the next digit of the panel, where one is left.
    pub(crate) fn feed(&mut self) -> Option<StoppedWord>
        ensures { ActedUnder act.Feeds self.old self.new result }
    {
        let bench = &mut self.bench;
        match bench.listener.panel.sent() {
            Some(digit) => self.put(self.machine.deda_in, digit_word(digit)),
            None => None,
        }
    }

    /// Feeds the next digit of the panel, where one is left and its register's word is 0.
    pub(crate) fn feed_where_zero(&mut self) -> Option<StoppedWord>
        ensures { ActedUnder act.FeedsWhereZero self.old self.new result }
    {
        if self.wants_digit() {
            self.feed()
        } else {
            None
        }
    }
}

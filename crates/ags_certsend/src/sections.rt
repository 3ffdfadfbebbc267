//! The kinds of lines that stand by address, and what a certificate states at each.

ghost use Rattle.std.specs.Prelude.{◌≡◌, ◌<◌, ◌≤◌};
ghost use Rattle.ags_certsend.specs.CertText.{is_full, limited, stating, cell_statement, init_statement, input_statement, output_statement, place_statement};
ghost use Rattle.ags_certsend.specs.Section.{address_count, stated_at};

use ags_certtext::{Entry, Statement, Table};
use ags_certtype::Cert;
use ags_domain::{Domain, Value};
use ags_word::{ERASABLE, LOCATIONS};

/// The word of least value.
const LEAST_WORD: u32 = 0o400000;

/// The word of greatest value.
const GREATEST_WORD: u32 = 0o377777;

/// A kind of lines that stand by address.
#[derive(Clone, Copy)]
pub(crate) enum Section {
    /// What each cell may hold.
    Cells,
    /// What some cells may hold at the start.
    Starts,
    /// What each input register may hold.
    Inputs,
    /// What each output register may hold.
    Outputs,
    /// The named places.
    Places,
}

impl Section {
    /// How many addresses the kind has.
    pub(crate) fn count(self) -> u16
        ensures count { result ≡ address_count self }
        ensures most { result ≤ 4096 }
    {
        match self {
            Section::Cells | Section::Starts => ERASABLE,
            Section::Inputs | Section::Outputs | Section::Places => LOCATIONS,
        }
    }

    /// What a certificate states at an address.
    pub(crate) fn statement(self, cert: &Cert, address: u16) -> Option<Statement>
        requires { address < address_count self }
        ensures { result ≡ stated_at self cert.now address }
    {
        match self {
            Section::Cells => cell_statement(cert, address),
            Section::Starts => init_statement(cert, address),
            Section::Inputs => input_statement(cert, address),
            Section::Outputs => output_statement(cert, address),
            Section::Places => place_statement(cert, address),
        }
    }
}

/// Whether a value is the range of all words.
fn is_full(value: &Value) -> bool
    ensures { result ≡ is_full value.now }
{
    match value {
        Value::Range(_) => {
            value.least().number() == LEAST_WORD && value.greatest().number() == GREATEST_WORD
        }
        Value::Words(_) => false,
    }
}

/// The entry of a limit in its table: a full one has none.
fn limited(table: Table, address: u16, limit: Value) -> Option<Statement>
    ensures { result ≡ stating table (limited address limit) }
{
    if is_full(&limit) {
        return None;
    }
    let entry = Entry {
        address,
        value: Some(limit),
    };
    Some(Statement::Entry(table, entry))
}

/// What a certificate states of a cell's limit.
#[tactic(auto, unfolding(crate::specs::CertText::cell_statement))]
fn cell_statement(cert: &Cert, address: u16) -> Option<Statement>
    requires { address < 2048 }
    ensures { result ≡ cell_statement cert.now address }
{
    limited(Table::Cell, address, cert.limits().cell(address))
}

/// What a certificate states of a cell at the start.
#[tactic(auto, unfolding(crate::specs::CertText::init_statement))]
fn init_statement(cert: &Cert, address: u16) -> Option<Statement>
    requires { address < 2048 }
    ensures { result ≡ init_statement cert.now address }
{
    let value = cert.init(address)?;
    let entry = Entry {
        address,
        value: Some(value),
    };
    Some(Statement::Entry(Table::Init, entry))
}

/// What a certificate states of an input register's limit.
#[tactic(auto, unfolding(crate::specs::CertText::input_statement))]
fn input_statement(cert: &Cert, address: u16) -> Option<Statement>
    requires { address < 4096 }
    ensures { result ≡ input_statement cert.now address }
{
    limited(Table::In, address, cert.limits().input(address))
}

/// What a certificate states of an output register's limit.
#[tactic(auto, unfolding(crate::specs::CertText::output_statement))]
fn output_statement(cert: &Cert, address: u16) -> Option<Statement>
    requires { address < 4096 }
    ensures { result ≡ output_statement cert.now address }
{
    limited(Table::Out, address, cert.limits().output(address))
}

/// That a certificate names a location, where it does.
#[tactic(auto, unfolding(crate::specs::CertText::place_statement))]
fn place_statement(cert: &Cert, location: u16) -> Option<Statement>
    requires { location < 4096 }
    ensures { result ≡ place_statement cert.now location }
{
    if cert.limits().may(location) {
        return Some(Statement::May(location));
    }
    None
}

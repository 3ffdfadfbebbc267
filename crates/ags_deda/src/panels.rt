//! The panel.

ghost use Rattle.std.specs.Prelude.{◌≡◌, ◌<◌, ◌≤◌, List, [], ◌∷◌, ◌++◌, slice_get, Option, Some, None, IfSome, IfNone, IfOk, IfErr, IsOk, ◌↔◌, true, false};
ghost use Rattle.ags_deda.specs.Key.{is_clr};
ghost use Rattle.ags_deda.specs.declared.keys.Key.{Key};
ghost use Rattle.ags_deda.specs.Happening.{Happening, Pressed, Shown, Sent, keys_of};
ghost use Rattle.ags_deda.specs.Form.{taken, in_readout};
ghost use Rattle.ags_deda.specs.Panel.{text, unsent, is_lit, is_whole, group_shown, columns_of, later_group, sign_character, digit_character, group_text, light_character};
ghost use Rattle.ags_deda.specs.Standing.{StandsFor, StandsSince};

use crate::groups::Group;
use crate::keyed::{COLUMNS, Keyed};
use crate::keyings::Keying;
use crate::keys::{Key, is_clr};

/// The greatest digit that is shown.
const MOST_DIGIT: u8 = 15;

/// A shown digit was above 15.
#[derive(Clone, Copy, Debug, PartialEq, Eq)]
pub struct BadDigit {
    /// The digit.
    pub digit: u8,
}

/// The panel: what happened to it since the last CLR, as far as it matters.
#[derive(Drop)]
pub struct Panel {
    /// How far the keys that were taken have come.
    keying: Keying,
    /// What they show and send.
    keyed: Keyed,
    /// Whether OPR ERR is lit.
    light: bool,
    /// How many digits of the message were sent.
    sent: u8,
    /// The group that a readout's digits fill.
    group: Group,
    /// The last group that was displayed.
    shown: Option<[u8; COLUMNS]>,
}

/// How a digit of a group stands in the column of the sign.
fn sign_character(digit: u8) -> u8
    ensures { result ≡ sign_character digit }
{
    match digit {
        0 => b'+',
        1 => b'-',
        _ => b'?',
    }
}

/// How a digit of a group stands in any other column.
fn digit_character(digit: u8) -> u8
    ensures { result ≡ digit_character digit }
{
    if digit < 10 { b'0' + digit } else { b'?' }
}

/// A group in the nine columns.
fn group_text(group: [u8; COLUMNS]) -> [u8; COLUMNS]
    ensures { result ≡ group_text group }
{
    [
        digit_character(group[0]),
        digit_character(group[1]),
        digit_character(group[2]),
        sign_character(group[3]),
        digit_character(group[4]),
        digit_character(group[5]),
        digit_character(group[6]),
        digit_character(group[7]),
        digit_character(group[8]),
    ]
}

/// The nine columns and a tenth byte.
fn with_tenth(columns: [u8; COLUMNS], tenth: u8) -> [u8; 10]
    ensures { result ≡ columns ++ tenth ∷ [] }
{
    let [
        first,
        second,
        third,
        sign,
        fourth,
        fifth,
        sixth,
        seventh,
        eighth,
    ] = columns;
    [
        first, second, third, sign, fourth, fifth, sixth, seventh, eighth, tenth,
    ]
}

/// The light OPR ERR on the display.
fn light_character(lit: bool) -> u8
    ensures { result ≡ light_character lit }
{
    if lit { b'E' } else { b' ' }
}

/// The last group that is displayed, once a further digit was shown, which made a group whole or none.
fn later_group(
    whole: Option<[u8; COLUMNS]>,
    held: bool,
    shown: Option<[u8; COLUMNS]>,
) -> Option<[u8; COLUMNS]>
    ensures { result ≡ later_group whole held shown }
{
    match whole {
        Some(group) => { if held { shown } else { Some(group) } }
        None => shown,
    }
}

impl Panel {
    /// A panel to which nothing happened: its display is blank, and it has nothing to send.
    #[tactic(auto, unfolding(crate::specs::Standing::StandsFor, crate::specs::Happening::since_clear, crate::specs::Happening::keys_of, crate::specs::Happening::sent_count, crate::specs::Panel::counted, crate::specs::Panel::group_shown, crate::specs::Form::taken, crate::specs::Form::fits))]
    pub fn new() -> Panel
        ensures { StandsFor result [] }
    {
        Panel {
            keying: Keying::new(),
            keyed: Keyed::new(),
            light: false,
            sent: 0,
            group: Group::new(),
            shown: None,
        }
    }

    /// Takes a key that is not CLR, where OPR ERR is not lit, or lights OPR ERR.
    fn take(&mut self, key: Key)
        ensures { (since : List Happening) → is_clr key ≡ false → StandsSince self.old since → is_lit since ≡ false → StandsSince self.new (Pressed key ∷ since) }
    {
        let count = self.keying.count();
        match self.keying.with(key) {
            Some(keying) => {
                self.keying = keying;
                self.keyed.write(count, key);
            }
            None => {
                self.light = true;
            }
        }
    }

    /// A key is pressed (docs/PANEL.md). CLR makes the panel anew. Any other key is taken where the keys since then with
    /// it are a front of an entry or of a readout; else it is wrong, lights OPR ERR and drops what was to be sent, and
    /// further keys are ignored.
    pub fn press(&mut self, key: Key)
        ensures { (happenings : List Happening) → StandsFor self.old happenings → StandsFor self.new (Pressed key ∷ happenings) }
    {
        if is_clr(key) {
            *self = Panel::new();
            return;
        }
        if self.light {
            return;
        }
        self.take(key);
    }

    /// The nine columns of the display.
    fn columns(&self) -> [u8; COLUMNS]
        ensures { (since : List Happening) → StandsSince self.now since → result ≡ columns_of (group_shown since) (taken (keys_of since)) }
    {
        match self.shown {
            Some(group) => group_text(group),
            None => self.keyed.characters,
        }
    }

    /// The display: three characters of the address, the sign, five characters of the value, and an `E` where OPR ERR is
    /// lit. A column without a character is a space.
    #[tactic(auto, unfolding(crate::specs::Panel::text, crate::specs::Standing::StandsFor))]
    pub fn text(&self) -> [u8; 10]
        ensures { (happenings : List Happening) → StandsFor self.now happenings → result ≡ text happenings }
    {
        with_tenth(self.columns(), light_character(self.light))
    }

    /// Whether the keys make a message.
    fn has_message(&self) -> bool
        ensures { (since : List Happening) → StandsSince self.now since → result ≡ is_whole (keys_of since) }
    {
        !self.light && self.keying.is_whole()
    }

    /// The next digit that the panel sends: of the nine of an entry or a readout, each comes once. `None` where none is
    /// left, and then nothing has happened.
    pub fn sent(&mut self) -> Option<u8>
        ensures answer { (happenings : List Happening) → StandsFor self.old happenings → result ≡ slice_get (unsent happenings) 0 }
        ensures follows { IfSome result (λ digit. (happenings : List Happening) → StandsFor self.old happenings → StandsFor self.new (Sent digit ∷ happenings)) }
        ensures same { IfNone result (self.new ≡ self.old) }
    {
        if !self.has_message() {
            return None;
        }
        let column = self.sent as usize;
        if column >= COLUMNS {
            return None;
        }
        self.sent += 1;
        Some(self.keyed.digits[column])
    }

    /// Whether the panel is in a readout, so that shown digits count.
    fn in_readout(&self) -> bool
        ensures { (since : List Happening) → StandsSince self.now since → result ≡ in_readout (keys_of since) }
    {
        !self.light && self.keying.in_readout()
    }

    /// Counts a shown digit.
    fn count(&mut self, digit: u8)
        ensures { (since : List Happening) → in_readout (keys_of since) ≡ true → StandsSince self.old since → StandsSince self.new (Shown digit ∷ since) }
    {
        let whole = self.group.push(digit);
        self.shown = later_group(whole, self.keying.held, self.shown);
    }

    /// A digit is shown to the panel, 0 to 15. In a readout nine of them are a group, and a whole one is displayed,
    /// but for one that became whole during HOLD. A greater digit is refused, and then nothing has happened.
    pub fn shown(&mut self, digit: u8) -> Result<(), BadDigit>
        ensures refused { IsOk result ↔ (digit ≤ 15) }
        ensures follows { IfOk result (λ _. (happenings : List Happening) → StandsFor self.old happenings → StandsFor self.new (Shown digit ∷ happenings)) }
        ensures same { IfErr result (λ error. (error.digit ≡ digit) × (self.new ≡ self.old)) }
    {
        if digit > MOST_DIGIT {
            return Err(BadDigit { digit });
        }
        if self.in_readout() {
            self.count(digit);
        }
        Ok(())
    }
}

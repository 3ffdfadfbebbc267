//! What a line's first field is, and what SHOW shows.

ghost use Rattle.std.specs.Prelude.{◌≡◌, IfSome, Some};
ghost use Rattle.ags_script.specs.declared.verbs.Subject.{Subject};
ghost use Rattle.ags_script.specs.Operand.{named, verb_name, verb_named, subject_name, subject_named};

/// The first field of a line.
#[derive(Clone, Copy)]
pub(crate) enum Verb {
    /// START.
    Start,
    /// CELL.
    Cell,
    /// PORT.
    Port,
    /// STEP.
    Step,
    /// PULSE.
    Pulse,
    /// SET.
    Set,
    /// KEY.
    Key,
    /// FEED.
    Feed,
    /// CYCLE.
    Cycle,
    /// SHOW.
    Show,
}

/// What a SHOW shows.
#[derive(Clone, Copy)]
pub(crate) enum Subject {
    /// The processor's registers.
    Reg,
    /// A cell.
    Cell,
    /// An output register.
    Out,
    /// The panel.
    Deda,
}

impl Verb {
    /// All verbs.
    const ALL: [Verb; 10] = [
        Verb::Start,
        Verb::Cell,
        Verb::Port,
        Verb::Step,
        Verb::Pulse,
        Verb::Set,
        Verb::Key,
        Verb::Feed,
        Verb::Cycle,
        Verb::Show,
    ];

    /// The verb's name, as a script writes it.
    fn name(self) -> &'static str
        ensures { result.now ≡ verb_name self }
    {
        match self {
            Verb::Start => "START",
            Verb::Cell => "CELL",
            Verb::Port => "PORT",
            Verb::Step => "STEP",
            Verb::Pulse => "PULSE",
            Verb::Set => "SET",
            Verb::Key => "KEY",
            Verb::Feed => "FEED",
            Verb::Cycle => "CYCLE",
            Verb::Show => "SHOW",
        }
    }
}

/// The first of these verbs that a text names, letter for letter.
fn first_named(verbs: &[Verb], text: &[u8]) -> Option<Verb>
    ensures { result ≡ named verb_name verbs.now text.now }
{
    verbs
        .iter()
        .find(|verb| verb.name().as_bytes() == text)
        .copied()
}

/// The subject of a name, letter for letter.
fn subject_of(text: &[u8]) -> Option<Subject>
    ensures found { IfSome result (λ subject. subject_name subject ≡ text.now) }
    ensures only { (subject : Subject) → subject_name subject ≡ text.now → result ≡ Some subject }
{
    match text {
        b"REG" => Some(Subject::Reg),
        b"CELL" => Some(Subject::Cell),
        b"OUT" => Some(Subject::Out),
        b"DEDA" => Some(Subject::Deda),
        _ => None,
    }
}

/// The verb of a name, and nothing for a text that is none.
#[tactic(auto, unfolding(crate::specs::Operand::verb_named))]
pub(crate) fn verb_named(text: &[u8]) -> Option<Verb>
    ensures { result ≡ verb_named text.now }
{
    first_named(&Verb::ALL, text)
}

/// The subject of a name, and nothing for a text that is none.
pub(crate) fn subject_named(text: &[u8]) -> Option<Subject>
    ensures { result ≡ subject_named text.now }
{
    subject_of(text)
}

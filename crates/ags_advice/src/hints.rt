//! What each kind of fault wants, one row a kind, in the words of docs/. A further kind is a row here and one in the definition.

ghost use Rattle.std.specs.Prelude.{◌≡◌, map};
ghost use Rattle.ags_advice.specs.Hint as hint;

/// A kind, and what it wants.
type Hint = (&'static str, &'static str);

/// What a kind wants, by the first row that has it, and a text of its own for any other kind.
fn wanted_by(hints: &[Hint], otherwise: &'static str, kind: &str) -> &'static str
    ensures { result.now ≡ hint.wanted_by (map (λ row. record { kind = row.0.now; wanted = row.1.now }) hints.now) otherwise.now kind.now }
{
    for (named, wanted) in hints {
        if kind == *named {
            return wanted;
        }
    }
    otherwise
}

/// Of a fault of a source (docs/SOURCE.md, Faults).
const SOURCE: [Hint; 16] = [
    (
        "BadByte",
        "a card, a comment too, has tabs and the characters from the space to the tilde, and no other byte",
    ),
    (
        "LongCard",
        "a card, a comment too, has at most 120 bytes; the line's end doesn't count",
    ),
    (
        "BadSymbol",
        "this is read as a source: a symbol, from column 1 on, is 1 to 6 capitals and digits with a letter among them; EQU and SYN have one; a comment has * in column 1",
    ),
    (
        "UnknownOperation",
        "an operation, after column 1, is one of the 27 orders, ORG, EQU, SYN, BSS, BES, DEC, OCT or END, in capitals; a comment has * in column 1",
    ),
    (
        "MissingOperand",
        "every operation but ABS, COM and END has an operand after a blank, with no blank in it",
    ),
    (
        "ExtraOperand",
        "the operand of ORG, EQU, SYN, BSS and BES is one expression, without a comma",
    ),
    (
        "BadExpression",
        "an operand is terms joined by + or -: /octal or decimal, 6 digits at most, *, or a symbol of at most 6 capitals and digits; an order may end in ,1",
    ),
    (
        "BadDecimal",
        "a number of DEC is as -1.5E2B10: 1 to 10 digits, E and B or none, net power of ten -12 to 12, scale -30 to 60; no blank stands after a comma",
    ),
    (
        "BadOctal",
        "each number of OCT is an optional sign and 1 to 6 octal digits, with a comma between each two",
    ),
    (
        "SymbolTwice",
        "a symbol stands in the symbol field of one card alone",
    ),
    (
        "UndefinedEarly",
        "the symbols that ORG, EQU, SYN, BSS and BES use are defined by earlier cards",
    ),
    (
        "PlaceRange",
        "words and ORG have places 0 to 4095, BSS and BES go forward, to 4096 at most, EQU is -262143 to 262143",
    ),
    (
        "Undefined",
        "each symbol that an order uses stands in the symbol field of some card",
    ),
    (
        "AddressRange",
        "the address of an order, the value of its expression, is 0 to 4095, in octal /0 to /7777",
    ),
    (
        "ValueRange",
        "each number of DEC, times 2 to the power of 17 less its scale, rounds to a value from -131072 to 131071",
    ),
    ("PlaceTwice", "a place has the word of one card alone"),
];

/// What such a kind wants.
pub(crate) fn source(kind: &str) -> &'static str
    ensures { result.now ≡ hint.wanted_in hint.source kind.now }
{
    wanted_by(&SOURCE, "docs/SOURCE.md, Faults, has the kinds", kind)
}

/// Of a fault of a machine file (docs/MACHINE.md, Machine files).
const MACHINE: [Hint; 5] = [
    (
        "NotToml",
        "a machine file is one TOML document in UTF-8, with texts in quotes and numbers as 1025 or 0o2001; an empty one gives the standard machine",
    ),
    (
        "MissingKey",
        "codes and times, where given, have all 27 orders by name; each entry of input and output has an address",
    ),
    (
        "BadValue",
        "codes are even, 0 to 62, times 1 to 1000, addresses 0 to 4095, all without quotes; once is true or false; input and output are at most 32 tables each",
    ),
    ("SameCode", "no two of the 27 orders have one code"),
    (
        "SamePort",
        "no two registers of one direction have one address; an input and an output register may",
    ),
];

/// What such a kind wants.
pub(crate) fn machine(kind: &str) -> &'static str
    ensures { result.now ≡ hint.wanted_in hint.machine kind.now }
{
    wanted_by(
        &MACHINE,
        "docs/MACHINE.md, Machine files, has the kinds",
        kind,
    )
}

/// Of a fault of a certificate (docs/CERTIFICATE.md, Faults).
const CERTIFICATE: [Hint; 9] = [
    (
        "BadLine",
        "in capitals and in this order come START p, CELL c value, INIT c value, IN p value, OUT p value, MAY p, then ROW p A value Q value X digits V digits with AT c value and in version 2 LINK c k after it, and END last; a value is ANY, RANGE n m or WORDS w .. with 1 to 16 w that ascend; the digits ascend without blanks; p and c have 4 octal digits, w has 6, n and m are decimal, -131072 to 131071, k -262143 to 262143; c is erasable, IN and OUT name registers; a comment has # in column 1; a line has at most 512 bytes",
    ),
    (
        "Version",
        "line 1 is AGSCERT 1 or AGSCERT 2, and there is no other version",
    ),
    (
        "Twice",
        "START stands once, an address once in one kind, AT once for a cell of a row, and LINK once in a row",
    ),
    (
        "EmptyRange",
        "RANGE n m has the lesser value first: n is m or less",
    ),
    (
        "OutsideGlobal",
        "each word that INIT or AT states of a cell is one of its CELL line: narrow the one, or widen the other",
    ),
    (
        "NoZero",
        "an input register that holds its word once is 0 when it was read, so the value of its IN line holds 0",
    ),
    (
        "TooManyRows",
        "a certificate has at most 20,000 rows, and at most 512 at one location",
    ),
    ("TooManyAt", "a row has at most 64 AT lines"),
    (
        "NoRows",
        "a certificate has a ROW line before END, one at least",
    ),
];

/// What such a kind wants.
pub(crate) fn certificate(kind: &str) -> &'static str
    ensures { result.now ≡ hint.wanted_in hint.certificate kind.now }
{
    wanted_by(
        &CERTIFICATE,
        "docs/CERTIFICATE.md, Faults, has the kinds",
        kind,
    )
}

/// Of a fault of a listing (docs/SOURCE.md, Listing).
const LISTING: [Hint; 2] = [
    (
        "BadLine",
        "columns 1-7 are digits, 9-12 and 14-19 octal digits in both or spaces in both, 8, 13 and 20 spaces",
    ),
    (
        "PlaceTwice",
        "a place has a word in one line of a listing alone",
    ),
];

/// What such a kind wants.
pub(crate) fn listing(kind: &str) -> &'static str
    ensures { result.now ≡ hint.wanted_in hint.listing kind.now }
{
    wanted_by(&LISTING, "docs/SOURCE.md, Listing, has the kinds", kind)
}

/// Of a fault of a script (docs/SCRIPT.md, Faults).
const SCRIPT: [Hint; 3] = [
    (
        "BadLine",
        "this is read as a script: START p once, CELL c w and PORT p w come first, then STEP n, PULSE, SET p w, KEY k .., FEED, CYCLE n, SHOW REG, SHOW CELL c, SHOW OUT p and SHOW DEDA; p and c have 4 octal digits, w has 6, n is decimal, of 1 to 9 digits, k is 0 to 9, +, -, CLR, ENTR, RO or HOLD; the c of CELL is 0000 to 3777; a comment has # in column 1",
    ),
    (
        "NoPort",
        "PORT and SET name an input register of the machine, SHOW OUT an output one, and FEED needs the panel's; docs/MACHINE.md, Registers, has their addresses",
    ),
    (
        "TooManySteps",
        "the counts of all STEP lines, and 20,000 times those of all CYCLE lines, come to at most 100,000,000",
    ),
];

/// What such a kind wants.
pub(crate) fn script(kind: &str) -> &'static str
    ensures { result.now ≡ hint.wanted_in hint.script kind.now }
{
    wanted_by(&SCRIPT, "docs/SCRIPT.md, Faults, has the kinds", kind)
}

/// Of a fault of a bench script (docs/BENCH.md, Scripts).
const BENCH_SCRIPT: [Hint; 3] = [
    (
        "BadLine",
        "a line is STEP n, PULSE, CYCLE n, FEED i, DETACH i, SHOW REG, SHOW CELL c or SHOW OUT p, and no other",
    ),
    (
        "NoPort",
        "SHOW OUT names an output register of the machine; docs/MACHINE.md, Registers, has their addresses",
    ),
    (
        "TooManySteps",
        "the counts of all STEP lines, and 20,000 times those of all CYCLE lines, come to at most 100,000,000",
    ),
];

/// What such a kind wants.
pub(crate) fn bench_script(kind: &str) -> &'static str
    ensures { result.now ≡ hint.wanted_in hint.bench_script kind.now }
{
    wanted_by(&BENCH_SCRIPT, "docs/BENCH.md, Scripts, has the kinds", kind)
}

/// Of a fault of a text of times (docs/TIMES.md, Faults).
const TIMES: [Hint; 5] = [
    (
        "BadLine",
        "a line is TIME r n, both of 1 to 5 digits, and END is last",
    ),
    (
        "Version",
        "line 1 is AGSTIME 1, and there is no other version",
    ),
    ("Twice", "a row has one TIME line at most"),
    (
        "NoRow",
        "the r of TIME r n is the number of a row of the certificate, counted from 1",
    ),
    (
        "TimeRange",
        "the n of TIME r n, a row's bound, is 1 to 20,000 microseconds",
    ),
];

/// What such a kind wants.
pub(crate) fn times(kind: &str) -> &'static str
    ensures { result.now ≡ hint.wanted_in hint.times kind.now }
{
    wanted_by(&TIMES, "docs/TIMES.md, Faults, has the kinds", kind)
}

/// Of a fault of a text of scales (docs/SCALES.md, Faults).
const SCALES: [Hint; 4] = [
    (
        "BadLine",
        "a line is CELL c n, IN p n, OUT p n or ROW r a q, and END is last; c and p have 4 octal digits, n is -128 to 127, a and q are ANY, RAW or as n; IN and OUT name registers",
    ),
    (
        "Version",
        "line 1 is AGSSCALE 1, and there is no other version",
    ),
    (
        "Twice",
        "an address stands in one line at most of each of CELL, IN and OUT, and a row in one ROW line",
    ),
    (
        "NoRow",
        "the r of ROW r a q is the number of a row of the certificate, counted from 1",
    ),
];

/// What such a kind wants.
pub(crate) fn scales(kind: &str) -> &'static str
    ensures { result.now ≡ hint.wanted_in hint.scales kind.now }
{
    wanted_by(&SCALES, "docs/SCALES.md, Faults, has the kinds", kind)
}

/// Of a fault of a text of edits (docs/EDITS.md, Faults).
const EDITS: [Hint; 6] = [
    (
        "BadLine",
        "a line is WORD p w, CELL c value or ROW r p A .. (the row's number, then its location), with its AT and LINK lines after it, and END is last; p has 4 octal digits, w has 6; CELL, AT and LINK name erasable cells",
    ),
    (
        "Version",
        "line 1 is AGSEDIT 1, and there is no other version",
    ),
    (
        "Twice",
        "a cell stands in one AT line of a row, and a row has one LINK line at most",
    ),
    (
        "EmptyRange",
        "RANGE n m has the lesser value first: n is m or less",
    ),
    ("TooManyAt", "a row has at most 64 AT lines"),
    ("TooManyEdits", "a text of edits has at most 10,000 edits"),
];

/// What such a kind wants.
pub(crate) fn edits(kind: &str) -> &'static str
    ensures { result.now ≡ hint.wanted_in hint.edits kind.now }
{
    wanted_by(&EDITS, "docs/EDITS.md, Faults, has the kinds", kind)
}

/// Of a start or a word that a script sets and a certificate doesn't declare (docs/SCRIPT.md, Guarded plays).
const OUTSIDE: [Hint; 4] = [
    (
        "START",
        "the script starts where the certificate does: its START names that location, or it has none",
    ),
    (
        "CELL",
        "an erasable cell begins as its card's word, else as a word of its INIT line, and where neither is as 0",
    ),
    (
        "PORT",
        "an input register begins as a word of its IN line, and as 0 where no PORT line sets it",
    ),
    (
        "IN",
        "it is the script's first word, put by SET, FEED or CYCLE, that isn't one of its register's IN line: put another, or widen that; bin/ags-explain -g tells its line",
    ),
];

/// What such a kind wants.
pub(crate) fn outside(kind: &str) -> &'static str
    ensures { result.now ≡ hint.wanted_in hint.outside kind.now }
{
    wanted_by(
        &OUTSIDE,
        "docs/SCRIPT.md, Guarded plays, has the kinds",
        kind,
    )
}

/// The same at the bench (docs/BENCH.md, What stops a run).
const BENCH_OUTSIDE: [Hint; 3] = [
    (
        "CELL",
        "a cell without a card's word begins as 0 at the bench, so its INIT line, where it has one, holds 0",
    ),
    (
        "PORT",
        "an input register begins as 0 at the bench, so its IN line, where it has one, holds 0",
    ),
    (
        "IN",
        "each word that a device gives is one of the IN line of the register that it feeds",
    ),
];

/// What such a kind wants.
pub(crate) fn bench_outside(kind: &str) -> &'static str
    ensures { result.now ≡ hint.wanted_in hint.bench_outside kind.now }
{
    wanted_by(
        &BENCH_OUTSIDE,
        "docs/BENCH.md, What stops a run, has the kinds",
        kind,
    )
}

/// Of an item of the verdict that fails (docs/CHECKER.md, The verdict), and that text of any other kind.
const ITEMS: [Hint; 10] = [
    (
        "InitRange",
        "a cell begins as a word of its CELL line: widen that, mend the card, or write INIT where no card has a word there",
    ),
    (
        "StartUncovered",
        "a row at the location of START, or at 4000 without it, has to hold 0 in A, Q, X and V, and the first word of each cell of its AT lines",
    ),
    (
        "CodeUnknown",
        "at an erasable cell at most 16 words may be run: name them by WORDS in an AT line of the row, or in CELL",
    ),
    (
        "NoOrder",
        "each word that is run has to be an order: let no way lead to another word, or state by AT which words a cell has that is run, in this row and in those that lead to it",
    ),
    (
        "BadPort",
        "INP names an input register of the machine, and OUT an output register; /2001 is octal, and 2001 decimal",
    ),
    (
        "FixedWrite",
        "a store goes to an erasable cell, 0000 to 3777: mend the address, or allow fewer words of a cell that is run",
    ),
    (
        "MayOverflow",
        "with these words the order overflows: narrow A in the row, or the cell by AT or CELL, or name the place by MAY",
    ),
    (
        "CellRange",
        "what is stored has to lie within the CELL line: widen that, or narrow A in the row (Q for STQ)",
    ),
    (
        "OutputRange",
        "what is given has to lie within the OUT line of the register: widen that, or narrow A in the row",
    ),
    (
        "NotCovered",
        "a row at NEXT has to hold all that this order leaves, where X and V here are from before it: in A, Q, X, V and the cells of its AT lines, and its LINK; bin/ags-explain tells what is left",
    ),
];

/// What such a kind wants.
fn item_or(otherwise: &'static str, kind: &str) -> &'static str
    ensures { result.now ≡ hint.wanted_by hint.items otherwise.now kind.now }
{
    wanted_by(&ITEMS, otherwise, kind)
}

/// Of an item of the verdict that fails.
pub(crate) fn verdict(kind: &str) -> &'static str
    ensures { result.now ≡ hint.wanted_in hint.verdict kind.now }
{
    item_or("docs/CHECKER.md, The verdict, has the kinds", kind)
}

/// Of what comes of an edit: it isn't made (docs/EDITS.md, What an edit does), or an item of the verdict fails, or the verdict is
/// certified, and then an edit before it wasn't made.
const EDIT: [Hint; 4] = [
    (
        "NoRow",
        "the r of ROW r is the number of a row of the certificate, counted from 1",
    ),
    (
        "OutsideGlobal",
        "each AT line of the new row is within its cell's limit, as the certificate and the edits before it say",
    ),
    (
        "BelowUse",
        "a new limit of a cell holds each word that the INIT line and the AT lines of all rows state of the cell",
    ),
    (
        "FullLocation",
        "at most 512 rows stand at one location, the new one among them",
    ),
];

/// What such a kind wants.
pub(crate) fn edit(kind: &str) -> &'static str
    ensures { result.now ≡ hint.wanted_in hint.edit kind.now }
{
    let otherwise = item_or(
        "an edit before this one isn't made: its line has NOTMADE",
        kind,
    );
    wanted_by(&EDIT, otherwise, kind)
}

//! Names, first words and operators.

ghost use Rattle.std.specs.Prelude.{◌≡◌, ◌≤◌, ◌∷◌, [], IfSome, unwrap_or, option_map, find};
ghost use Rattle.std.specs.List.{list_all, list_any};
ghost use Rattle.std.specs.Str.{bytes_eq};
ghost use Rattle.rex_parse.specs.Answers.{texts, rows};
ghost use Rattle.rex_parse.specs.Words as spec;
ghost use Rattle.rex_parse.specs.Table as table;
ghost use Rattle.rex_parse.specs.After as after;

use crate::language::Form;
use rex_syntax::expr::Operator;
use rex_syntax::service::{MOST_FIRST, NAME_BYTES, TURNS};
use rex_text::read_u64;

/// What stands beside a word in a table of words.
fn entry_of<T: Copy>(table: &[(&[u8], T)], word: &[u8]) -> Option<T>
    ensures { result ≡ option_map (λ e. e.1) (find (λ e. bytes_eq word.now e.0) (rows table.now)) }
{
    for (other, entry) in table {
        if word == *other {
            return Some(*entry);
        }
    }
    None
}

// The first words of lines, by their length.
const FORMS_OF_TWO: [(&[u8], Form); 2] = [(b"up", Form::Up), (b"if", Form::If)];

const FORMS_OF_THREE: [(&[u8], Form); 5] = [
    (b"sem", Form::Sem),
    (b"var", Form::Var),
    (b"try", Form::Try),
    (b"set", Form::Set),
    (b"let", Form::Let),
];

const FORMS_OF_FOUR: [(&[u8], Form); 6] = [
    (b"lock", Form::Lock),
    (b"cond", Form::Cond),
    (b"busy", Form::Busy),
    (b"wait", Form::Wait),
    (b"down", Form::Down),
    (b"else", Form::Else),
];

const FORMS_OF_FIVE: [(&[u8], Form); 5] = [
    (b"lanes", Form::Lanes),
    (b"share", Form::Share),
    (b"clock", Form::Clock),
    (b"endif", Form::EndIf),
    (b"reply", Form::Reply),
];

const FORMS_OF_SIX: [(&[u8], Form); 5] = [
    (b"rwlock", Form::RwLock),
    (b"endtry", Form::EndTry),
    (b"signal", Form::Signal),
    (b"random", Form::Random),
    (b"repeat", Form::Repeat),
];

const FORMS_OF_SEVEN: [(&[u8], Form); 3] = [
    (b"handler", Form::Handler),
    (b"acquire", Form::Acquire),
    (b"release", Form::Release),
];

const FORMS_OF_NINE: [(&[u8], Form); 2] = [
    (b"broadcast", Form::Broadcast),
    (b"endrepeat", Form::EndRepeat),
];

/// What the first word of a line says. It is compared with words of its length alone.
pub(crate) fn form_of(word: &[u8]) -> Option<Form>
    ensures { result ≡ table.form_of word.now }
{
    match word.len() {
        2 => entry_of(&FORMS_OF_TWO, word),
        3 => entry_of(&FORMS_OF_THREE, word),
        4 => entry_of(&FORMS_OF_FOUR, word),
        5 => entry_of(&FORMS_OF_FIVE, word),
        6 => entry_of(&FORMS_OF_SIX, word),
        7 => entry_of(&FORMS_OF_SEVEN, word),
        9 => entry_of(&FORMS_OF_NINE, word),
        _ => None,
    }
}

// The operators of two bytes.
const LONG_OPERATORS: [(&[u8], Operator); 4] = [
    (b"==", Operator::Equal),
    (b"!=", Operator::NotEqual),
    (b"<=", Operator::LessEqual),
    (b">=", Operator::GreaterEqual),
];

/// The operator that a word is.
pub(crate) fn operator_of(word: &[u8]) -> Option<Operator>
    ensures { result ≡ table.operator_of word.now }
{
    match word {
        [byte] => short_operator(*byte),
        _ => entry_of(&LONG_OPERATORS, word),
    }
}

// The operator that a single byte is.
fn short_operator(byte: u8) -> Option<Operator>
    ensures { result ≡ table.operator_of (byte ∷ []) }
{
    match byte {
        b'+' => Some(Operator::Add),
        b'-' => Some(Operator::Sub),
        b'*' => Some(Operator::Mul),
        b'/' => Some(Operator::Div),
        b'%' => Some(Operator::Rem),
        b'<' => Some(Operator::Less),
        b'>' => Some(Operator::Greater),
        _ => None,
    }
}

/// A letter, then letters, digits and `_`, not too many, and no word of the language.
#[tactic(auto, unfolding(crate::specs::Words::is_name))]
pub fn is_name(word: &[u8]) -> bool
    ensures { result ≡ spec.is_name word.now }
{
    let begins = begins_letter(word);
    let goes_on = has_name_bytes(word);
    let fits = word.len() <= NAME_BYTES;
    let is_reserved = is_reserved(word);
    begins && (goes_on && (fits && !is_reserved))
}

fn begins_letter(word: &[u8]) -> bool
    ensures { result ≡ spec.begins_letter word.now }
{
    match word {
        [] => false,
        [first, ..] => is_letter(*first),
    }
}

fn is_letter(byte: u8) -> bool
    ensures { result ≡ spec.is_letter byte }
{
    (65 <= byte && byte <= 90) || (97 <= byte && byte <= 122)
}

fn is_digit(byte: u8) -> bool
    ensures { result ≡ spec.is_digit byte }
{
    48 <= byte && byte <= 57
}

fn is_name_byte(byte: u8) -> bool
    ensures { result ≡ spec.is_name_byte byte }
{
    is_letter(byte) || (is_digit(byte) || byte == b'_')
}

// Every byte is looked at, so that a processor can look at several of them at once.
fn has_name_bytes(word: &[u8]) -> bool
    ensures { result ≡ list_all spec.is_name_byte word.now }
{
    let mut has_other = false;
    for byte in word {
        has_other |= !is_name_byte(*byte);
    }
    !has_other
}

/// Whether a word is one of the words of the language. It is compared with those of its length alone.
fn is_reserved(word: &[u8]) -> bool
    ensures { result ≡ spec.is_reserved word.now }
{
    match word.len() {
        2 => is_among(&RESERVED_OF_TWO, word),
        3 => is_among(&RESERVED_OF_THREE, word),
        4 => is_among(&RESERVED_OF_FOUR, word),
        5 => is_among(&RESERVED_OF_FIVE, word),
        6 => is_among(&RESERVED_OF_SIX, word),
        7 => is_among(&RESERVED_OF_SEVEN, word),
        9 => is_among(&RESERVED_OF_NINE, word),
        _ => false,
    }
}

/// Whether a word is one of these.
pub(crate) fn is_among(words: &[&[u8]], word: &[u8]) -> bool
    ensures { result ≡ list_any (λ w. bytes_eq w word.now) (texts words.now) }
{
    for other in words {
        if *other == word {
            return true;
        }
    }
    false
}

// The words of the language, by their length.
const RESERVED_OF_TWO: [&[u8]; 3] = [b"on", b"up", b"if"];

const RESERVED_OF_THREE: [&[u8]; 5] = [b"sem", b"var", b"try", b"set", b"let"];

const RESERVED_OF_FOUR: [&[u8]; 6] = [b"lock", b"cond", b"busy", b"wait", b"down", b"else"];

const RESERVED_OF_FIVE: [&[u8]; 6] = [b"lanes", b"share", b"while", b"clock", b"endif", b"reply"];

const RESERVED_OF_SIX: [&[u8]; 5] = [b"rwlock", b"endtry", b"signal", b"random", b"repeat"];

const RESERVED_OF_SEVEN: [&[u8]; 3] = [b"handler", b"acquire", b"release"];

const RESERVED_OF_NINE: [&[u8]; 2] = [b"broadcast", b"endrepeat"];

/// Whether a word begins as a number does.
pub(crate) fn begins_number(word: &[u8]) -> bool
    ensures { result ≡ table.begins_number word.now }
{
    match word {
        [] => false,
        [first, ..] => is_digit(*first) || *first == b'-',
    }
}

/// The number from `least` to `most` that a word spells.
pub(crate) fn count_of(least: u64, most: u64, word: &[u8]) -> Option<u64>
    ensures count { result ≡ table.count_of least most word.now }
    ensures within { IfSome result (λ count. count ≤ most) }
{
    match read_u64(word) {
        Some(count) if least <= count && count <= most => Some(count),
        _ => None,
    }
}

/// The first value that a word gives a semaphore.
pub(crate) fn first_of(word: &[u8]) -> u32
    ensures first { result ≡ after.first_of word.now }
    ensures few { result ≤ MOST_FIRST }
{
    match count_of(0, MOST_FIRST as u64, word) {
        None => 0,
        Some(first) => first as u32,
    }
}

/// How many turns a word asks for.
pub(crate) fn turns_of(word: &[u8]) -> u16
    ensures { result ≡ unwrap_or (table.count_of 1 TURNS word.now) 0 }
{
    match count_of(1, TURNS as u64, word) {
        None => 0,
        Some(turns) => turns as u16,
    }
}

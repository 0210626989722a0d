// What the bytes of typed rules are: bare ones, marks, digits, and the names of the twelve sets.
// Nothing here changes memory; a name is found by comparing a part of the text with each of them.
#![tactic(auto)]

ghost use Rattle.std.specs.Prelude.{◌≡◌, ◌<◌, ◌≤◌, MatchOption, ⊤, length};
ghost use Rattle.typed.specs.Spells.{bare, hex};
ghost use Rattle.typed.specs.Lines.{digit};
ghost use Rattle.typed.specs.Sets.{sets, named};
ghost use Rattle.typed.specs.Reader.{known as known_of};
ghost use Rattle.laid.specs.Tables.{set_at};
ghost use Rattle.names.specs.Bytes.{byte_at, starting, marking, found};
ghost use Rattle.names.specs.Names.{told};

// Kept beside lines::NEWLINE: this crate stands on none that prints.
pub const NEWLINE: u8 = 10;

// The names of the twelve sets, with the bracket that ends them.
const NAMES: [&[u8]; 12] = [
    b"alnum>", b"alpha>", b"blank>", b"cntrl>", b"digit>", b"graph>", b"lower>", b"print>",
    b"punct>", b"space>", b"upper>", b"xdigit>",
];

// What a part of a text is to the names: it begins none, it begins one, or it is that of a set, told by its number.
#[derive(Clone, Copy, PartialEq, Eq)]
pub enum Naming {
    Unknown,
    Begun,
    Whole(usize),
}

// The byte at a place; a newline past the end, where no expression goes on either.
#[tactic(auto, using(crate::specs::ByteLaws::byte_inside, crate::specs::ByteLaws::byte_past))]
pub fn byte_at(text: &[u8], at: usize) -> u8
    ensures { result ≡ byte_at text.now at }
{
    match text.get(at) {
        Some(c) => *c,
        None => NEWLINE,
    }
}

// A letter, a digit or a space, which stands for itself.
#[tactic(auto, using(crate::specs::ByteLaws::bare_digit, crate::specs::ByteLaws::bare_capital, crate::specs::ByteLaws::bare_small, crate::specs::ByteLaws::bare_space, crate::specs::ByteLaws::bare_no))]
pub fn is_bare(c: u8) -> bool
    ensures { result ≡ bare c }
{
    matches!(c, b' ' | b'0'..=b'9' | b'A'..=b'Z' | b'a'..=b'z')
}

// A byte that an atom begins with.
#[tactic(auto, using(crate::specs::ByteLaws::starting_round, crate::specs::ByteLaws::starting_angle, crate::specs::ByteLaws::starting_slash, crate::specs::ByteLaws::starting_dot, crate::specs::ByteLaws::starting_bare))]
pub fn begins_atom(c: u8) -> bool
    ensures { result ≡ starting c }
{
    match c {
        b'(' | b'<' | b'\\' | b'.' => true,
        _ => is_bare(c),
    }
}

// One of * + ?
#[tactic(auto, using(crate::specs::ByteLaws::marking_many, crate::specs::ByteLaws::marking_more, crate::specs::ByteLaws::marking_perhaps, crate::specs::ByteLaws::marking_no))]
pub fn is_mark(c: u8) -> bool
    ensures { result ≡ marking c }
{
    matches!(c, b'*' | b'+' | b'?')
}

// A hex digit's value, of either case.
#[tactic(auto, using(crate::specs::ByteLaws::hex_digit, crate::specs::ByteLaws::hex_capital, crate::specs::ByteLaws::hex_small, crate::specs::ByteLaws::hex_no))]
pub fn hex_of(c: u8) -> Option<u8>
    ensures value { result ≡ found (hex c) }
    ensures small { MatchOption result ⊤ (λ x. x < 16) }
{
    match c {
        b'0'..=b'9' => Some(c - 48),
        b'A'..=b'F' => Some(c - 55),
        b'a'..=b'f' => Some(c - 87),
        _ => None,
    }
}

// A decimal digit's value.
#[tactic(auto, using(crate::specs::ByteLaws::digit_yes, crate::specs::ByteLaws::digit_no))]
pub fn digit_of(c: u8) -> Option<usize>
    ensures value { result ≡ found (digit c) }
    ensures small { MatchOption result ⊤ (λ x. x < 10) }
{
    match c {
        b'0'..=b'9' => Some((c - 48) as usize),
        _ => None,
    }
}

fn name_of(k: usize) -> &'static [u8]
    requires { k < length sets }
    ensures { result.now ≡ named (set_at k) }
{
    NAMES[k]
}

// What a part of a text is to the names, of which the first that it begins counts.
pub fn known(part: &[u8]) -> Naming
    ensures { result ≡ told (known_of part.now sets) }
{
    for k in 0..NAMES.len() {
        let name = name_of(k);
        if name.starts_with(part) {
            if name.len() == part.len() {
                return Naming::Whole(k);
            }
            return Naming::Begun;
        }
    }
    Naming::Unknown
}

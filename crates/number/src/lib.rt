// Numbers in files, read and written, and the refusals that every call of the word cutter answers with.
// The reader takes any bytes and any place; the field test is the one that book and sheet readers share.
#![tactic(auto)]

ghost use Rattle.std.specs.Prelude.{◌≡◌, ℕ, ◌+◌, ◌<◌, ◌≤◌, length};
ghost use Rattle.number.specs.Limits.{three_groups};
ghost use Rattle.number.specs.Refused.{number, place};
ghost use Rattle.number.specs.Numbers.{several, taken, write_number};
ghost use Rattle.number.specs.Refused.Answer.{got};
ghost use Rattle.number.specs.Lists.{written};
ghost use Rattle.number.specs.Promises.{ReadsNumber, ReadsField};

pub mod limits;

use limits::{GROUP, TWO_GROUPS};

// Why an input is refused, and where. The paper gives Loaded, Room and Input no place of their own.
#[derive(Clone, Copy, PartialEq, Eq)]
pub enum Refusal {
    Short(usize),
    Number(usize),
    Range(usize),
    Stack(usize),
    Tail(usize),
    Long(usize),
    Pool(usize),
    States(usize),
    Runs(usize),
    Loaded,
    Room,
    Pairs(usize),
    Input,
    Typed(usize),
    Padded(usize),
}

// The answer of the number reader: the value and the place after it, or the refusal; and how many groups it read, be they refused or not.
#[derive(Clone, Copy)]
pub struct Grouped {
    pub taken: Result<(usize, usize), Refusal>,
    pub groups: usize,
}

// The paper's number of a refusal.
// Kept as two functions, this and the next: From would give one of the two numbers.
pub fn refusal_number(r: Refusal) -> usize
    ensures { result ≡ number r }
{
    match r {
        Refusal::Short(_) => 1,
        Refusal::Number(_) => 2,
        Refusal::Range(_) => 3,
        Refusal::Stack(_) => 4,
        Refusal::Tail(_) => 5,
        Refusal::Long(_) => 6,
        Refusal::Pool(_) => 7,
        Refusal::States(_) => 8,
        Refusal::Runs(_) => 9,
        Refusal::Loaded => 10,
        Refusal::Room => 11,
        Refusal::Pairs(_) => 12,
        Refusal::Input => 13,
        Refusal::Typed(_) => 14,
        Refusal::Padded(_) => 15,
    }
}

// The place of a refusal.
pub fn refusal_place(r: Refusal) -> usize
    ensures { result ≡ place r }
{
    match r {
        Refusal::Short(at)
        | Refusal::Number(at)
        | Refusal::Range(at)
        | Refusal::Stack(at)
        | Refusal::Tail(at)
        | Refusal::Long(at)
        | Refusal::Pool(at)
        | Refusal::States(at)
        | Refusal::Runs(at)
        | Refusal::Pairs(at)
        | Refusal::Typed(at)
        | Refusal::Padded(at) => at,
        Refusal::Loaded | Refusal::Room | Refusal::Input => 0,
    }
}

// The last of several groups is not 0: only the shortest form is read.
fn shortest(at: usize, last: usize, value: usize, next: usize) -> Result<(usize, usize), Refusal>
    ensures { taken result ≡ several at last (got value next) }
{
    if last == 0 {
        Err(Refusal::Padded(at))
    } else {
        Ok((value, next))
    }
}

// The number that starts at a place.
pub fn read_number(bytes: &[u8], at: usize) -> Grouped
    ensures { ReadsNumber bytes.now at result }
{
    let short = Err(Refusal::Short(at));
    if bytes.len() <= at {
        return Grouped {
            taken: short,
            groups: 0,
        };
    }
    let a = bytes[at] as usize;
    if a < GROUP {
        let taken = Ok((a, at + 1));
        return Grouped { taken, groups: 1 };
    }
    if bytes.len() - at <= 1 {
        return Grouped {
            taken: short,
            groups: 1,
        };
    }
    let b = bytes[at + 1] as usize;
    if b < GROUP {
        let taken = shortest(at, b, a % GROUP + GROUP * b, at + 2);
        return Grouped { taken, groups: 2 };
    }
    if bytes.len() - at <= 2 {
        return Grouped {
            taken: short,
            groups: 2,
        };
    }
    let c = bytes[at + 2] as usize;
    if c < GROUP {
        let value = a % GROUP + GROUP * (b % GROUP) + TWO_GROUPS * c;
        let taken = shortest(at, c, value, at + 3);
        return Grouped { taken, groups: 3 };
    }
    let taken = Err(Refusal::Number(at));
    Grouped { taken, groups: 3 }
}

// The number at a place and the place after it, if it lies within its field.
pub fn read_field(bytes: &[u8], at: usize, lo: usize, hi: usize) -> Result<(usize, usize), Refusal>
    ensures { ReadsField bytes.now lo hi at result }
{
    let read = read_number(bytes, at);
    let got = read.taken;
    // Document 01 names this form: the number reader's answer is taken apart by `let .. else`.
    let Ok((value, next)) = got else {
        return got;
    };
    if value < lo || hi < value {
        return Err(Refusal::Range(at));
    }
    Ok((value, next))
}

// How many bytes a number takes in a file.
pub fn number_width(n: usize) -> usize
    requires { n < three_groups }
    ensures { result ≡ length (write_number n) }
{
    if n < GROUP {
        return 1;
    }
    if n < TWO_GROUPS {
        return 2;
    }
    3
}

// The number's bytes go into `out` from `at` on; the answer is the place after them.
pub fn write_number(n: usize, out: &mut [u8], at: usize) -> usize
    requires n_lt_three_groups { n < three_groups }
    requires n_in_bounds { at + length (write_number n) ≤ length out.old }
    ensures value { result ≡ at + length (write_number n) }
    ensures out_after { out.new ≡ written out.old at (write_number n) }
{
    if n < GROUP {
        out[at] = n as u8;
        return at + 1;
    }
    out[at] = (GROUP + n % GROUP) as u8;
    if n < TWO_GROUPS {
        out[at + 1] = (n / GROUP) as u8;
        return at + 2;
    }
    out[at + 1] = (GROUP + n / GROUP % GROUP) as u8;
    out[at + 2] = (n / TWO_GROUPS) as u8;
    at + 3
}

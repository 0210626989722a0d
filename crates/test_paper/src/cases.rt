// Reading data/cases: a line's numbers, and areas of bytes.
// What is wrong in the file shows as a wrong line of output; nothing here goes past a line or an area.
ghost use Rattle.std.specs.Prelude.{◌≡◌, ◌<◌, ◌≤◌, IfSome, length};

// More than any area takes.
const STEPS: usize = 1000000;

// A value read, and where it ends.
#[derive(Clone, Copy)]
pub(crate) struct Got {
    pub(crate) value: usize,
    pub(crate) next: usize,
}

// A case: the letter that says what is called, and its numbers.
#[derive(Clone, Copy)]
pub(crate) struct Case {
    pub(crate) call: u8,
    pub(crate) first: usize,
    pub(crate) second: usize,
    pub(crate) third: usize,
}

// The first place of a byte from a place on, or the end.
pub(crate) fn find(text: &[u8], from: usize, byte: u8) -> usize
    ensures { result ≤ length text.now }
{
    for i in from..text.len() {
        if text[i] == byte {
            return i;
        }
    }
    text.len()
}

// The value of a digit, decimal or hexadecimal.
// Kept by hand: char::to_digit takes small letters too, which are no digits here.
fn digit(c: u8) -> Option<usize>
    ensures { IfSome result (λ d. d < 16) }
{
    match c {
        b'0'..=b'9' => Some((c - b'0') as usize),
        b'A'..=b'F' => Some((c - b'A') as usize + 10),
        _ => None,
    }
}

// A decimal number, and the place behind what ends it.
// Kept by hand: any byte ends it, its place is answered too, and a digit that would make it too large is passed over; parse takes a whole text.
fn number(line: &[u8], from: usize) -> Got {
    let mut value: usize = 0;
    for i in from..line.len() {
        match digit(line[i]) {
            Some(d) if d < 10 => {
                if value < 100000 {
                    value = 10 * value + d;
                }
            }
            _ => return Got { value, next: i + 1 },
        }
    }
    Got {
        value,
        next: line.len(),
    }
}

// What a line calls, and the numbers from a place on; a number that is not there is 0.
pub(crate) fn case_of(line: &[u8], call: u8, from: usize) -> Case {
    let first = number(line, from);
    let second = number(line, first.next);
    let third = number(line, second.next);
    Case {
        call,
        first: first.value,
        second: second.value,
        third: third.value,
    }
}

// Where the reading of an area stands: in the line, and behind the bytes so far; and how often the bytes in brackets
// are still to come, and where they start.
#[derive(Clone, Copy)]
struct Spot {
    next: usize,
    at: usize,
    times: usize,
    start: usize,
}

// A byte of two digits, the second of which is next, if there is room.
// Kept by hand: the digits come one after the other, and from_str_radix takes a text, with a sign and small letters too.
fn put(line: &[u8], spot: Spot, high: usize, area: &mut [u8]) -> usize
    requires { (high < 16) × (spot.at ≤ length area.old) }
    ensures { (result ≤ length area.new) × (length area.new ≡ length area.old) }
{
    let i = spot.next;
    let at = spot.at;
    if line.len() <= i {
        return at;
    }
    let Some(low) = digit(line[i]) else {
        return at;
    };
    if at == area.len() {
        return at;
    }
    area[at] = (16 * high + low) as u8;
    at + 1
}

// What a byte of the line says: a bracket, a byte's first digit, or nothing.
fn step(line: &[u8], c: u8, spot: Spot, area: &mut [u8]) -> Spot
    requires { (spot.next ≤ length line.now) × (spot.at ≤ length area.old) }
    ensures { (result.at ≤ length area.new) × (length area.new ≡ length area.old) }
{
    let mut after = spot;
    if c == b'(' {
        let times = number(line, spot.next);
        after.next = times.next;
        after.times = times.value;
        after.start = times.next;
        return after;
    }
    if c == b')' {
        if spot.times < 2 {
            return after;
        }
        after.next = spot.start;
        after.times = spot.times - 1;
        return after;
    }
    let Some(high) = digit(c) else {
        return after;
    };
    after.at = put(line, spot, high, area);
    after.next = spot.next + 1;
    after
}

// The next area, behind a slash: two hexadecimal digits a byte; a number and `x` say how many times the bytes behind
// them in brackets stand.
pub(crate) fn fill(line: &[u8], from: usize, area: &mut [u8]) -> Got
    ensures { result.value ≤ length area.new }
{
    let mut spot = Spot {
        next: find(line, from, b'/') + 1,
        at: 0,
        times: 0,
        start: 0,
    };
    for _ in 0..STEPS {
        let i = spot.next;
        if line.len() <= i {
            return Got {
                value: spot.at,
                next: i,
            };
        }
        let c = line[i];
        if c == b'/' {
            return Got {
                value: spot.at,
                next: i,
            };
        }
        spot.next = i + 1;
        spot = step(line, c, spot, area);
    }
    Got {
        value: spot.at,
        next: spot.next,
    }
}

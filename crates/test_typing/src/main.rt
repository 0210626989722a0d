// Types each stored text of rules and prints what came: the book in hex, or the refusal; and whether a byte changed that should not.
// Texts and expected output were made by the model in model/, which knows nothing of this code.
#![tactic(auto)]

ghost use Rattle.std.specs.Prelude.{◌≤◌, length};

use lines::LINE_ROOM;
use number::Refusal;
use number::limits::TYPED_AREA;

// Texts have numbers of three digits.
const NUMBERS: usize = 1000;

// The longest stored text is shorter.
const TEXT: usize = 2048;

// One area more than the call asks for, and what it holds before.
const AREA: usize = TYPED_AREA + 1;

const FILL: u8 = 170;

// A text that is not there fills the buffer.
fn read_text(rt: &HostRuntime, name: &[u8], buffer: &mut [u8]) -> usize
    ensures { result ≤ length buffer.new }
{
    files::read_named(rt, name, buffer)
}

// digit, say, say_refused and say_byte stand in test_cases too: each test program stands alone and prints by its own few lines.
// Kept by hand: char::from_digit answers an Option of a char, where a name takes bytes.
fn digit(n: usize) -> u8 {
    (48 + n % 10) as u8
}

fn say(rt: &HostRuntime, text: &[u8]) {
    files::print(rt, text);
}

fn say_refused(rt: &HostRuntime, r: Refusal) {
    let mut out = [0u8; LINE_ROOM];
    let end = lines::put_refused(r, &mut out, 0);
    say(rt, &out[0..end]);
}

fn say_byte(rt: &HostRuntime, byte: u8) {
    let _ = print!(rt; "{byte:02x}");
}

fn say_book(rt: &HostRuntime, book: &[u8]) {
    say(rt, b"book ");
    for byte in book {
        say_byte(rt, *byte);
    }
    say(rt, b"\n");
}

// Says so if a byte of a part is not as it was.
fn say_changed(rt: &HostRuntime, part: &[u8]) {
    if part.iter().any(|byte| *byte != FILL) {
        say(rt, b"changed\n");
    }
}

// A text typed into an area.
fn type_into(rt: &HostRuntime, text: &[u8], area: &mut [u8]) {
    match typing::type_rules(text, area) {
        Ok(n) => {
            if n <= area.len() {
                say_book(rt, &area[..n]);
                say_changed(rt, &area[n..]);
            }
        }
        Err(r) => {
            say_refused(rt, r);
            say_changed(rt, area);
        }
    }
}

// The same into the first bytes of an area of our own.
fn type_case(rt: &HostRuntime, text: &[u8], length: usize) {
    let mut area = [FILL; AREA];
    if length <= AREA {
        type_into(rt, text, &mut area[0..length]);
    }
}

// Runs a case, and answers whether there was one.
fn run_case(rt: &HostRuntime, k: usize, length: usize) -> bool {
    let a = digit(k / 100);
    let b = digit(k / 10);
    let c = digit(k);
    let mut text = [0u8; TEXT];
    let n = read_text(
        rt,
        &[b't', a, b, c, b'.', b'r', b'u', b'l', b'e', b's'],
        &mut text,
    );
    if n == TEXT {
        return false;
    }
    say(rt, &[b't', a, b, c, b' ']);
    type_case(rt, &text[0..n], length);
    true
}

// All texts, and the first with other areas; the first number without a text ends the run.
fn main(rt: HostRuntime) {
    run_case(&rt, 0, 0);
    run_case(&rt, 0, TYPED_AREA - 1);
    run_case(&rt, 0, AREA);
    for k in 0..NUMBERS {
        if !run_case(&rt, k, TYPED_AREA) {
            return;
        }
    }
}

// How the bytes of a buffer come in or go out: what the system answered to one call, and how far a transfer has come by its answers.
// On numbers alone, without any call: specs/Answers.antt says what each answer means, specs/Main.antt what a row of answers comes to.
#![tactic(auto)]

ghost use Rattle.std.specs.Prelude.{◌≤◌, ◌≡◌};
ghost use Rattle.transfer.specs.Answers.{answer_of, go_on, taken_of, is_all};

// The number of the error of a call that a signal interrupted.
pub const EINTR: i32 = 4;

// So often a read or a write of one file is tried again where a signal interrupted it; since a loop must end, the next interruption is a failure.
pub const INTERRUPTIONS: u32 = 1_000_000;

// What one call came to: it moved so many bytes, there were none to move, a signal came first, or it failed.
// Kept as an enum: the theorem `the_answers` tells its four ways one by one, and a Result has two.
#[derive(Clone, Copy)]
pub enum Answer {
    Moved(usize),
    Nothing,
    Interrupted,
    Faulted,
}

// How far a transfer has come: so many bytes have been moved and so many interruptions may still come; or it is over, with the whole buffer
// moved, or with so many bytes, fewer than the buffer has, after which there were no more; or it failed.
// Kept as an enum: the theorems `the_transfers` and `the_whole_file` tell these four ways apart.
#[derive(Clone, Copy)]
pub enum Transfer {
    Going(usize, u32),
    All,
    Ended(usize),
    Failed,
}

// What a call answered, and the number of its error, which is looked at only where it answered less than 0.
pub fn answer_of(got: isize, error: i32) -> Answer
    ensures { result ≡ answer_of got error }
{
    match usize::try_from(got) {
        Ok(0) => Answer::Nothing,
        Ok(count) => Answer::Moved(count),
        Err(_) if error == EINTR => Answer::Interrupted,
        Err(_) => Answer::Faulted,
    }
}

// How far a transfer has come by one more answer. The buffer has so much room, and so much of it has been moved.
pub fn go_on(room: usize, at: usize, left: u32, answer: Answer) -> Transfer
    requires { at ≤ room }
    ensures { result ≡ go_on room at left answer }
{
    match answer {
        Answer::Moved(count) => {
            if count < room - at {
                return Transfer::Going(at + count, left);
            }
            Transfer::All
        }
        Answer::Nothing => Transfer::Ended(at),
        Answer::Interrupted => {
            if left == 0 {
                return Transfer::Failed;
            }
            Transfer::Going(at, left - 1)
        }
        Answer::Faulted => Transfer::Failed,
    }
}

// The bytes that a reader hands on: those of a file that was read to its end, and else as many as the buffer has room for.
pub fn taken(room: usize, transfer: Transfer) -> usize
    ensures { result ≡ taken_of room transfer }
{
    match transfer {
        Transfer::Ended(count) => count,
        _ => room,
    }
}

// Whether a writer has written all of its bytes.
pub fn is_all(transfer: Transfer) -> bool
    ensures { result ≡ is_all transfer }
{
    matches!(transfer, Transfer::All)
}

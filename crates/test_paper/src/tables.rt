// Tables in lent memory: read from sheets and written to them, into areas that are large enough, too small or too large.
// A sheet that is to be written back is written from the table that was read.
use crate::say;

// One label and 256 targets more than a table has, and more bytes than a case has written.
const LABELS: usize = 256;

const TARGETS: usize = 65536;

const OUT: usize = 2048;

// Kept beside test_cases::say_same: each test program stands alone and prints by its own few lines, here with other words.
fn tell_same(rt: &HostRuntime, sheet: &[u8], out: &[u8]) {
    if sheet == out {
        say::text(rt, b"the same\n");
    } else {
        say::text(rt, b"others\n");
    }
}

fn tell_back<'a>(
    rt: &HostRuntime,
    sheet: &[u8],
    count: usize,
    labels: &'a [u8],
    targets: &'a [u8],
) {
    let mut out = [0u8; OUT];
    say::counted(rt, count, b" states ");
    match writing::write_sheet(count, labels, targets, &mut out) {
        Ok(end) => {
            say::counted(rt, end, b" bytes ");
            if end <= OUT {
                tell_same(rt, sheet, &out[0..end]);
            }
        }
        Err(r) => say::refused(rt, r),
    }
}

fn load(rt: &HostRuntime, sheet: &[u8], labels: &mut [u8], targets: &mut [u8], back: bool) {
    match loading::load(sheet, labels, targets) {
        Ok(s) => {
            if back {
                tell_back(rt, sheet, s, labels, targets);
            } else {
                say::counted(rt, s, b" states\n");
            }
        }
        Err(r) => {
            if back {
                say::text(rt, b"refused\n");
            } else {
                say::refused(rt, r);
            }
        }
    }
}

// Into areas of so many labels and targets.
pub(crate) fn tell_load(rt: &HostRuntime, sheet: &[u8], few: usize, many: usize, back: bool) {
    let mut labels = [0u8; LABELS];
    let mut targets = crate::large_room();
    if LABELS < few {
        return;
    }
    if TARGETS < many {
        return;
    }
    load(rt, sheet, &mut labels[0..few], &mut targets[0..many], back);
}

// Into an area of so many bytes.
pub(crate) fn tell_write<'a>(
    rt: &HostRuntime,
    count: usize,
    labels: &'a [u8],
    targets: &'a [u8],
    most: usize,
) {
    let mut out = [0u8; OUT];
    if OUT < most {
        return;
    }
    match writing::write_sheet(count, labels, targets, &mut out[0..most]) {
        Ok(end) => say::counted(rt, end, b" bytes\n"),
        Err(r) => say::refused(rt, r),
    }
}
